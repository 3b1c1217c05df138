ghost use Rattle.std.specs.Prelude.{ℕ, ◌≡◌, None, Some, true, IfOk, IfSome, IsSome};
ghost use Rattle.api_cluster.specs.declared.types.Pod.{Pod};
ghost use Rattle.pool_view.specs.Names.{at_name};
ghost use Rattle.pool_view.specs.Usable.{node_devices};
ghost use Rattle.walk.specs.Outcome.{Unsat};
ghost use Rattle.request_rules.specs.Growth.{specs_of};
ghost use Rattle.cluster.specs.declared.state.State.{State};
ghost use Rattle.cluster.specs.Held.{held};
ghost use Rattle.counter_sets.specs.Holding.{AreHeld};
ghost use Rattle.allocations.specs.Claims.{wanted};
ghost use Rattle.allocations.specs.Input.{input_of, outcome_on};
ghost use Rattle.allocations.specs.Lacking as lacking;
ghost use Rattle.allocator.specs.Answered.{answer_of};
ghost use Rattle.pool_totals.specs.Drawn.{AreDrawn};
ghost use Rattle.node_memo.specs.Memo.{TellsOf};
ghost use Rattle.pod_decision.specs.Memory.{IsMade, Remembers};

use crate::search::PodSearch;
use allocations::lacking_is_found;
use allocator::Outcome;
use api_cluster::Pod;
use cluster::State;
use counter_sets::{Held, SharedTotals};
use device_match::Verdicts;
use dra_values::Text;
use node_memo::{Dates, LackingNodes};
use pool_view::DeviceRef;
use std::alloc::{AllocError, Global};
use std::marker::Model;

/// What nodes are tried with for a pod: what is known of nodes without an allocation, if something is kept of that, and
/// a search, which is made only if a node is searched. Contracts see what it is for.
#[derive(Drop)]
pub struct NodeTries<'a> {
    state: &'a State,
    pod: &'a Pod,
    holders: &'a Held,
    totals: &'a SharedTotals,
    budget: u64,
    dates: &'a Dates,
    at: u64,
    nodes: Option<LackingNodes>,
    search: Option<PodSearch<'a>>,
}

impl<'a> Model for NodeTries<'a> {
    ghost use Rattle.pod_decision.specs.Memory.{AreTries, TriesFields};

    ghost Value = { TriesFields };

    ghost view = { λ t. record { state = t.state.now; pod = t.pod.now; budget = t.budget; dates = t.dates.now; at = t.at } };

    ghost invariant = { λ t. AreTries t.state.now t.pod.now t.holders.now t.totals.now t.budget t.dates.now t.at t.nodes t.search };
}

impl<'a> NodeTries<'a> {
    /// Of a pod, in a state with the devices that its claims hold, what these draw, and its dates, after so many entries;
    /// with what is known of nodes, if something is. Allocates nothing.
    pub fn of(
        state: &'a State,
        pod: &'a Pod,
        holders: &'a Held,
        totals: &'a SharedTotals,
        budget: u64,
        dates: &'a Dates,
        at: u64,
        nodes: Option<LackingNodes>,
    ) -> NodeTries<'a>
        requires holders { AreHeld holders.now (held state.now) }
        requires totals { AreDrawn state.now.inventory (held state.now) totals.now }
        requires nodes { Remembers state.now pod.now budget dates.now at nodes }
        ensures { result ≡ record { state = state.now; pod = pod.now; budget = budget; dates = dates.now; at = at } }
    {
        NodeTries {
            state,
            pod,
            holders,
            totals,
            budget,
            dates,
            at,
            nodes,
            search: None,
        }
    }

    /// The state.
    pub fn state(&self) -> &'a State
        ensures { result.now ≡ self.now.state }
    {
        self.state
    }

    /// How many items of a node's walk a search may look at.
    pub fn budget(&self) -> u64
        ensures { result ≡ self.now.budget }
    {
        self.budget
    }

    /// Whether it is known that a node has no allocation, by what is kept at this position. Allocates nothing.
    pub fn has(&mut self, position: usize, node: &Text) -> bool
        ensures lacks { result ≡ true → outcome_on self.old.state self.old.pod node.now self.old.budget ≡ Unsat }
        ensures same { self.new ≡ self.old }
    {
        has(&mut self.nodes, position, node, self.dates, self.at)
    }

    /// Searches a node of the state, and keeps at this position if it has no allocation. `AllocError` only if memory runs
    /// out.
    pub fn outcome(
        &mut self,
        alloc: Global,
        position: usize,
        node: &Text,
    ) -> Result<Outcome, AllocError>
        requires { IsSome (at_name self.old.state.inventory.nodes node.now) }
        ensures found { IfOk result (λ found. answer_of (input_of self.old.state (wanted self.old.state self.old.pod) node.now) self.old.budget ≡ Some found) }
        ensures same { self.new ≡ self.old }
    {
        let search = self.search.take();
        let search = search_for(alloc, search, self.state, self.pod, self.holders)?;
        let outcome = search_node(
            alloc,
            &search,
            self.totals,
            &mut self.nodes,
            position,
            node,
            self.budget,
            self.dates,
            self.at,
        )?;
        self.search = Some(search);
        Ok(outcome)
    }

    /// What is known of nodes now.
    pub fn into_nodes(self) -> Option<LackingNodes>
        ensures { IfSome result (λ nodes. TellsOf self.entry.state self.entry.dates nodes self.entry.at) }
    {
        self.nodes
    }
}

fn has(
    nodes: &mut Option<LackingNodes>,
    position: usize,
    node: &Text,
    dates: &Dates,
    at: u64,
) -> bool
    ensures lacks { result ≡ true → (s : State) (pod : Pod) (budget : ℕ) → Remembers s pod budget dates.now at nodes.old → outcome_on s pod node.now budget ≡ Unsat }
    ensures stays { (s : State) (pod : Pod) (budget : ℕ) → Remembers s pod budget dates.now at nodes.old → Remembers s pod budget dates.now at nodes.new }
{
    match nodes {
        None => false,
        Some(nodes) => nodes.has(position, node, dates, at),
    }
}

/// The search that was made, or else one that is made now.
fn search_for<'a>(
    alloc: Global,
    search: Option<PodSearch<'a>>,
    state: &'a State,
    pod: &Pod,
    holders: &'a Held,
) -> Result<PodSearch<'a>, AllocError>
    requires holders { AreHeld holders.now (held state.now) }
    requires search { IfSome search (IsMade state.now (wanted state.now pod.now)) }
    ensures { IfOk result (IsMade state.now (wanted state.now pod.now)) }
{
    match search {
        Some(search) => Ok(search),
        None => PodSearch::of(alloc, state, holders, pod),
    }
}

/// Searches a node, and keeps at a position if it has no allocation.
fn search_node(
    alloc: Global,
    search: &PodSearch,
    totals: &SharedTotals,
    nodes: &mut Option<LackingNodes>,
    position: usize,
    node: &Text,
    budget: u64,
    dates: &Dates,
    at: u64,
) -> Result<Outcome, AllocError>
    requires there { IsSome (at_name search.now.state.inventory.nodes node.now) }
    requires drawn { AreDrawn search.now.state.inventory (held search.now.state) totals.now }
    ensures found { IfOk result (λ found. answer_of (input_of search.now.state search.now.claims node.now) budget ≡ Some found) }
    ensures nodes { (pod : Pod) (d : lacking.Dates) → search.now.claims ≡ wanted search.now.state pod → Remembers search.now.state pod budget d at nodes.old → Remembers search.now.state pod budget d at nodes.new }
{
    let devices = search.devices(alloc, node)?;
    match outcome_of(alloc, search, totals, nodes, node, &devices, budget)? {
        Outcome::Unsat => {
            keep(alloc, nodes, search, position, node, &devices, dates, at)?;
            Ok(Outcome::Unsat)
        }
        Outcome::Found(grants) => Ok(Outcome::Found(grants)),
        Outcome::Fault(fault) => Ok(Outcome::Fault(fault)),
        Outcome::Budget => Ok(Outcome::Budget),
    }
}

/// Searches a node, which sees these devices, with what is remembered of selectors, if something is kept of nodes.
fn outcome_of(
    alloc: Global,
    search: &PodSearch,
    totals: &SharedTotals,
    nodes: &mut Option<LackingNodes>,
    node: &Text,
    devices: &[DeviceRef],
    budget: u64,
) -> Result<Outcome, AllocError>
    requires there { IsSome (at_name search.now.state.inventory.nodes node.now) }
    requires devices { devices.now ≡ node_devices search.now.state.inventory node.now }
    requires drawn { AreDrawn search.now.state.inventory (held search.now.state) totals.now }
    ensures found { IfOk result (λ found. answer_of (input_of search.now.state search.now.claims node.now) budget ≡ Some found) }
    ensures nodes { nodes.new ≡ nodes.old }
{
    let mut verdicts = Verdicts::forgetful(alloc);
    swap_verdicts(nodes, &mut verdicts);
    let outcome = search.outcome_over(alloc, node, devices, totals, budget, &mut verdicts)?;
    swap_verdicts(nodes, &mut verdicts);
    Ok(outcome)
}

/// Exchanges what is remembered of selectors, if something is kept of nodes.
fn swap_verdicts(nodes: &mut Option<LackingNodes>, verdicts: &mut Verdicts)
    ensures { nodes.new ≡ nodes.old }
{
    if let Some(nodes) = nodes {
        nodes.swap_verdicts(verdicts);
    }
}

/// Keeps at a position that a node, which sees these devices, has no allocation, if something is kept of nodes.
fn keep(
    alloc: Global,
    nodes: &mut Option<LackingNodes>,
    search: &PodSearch,
    position: usize,
    node: &Text,
    devices: &[DeviceRef],
    dates: &Dates,
    at: u64,
) -> Result<(), AllocError>
    requires { devices.now ≡ node_devices search.now.state.inventory node.now }
    ensures { (pod : Pod) (budget : ℕ) (d : lacking.Dates) → search.now.claims ≡ wanted search.now.state pod → outcome_on search.now.state pod node.now budget ≡ Unsat → Remembers search.now.state pod budget d at nodes.old → Remembers search.now.state pod budget d at nodes.new }
{
    lacking_is_found();
    match nodes {
        None => Ok(()),
        Some(nodes) => nodes.keep(alloc, position, node, devices, dates, at),
    }
}
