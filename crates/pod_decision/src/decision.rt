ghost use Rattle.std.specs.Prelude.{ℕ, ◌≡◌, Some, true, IfOk, IfSome};
ghost use Rattle.cluster.specs.Claims.{known_of};
ghost use Rattle.cluster.specs.Held.{held};
ghost use Rattle.counter_sets.specs.Holding.{AreHeld};
ghost use Rattle.allocations.specs.Claims.{joined, keys_of_pod};
ghost use Rattle.pool_totals.specs.Drawn.{AreDrawn};
ghost use Rattle.cluster.specs.declared.state.State as stateful;
ghost use Rattle.allocations.specs.Lacking as lacking;
ghost use Rattle.node_memo.specs.Memo.{Tells, TellsOf};
ghost use Rattle.engine_ports.specs.Decisions.{IsDecision};
ghost use Rattle.pod_decision.specs.Memory.{Remembers};
ghost use Rattle.plan_rules.specs.Idle.{is_idle_pod};
ghost use Rattle.pod_decision.specs.Parts.{decision_by, plan_by, unready};
ghost use Rattle.plan_rules.specs.Plans.{IsIdle, MaySearch};

use crate::claims::{granted, known_claims, unready};
use crate::nodes::{Taken, node_names, try_nodes};
use crate::tries::NodeTries;
use allocations::{keys_of_pod, unsat_is_true};
use api_cluster::Pod;
use cluster::{Known, PassedBuilder, PassedNodes, Plan, PodState, Reason, State, Verdict};
use counter_sets::{Held, SharedTotals};
use dra_values::Seq;
use engine_ports::Decision;
use node_inputs::wanted_claims;
use node_memo::{Dates, LackingNodes, Memo};
use object_fields::Key;
use std::alloc::{AllocError, Global};

/// Decides on a pod that is there and Idle.
///
/// The verdict names the first of its claims that is missing, or else the first that has as many users
/// as it may have, the pod not among them. Otherwise the nodes are tried in the order of their names:
/// the plan takes the first node on which a search finds an allocation and which has the grants of the
/// claims that the pod joins; if there is none, the verdict has the cause of each node.
///
/// `holders` are the devices that the state's claims hold, and `totals` what these draw, of which a search copies those
/// of the node's pools. `at` is how many entries were in the history whose state this is, and `budget` how many items of
/// a node's walk a search may look at. `AllocError` is returned only if memory runs out.
pub fn decide(
    alloc: Global,
    state: &State,
    holders: &Held,
    totals: &SharedTotals,
    pod: &Key,
    at: u64,
    budget: u64,
) -> Result<Decision, AllocError>
    requires idle { is_idle_pod state.now pod.now ≡ true }
    requires holders { AreHeld holders.now (held state.now) }
    requires totals { AreDrawn state.now.inventory (held state.now) totals.now }
    ensures { IfOk result (IsDecision state.now pod.now budget at) }
{
    match state.pods.get(pod) {
        Some(found) => decide_for(alloc, state, holders, totals, pod, found, at, budget),
        None => unreachable!(),
    }
}

/// Decides on a pod as `decide` does, with a memo of nodes that have no allocation: nodes that are known for claims that
/// ask for the same, within this budget, aren't searched, and those that are found to have none are kept. `dates` say
/// since when a node that is known may be relied on.
///
/// If all nodes are known, no slice is looked at. `AllocError` is returned only if memory runs out.
pub fn decide_with(
    alloc: Global,
    state: &State,
    holders: &Held,
    totals: &SharedTotals,
    pod: &Key,
    at: u64,
    budget: u64,
    dates: &Dates,
    memo: &mut Memo,
) -> Result<Decision, AllocError>
    requires idle { is_idle_pod state.now pod.now ≡ true }
    requires holders { AreHeld holders.now (held state.now) }
    requires totals { AreDrawn state.now.inventory (held state.now) totals.now }
    requires memo { Tells state.now dates.now memo.old at }
    ensures decision { IfOk result (IsDecision state.now pod.now budget at) }
    ensures memo { Tells state.now dates.now memo.new at }
{
    match state.pods.get(pod) {
        Some(found) => decide_known(
            alloc, state, holders, totals, pod, found, at, budget, dates, memo,
        ),
        None => unreachable!(),
    }
}

fn decide_for(
    alloc: Global,
    state: &State,
    holders: &Held,
    totals: &SharedTotals,
    key: &Key,
    pod: &PodState,
    at: u64,
    budget: u64,
) -> Result<Decision, AllocError>
    requires idle { IsIdle state.now key.now pod.now }
    requires holders { AreHeld holders.now (held state.now) }
    requires totals { AreDrawn state.now.inventory (held state.now) totals.now }
    ensures { IfOk result (IsDecision state.now key.now budget at) }
{
    let claims = keys_of_pod(alloc, &pod.pod.object)?;
    match unready(alloc, state, key, claims.as_slice())? {
        Some(reason) => Ok(Decision::Judge(Verdict { at, reason })),
        None => {
            let dates = Dates::new(alloc)?;
            let object = &pod.pod.object;
            let mut tries = NodeTries::of(state, object, holders, totals, budget, &dates, at, None);
            decide_among(alloc, state, key, pod, claims.as_slice(), at, &mut tries)
        }
    }
}

fn decide_known(
    alloc: Global,
    state: &State,
    holders: &Held,
    totals: &SharedTotals,
    key: &Key,
    pod: &PodState,
    at: u64,
    budget: u64,
    dates: &Dates,
    memo: &mut Memo,
) -> Result<Decision, AllocError>
    requires idle { IsIdle state.now key.now pod.now }
    requires holders { AreHeld holders.now (held state.now) }
    requires totals { AreDrawn state.now.inventory (held state.now) totals.now }
    requires memo { Tells state.now dates.now memo.old at }
    ensures decision { IfOk result (IsDecision state.now key.now budget at) }
    ensures memo { Tells state.now dates.now memo.new at }
{
    let claims = keys_of_pod(alloc, &pod.pod.object)?;
    match unready(alloc, state, key, claims.as_slice())? {
        Some(reason) => Ok(Decision::Judge(Verdict { at, reason })),
        None => decide_by_memo(
            alloc,
            state,
            holders,
            totals,
            key,
            pod,
            claims.as_slice(),
            at,
            budget,
            dates,
            memo,
        ),
    }
}

/// Decides on a pod whose claims are there and have room for it, with what the memo has for claims that ask for the same.
fn decide_by_memo(
    alloc: Global,
    state: &State,
    holders: &Held,
    totals: &SharedTotals,
    key: &Key,
    pod: &PodState,
    claims: &[Key],
    at: u64,
    budget: u64,
    dates: &Dates,
    memo: &mut Memo,
) -> Result<Decision, AllocError>
    requires holders { AreHeld holders.now (held state.now) }
    requires totals { AreDrawn state.now.inventory (held state.now) totals.now }
    requires may_search { MaySearch state.now key.now pod.now }
    requires claims { claims.now ≡ keys_of_pod pod.now.pod.object }
    requires memo { Tells state.now dates.now memo.old at }
    ensures decision { IfOk result (IsDecision state.now key.now budget at) }
    ensures memo { Tells state.now dates.now memo.new at }
{
    let object = &pod.pod.object;
    let nodes = take_nodes(alloc, state, object, budget, memo)?;
    let nodes = Some(nodes);
    let mut tries = NodeTries::of(state, object, holders, totals, budget, dates, at, nodes);
    let decision = decide_among(alloc, state, key, pod, claims, at, &mut tries)?;
    put_nodes(memo, tries.into_nodes())?;
    Ok(decision)
}

/// Takes out of a memo what is known of nodes for the claims of a pod, within a budget.
fn take_nodes(
    alloc: Global,
    state: &State,
    pod: &Pod,
    budget: u64,
    memo: &mut Memo,
) -> Result<LackingNodes, AllocError>
    ensures nodes { IfOk result (λ nodes. (d : lacking.Dates) (at : ℕ) → Tells state.now d memo.old at → Remembers state.now pod.now budget d at (Some nodes)) }
    ensures memo { (d : lacking.Dates) (at : ℕ) → Tells state.now d memo.old at → Tells state.now d memo.new at }
{
    let claims = wanted_claims(alloc, state, pod)?;
    memo.take(alloc, &claims, budget)
}

/// Puts back what is known of nodes.
fn put_nodes(memo: &mut Memo, nodes: Option<LackingNodes>) -> Result<(), AllocError>
    ensures { (s : stateful.State) (d : lacking.Dates) (at : ℕ) → Tells s d memo.old at → IfSome nodes (λ n. TellsOf s d n at) → Tells s d memo.new at }
{
    match nodes {
        None => Ok(()),
        Some(nodes) => memo.put(nodes),
    }
}

/// Decides on a pod whose claims are there and have room for it.
#[tactic(auto, unfolding(allocations::specs::Claims::joined))]
fn decide_among(
    alloc: Global,
    state: &State,
    key: &Key,
    pod: &PodState,
    claims: &[Key],
    at: u64,
    tries: &mut NodeTries,
) -> Result<Decision, AllocError>
    requires state { tries.old.state ≡ state.now }
    requires pod { tries.old.pod ≡ pod.now.pod.object }
    requires may_search { MaySearch state.now key.now pod.now }
    requires claims { claims.now ≡ keys_of_pod pod.now.pod.object }
    ensures decision { IfOk result (IsDecision state.now key.now tries.old.budget at) }
    ensures same { tries.new ≡ tries.old }
{
    unsat_is_true();
    state.inventory.nodes().in_order();
    let joins = granted(alloc, state, claims)?;
    let names = node_names(alloc, state)?;
    let mut passed = PassedBuilder::new(alloc, names.share()?);
    let taken = try_nodes(
        alloc,
        joins.as_slice(),
        tries,
        names.as_slice(),
        &mut passed,
    )?;
    let passed = passed.finish();
    decision_by(alloc, state, pod, claims, at, passed, taken)
}

fn decision_by(
    alloc: Global,
    state: &State,
    pod: &PodState,
    claims: &[Key],
    at: u64,
    passed: PassedNodes,
    taken: Option<Taken>,
) -> Result<Decision, AllocError>
    requires { claims.now ≡ keys_of_pod pod.now.pod.object }
    ensures { IfOk result (λ decision. decision ≡ decision_by state.now pod.now at passed taken) }
{
    match taken {
        None => Ok(Decision::Judge(Verdict {
            at,
            reason: Reason::Nodes(passed),
        })),
        Some(taken) => Ok(Decision::Reserve(plan_by(
            alloc, state, pod, claims, at, passed, taken,
        )?)),
    }
}

/// The plan that takes a node.
fn plan_by(
    alloc: Global,
    state: &State,
    pod: &PodState,
    claims: &[Key],
    at: u64,
    passed: PassedNodes,
    taken: Taken,
) -> Result<Plan, AllocError>
    requires { claims.now ≡ keys_of_pod pod.now.pod.object }
    ensures { IfOk result (λ plan. plan ≡ plan_by state.now pod.now at passed taken) }
{
    let (joins, known) = joins_and_known(alloc, state, pod, claims)?;
    Ok(Plan {
        at,
        node: taken.node,
        passed,
        grants: taken.grants,
        joins,
        known,
    })
}

/// The claims that the pod joins, and what a plan knows of the pod and its claims.
#[tactic(auto, unfolding(allocations::specs::Claims::joined, cluster::specs::Claims::known_of))]
fn joins_and_known(
    alloc: Global,
    state: &State,
    pod: &PodState,
    claims: &[Key],
) -> Result<(Seq<Key>, Known), AllocError>
    requires { claims.now ≡ keys_of_pod pod.now.pod.object }
    ensures joins { IfOk result (λ both. both.0 ≡ joined state.now pod.now.pod.object) }
    ensures known { IfOk result (λ both. both.1 ≡ known_of state.now pod.now) }
{
    let joins = granted(alloc, state, claims)?;
    let known = known_claims(alloc, state, claims)?;
    Ok((
        joins,
        Known {
            pod: pod.pod.uid,
            claims: known,
        },
    ))
}
