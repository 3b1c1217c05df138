ghost use Rattle.std.specs.Prelude.{◌≡◌, List, Some, true, IfOk, IsSome};
ghost use Rattle.object_fields.specs.declared.key.DeviceId.{DeviceId};
ghost use Rattle.object_fields.specs.declared.key.Key.{Key};
ghost use Rattle.pool_view.specs.Names.{at_name};
ghost use Rattle.pool_view.specs.Usable.{node_devices};
ghost use Rattle.cluster.specs.Held.{held};
ghost use Rattle.counter_sets.specs.Holding.{AreHeld};
ghost use Rattle.allocations.specs.Claims.{wanted};
ghost use Rattle.allocations.specs.Input.{input_of};
ghost use Rattle.request_rules.specs.Apart.{AreApart};
ghost use Rattle.counter_sets.specs.Totals.{drawn_in, value_of};
ghost use Rattle.request_rows.specs.Wanted.{asking};
ghost use Rattle.allocator.specs.Answered.{answer_of};
ghost use Rattle.allocator.specs.Input.{with_counters};
ghost use Rattle.pool_totals.specs.Drawn.{AreDrawn};
ghost use Rattle.pod_decision.specs.Copied.{AreCopied, IsLikeBefore};

use allocator::{Outcome, search_devices};
use api_cluster::Pod;
use api_slice::ResourceSlice;
use cluster::State;
use counter_sets::{Held, SharedTotals, Totals};
use device_match::Verdicts;
use dra_values::{Seq, Text};
use full_nodes::{is_full, known_for};
use node_inputs::{devices_differ, wanted_claims};
use pool_view::{DeviceRef, KnownSlices, Pools};
use request_rows::Wants;
use request_rules::more_held_draw_more;
use std::alloc::{AllocError, Global};
use std::marker::Model;

/// What the searches of all nodes for one pod share: the pools, the claims that need devices, and the
/// devices that claims hold. Contracts see the state and the claims.
#[derive(Drop)]
pub struct PodSearch<'a> {
    state: &'a State,
    pools: Pools<'a>,
    wants: Wants<'a>,
    holders: &'a Held,
    /// What the inventory knows of the selectors of the claims' requests, if each of these is exclusive.
    known: Option<Seq<KnownSlices<'a>>>,
}

impl<'a> Model for PodSearch<'a> {
    ghost use Rattle.pod_decision.specs.Searches.{IsSearch, SearchFields};

    ghost Value = { SearchFields };

    ghost view = { λ s. record { state = s.state.now; claims = s.wants.claims } };

    ghost invariant = { λ s. IsSearch s.state.now s.pools s.wants.classes s.wants.claims s.holders.now s.known };
}

impl<'a> PodSearch<'a> {
    /// What the searches for a pod share, in a state and with the devices that its claims hold: one
    /// pass over its slices. The claims that need devices are those of the pod that are there and have
    /// no grant, each at its first occurrence. `AllocError` only if memory runs out.
    pub fn of(
        alloc: Global,
        state: &'a State,
        holders: &'a Held,
        pod: &Pod,
    ) -> Result<PodSearch<'a>, AllocError>
        requires { AreHeld holders.now (held state.now) }
        ensures { IfOk result (λ s. s ≡ record { state = state.now; claims = wanted state.now pod.now }) }
    {
        let pools = Pools::of(alloc, &state.inventory)?;
        let claims = wanted_claims(alloc, state, pod)?;
        let known = known_for(alloc, state, &claims)?;
        let wants = Wants {
            claims,
            classes: &state.classes,
        };
        Ok(PodSearch {
            state,
            pools,
            wants,
            holders,
            known,
        })
    }

    /// The devices that a node of the state sees. `AllocError` only if memory runs out.
    pub(crate) fn devices(
        &self,
        alloc: Global,
        node: &Text,
    ) -> Result<Vec<DeviceRef<'_>>, AllocError>
        requires { IsSome (at_name self.now.state.inventory.nodes node.now) }
        ensures { IfOk result (λ devices. devices.items ≡ node_devices self.now.state.inventory node.now) }
    {
        self.pools.devices(alloc, node)
    }

    /// Searches a node of the state for the least allocation of the claims, within a budget of so many
    /// items of the node's walk.
    ///
    /// The result is exactly that of the walk within the budget: the least allocation as a grant for
    /// each claim, a selector error that comes before each allocation, that there is neither, or that the
    /// budget is spent before one of these is known. The totals have what the held devices draw; a search copies those
    /// of the pools that the node sees. If each request of the claims is exclusive, all of the node's
    /// devices are held, and the inventory knows that no selector has an evaluation error on them, nothing is
    /// matched. `verdicts` remember what selectors evaluate to on devices. `AllocError` only if memory runs out.
    pub fn outcome(
        &self,
        alloc: Global,
        node: &Text,
        totals: &SharedTotals,
        budget: u64,
        verdicts: &mut Verdicts,
    ) -> Result<Outcome, AllocError>
        requires there { IsSome (at_name self.now.state.inventory.nodes node.now) }
        requires drawn { AreDrawn self.now.state.inventory (held self.now.state) totals.now }
        ensures found { IfOk result (λ found. answer_of (input_of self.now.state self.now.claims node.now) budget ≡ Some found) }
    {
        let devices = self.devices(alloc, node)?;
        self.outcome_over(alloc, node, &devices, totals, budget, verdicts)
    }

    /// The same, where it is known which devices the node sees.
    pub(crate) fn outcome_over(
        &self,
        alloc: Global,
        node: &Text,
        devices: &[DeviceRef],
        totals: &SharedTotals,
        budget: u64,
        verdicts: &mut Verdicts,
    ) -> Result<Outcome, AllocError>
        requires there { IsSome (at_name self.now.state.inventory.nodes node.now) }
        requires devices { devices.now ≡ node_devices self.now.state.inventory node.now }
        requires drawn { AreDrawn self.now.state.inventory (held self.now.state) totals.now }
        ensures found { IfOk result (λ found. answer_of (input_of self.now.state self.now.claims node.now) budget ≡ Some found) }
    {
        devices_differ(&self.state.inventory, node);
        if budget > 0 && is_full(&self.known, devices, self.holders) {
            return Ok(Outcome::Unsat);
        }
        let broken = self.pools.has_broken(node);
        search_among(
            alloc,
            devices,
            broken,
            &self.wants,
            self.holders,
            totals,
            budget,
            verdicts,
        )
    }
}

/// Whether two slices are of one pool.
fn are_one_pool(first: &ResourceSlice, second: &ResourceSlice) -> bool
    ensures driver { result ≡ true → first.now.driver ≡ second.now.driver }
    ensures pool { result ≡ true → first.now.pool.name ≡ second.now.pool.name }
{
    first.pool.name == second.pool.name && first.driver.as_text() == second.driver.as_text()
}

/// Whether the device at a position is of the same pool as the one before it.
fn is_like_before(devices: &[DeviceRef], position: usize) -> bool
    ensures { result ≡ true → IsLikeBefore devices.now position }
{
    if position == 0 || position >= devices.len() {
        return false;
    }
    are_one_pool(devices[position - 1].slice(), devices[position].slice())
}

/// The counters of the devices' pools, with what is drawn from them.
fn own_totals(
    alloc: Global,
    totals: &SharedTotals,
    devices: &[DeviceRef],
) -> Result<Totals, AllocError>
    ensures { IfOk result (λ own. AreCopied devices.now totals.now own) }
{
    let mut own = Totals::new(alloc);
    for position in 0..devices.len() {
        if !is_like_before(devices, position) {
            own.copy_pool(devices[position].slice(), totals, alloc)?;
        }
    }
    Ok(own)
}

/// Searches the devices of a node, with the counters of their pools.
fn search_among(
    alloc: Global,
    devices: &[DeviceRef],
    broken: bool,
    wants: &Wants,
    holders: &Held,
    totals: &SharedTotals,
    budget: u64,
    verdicts: &mut Verdicts,
) -> Result<Outcome, AllocError>
    requires { AreApart devices.now }
    ensures answer { IfOk result (λ found. (pairs : List (DeviceId × Key)) → AreHeld holders.now pairs → answer_of (with_counters (asking wants.now devices.now broken) pairs (value_of totals.now) (drawn_in totals.now)) budget ≡ Some found) }
{
    more_held_draw_more();
    let mut own = own_totals(alloc, totals, devices)?;
    search_devices(
        alloc, devices, broken, wants, holders, &mut own, budget, verdicts,
    )
}
