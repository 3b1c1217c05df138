ghost use Rattle.std.specs.Prelude.{ℕ, ◌≡◌, ◌≤◌, ◌<◌, [], Some, true, IfOk, OnOk, nat_le, option_map, slice_get, vec_len};
ghost use Rattle.std.specs.List.{list_all};
ghost use Rattle.api_claim.specs.declared.types.ResourceClaim.{ResourceClaim};
ghost use Rattle.api_cluster.specs.declared.types.Pod.{Pod};
ghost use Rattle.pool_view.specs.declared.names.PoolName.{PoolName};
ghost use Rattle.pool_view.specs.Usable.{node_devices};
ghost use Rattle.request_rules.specs.Growth.{specs_of};
ghost use Rattle.request_rules.specs.Lists.{Each};
ghost use Rattle.cluster.specs.declared.state.State.{State};
ghost use Rattle.walk.specs.Outcome.{Unsat};
ghost use Rattle.allocations.specs.Claims.{wanted};
ghost use Rattle.allocations.specs.Input.{outcome_on};
ghost use Rattle.allocations.specs.Lacking as lacking;
ghost use Rattle.allocations.specs.Lacking.{IsLacking, freed_for};
ghost use Rattle.node_memo.specs.Memo.{AreWith, IsKnownAt, IsRowSince, TellsOf};

use crate::Dates;
use crate::pools::{NumberedPool, pools_of};
use crate::same::{ask_the_same, copies_of};
use allocations::lacking_is_found;
use api_claim::ResourceClaim;
use device_match::Verdicts;
use dra_values::{Seq, Text};
use pool_view::DeviceRef;
use request_rows::WantedClaim;
use shared_map::Place;
use std::alloc::{AllocError, Global};
use std::marker::Model;
use std::mem;

/// A node that had no allocation at an index of the history.
#[derive(Drop)]
pub struct LackingNode {
    pub node: Text,
    pub index: u64,
    /// The pools of the devices that it saw.
    pub pools: Seq<NumberedPool>,
    /// The place of each among the dates, where it had one.
    pub places: Vec<Place>,
}

/// The nodes that are known to have no allocation for claims that ask for the same, within one budget: by the position
/// of the node among all nodes, which is where a node is looked for.
#[derive(Drop)]
pub struct LackingNodes {
    claims: Vec<ResourceClaim>,
    budget: u64,
    rows: Vec<Option<LackingNode>>,
    /// What is remembered of selectors, while the list isn't in a memo.
    verdicts: Verdicts,
}

impl Model for LackingNodes {
    ghost use Rattle.request_rules.specs.Growth.{specs_of};
    ghost use Rattle.node_memo.specs.Memo.{NodesFields};

    ghost Value = { NodesFields };

    ghost view = { λ n. record { specs = specs_of n.claims.items; budget = n.budget; rows = n.rows.items } };
}

impl LackingNodes {
    /// None is known yet for these claims. `AllocError` only if memory runs out.
    pub fn of(
        alloc: Global,
        claims: &[WantedClaim],
        budget: u64,
    ) -> Result<LackingNodes, AllocError>
        ensures { IfOk result (λ nodes. nodes ≡ record { specs = specs_of claims.now; budget = budget; rows = [] }) }
    {
        Ok(LackingNodes {
            claims: copies_of(alloc, claims)?,
            budget,
            rows: Vec::new(alloc),
            verdicts: Verdicts::new(alloc),
        })
    }

    /// Exchanges what is remembered of selectors on devices, which contracts don't see.
    pub fn swap_verdicts(&mut self, verdicts: &mut Verdicts)
        ensures { self.new ≡ self.old }
    {
        mem::swap(&mut self.verdicts, verdicts);
    }

    /// Whether they are nodes for claims that ask for the same as these, within this budget. Allocates nothing.
    pub fn are_for(&self, claims: &[WantedClaim], budget: u64) -> bool
        ensures specs { result ≡ true → self.now.specs ≡ specs_of claims.now }
        ensures budget { result ≡ true → self.now.budget ≡ budget }
    {
        self.budget == budget && ask_the_same(claims, &self.claims)
    }

    /// Whether it is known that a node has no allocation in the state of these dates, after so many entries. The node is
    /// looked for at this position alone. Allocates nothing.
    pub fn has(&mut self, position: usize, node: &Text, dates: &Dates, at: u64) -> bool
        ensures unsat { result ≡ true → (s : State) (pod : Pod) → TellsOf s dates.now self.old at → specs_of (wanted s pod) ≡ self.old.specs → outcome_on s pod node.now self.old.budget ≡ Unsat }
        ensures tells { (s : State) → TellsOf s dates.now self.old at → TellsOf s dates.now self.new at }
        ensures specs { self.new.specs ≡ self.old.specs }
        ensures budget { self.new.budget ≡ self.old.budget }
    {
        lacking_is_found();
        if is_known(&self.rows, position, node, dates) {
            set_index(&mut self.rows, position, at);
            true
        } else {
            false
        }
    }

    /// Keeps that a node, which sees these devices, has no allocation after so many entries, in place of what was known
    /// at its position. `AllocError` only if memory runs out.
    pub fn keep(
        &mut self,
        alloc: Global,
        position: usize,
        node: &Text,
        devices: &[DeviceRef],
        dates: &Dates,
        at: u64,
    ) -> Result<(), AllocError>
        ensures tells { (s : State) (d : lacking.Dates) → devices.now ≡ node_devices s.inventory node.now → IsLacking s d (record { specs = self.old.specs; budget = self.old.budget; node = node.now; index = at }) → TellsOf s d self.old at → TellsOf s d self.new at }
        ensures specs { self.new.specs ≡ self.old.specs }
        ensures budget { self.new.budget ≡ self.old.budget }
    {
        let pools = pools_of(alloc, devices)?;
        let places = places_of(alloc, pools.as_slice(), dates)?;
        let row = LackingNode {
            node: node.copy(alloc)?,
            index: at,
            pools,
            places,
        };
        put_row(&mut self.rows, position, row)
    }
}

/// The place of each pool among dates; any place if it has none.
fn places_of(
    alloc: Global,
    pools: &[NumberedPool],
    dates: &Dates,
) -> Result<Vec<Place>, AllocError> {
    let mut places = Vec::with_capacity(alloc, pools.len())?;
    for pool in pools {
        places.push(dates.place(pool.pool()))?;
    }
    Ok(places)
}

/// The place at a position; any place if there is none.
fn place_at(places: &[Place], position: usize) -> Place {
    match places.get(position) {
        None => Place::first(),
        Some(place) => *place,
    }
}

/// Whether no pool of these has an index greater than this one. `places` says where to look.
fn are_since(pools: &[NumberedPool], places: &[Place], dates: &Dates, index: u64) -> bool
    ensures { result ≡ list_all (λ p. nat_le (freed_for dates.now p) index) pools.now }
{
    for position in 0..pools.len() {
        if !dates.is_up_to(&pools[position], place_at(places, position), index) {
            return false;
        }
    }
    true
}

/// Whether nothing that a row depends on has changed since its index.
fn is_row_since(row: &LackingNode, dates: &Dates) -> bool
    ensures { result ≡ true → IsRowSince dates.now row.now }
{
    dates.objects() <= row.index && are_pools_since(row, dates)
}

fn are_pools_since(row: &LackingNode, dates: &Dates) -> bool
    ensures { result ≡ true → Each (λ p. freed_for dates.now p ≤ row.now.index) row.now.pools }
{
    dates.latest() <= row.index || are_since(row.pools.as_slice(), &row.places, dates, row.index)
}

/// Whether the row at a position is of the node, and nothing that it depends on has changed since its index.
fn is_known(rows: &[Option<LackingNode>], position: usize, node: &Text, dates: &Dates) -> bool
    ensures { result ≡ true → IsKnownAt rows.now position node.now dates.now }
{
    match rows.get(position) {
        Some(Some(row)) => row.node == *node && is_row_since(row, dates),
        Some(None) | None => false,
    }
}

/// Sets the index of the row at a position, if there is one.
fn set_index(rows: &mut Vec<Option<LackingNode>>, position: usize, index: u64)
    ensures { (row : LackingNode) → slice_get rows.old.items position ≡ Some (Some row) → AreWith rows.old.items rows.new.items (record row { index = index }) }
{
    if let Some(row) = rows.get_mut(position) {
        set_row_index(row, index);
    }
}

fn set_row_index(row: &mut Option<LackingNode>, index: u64)
    ensures { row.new ≡ option_map (λ (r : LackingNode). record r { index = index }) row.old }
{
    if let Some(row) = row {
        row.index = index;
    }
}

/// Makes rows without a node up to a position.
fn make_rows(rows: &mut Vec<Option<LackingNode>>, position: usize) -> Result<(), AllocError>
    ensures same { (i : ℕ) (r : LackingNode) → slice_get rows.new.items i ≡ Some (Some r) → slice_get rows.old.items i ≡ Some (Some r) }
    ensures room { OnOk result (position < vec_len rows.new) }
{
    while rows.len() <= position {
        rows.push(None)?;
    }
    Ok(())
}

/// Puts a row at a position, in place of the one there.
fn put_row(
    rows: &mut Vec<Option<LackingNode>>,
    position: usize,
    row: LackingNode,
) -> Result<(), AllocError>
    ensures { AreWith rows.old.items rows.new.items row }
{
    make_rows(rows, position)?;
    rows[position] = Some(row);
    Ok(())
}
