//! Whether the counters from which the devices of a pool draw are those of the pool.

ghost use Rattle.std.specs.Prelude.{◌≡◌, ◌++◌, ◌&&◌, [], IfOk, not, is_some, filter};
ghost use Rattle.std.specs.List.{list_all, list_any};
ghost use Rattle.pool_view.specs.Names.{at_name};
ghost use Rattle.pool_view.specs.Pools.{draws_are_there, has_twice, set_names, sets_of};
ghost use Rattle.pool_view.specs.Sets.{has_all_draws, has_draw, has_draws, named_with};
ghost use Rattle.pool_view.specs.Usable.{draws_any, is_counted};

use crate::names::NameRef;
use crate::set_ref::SetRef;
use crate::slice_ref::SliceRef;
use api_slice::{CounterConsumption, Device, ResourceSlice};
use dra_values::{Seq, Shared, Table};
use std::alloc::{AllocError, Global};

/// Counter sets by their names.
type NamedSets<'a> = Table<NameRef<'a>, SetRef<'a>>;

fn push_sets<'a>(sets: &mut Vec<SetRef<'a>>, slice: &'a ResourceSlice) -> Result<(), AllocError>
    ensures { IfOk result (λ _. sets.new.items ≡ sets.old.items ++ slice.now.counters) }
{
    for set in slice.counters.as_slice() {
        sets.push(SetRef::of(set))?;
    }
    Ok(())
}

/// The counter sets of slices.
fn sets_of<'a>(alloc: Global, slices: &[SliceRef<'a>]) -> Result<Vec<SetRef<'a>>, AllocError>
    ensures { IfOk result (λ sets. sets.items ≡ sets_of slices.now) }
{
    let mut sets = Vec::new(alloc);
    for slice in slices {
        push_sets(&mut sets, slice.get())?;
    }
    Ok(sets)
}

/// The sets by their names, or `None` if a name appears twice.
fn named<'a>(alloc: Global, sets: Vec<SetRef<'a>>) -> Result<Option<NamedSets<'a>>, AllocError>
    ensures { IfOk result (λ named. named ≡ named_with [] sets.entry.items) }
{
    let mut named = Table::new(alloc);
    for set in sets {
        let name = NameRef::of(&set.get().name);
        if named.contains_key(&name) {
            return Ok(None);
        }
        named.insert(name, set)?;
    }
    Ok(Some(named))
}

/// Whether a set has each counter that is drawn from it.
fn has_counters(set: &SetRef<'_>, consumption: &CounterConsumption) -> bool
    ensures { result ≡ list_all (λ e. is_some (at_name set.now.counters e.0)) consumption.now.amounts }
{
    for (name, _) in consumption.amounts.as_map() {
        if !set.get().counters.contains_key(name) {
            return false;
        }
    }
    true
}

fn has_draw<'a>(named: &NamedSets<'a>, consumption: &'a CounterConsumption) -> bool
    ensures { result ≡ has_draw named.now consumption.now }
{
    match named.get(&NameRef::of(&consumption.set)) {
        Some(set) => has_counters(set, consumption),
        None => false,
    }
}

fn has_draws<'a>(named: &NamedSets<'a>, device: &'a Device) -> bool
    ensures { result ≡ has_draws named.now device.now }
{
    for consumption in device.consumes.as_slice() {
        if !has_draw(named, consumption) {
            return false;
        }
    }
    true
}

fn has_all_draws<'a>(named: &NamedSets<'a>, slice: &'a ResourceSlice) -> bool
    ensures { result ≡ has_all_draws named.now slice.now }
{
    for device in slice.devices.as_slice() {
        if !has_draws(named, device) {
            return false;
        }
    }
    true
}

fn have_all_draws<'a>(named: &NamedSets<'a>, slices: &[SliceRef<'a>]) -> bool
    ensures { result ≡ list_all (has_all_draws named.now) slices.now }
{
    for slice in slices {
        if !has_all_draws(named, slice.get()) {
            return false;
        }
    }
    true
}

/// Whether no name of a counter set of the slices appears twice, and their devices draw from counters
/// that these sets have. Without sets and draws this allocates nothing.
#[tactic(auto, using(crate::proofs::NamedSets::named_drawn, crate::proofs::NamedSets::not_named))]
pub fn are_drawable(alloc: Global, slices: &[SliceRef<'_>]) -> Result<bool, AllocError>
    ensures { IfOk result (λ b. b ≡ (not (has_twice (set_names (sets_of slices.now))) && draws_are_there (sets_of slices.now) slices.now)) }
{
    match named(alloc, sets_of(alloc, slices)?)? {
        Some(named) => Ok(have_all_draws(&named, slices)),
        None => Ok(false),
    }
}

fn draws_any(devices: &[Device]) -> bool
    ensures { result ≡ list_any (λ d. draws_any d.consumes) devices.now }
{
    for device in devices {
        if !device.consumes.as_slice().is_empty() {
            return true;
        }
    }
    false
}

/// Whether a slice has counter sets, or one of its devices draws from some.
pub fn is_counted(slice: &ResourceSlice) -> bool
    ensures { result ≡ is_counted slice.now }
{
    !slice.counters.as_slice().is_empty() || draws_any(slice.devices.as_slice())
}

/// Those of the slices that have counter sets, or whose devices draw from some, shared.
pub fn counted_of(
    alloc: Global,
    slices: &[SliceRef<'_>],
) -> Result<Seq<Shared<ResourceSlice>>, AllocError>
    ensures { IfOk result (λ counted. counted ≡ filter is_counted slices.now) }
{
    let mut counted = Seq::empty(alloc);
    for slice in slices {
        if is_counted(slice.get()) {
            counted.push(slice.share()?)?;
        }
    }
    Ok(counted)
}
