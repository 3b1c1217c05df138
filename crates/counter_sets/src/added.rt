//! Counters of a slice, with nothing drawn yet.

ghost use Rattle.std.specs.Prelude.{◌≡◌, ◌∷◌, [], IfOk, OnOk, OnErr};
ghost use Rattle.pool_view.specs.Names.{at_name};
ghost use Rattle.counter_sets.specs.Totals as spec;

use crate::counter::{Counter, DriverCounters, PoolCounters, SetCounters};
use api_slice::{CounterSet, ResourceSlice};
use dra_values::{Seq, Table, Text};
use quantity::Quantity;
use std::alloc::{AllocError, Global};

/// A set, and the counters that it gets.
#[derive(Drop)]
pub struct GrownSet {
    pub name: Text,
    pub counters: SetCounters,
}

fn add_counter(
    counters: &mut SetCounters,
    name: &Text,
    value: Quantity,
    alloc: Global,
) -> Result<(), AllocError>
    ensures { IfOk result (λ _. counters.new ≡ spec.with_counters ((name.now, value) ∷ []) counters.old) }
{
    if counters.contains_key(name) {
        return Ok(());
    }
    counters.insert(name.copy(alloc)?, Counter { value, drawn: 0 })
}

/// The counters of a set that exist, or none.
fn copied(sets: &PoolCounters, name: &Text, alloc: Global) -> Result<SetCounters, AllocError>
    ensures { IfOk result (λ t. t ≡ spec.or_empty (at_name sets.now name.now)) }
{
    match sets.get(name) {
        Some(counters) => counters.copy(alloc),
        None => Ok(Table::new(alloc)),
    }
}

/// The counters of a set and those that are kept of it already, with nothing drawn from the new ones.
fn grown_counters(
    sets: &PoolCounters,
    set: &CounterSet,
    alloc: Global,
) -> Result<SetCounters, AllocError>
    ensures { IfOk result (λ t. t ≡ spec.with_counters set.now.counters (spec.or_empty (at_name sets.now set.now.name))) }
{
    let mut counters = copied(sets, &set.name, alloc)?;
    for (name, value) in set.counters.as_map() {
        add_counter(&mut counters, name, *value, alloc)?;
    }
    Ok(counters)
}

fn grown_set(sets: &PoolCounters, set: &CounterSet, alloc: Global) -> Result<GrownSet, AllocError>
    ensures { IfOk result (λ grown. grown ≡ spec.grown_set sets.now set.now) }
{
    let counters = grown_counters(sets, set, alloc)?;
    let name = set.name.copy(alloc)?;
    Ok(GrownSet { name, counters })
}

fn grown_sets(
    sets: &PoolCounters,
    added: &[CounterSet],
    alloc: Global,
) -> Result<Seq<GrownSet>, AllocError>
    ensures { IfOk result (λ grown. grown ≡ spec.grown_sets added.now sets.now) }
{
    let mut grown = Seq::with_capacity(alloc, added.len())?;
    for set in added {
        grown.push(grown_set(sets, set, alloc)?)?;
    }
    Ok(grown)
}

/// Adds a set without counters, if it doesn't exist, and its name to those that were added.
fn add_set(
    sets: &mut PoolCounters,
    names: &mut Seq<Text>,
    name: &Text,
    alloc: Global,
) -> Result<(), AllocError>
    ensures ok { OnOk result (sets.new ≡ spec.with_set name.now sets.old) }
    ensures back { spec.without_sets names.new sets.new ≡ spec.without_sets names.old sets.old }
{
    if sets.contains_key(name) {
        return Ok(());
    }
    let key = name.copy(alloc)?;
    let added = name.copy(alloc)?;
    names.push(added)?;
    sets.insert(key, Table::new(alloc))
}

fn add_each(
    sets: &mut PoolCounters,
    names: &mut Seq<Text>,
    grown: &[GrownSet],
    alloc: Global,
) -> Result<(), AllocError>
    ensures ok { OnOk result (sets.new ≡ spec.with_room grown.now sets.old) }
    ensures back { spec.without_sets names.new sets.new ≡ spec.without_sets names.old sets.old }
{
    for set in grown {
        add_set(sets, names, &set.name, alloc)?;
    }
    Ok(())
}

/// Removes the sets of these names, from the last to the first.
#[tactic(auto, using(crate::proofs::Room::none_popped))]
fn take_back(sets: &mut PoolCounters, names: Seq<Text>)
    ensures { sets.new ≡ spec.without_sets names sets.old }
{
    let mut names = names.into_vec();
    while let Some(name) = names.pop() {
        sets.remove(&name);
    }
}

/// Adds those of the sets that don't exist, without counters.
fn make_room(sets: &mut PoolCounters, grown: &[GrownSet], alloc: Global) -> Result<(), AllocError>
    ensures ok { OnOk result (sets.new ≡ spec.with_room grown.now sets.old) }
    ensures err { OnErr result (sets.new ≡ sets.old) }
{
    let mut names = Seq::empty(alloc);
    match add_each(sets, &mut names, grown, alloc) {
        Ok(()) => Ok(()),
        Err(error) => {
            take_back(sets, names);
            Err(error)
        }
    }
}

fn put_set(sets: &mut PoolCounters, set: GrownSet)
    ensures { sets.new ≡ spec.changed_at set.name (λ counters. set.counters) sets.old }
{
    if let Some(counters) = sets.get_mut(&set.name) {
        *counters = set.counters;
    }
}

/// Puts sets that exist, from the last to the first.
#[tactic(auto, using(crate::proofs::Room::none_grown))]
fn put_sets(sets: &mut PoolCounters, grown: Seq<GrownSet>)
    ensures { sets.new ≡ spec.with_grown grown sets.old }
{
    let mut grown = grown.into_vec();
    while let Some(set) = grown.pop() {
        put_set(sets, set);
    }
}

fn add_sets(sets: &mut PoolCounters, added: &[CounterSet], alloc: Global) -> Result<(), AllocError>
    ensures ok { OnOk result (sets.new ≡ spec.with_sets added.now sets.old) }
    ensures err { OnErr result (sets.new ≡ sets.old) }
{
    let grown = grown_sets(sets, added, alloc)?;
    make_room(sets, grown.as_slice(), alloc)?;
    put_sets(sets, grown);
    Ok(())
}

#[tactic(auto, using(std::proofs::lemmas::Map::Steps::set_value_same))]
fn add_to_pool(
    pools: &mut DriverCounters,
    pool: &Text,
    added: &[CounterSet],
    alloc: Global,
) -> Result<(), AllocError>
    ensures ok { OnOk result (pools.new ≡ spec.pools_with pool.now added.now pools.old) }
    ensures err { OnErr result (pools.new ≡ pools.old) }
{
    if let Some(sets) = pools.get_mut(pool) {
        return add_sets(sets, added, alloc);
    }
    let name = pool.copy(alloc)?;
    let mut sets = Table::new(alloc);
    add_sets(&mut sets, added, alloc)?;
    pools.insert(name, sets)
}

/// Adds these sets to those of a pool.
#[tactic(auto, using(std::proofs::lemmas::Map::Steps::set_value_same))]
fn add_to_driver(
    drivers: &mut Table<Text, DriverCounters>,
    driver: &Text,
    pool: &Text,
    added: &[CounterSet],
    alloc: Global,
) -> Result<(), AllocError>
    ensures ok { OnOk result (drivers.new ≡ spec.put_in driver.now (λ pools. spec.pools_with pool.now added.now pools) drivers.old) }
    ensures err { OnErr result (drivers.new ≡ drivers.old) }
{
    if let Some(pools) = drivers.get_mut(driver) {
        return add_to_pool(pools, pool, added, alloc);
    }
    let name = driver.copy(alloc)?;
    let mut pools = Table::new(alloc);
    add_to_pool(&mut pools, pool, added, alloc)?;
    drivers.insert(name, pools)
}

/// Adds the counters of a slice that aren't kept yet, with nothing drawn.
#[tactic(auto, unfolding(crate::specs::Totals::with_slice))]
pub fn add_slice(
    drivers: &mut Table<Text, DriverCounters>,
    slice: &ResourceSlice,
    alloc: Global,
) -> Result<(), AllocError>
    ensures ok { OnOk result (drivers.new ≡ spec.with_slice slice.now drivers.old) }
    ensures err { OnErr result (drivers.new ≡ drivers.old) }
{
    let driver = slice.driver.as_text();
    add_to_driver(
        drivers,
        driver,
        &slice.pool.name,
        slice.counters.as_slice(),
        alloc,
    )
}
