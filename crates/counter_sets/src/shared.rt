ghost use Rattle.std.specs.Prelude.{◌≡◌, ◌+◌, ◌-◌, ◌≤◌, [], None, false, true, min, option_map, option_copied, IfOk, IfSome, OnOk, OnErr, if◌then◌else◌};
ghost use Rattle.std.specs.BTreeMap.{insert_entry};
ghost use Rattle.pool_view.specs.Names.{at_name, text_cmp};
ghost use Rattle.request_rules.specs.Draws.{CounterId, counter_for, drawn_from, first_short, is_covered, is_of_pool};
ghost use Rattle.counter_sets.specs.Totals as spec;
ghost use Rattle.counter_sets.specs.Totals.{drawn_in, keeps, value_of};

use crate::change::{Change, move_sets};
use crate::counter::PoolCounters;
use crate::short::{Shortage, first_short, missing_from};
use crate::totals::Totals;
use api_slice::{CounterConsumption, ResourceSlice};
use dra_values::{Shared, Table, Text};
use pool_view::DeviceRef;
use shared_map::{NoValue, SharedMap};
use std::alloc::{AllocError, Global};
use std::marker::Model;

type Pools = SharedMap<Text, Shared<PoolCounters>>;

type Drivers = SharedMap<Text, Pools>;

/// The counters of pools, and how much is drawn from each, whose copies share the pools that are equal in them.
///
/// Clauses see the same of them as of `Totals`: the value of each counter (`value_of`), and how much is drawn from it
/// (`drawn_in`). A change while copies are alive copies the counters of one pool.
#[derive(Drop)]
pub struct SharedTotals {
    drivers: Drivers,
}

impl Model for SharedTotals {
    ghost use Rattle.counter_sets.specs.Totals.{KeptCounters};

    ghost Value = { KeptCounters };

    ghost view = { λ t. t.drivers };
}

impl SharedTotals {
    /// The totals of no counters. `AllocError` is returned only if memory runs out.
    #[tactic(auto, unfolding(crate::specs::Totals::value_of, crate::specs::Totals::drawn_in))]
    pub fn new(alloc: Global) -> Result<SharedTotals, AllocError>
        ensures none { IfOk result (λ totals. (c : CounterId) → value_of totals c ≡ None) }
        ensures zero { IfOk result (λ totals. (c : CounterId) → drawn_in totals c ≡ 0) }
    {
        Ok(SharedTotals {
            drivers: SharedMap::new(alloc)?,
        })
    }

    /// Equal totals. Both share all of it, and nothing is allocated. `AllocError` is returned only if the count of
    /// copies is full, at 2^63 - 1.
    pub fn share(&self) -> Result<SharedTotals, AllocError>
        ensures { IfOk result (λ copy. copy ≡ self.now) }
    {
        Ok(SharedTotals {
            drivers: self.drivers.share()?,
        })
    }

    /// The counters of the slice's pool, if there are some.
    pub(crate) fn pool_of(&self, slice: &ResourceSlice) -> Option<&PoolCounters>
        ensures { option_copied result ≡ at_name (spec.or_empty (at_name self.now slice.now.driver)) slice.now.pool.name }
    {
        pool_of(&self.drivers, slice)
    }

    /// Draws what a device draws that a claim holds, also if its counters, which are there, don't cover it. What is
    /// drawn must stay below 2^128. `AllocError` is returned only if memory runs out, and then nothing changes.
    pub fn hold(&mut self, device: &DeviceRef<'_>, alloc: Global) -> Result<(), AllocError>
        requires kept { (c : CounterId) → keeps self.old c ≡ false → drawn_from c device.now ≡ 0 }
        requires fits { (c : CounterId) → drawn_in self.old c + drawn_from c device.now ≤ spec.sum_most }
        ensures drawn { OnOk result ((c : CounterId) → drawn_in self.new c ≡ drawn_in self.old c + drawn_from c device.now) }
        ensures value { OnOk result ((c : CounterId) → value_of self.new c ≡ value_of self.old c) }
        ensures err { OnErr result (self.new ≡ self.old) }
    {
        self.change(Change::Draw, device, alloc)
    }

    /// Draws what a covered device draws. `AllocError` is returned only if memory runs out, and then nothing changes.
    pub fn draw(&mut self, device: &DeviceRef<'_>, alloc: Global) -> Result<(), AllocError>
        requires covered { is_covered (value_of self.old) (drawn_in self.old) device.now ≡ true }
        ensures drawn { OnOk result ((c : CounterId) → drawn_in self.new c ≡ drawn_in self.old c + drawn_from c device.now) }
        ensures value { OnOk result ((c : CounterId) → value_of self.new c ≡ value_of self.old c) }
        ensures err { OnErr result (self.new ≡ self.old) }
    {
        self.change(Change::Draw, device, alloc)
    }

    /// Subtracts what a device drew. `AllocError` is returned only if memory runs out, and then nothing changes.
    pub fn give_back(&mut self, device: &DeviceRef<'_>, alloc: Global) -> Result<(), AllocError>
        ensures drawn { OnOk result ((c : CounterId) → drawn_in self.new c ≡ drawn_in self.old c - drawn_from c device.now) }
        ensures value { OnOk result ((c : CounterId) → value_of self.new c ≡ value_of self.old c) }
        ensures err { OnErr result (self.new ≡ self.old) }
    {
        self.change(Change::Return, device, alloc)
    }

    fn change(
        &mut self,
        change: Change,
        device: &DeviceRef<'_>,
        alloc: Global,
    ) -> Result<(), AllocError>
        ensures ok { OnOk result (self.new ≡ spec.moved_by change device.now self.old) }
        ensures err { OnErr result (self.new ≡ self.old) }
    {
        let slice = device.slice();
        let driver = slice.driver.as_text();
        let consumes = device.device().consumes.as_slice();
        move_driver(
            &mut self.drivers,
            change,
            driver,
            &slice.pool.name,
            consumes,
            alloc,
        )
    }

    /// The first counter, in the order of the device's list and then of the names' bytes, that
    /// doesn't have enough for what the device draws from it; `None` if and only if the device is covered.
    /// Allocates nothing.
    pub fn first_short<'a>(&self, device: &DeviceRef<'a>) -> Option<Shortage<'a>>
        ensures counter { option_map (λ s. counter_for device.now.slice s.set.now s.counter.now) result ≡ option_map (λ d. d.counter) (first_short (value_of self.now) (drawn_in self.now) device.now) }
        ensures drawn { IfSome result (λ s. s.drawn ≡ min (drawn_in self.now (counter_for device.now.slice s.set.now s.counter.now) + drawn_from (counter_for device.now.slice s.set.now s.counter.now) device.now) spec.sum_most) }
        ensures value { IfSome result (λ s. s.value ≡ value_of self.now (counter_for device.now.slice s.set.now s.counter.now)) }
    {
        let sets = self.pool_of(device.slice());
        match first_short(sets, device) {
            None => None,
            Some(names) => Some(missing_from(sets, device, names.0, names.1)),
        }
    }

    /// Puts the counters that other totals have of a slice's pool in place of its own, with what is drawn from them.
    /// `AllocError` is returned only if memory runs out, and then nothing changes.
    pub fn put_pool(
        &mut self,
        slice: &ResourceSlice,
        from: Totals,
        alloc: Global,
    ) -> Result<(), AllocError>
        ensures value { OnOk result ((c : CounterId) → value_of self.new c ≡ (if is_of_pool slice.now c then value_of from c else value_of self.old c)) }
        ensures drawn { OnOk result ((c : CounterId) → drawn_in self.new c ≡ (if is_of_pool slice.now c then drawn_in from c else drawn_in self.old c)) }
        ensures err { OnErr result (self.new ≡ self.old) }
    {
        let sets = from.into_pool(slice, alloc);
        if sets.is_empty() {
            return self.empty_pool(slice, alloc);
        }
        let sets = Shared::new(alloc, sets)?;
        self.put_sets(slice, sets, alloc)
    }

    fn empty_pool(&mut self, slice: &ResourceSlice, alloc: Global) -> Result<(), AllocError>
        ensures ok { OnOk result (self.new ≡ spec.emptied slice.now self.old) }
        ensures err { OnErr result (self.new ≡ self.old) }
    {
        let driver = slice.driver.as_text();
        empty_driver(&mut self.drivers, driver, &slice.pool.name, alloc)
    }

    #[tactic(auto, unfolding(crate::specs::Totals::with_pool))]
    fn put_sets(
        &mut self,
        slice: &ResourceSlice,
        sets: Shared<PoolCounters>,
        alloc: Global,
    ) -> Result<(), AllocError>
        ensures ok { OnOk result (self.new ≡ spec.with_pool slice.now sets self.old) }
        ensures err { OnErr result (self.new ≡ self.old) }
    {
        let driver = slice.driver.as_text();
        put_driver(&mut self.drivers, driver, &slice.pool.name, sets, alloc)
    }
}

fn find_sets<'a>(pools: &'a Pools, pool: &Text) -> Option<&'a PoolCounters>
    ensures { option_copied result ≡ at_name pools.now pool.now }
{
    match pools.get(pool) {
        None => None,
        Some(sets) => Some(sets.value()),
    }
}

fn find_pool<'a>(drivers: &'a Drivers, driver: &Text, pool: &Text) -> Option<&'a PoolCounters>
    ensures { option_copied result ≡ at_name (spec.or_empty (at_name drivers.now driver.now)) pool.now }
{
    match drivers.get(driver) {
        None => None,
        Some(pools) => find_sets(pools, pool),
    }
}

fn pool_of<'a>(drivers: &'a Drivers, slice: &ResourceSlice) -> Option<&'a PoolCounters>
    ensures { option_copied result ≡ at_name (spec.or_empty (at_name drivers.now slice.now.driver)) slice.now.pool.name }
{
    find_pool(drivers, slice.driver.as_text(), &slice.pool.name)
}

fn move_shared(
    sets: &mut Shared<PoolCounters>,
    change: Change,
    consumes: &[CounterConsumption],
    alloc: Global,
) -> Result<(), AllocError>
    ensures ok { OnOk result (sets.new ≡ spec.moved_sets change consumes.now sets.old) }
    ensures err { OnErr result (sets.new ≡ sets.old) }
{
    let sets = sets.change(alloc)?;
    move_sets(sets, change, consumes);
    Ok(())
}

#[tactic(auto, using(std::proofs::lemmas::Map::Steps::set_value_same))]
fn move_pool(
    pools: &mut Pools,
    change: Change,
    pool: &Text,
    consumes: &[CounterConsumption],
    alloc: Global,
) -> Result<(), AllocError>
    ensures ok { OnOk result (pools.new ≡ spec.moved_pools change pool.now consumes.now pools.old) }
    ensures err { OnErr result (pools.new ≡ pools.old) }
{
    match pools.get_mut(alloc, pool) {
        Ok(sets) => move_shared(sets, change, consumes, alloc),
        Err(NoValue::Missing) => Ok(()),
        Err(NoValue::Memory) => Err(AllocError),
    }
}

/// Counts what a device draws from the sets of its pool, as far as they are there.
#[tactic(auto, using(std::proofs::lemmas::Map::Steps::set_value_same))]
fn move_driver(
    drivers: &mut Drivers,
    change: Change,
    driver: &Text,
    pool: &Text,
    consumes: &[CounterConsumption],
    alloc: Global,
) -> Result<(), AllocError>
    ensures ok { OnOk result (drivers.new ≡ spec.changed_at driver.now (λ pools. spec.moved_pools change pool.now consumes.now pools) drivers.old) }
    ensures err { OnErr result (drivers.new ≡ drivers.old) }
{
    match drivers.get_mut(alloc, driver) {
        Ok(pools) => move_pool(pools, change, pool, consumes, alloc),
        Err(NoValue::Missing) => Ok(()),
        Err(NoValue::Memory) => Err(AllocError),
    }
}

fn put_in_pools(
    pools: &mut Pools,
    pool: &Text,
    sets: Shared<PoolCounters>,
    alloc: Global,
) -> Result<(), AllocError>
    ensures ok { OnOk result (pools.new ≡ insert_entry text_cmp pools.old pool.now sets) }
    ensures err { OnErr result (pools.new ≡ pools.old) }
{
    let name = pool.copy(alloc)?;
    pools.insert(alloc, name, sets)
}

/// Adds a driver that has no entry, with the counters of a pool.
fn add_driver(
    drivers: &mut Drivers,
    driver: &Text,
    pool: &Text,
    sets: Shared<PoolCounters>,
    alloc: Global,
) -> Result<(), AllocError>
    ensures ok { OnOk result (drivers.new ≡ insert_entry text_cmp drivers.old driver.now (insert_entry text_cmp [] pool.now sets)) }
    ensures err { OnErr result (drivers.new ≡ drivers.old) }
{
    let name = driver.copy(alloc)?;
    let mut pools = SharedMap::new(alloc)?;
    put_in_pools(&mut pools, pool, sets, alloc)?;
    drivers.insert(alloc, name, pools)
}

#[tactic(auto, using(std::proofs::lemmas::Map::Steps::set_value_same))]
fn put_driver(
    drivers: &mut Drivers,
    driver: &Text,
    pool: &Text,
    sets: Shared<PoolCounters>,
    alloc: Global,
) -> Result<(), AllocError>
    ensures ok { OnOk result (drivers.new ≡ spec.put_in driver.now (λ pools. insert_entry text_cmp pools pool.now sets) drivers.old) }
    ensures err { OnErr result (drivers.new ≡ drivers.old) }
{
    match drivers.get_mut(alloc, driver) {
        Ok(pools) => put_in_pools(pools, pool, sets, alloc),
        Err(NoValue::Missing) => add_driver(drivers, driver, pool, sets, alloc),
        Err(NoValue::Memory) => Err(AllocError),
    }
}

#[tactic(auto, using(std::proofs::lemmas::Map::Steps::set_value_same))]
fn empty_sets(pools: &mut Pools, pool: &Text, alloc: Global) -> Result<(), AllocError>
    ensures ok { OnOk result (pools.new ≡ spec.emptied_pools pool.now pools.old) }
    ensures err { OnErr result (pools.new ≡ pools.old) }
{
    match pools.get_mut(alloc, pool) {
        Ok(sets) => {
            *sets = Shared::new(alloc, Table::new(alloc))?;
            Ok(())
        }
        Err(NoValue::Missing) => Ok(()),
        Err(NoValue::Memory) => Err(AllocError),
    }
}

#[tactic(auto, using(std::proofs::lemmas::Map::Steps::set_value_same))]
fn empty_driver(
    drivers: &mut Drivers,
    driver: &Text,
    pool: &Text,
    alloc: Global,
) -> Result<(), AllocError>
    ensures ok { OnOk result (drivers.new ≡ spec.changed_at driver.now (λ pools. spec.emptied_pools pool.now pools) drivers.old) }
    ensures err { OnErr result (drivers.new ≡ drivers.old) }
{
    match drivers.get_mut(alloc, driver) {
        Ok(pools) => empty_sets(pools, pool, alloc),
        Err(NoValue::Missing) => Ok(()),
        Err(NoValue::Memory) => Err(AllocError),
    }
}
