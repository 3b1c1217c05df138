//! Draws of a device on counters, and their return.

ghost use Rattle.std.specs.Prelude.{◌≡◌};
ghost use Rattle.counter_sets.specs.Totals as spec;

use crate::amount::amount_of;
use crate::counter::{DriverCounters, PoolCounters, SetCounters};
use api_slice::{CounterConsumption, ResourceSlice};
use dra_values::{Table, Text};
use quantity::Quantity;

/// The way in which a device's draws are counted.
#[derive(Clone, Copy, Debug, PartialEq, Eq)]
pub enum Change {
    /// They are added.
    Draw,
    /// They are subtracted.
    Return,
}

fn moved(change: Change, drawn: u128, amount: u128) -> u128
    ensures { result ≡ spec.moved change drawn amount }
{
    match change {
        Change::Draw => {
            if amount == 0 {
                return drawn;
            }
            drawn.saturating_add(amount)
        }
        Change::Return => drawn.saturating_sub(amount),
    }
}

fn move_counter(counters: &mut SetCounters, change: Change, name: &Text, amount: u128)
    ensures { counters.new ≡ spec.moved_counter change name.now amount counters.old }
{
    if let Some(counter) = counters.get_mut(name) {
        counter.drawn = moved(change, counter.drawn, amount);
    }
}

fn move_counters(counters: &mut SetCounters, change: Change, amounts: &Table<Text, Quantity>)
    ensures { counters.new ≡ spec.moved_counters change amounts.now counters.old }
{
    for (name, amount) in amounts.as_map() {
        move_counter(counters, change, name, amount_of(amount));
    }
}

fn move_set(sets: &mut PoolCounters, change: Change, consumption: &CounterConsumption)
    ensures { sets.new ≡ spec.changed_at consumption.now.set (λ counters. spec.moved_counters change consumption.now.amounts counters) sets.old }
{
    if let Some(counters) = sets.get_mut(&consumption.set) {
        move_counters(counters, change, &consumption.amounts);
    }
}

/// Counts what consumptions of a device draw from the sets of its pool, as far as they were added.
pub fn move_sets(sets: &mut PoolCounters, change: Change, consumes: &[CounterConsumption])
    ensures { sets.new ≡ spec.moved_sets change consumes.now sets.old }
{
    for consumption in consumes {
        move_set(sets, change, consumption);
    }
}

fn move_pool(
    pools: &mut DriverCounters,
    change: Change,
    pool: &Text,
    consumes: &[CounterConsumption],
)
    ensures { pools.new ≡ spec.moved_pools change pool.now consumes.now pools.old }
{
    if let Some(sets) = pools.get_mut(pool) {
        move_sets(sets, change, consumes);
    }
}

fn move_driver(
    drivers: &mut Table<Text, DriverCounters>,
    change: Change,
    driver: &Text,
    pool: &Text,
    consumes: &[CounterConsumption],
)
    ensures { drivers.new ≡ spec.changed_at driver.now (λ pools. spec.moved_pools change pool.now consumes.now pools) drivers.old }
{
    if let Some(pools) = drivers.get_mut(driver) {
        move_pool(pools, change, pool, consumes);
    }
}

/// Counts what a device of the slice draws from the sets of its pool, as far as they were added.
pub fn move_device(
    drivers: &mut Table<Text, DriverCounters>,
    change: Change,
    slice: &ResourceSlice,
    consumes: &[CounterConsumption],
)
    ensures { drivers.new ≡ spec.changed_at slice.now.driver (λ pools. spec.moved_pools change slice.now.pool.name consumes.now pools) drivers.old }
{
    let driver = slice.driver.as_text();
    move_driver(drivers, change, driver, &slice.pool.name, consumes);
}
