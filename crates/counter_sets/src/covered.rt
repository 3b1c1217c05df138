//! Whether counters have enough for what a device draws.

ghost use Rattle.std.specs.Prelude.{◌≡◌, ◌+◌, Option, min, option_map, option_copied};
ghost use Rattle.pool_view.specs.Names.{at_name};
ghost use Rattle.counter_sets.specs.Totals as spec;

use crate::amount::{amount_from, amount_of};
use crate::counter::{Counter, DriverCounters, PoolCounters, SetCounters};
use api_slice::{CounterConsumption, ResourceSlice};
use dra_values::{Table, Text};
use pool_view::DeviceRef;

/// The counters of a pool, if any were added.
fn find_pool<'a>(
    drivers: &'a Table<Text, DriverCounters>,
    driver: &Text,
    pool: &Text,
) -> Option<&'a PoolCounters>
    ensures { option_copied result ≡ at_name (spec.or_empty (at_name drivers.now driver.now)) pool.now }
{
    match drivers.get(driver) {
        None => None,
        Some(pools) => pools.get(pool),
    }
}

/// The counters of the slice's pool, if any were added.
pub fn pool_of<'a>(
    drivers: &'a Table<Text, DriverCounters>,
    slice: &ResourceSlice,
) -> Option<&'a PoolCounters>
    ensures { option_copied result ≡ at_name (spec.or_empty (at_name drivers.now slice.now.driver)) slice.now.pool.name }
{
    find_pool(drivers, slice.driver.as_text(), &slice.pool.name)
}

/// The counters of a set, if it exists.
pub fn find_set<'a>(sets: Option<&'a PoolCounters>, set: &Text) -> Option<&'a SetCounters>
    ensures { option_copied result ≡ at_name (spec.or_empty (option_copied sets.entry)) set.now }
{
    match sets {
        None => None,
        Some(sets) => sets.get(set),
    }
}

/// The counter of that name, if it exists.
pub fn find_counter<'a>(counters: Option<&'a SetCounters>, name: &Text) -> Option<&'a Counter>
    ensures { option_copied result ≡ at_name (spec.or_empty (option_copied counters.entry)) name.now }
{
    match counters {
        None => None,
        Some(counters) => counters.get(name),
    }
}

/// Whether the counter exists, and drawing this much more stays within its value.
fn has_room(counter: Option<&Counter>, amount: u128) -> bool
    ensures { result ≡ spec.has_room (option_copied counter.entry) amount }
{
    match counter {
        None => false,
        Some(counter) => counter.drawn.saturating_add(amount) <= amount_of(&counter.value),
    }
}

/// Whether a counter of a set has enough for all that the device draws from it.
#[tactic(auto, unfolding(crate::specs::Totals::covers_counter))]
pub fn covers_counter(
    counters: Option<&SetCounters>,
    device: &DeviceRef<'_>,
    set: &Text,
    name: &Text,
) -> bool
    ensures { result ≡ spec.covers_counter (spec.or_empty (option_copied counters.entry)) device.now set.now name.now }
{
    let amount = amount_from(device.device().consumes.as_slice(), set, name);
    has_room(find_counter(counters, name), amount)
}

/// Whether the counters of a set have enough for all that the device draws from them.
#[tactic(auto, unfolding(crate::specs::Totals::covers_all))]
fn covers_all(
    counters: Option<&SetCounters>,
    device: &DeviceRef<'_>,
    consumption: &CounterConsumption,
) -> bool
    ensures { result ≡ spec.covers_all (spec.or_empty (option_copied counters.entry)) device.now consumption.now.set consumption.now.amounts }
{
    for (name, _) in consumption.amounts.as_map() {
        if !covers_counter(counters, device, &consumption.set, name) {
            return false;
        }
    }
    true
}

fn covers_set(
    sets: Option<&PoolCounters>,
    device: &DeviceRef<'_>,
    consumption: &CounterConsumption,
) -> bool
    ensures { result ≡ spec.covers_all (spec.or_empty (at_name (spec.or_empty (option_copied sets.entry)) consumption.now.set)) device.now consumption.now.set consumption.now.amounts }
{
    covers_all(find_set(sets, &consumption.set), device, consumption)
}

/// Whether each counter on which the device draws has enough, from the counters of its pool.
#[tactic(auto, unfolding(crate::specs::Totals::covers_sets))]
pub fn covers(sets: Option<&PoolCounters>, device: &DeviceRef<'_>) -> bool
    ensures { result ≡ spec.covers_sets (spec.or_empty (option_copied sets.entry)) device.now }
{
    for consumption in device.device().consumes.as_slice() {
        if !covers_set(sets, device, consumption) {
            return false;
        }
    }
    true
}
