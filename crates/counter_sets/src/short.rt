//! The first counter that doesn't have enough for what a device draws.

ghost use Rattle.std.specs.Prelude.{◌≡◌, ◌+◌, Option, min, option_map, option_copied};
ghost use Rattle.counter_sets.specs.Totals as spec;

use crate::amount::{amount_from, amount_of};
use crate::counter::{Counter, PoolCounters, SetCounters};
use crate::covered::{covers_counter, find_counter, find_set};
use api_slice::CounterConsumption;
use dra_values::Text;
use pool_view::DeviceRef;

/// A counter that doesn't have enough for what a device draws from it.
#[derive(Drop)]
pub struct Shortage<'a> {
    /// The counter set.
    pub set: &'a Text,
    /// The counter of that set.
    pub counter: &'a Text,
    /// What would be drawn from it with the device, in 10^-9; capped at 2^128 - 1.
    pub drawn: u128,
    /// What the counter has, in 10^-9; `None` if no slice that was added has such a counter.
    pub value: Option<u128>,
}

/// The first counter of a set that doesn't have enough.
fn short_name<'a>(
    counters: Option<&SetCounters>,
    device: &DeviceRef<'_>,
    consumption: &'a CounterConsumption,
) -> Option<&'a Text>
    ensures { option_copied result ≡ spec.short_name (spec.or_empty (option_copied counters.entry)) device.now consumption.now.set consumption.now.amounts }
{
    for (name, _) in consumption.amounts.as_map() {
        if !covers_counter(counters, device, &consumption.set, name) {
            return Some(name);
        }
    }
    None
}

#[tactic(auto, unfolding(crate::specs::Totals::short_set))]
fn short_set<'a>(
    sets: Option<&PoolCounters>,
    device: &DeviceRef<'_>,
    consumption: &'a CounterConsumption,
) -> Option<&'a Text>
    ensures { option_copied result ≡ spec.short_set (spec.or_empty (option_copied sets.entry)) device.now consumption.now }
{
    short_name(find_set(sets, &consumption.set), device, consumption)
}

/// The first counter that doesn't have enough, and its set before it.
pub fn first_short<'a>(
    sets: Option<&PoolCounters>,
    device: &DeviceRef<'a>,
) -> Option<(&'a Text, &'a Text)>
    ensures { option_map (λ p. (p.0.now, p.1.now)) result ≡ spec.short_in (spec.or_empty (option_copied sets.entry)) device.now device.now.device.consumes }
{
    for consumption in device.device().consumes.as_slice() {
        if let Some(name) = short_set(sets, device, consumption) {
            return Some((&consumption.set, name));
        }
    }
    None
}

/// What a counter has, if it exists.
fn value_of(counter: Option<&Counter>) -> Option<u128>
    ensures { result ≡ spec.value_kept (option_copied counter.entry) }
{
    match counter {
        None => None,
        Some(counter) => Some(amount_of(&counter.value)),
    }
}

/// What is drawn from a counter; 0 if it is missing.
fn drawn_from(counter: Option<&Counter>) -> u128
    ensures { result ≡ spec.drawn_kept (option_copied counter.entry) }
{
    match counter {
        None => 0,
        Some(counter) => counter.drawn,
    }
}

/// What is drawn from a counter with the device, and what it has.
pub fn missing_from<'a>(
    sets: Option<&PoolCounters>,
    device: &DeviceRef<'a>,
    set: &'a Text,
    counter: &'a Text,
) -> Shortage<'a>
    ensures set { result.set.now ≡ set.now }
    ensures counter { result.counter.now ≡ counter.now }
    ensures drawn { result.drawn ≡ min (spec.drawn_kept (spec.counter_in (spec.or_empty (option_copied sets.entry)) set.now counter.now) + min (spec.sum_from set.now counter.now device.now.device.consumes) spec.sum_most) spec.sum_most }
    ensures value { result.value ≡ spec.value_kept (spec.counter_in (spec.or_empty (option_copied sets.entry)) set.now counter.now) }
{
    let kept = find_counter(find_set(sets, set), counter);
    let amount = amount_from(device.device().consumes.as_slice(), set, counter);
    Shortage {
        set,
        counter,
        drawn: drawn_from(kept).saturating_add(amount),
        value: value_of(kept),
    }
}
