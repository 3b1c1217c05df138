//! Amounts in 10^-9.

ghost use Rattle.std.specs.Prelude.{◌≡◌, ◌+◌, min};
ghost use Rattle.request_rules.specs.Draws.{natural};
ghost use Rattle.counter_sets.specs.Totals.{sum_from, sum_most, sum_of};

use api_slice::CounterConsumption;
use dra_values::{Table, Text};
use quantity::Quantity;

/// A quantity as an amount in 10^-9, which isn't negative.
pub fn amount_of(quantity: &Quantity) -> u128
    ensures { result ≡ natural quantity.now }
{
    let nanos = quantity.nanos();
    if nanos < 0 { 0 } else { nanos as u128 }
}

/// The sum, capped at 2^128 - 1.
fn capped_sum(total: u128, amount: u128) -> u128
    ensures { result ≡ min (total + amount) sum_most }
{
    total.saturating_add(amount)
}

fn add_amounts(start: u128, amounts: &Table<Text, Quantity>, name: &Text) -> u128
    ensures { result ≡ min (start + sum_of name.now amounts.now) sum_most }
{
    let mut total = start;
    for (other, amount) in amounts.as_map() {
        if other == name {
            total = capped_sum(total, amount_of(amount));
        }
    }
    total
}

/// All that the consumptions of a device draw from a counter of a set.
pub fn amount_from(consumes: &[CounterConsumption], set: &Text, name: &Text) -> u128
    ensures { result ≡ min (sum_from set.now name.now consumes.now) sum_most }
{
    let mut total = 0;
    for consumption in consumes {
        if consumption.set == *set {
            total = add_amounts(total, &consumption.amounts, name);
        }
    }
    total
}
