ghost use Rattle.std.specs.Prelude.{◌≡◌, ◌<◌, ◌++◌, ◌^◌, IfOk, OnOk, string_bytes};
ghost use Rattle.quantity.specs.Printed.{fraction_text, magnitude_text};
ghost use Rattle.journal_text.specs.Journal.{failure_text, shortfall_text, value_text};

use crate::worded::{Worded, push_after, push_shown, push_text};
use cluster::{Failure, Shortfall};
use quantity::Nanos;
use std::alloc::{AllocError, Global};

/// One, in 10^-9.
const ONE: u128 = 1_000_000_000;

/// Writes a number of 10^-9, as a quantity is printed.
#[tactic(auto, unfolding(quantity::specs::Printed::magnitude_text))]
fn push_magnitude(out: &mut Vec<u8>, nanos: u128) -> Result<(), AllocError>
    ensures { OnOk result (out.new.items ≡ out.old.items ++ magnitude_text nanos) }
{
    push_shown(out, nanos / ONE)?;
    let fraction = fraction_text(*out.allocator(), nanos % ONE)?;
    push_text(out, fraction.as_str())
}

/// The text after the whole part: empty, or a point and the decimal places.
fn fraction_text(alloc: Global, nanos: u128) -> Result<String, AllocError>
    requires { nanos < 10 ^ 9 }
    ensures { IfOk result (λ s. string_bytes s ≡ fraction_text nanos) }
{
    let text = format!(in alloc; "{}", Nanos(nanos as i128))?;
    match text.as_str().strip_prefix('0') {
        Some(places) => String::from_str(alloc, places),
        None => unreachable!(),
    }
}

fn push_value(out: &mut Vec<u8>, value: Option<u128>) -> Result<(), AllocError>
    ensures { OnOk result (out.new.items ≡ out.old.items ++ value_text value) }
{
    match value {
        None => push_text(out, "0"),
        Some(value) => push_magnitude(out, value),
    }
}

/// As `Counter:set/counter:drawn:value`.
impl Worded for Shortfall {
    ghost words = { shortfall_text };

    fn push_to(&self, out: &mut Vec<u8>) -> Result<(), AllocError> {
        push_after(out, "Counter:", &self.set)?;
        push_after(out, "/", &self.counter)?;
        push_text(out, ":")?;
        push_magnitude(out, self.drawn)?;
        push_text(out, ":")?;
        push_value(out, self.value)
    }
}

/// The printed word of a failure, and what it names.
impl Worded for Failure {
    ghost words = { failure_text };

    fn push_to(&self, out: &mut Vec<u8>) -> Result<(), AllocError> {
        match self {
            Failure::ClaimGone(claim) => push_after(out, "ClaimGone:", claim),
            Failure::ClaimChanged(key) => push_after(out, "ClaimChanged:", key),
            Failure::Users(claim) => push_after(out, "Users:", claim),
            Failure::NodeGone(node) => push_after(out, "NodeGone:", node),
            Failure::DeviceGone(device) => push_after(out, "DeviceGone:", device),
            Failure::Shape(claim) => push_after(out, "Shape:", claim),
            Failure::SelectorNo(device) => push_after(out, "SelectorNo:", device),
            Failure::SelectorFault(device) => push_after(out, "SelectorFault:", device),
            Failure::Tainted(device) => push_after(out, "Tainted:", device),
            Failure::Held { device, claim } => {
                push_after(out, "Held:", device)?;
                push_after(out, ":", claim)
            }
            Failure::Counter(short) => short.push_to(out),
            Failure::Constraint { claim, index } => {
                push_after(out, "Constraint:", claim)?;
                push_after(out, ":", index)
            }
        }
    }
}
