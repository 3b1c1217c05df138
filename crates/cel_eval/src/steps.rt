ghost use Rattle.std.specs.Prelude.{◌≡◌, ◌+◌, min};
ghost use Rattle.cel_tree.specs.Estimate.{most, weighing};
ghost use Rattle.cel_value.specs.Values.{weight_of};
ghost use Rattle.cel_meaning.specs.Steps.{weights};

use cel_tree::BinaryOp;
use cel_value::{Value, weight};

/// How much was evaluated so far.
#[derive(Clone, Copy, Debug, PartialEq, Eq)]
pub struct Steps {
    pub count: u64,
}

/// The steps of an operation for the weights of its operands. Sums stop at the greatest number of 64
/// bits.
pub fn weighed(op: BinaryOp, left: &Value, right: &Value) -> u64
    ensures { result ≡ min (weighing op (weight_of left.now + weight_of right.now)) most }
{
    match op {
        BinaryOp::Or
        | BinaryOp::And
        | BinaryOp::Subtract
        | BinaryOp::Multiply
        | BinaryOp::Divide
        | BinaryOp::Remainder => 0,
        _ => weight(left).saturating_add(weight(right)),
    }
}

/// The weights of arguments together. Sums stop at the greatest number of 64 bits.
pub fn weights(given: &[Value]) -> u64
    ensures { result ≡ min (weights given.now) most }
{
    let mut total = 0u64;
    for value in given {
        total = total.saturating_add(weight(value));
    }
    total
}
