//! The functions of quantities and versions.

ghost use Rattle.std.specs.Prelude.{◌≡◌, ◌≤ℤ◌, pos, neg_ℤ, IfOk};
ghost use Rattle.std.specs.Ordering.{int_cmp};
ghost use Rattle.cel_tree.specs.declared.calls.Function.TheVariants as function;
ghost use Rattle.cel_value.specs.Values.{Shows};
ghost use Rattle.cel_value.specs.Operators.{both_in};
ghost use Rattle.cel_value.specs.Functions as spec;

use crate::{EvalError, Single, Value, Version};
use quantity::Quantity;
use std::cmp::Ordering;

/// One, in the unit of quantities, 10^-9.
const ONE: i128 = 1_000_000_000;

/// The value as a quantity, or NoOverload.
pub(crate) fn amount_in(value: &Value) -> Result<Quantity, EvalError>
    ensures { result ≡ spec.amount_in value.now }
{
    match value {
        Value::Single(Single::Quantity(quantity)) => Ok(*quantity),
        _ => Err(EvalError::NoOverload),
    }
}

/// The value as a version, or NoOverload.
pub(crate) fn version_in(value: &Value) -> Result<&Version, EvalError>
    ensures { Shows (λ v. v.now) result (spec.version_in value.now) }
{
    match value {
        Value::Single(Single::Version(version)) => Ok(version),
        _ => Err(EvalError::NoOverload),
    }
}

/// The order of two quantities by value, or of two versions by precedence.
pub(crate) fn compared(left: &Value, right: &Value) -> Result<Ordering, EvalError>
    ensures { result ≡ both_in spec.order_of left.now right.now }
{
    match (left, right) {
        (Value::Single(left), Value::Single(right)) => compared_singles(left, right),
        _ => Err(EvalError::NoOverload),
    }
}

fn compared_singles(left: &Single, right: &Single) -> Result<Ordering, EvalError>
    ensures { result ≡ spec.order_of left.now right.now }
{
    match (left, right) {
        (Single::Quantity(left), Single::Quantity(right)) => Ok(left.cmp(right)),
        (Single::Version(left), Single::Version(right)) => Ok(left.precedence(right)),
        _ => Err(EvalError::NoOverload),
    }
}

/// -1, 0 or 1.
pub(crate) fn order_number(order: Ordering) -> i64
    ensures { result ≡ spec.order_number order }
{
    match order {
        Ordering::Less => -1,
        Ordering::Equal => 0,
        Ordering::Greater => 1,
    }
}

/// -1 for a negative quantity, 0 for zero, 1 for another.
pub(crate) fn sign(quantity: Quantity) -> i64
    ensures { result ≡ spec.order_number (int_cmp quantity (pos 0)) }
{
    order_number(quantity.nanos().cmp(&0))
}

pub(crate) fn is_integer(quantity: Quantity) -> bool
    ensures { result ≡ spec.is_whole quantity }
{
    quantity.nanos() % ONE == 0
}

/// The whole number that the quantity is, or BadConversion.
pub(crate) fn as_integer(quantity: Quantity) -> Result<Value, EvalError>
    ensures { result ≡ spec.as_integer quantity }
{
    if is_integer(quantity) {
        let whole = quantity.nanos() / ONE;
        Ok(Value::int(whole as i64))
    } else {
        Err(EvalError::BadConversion)
    }
}

/// What is added to a quantity, in 10^-9: a quantity, or a whole number.
fn addend_in(value: &Value) -> Result<i128, EvalError>
    ensures value { result ≡ spec.addend_in value.now }
    ensures bounded { IfOk result (λ n. (neg_ℤ (pos 9223372036854775808000000000) ≤ℤ n) × (n ≤ℤ pos 9223372036854775808000000000)) }
{
    match value {
        Value::Single(Single::Quantity(quantity)) => Ok(quantity.nanos()),
        Value::Single(Single::Int(number)) => Ok(*number as i128 * ONE),
        _ => Err(EvalError::NoOverload),
    }
}

/// The exact sum, or Overflow.
pub(crate) fn sum(left: &Value, right: &Value) -> Result<Value, EvalError>
    ensures { result ≡ spec.method_with function.Add left.now right.now }
{
    let left = amount_in(left)?;
    let right = addend_in(right)?;
    in_range(left.nanos() + right)
}

/// The exact difference, or Overflow.
pub(crate) fn difference(left: &Value, right: &Value) -> Result<Value, EvalError>
    ensures { result ≡ spec.method_with function.Sub left.now right.now }
{
    let left = amount_in(left)?;
    let right = addend_in(right)?;
    in_range(left.nanos() - right)
}

fn in_range(nanos: i128) -> Result<Value, EvalError>
    ensures { result ≡ spec.in_range nanos }
{
    match Quantity::from_nanos(nanos) {
        Some(quantity) => Ok(Value::Single(Single::Quantity(quantity))),
        None => Err(EvalError::Overflow),
    }
}
