//! The operators, but for `&&`, `||` and `?:`.

ghost use Rattle.std.specs.Prelude.{◌≡◌, ◌++◌, int_div, int_rem, IfOk};
ghost use Rattle.cel_tree.specs.declared.tree.UnaryOp.TheVariants.{Not, Negate};
ghost use Rattle.cel_value.specs.Values.{Gives};
ghost use Rattle.cel_value.specs.Operators as spec;

use crate::lookups::is_in;
use crate::scalars::{fits, whole};
use crate::{DeviceEnv, EvalError, Single, Value};
use cel_tree::{BinaryOp, UnaryOp};
use dra_values::{Duplicate, Seq, Text};
use std::alloc::{AllocError, Global};
use std::cmp::Ordering;

/// `!operand` or `-operand`. NoOverload if the operator isn't for such a value; Overflow for the
/// negative of -2^63.
pub fn unary(op: UnaryOp, operand: &Value) -> Result<Value, EvalError>
    ensures { result ≡ spec.unary_of op operand.now }
{
    match op {
        UnaryOp::Not => not(operand),
        UnaryOp::Negate => negated(operand),
    }
}

fn not(operand: &Value) -> Result<Value, EvalError>
    ensures { result ≡ spec.unary_of Not operand.now }
{
    match operand {
        Value::Single(Single::Bool(truth)) => Ok(Value::bool(!*truth)),
        _ => Err(EvalError::NoOverload),
    }
}

fn negated(operand: &Value) -> Result<Value, EvalError>
    ensures { result ≡ spec.unary_of Negate operand.now }
{
    match operand {
        Value::Single(Single::Int(number)) => whole(-(*number as i128)),
        _ => Err(EvalError::NoOverload),
    }
}

/// An operation with two operands, except `&&` and `||`, for which NoOverload is returned here.
///
/// NoOverload if the operator has no row for such values. Overflow if a whole number would be
/// outside -2^63 to 2^63-1, also in `-2^63 % -1`; DivByZero if the divisor is zero.
pub fn binary(
    alloc: Global,
    device: &DeviceEnv,
    op: BinaryOp,
    left: &Value,
    right: &Value,
) -> Result<Value, EvalError>
    ensures { Gives result (spec.binary_of device.now op left.now right.now) }
{
    match op {
        BinaryOp::Or | BinaryOp::And => Err(EvalError::NoOverload),
        BinaryOp::Less => Ok(Value::bool(order(left, right)?.is_lt())),
        BinaryOp::LessEq => Ok(Value::bool(order(left, right)?.is_le())),
        BinaryOp::GreaterEq => Ok(Value::bool(order(left, right)?.is_ge())),
        BinaryOp::Greater => Ok(Value::bool(order(left, right)?.is_gt())),
        BinaryOp::Equal => Ok(Value::bool(same(left, right)?)),
        BinaryOp::NotEqual => Ok(Value::bool(!same(left, right)?)),
        BinaryOp::In => Ok(Value::bool(is_in(alloc, device, left, right)?)),
        BinaryOp::Add => add(alloc, left, right),
        BinaryOp::Subtract => {
            let (left, right) = ints(left, right)?;
            difference(left, right)
        }
        BinaryOp::Multiply => {
            let (left, right) = ints(left, right)?;
            product(left, right)
        }
        BinaryOp::Divide => {
            let (left, right) = ints(left, right)?;
            quotient(left, right)
        }
        BinaryOp::Remainder => {
            let (left, right) = ints(left, right)?;
            remainder(left, right)
        },
    }
}

/// The order of two whole numbers, two texts or two truth values.
fn order(left: &Value, right: &Value) -> Result<Ordering, EvalError>
    ensures { result ≡ spec.both_in spec.single_order left.now right.now }
{
    match (left, right) {
        (Value::Single(left), Value::Single(right)) => single_order(left, right),
        _ => Err(EvalError::NoOverload),
    }
}

fn single_order(left: &Single, right: &Single) -> Result<Ordering, EvalError>
    ensures { result ≡ spec.single_order left.now right.now }
{
    match (left, right) {
        (Single::Int(left), Single::Int(right)) => Ok(left.cmp(right)),
        (Single::Text(left), Single::Text(right)) => Ok(left.cmp(right)),
        (Single::Bool(left), Single::Bool(right)) => Ok(left.cmp(right)),
        _ => Err(EvalError::NoOverload),
    }
}

/// `==`: single values, lists element by element, maps by their keys and the values at them.
fn same(left: &Value, right: &Value) -> Result<bool, EvalError>
    ensures { result ≡ spec.same_of left.now right.now }
{
    match (left, right) {
        (Value::Single(left), Value::Single(right)) => Ok(left == right),
        (Value::List(left), Value::List(right)) => Ok(left == right),
        (Value::Map(left), Value::Map(right)) => Ok(left == right),
        _ => Err(EvalError::NoOverload),
    }
}

/// The sum of whole numbers, or two texts or two lists as one.
fn add(alloc: Global, left: &Value, right: &Value) -> Result<Value, EvalError>
    ensures { Gives result (spec.add_of left.now right.now) }
{
    match (left, right) {
        (Value::Single(left), Value::Single(right)) => single_sum(alloc, left, right),
        (Value::List(left), Value::List(right)) => {
            Ok(Value::List(joined_lists(alloc, left, right)?))
        }
        _ => Err(EvalError::NoOverload),
    }
}

fn single_sum(alloc: Global, left: &Single, right: &Single) -> Result<Value, EvalError>
    ensures { Gives result (spec.single_sum left.now right.now) }
{
    match (left, right) {
        (Single::Int(left), Single::Int(right)) => whole(*left as i128 + *right as i128),
        (Single::Text(left), Single::Text(right)) => {
            Ok(Value::Single(Single::Text(joined_texts(alloc, left, right)?)))
        }
        _ => Err(EvalError::NoOverload),
    }
}

fn joined_texts(alloc: Global, left: &Text, right: &Text) -> Result<Text, AllocError>
    ensures { IfOk result (λ t. t ≡ left.now ++ right.now) }
{
    let mut joined = String::from_str(alloc, left.as_str())?;
    joined.push_str(right.as_str())?;
    Text::new(alloc, joined)
}

fn joined_lists(
    alloc: Global,
    left: &Seq<Single>,
    right: &Seq<Single>,
) -> Result<Seq<Single>, AllocError>
    ensures { IfOk result (λ xs. xs ≡ left.now ++ right.now) }
{
    let mut joined = left.copy(alloc)?;
    for item in right.as_slice() {
        joined.push(item.duplicate(alloc)?)?;
    }
    Ok(joined)
}

/// Both as whole numbers.
fn ints(left: &Value, right: &Value) -> Result<(i64, i64), EvalError>
    ensures { result ≡ spec.both_in spec.both_ints left.now right.now }
{
    match (left, right) {
        (Value::Single(left), Value::Single(right)) => single_ints(left, right),
        _ => Err(EvalError::NoOverload),
    }
}

fn single_ints(left: &Single, right: &Single) -> Result<(i64, i64), EvalError>
    ensures { result ≡ spec.both_ints left.now right.now }
{
    match (left, right) {
        (Single::Int(left), Single::Int(right)) => Ok((*left, *right)),
        _ => Err(EvalError::NoOverload),
    }
}

fn difference(left: i64, right: i64) -> Result<Value, EvalError>
    ensures { result ≡ spec.difference left right }
{
    whole(left as i128 - right as i128)
}

fn product(left: i64, right: i64) -> Result<Value, EvalError>
    ensures { result ≡ spec.product left right }
{
    whole(left as i128 * right as i128)
}

/// The quotient, truncated towards zero.
fn quotient(left: i64, right: i64) -> Result<Value, EvalError>
    ensures { result ≡ spec.divided int_div left right }
{
    if right == 0 {
        Err(EvalError::DivByZero)
    } else {
        whole(left as i128 / right as i128)
    }
}

/// The remainder of that quotient, with the dividend's sign.
fn remainder(left: i64, right: i64) -> Result<Value, EvalError>
    ensures { result ≡ spec.divided int_rem left right }
{
    if right == 0 {
        Err(EvalError::DivByZero)
    } else if fits(left as i128 / right as i128) {
        Ok(Value::int(left % right))
    } else {
        Err(EvalError::Overflow)
    }
}
