//! Values as truth values, as keys, as single values; and their weights.

ghost use Rattle.std.specs.Prelude.{◌≡◌, ◌^◌, ◌-◌, ◌+◌, min, sum_by, Ok, IfOk};
ghost use Rattle.cel_tree.specs.Ast.{constant_view};
ghost use Rattle.cel_value.specs.Values as spec;
ghost use Rattle.cel_value.specs.Values.{Gives, constant_of, truth_of, single_in, key_in, key_from, single_of, fits, whole, most, single_weight, entry_weight, weight_of};

use crate::{EvalError, Key, Single, Value};
use cel_tree::Literal;
use dra_values::{Duplicate, Table};
use std::alloc::{AllocError, Global};

impl Value {
    /// A truth value.
    pub fn bool(truth: bool) -> Value
        ensures { result ≡ spec.truth truth }
    {
        Value::Single(Single::Bool(truth))
    }

    /// A whole number.
    pub fn int(number: i64) -> Value
        ensures { result ≡ spec.int number }
    {
        Value::Single(Single::Int(number))
    }

    /// The value as one that holds no others, such as the element of a list, or NoOverload.
    pub fn into_single(self) -> Result<Single, EvalError>
        ensures { result ≡ single_in self }
    {
        match self {
            Value::Single(single) => Ok(single),
            _ => Err(EvalError::NoOverload),
        }
    }

    /// The value as the key of a map: a whole number, a truth value or a text, or else NoOverload.
    pub fn into_key(self) -> Result<Key, EvalError>
        ensures { result ≡ key_in self }
    {
        match self {
            Value::Single(Single::Int(number)) => Ok(Key::Int(number)),
            Value::Single(Single::Bool(truth)) => Ok(Key::Bool(truth)),
            Value::Single(Single::Text(text)) => Ok(Key::Text(text)),
            _ => Err(EvalError::NoOverload),
        }
    }
}

/// The value of a literal. The only error is Memory.
pub fn constant(alloc: Global, literal: &Literal) -> Result<Value, EvalError>
    ensures { Gives result (Ok (constant_of (constant_view literal.now))) }
{
    Ok(Value::Single(match literal {
        Literal::Null => Single::Null,
        Literal::Bool(truth) => Single::Bool(*truth),
        Literal::Int(number) => Single::Int(*number),
        Literal::Text(text) => Single::Text(text.copy(alloc)?),
    }))
}

/// The truth of a test, of an operand of `&&` and `||`, or of a body. NoOverload for a value that
/// isn't a bool.
pub fn truth(value: &Value) -> Result<bool, EvalError>
    ensures { result ≡ truth_of value.now }
{
    match value {
        Value::Single(Single::Bool(truth)) => Ok(*truth),
        _ => Err(EvalError::NoOverload),
    }
}

/// A copy of the value as a key, or NoOverload if it can't be one.
pub(crate) fn key_from(alloc: Global, single: &Single) -> Result<Key, EvalError>
    ensures { Gives result (key_from single.now) }
{
    match single {
        Single::Int(number) => Ok(Key::Int(*number)),
        Single::Bool(truth) => Ok(Key::Bool(*truth)),
        Single::Text(text) => Ok(Key::Text(text.copy(alloc)?)),
        _ => Err(EvalError::NoOverload),
    }
}

/// A copy of the key as a value.
pub(crate) fn single_of(alloc: Global, key: &Key) -> Result<Single, AllocError>
    ensures { IfOk result (λ s. s ≡ single_of key.now) }
{
    Ok(match key {
        Key::Int(number) => Single::Int(*number),
        Key::Bool(truth) => Single::Bool(*truth),
        Key::Text(text) => Single::Text(text.copy(alloc)?),
    })
}

/// Whether a whole number has 64 bits.
pub(crate) fn fits(number: i128) -> bool
    ensures { result ≡ fits number }
{
    i64::MIN as i128 <= number && number <= i64::MAX as i128
}

/// The whole number as a value, or Overflow.
pub(crate) fn whole(number: i128) -> Result<Value, EvalError>
    ensures { result ≡ whole number }
{
    if fits(number) {
        Ok(Value::int(number as i64))
    } else {
        Err(EvalError::Overflow)
    }
}

/// How much a value weighs, which steps are counted by: 1 for a single value, and for a text 1 and
/// its bytes; for a list or map 1 and what it holds; 2,049 for the domains of a device and for what
/// it has in one of them. At most 2^64-1.
pub fn weight(value: &Value) -> u64
    ensures { result ≡ min (weight_of value.now) most }
{
    match value {
        Value::Single(single) => single_weight(single),
        Value::List(items) => items_weight(items.as_slice()),
        Value::Map(entries) => entries_weight(entries),
        Value::Domains(_) | Value::Entries(..) => 2049,
    }
}

fn single_weight(single: &Single) -> u64
    ensures { result ≡ min (single_weight single.now) most }
{
    match single {
        Single::Text(text) => (text.as_str().len() as u64).saturating_add(1),
        _ => 1,
    }
}

fn key_weight(key: &Key) -> u64
    ensures { result ≡ min (single_weight (single_of key.now)) most }
{
    match key {
        Key::Text(text) => (text.as_str().len() as u64).saturating_add(1),
        _ => 1,
    }
}

fn items_weight(items: &[Single]) -> u64
    ensures { result ≡ min (1 + sum_by single_weight items.now) most }
{
    let mut total: u64 = 1;
    for item in items {
        total = total.saturating_add(single_weight(item));
    }
    total
}

fn entries_weight(entries: &Table<Key, Single>) -> u64
    ensures { result ≡ min (1 + sum_by entry_weight entries.now) most }
{
    let mut total: u64 = 1;
    for (key, value) in entries.as_map() {
        let both = key_weight(key).saturating_add(single_weight(value));
        total = total.saturating_add(both);
    }
    total
}
