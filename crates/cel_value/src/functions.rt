//! The functions: those of the CEL language definition on texts and sizes, and those of the
//! Kubernetes libraries for quantities and versions.

ghost use Rattle.std.specs.Prelude.{◌≡◌, length};
ghost use Rattle.std.specs.Str.{chars};
ghost use Rattle.cel_value.specs.Values.{Gives};
ghost use Rattle.cel_value.specs.Functions as spec;

use crate::amounts::{
    amount_in, as_integer, compared, difference, is_integer, order_number, sign, sum, version_in,
};
use crate::lookups::elements;
use crate::scalars::whole;
use crate::texts::{contains, ends_with, is_quantity, is_version, quantity, starts_with, version};
use crate::{DeviceEnv, EvalError, Single, Value};
use cel_tree::Function;
use std::alloc::Global;

/// `function(arguments)`. NoOverload if there is no such row; BadConversion if a text doesn't
/// read as a quantity or version; Overflow for a size over 2^63-1.
pub fn call(
    alloc: Global,
    device: &DeviceEnv,
    function: Function,
    arguments: &[Value],
) -> Result<Value, EvalError>
    ensures { Gives result (spec.call_of device.now function arguments.now) }
{
    match arguments.split_first() {
        Some((argument, rest)) => {
            if rest.is_empty() {
                call_with(alloc, device, function, argument)
            } else {
                Err(EvalError::NoOverload)
            }
        }
        None => Err(EvalError::NoOverload),
    }
}

fn call_with(
    alloc: Global,
    device: &DeviceEnv,
    function: Function,
    argument: &Value,
) -> Result<Value, EvalError>
    ensures { Gives result (spec.call_with device.now function argument.now) }
{
    match function {
        Function::Size => size(alloc, device, argument),
        Function::Quantity => quantity(argument),
        Function::IsQuantity => is_quantity(argument),
        Function::Semver => version(alloc, argument),
        Function::IsSemver => is_version(alloc, argument),
        _ => Err(EvalError::NoOverload),
    }
}

/// `object.function(arguments)`. NoOverload if there is no such row; Overflow for a whole number
/// outside -2^63 to 2^63-1 or a quantity of a magnitude over 2^63-1; BadConversion for `asInteger` of
/// a quantity that isn't whole.
pub fn method(
    alloc: Global,
    device: &DeviceEnv,
    function: Function,
    object: &Value,
    arguments: &[Value],
) -> Result<Value, EvalError>
    ensures { Gives result (spec.method_of device.now function object.now arguments.now) }
{
    match arguments.split_first() {
        Some((argument, rest)) => {
            if rest.is_empty() {
                method_with(function, object, argument)
            } else {
                Err(EvalError::NoOverload)
            }
        }
        None => method_alone(alloc, device, function, object),
    }
}

/// `object.function()`
fn method_alone(
    alloc: Global,
    device: &DeviceEnv,
    function: Function,
    object: &Value,
) -> Result<Value, EvalError>
    ensures { Gives result (spec.method_alone device.now function object.now) }
{
    match function {
        Function::Size => size(alloc, device, object),
        Function::Sign => Ok(Value::int(sign(amount_in(object)?))),
        Function::IsInteger => Ok(Value::bool(is_integer(amount_in(object)?))),
        Function::AsInteger => as_integer(amount_in(object)?),
        Function::Major => whole(version_in(object)?.as_semver().major as i128),
        Function::Minor => whole(version_in(object)?.as_semver().minor as i128),
        Function::Patch => whole(version_in(object)?.as_semver().patch as i128),
        _ => Err(EvalError::NoOverload),
    }
}

/// `object.function(argument)`
fn method_with(function: Function, object: &Value, argument: &Value) -> Result<Value, EvalError>
    ensures { result ≡ spec.method_with function object.now argument.now }
{
    match function {
        Function::StartsWith => starts_with(object, argument),
        Function::EndsWith => ends_with(object, argument),
        Function::Contains => contains(object, argument),
        Function::CompareTo => Ok(Value::int(order_number(compared(object, argument)?))),
        Function::IsLessThan => Ok(Value::bool(compared(object, argument)?.is_lt())),
        Function::IsGreaterThan => Ok(Value::bool(compared(object, argument)?.is_gt())),
        Function::Add => sum(object, argument),
        Function::Sub => difference(object, argument),
        _ => Err(EvalError::NoOverload),
    }
}

/// The characters of a text, the elements of a list, the keys of a map, the domains, or the ids in a
/// domain.
fn size(alloc: Global, device: &DeviceEnv, value: &Value) -> Result<Value, EvalError>
    ensures { Gives result (spec.size_of device.now value.now) }
{
    match value {
        Value::Single(Single::Text(text)) => whole(char_count(text.as_str()) as i128),
        Value::Single(_) => Err(EvalError::NoOverload),
        Value::List(items) => whole(items.as_slice().len() as i128),
        Value::Map(entries) => whole(entries.len() as i128),
        Value::Domains(_) | Value::Entries(..) => {
            let elements = elements(alloc, device, value)?;
            whole(elements.as_slice().len() as i128)
        }
    }
}

pub(crate) fn char_count(text: &str) -> usize
    ensures { result ≡ length (chars text.now) }
{
    text.chars().count()
}
