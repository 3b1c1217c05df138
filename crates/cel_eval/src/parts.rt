ghost use Rattle.std.specs.Prelude.{◌≡◌};
ghost use Rattle.cel_value.specs.Values.{Gives};
ghost use Rattle.cel_meaning.specs.Folds.{as_value, as_list, as_map, are_one};
ghost use Rattle.cel_meaning.specs.Meaning.{called_on, method_on};

use cel_tree::Called;
use cel_value::{DeviceEnv, EvalError, Key, Single, Value, call, method};
use dra_values::{Seq, Table};
use std::alloc::Global;

/// A truth as a value.
pub fn truth_value(side: Result<bool, EvalError>) -> Result<Value, EvalError>
    ensures { result ≡ as_value side }
{
    Ok(Value::bool(side?))
}

/// A list literal, or what `filter` or `map` makes, as a value.
pub fn list_value(items: Result<Seq<Single>, EvalError>) -> Result<Value, EvalError>
    ensures { result ≡ as_list items }
{
    Ok(Value::List(items?))
}

/// A map literal as a value.
pub fn map_value(table: Result<Table<Key, Single>, EvalError>) -> Result<Value, EvalError>
    ensures { result ≡ as_map table }
{
    Ok(Value::Map(table?))
}

/// Whether there is exactly one item.
pub fn is_one(items: Result<Seq<Single>, EvalError>) -> Result<Value, EvalError>
    ensures { result ≡ are_one items }
{
    Ok(Value::bool(items?.as_slice().len() == 1))
}

/// A call by what its name refers to: a function, or else nothing.
pub fn called_on(
    alloc: Global,
    device: &DeviceEnv,
    called: Option<Called>,
    given: &[Value],
) -> Result<Value, EvalError>
    ensures { Gives result (called_on device.now called given.now) }
{
    match called {
        Some(Called::Function(function)) => call(alloc, device, function, given),
        _ => Err(EvalError::NoOverload),
    }
}

/// The same of a method.
pub fn method_on(
    alloc: Global,
    device: &DeviceEnv,
    called: Option<Called>,
    object: &Value,
    given: &[Value],
) -> Result<Value, EvalError>
    ensures { Gives result (method_on device.now called object.now given.now) }
{
    match called {
        Some(Called::Function(function)) => method(alloc, device, function, object, given),
        _ => Err(EvalError::NoOverload),
    }
}
