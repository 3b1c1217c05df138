//! The functions of texts: tests of two, and what a text reads as.

ghost use Rattle.std.specs.Prelude.{◌≡◌};
ghost use Rattle.cel_value.specs.Values.{Gives, Shows};
ghost use Rattle.cel_value.specs.Functions as spec;
ghost use Rattle.cel_tree.specs.declared.calls.Function.TheVariants as function;

use crate::{EvalError, Single, Value, Version};
use dra_values::Text;
use quantity::Quantity;
use std::alloc::{AllocError, Global};

/// The value as a text, or NoOverload.
pub(crate) fn text_in(value: &Value) -> Result<&Text, EvalError>
    ensures { Shows (λ t. t.now) result (spec.text_in value.now) }
{
    match value {
        Value::Single(Single::Text(text)) => Ok(text),
        _ => Err(EvalError::NoOverload),
    }
}

pub(crate) fn starts_with(text: &Value, part: &Value) -> Result<Value, EvalError>
    ensures { result ≡ spec.method_with function.StartsWith text.now part.now }
{
    let text = text_in(text)?;
    let part = text_in(part)?;
    let begins = begins(text.as_str().as_bytes(), part.as_str().as_bytes());
    Ok(Value::bool(begins))
}

pub(crate) fn ends_with(text: &Value, part: &Value) -> Result<Value, EvalError>
    ensures { result ≡ spec.method_with function.EndsWith text.now part.now }
{
    let text = text_in(text)?;
    let part = text_in(part)?;
    let ends = text.as_str().as_bytes().ends_with(part.as_str().as_bytes());
    Ok(Value::bool(ends))
}

pub(crate) fn contains(text: &Value, part: &Value) -> Result<Value, EvalError>
    ensures { result ≡ spec.method_with function.Contains text.now part.now }
{
    let text = text_in(text)?;
    let part = text_in(part)?;
    let within = is_within(text.as_str().as_bytes(), part.as_str().as_bytes());
    Ok(Value::bool(within))
}

fn begins(text: &[u8], part: &[u8]) -> bool
    ensures { result ≡ spec.begins text.now part.now }
{
    text.starts_with(part)
}

/// Whether the part begins at some byte of the text. Of two texts in UTF-8 that is whether the one
/// has the other's characters.
fn is_within(text: &[u8], part: &[u8]) -> bool
    ensures { result ≡ spec.contains text.now part.now }
{
    for from in 0..text.len() {
        if begins(&text[from..], part) {
            return true;
        }
    }
    part.is_empty()
}

/// `quantity(text)`, or BadConversion.
pub(crate) fn quantity(text: &Value) -> Result<Value, EvalError>
    ensures { result ≡ spec.quantity_of text.now }
{
    let text = text_in(text)?;
    let quantity = read_quantity(text)?;
    Ok(Value::Single(Single::Quantity(quantity)))
}

/// `isQuantity(text)`
pub(crate) fn is_quantity(text: &Value) -> Result<Value, EvalError>
    ensures { result ≡ spec.is_quantity_of text.now }
{
    let text = text_in(text)?;
    Ok(Value::bool(read_quantity(text).is_ok()))
}

fn read_quantity(text: &Text) -> Result<Quantity, EvalError>
    ensures { result ≡ spec.quantity_read text.now }
{
    match Quantity::parse(text.as_str().as_bytes()) {
        Ok(quantity) => Ok(quantity),
        Err(_) => Err(EvalError::BadConversion),
    }
}

/// `semver(text)`, or BadConversion.
pub(crate) fn version(alloc: Global, text: &Value) -> Result<Value, EvalError>
    ensures { Gives result (spec.version_of text.now) }
{
    let text = text_in(text)?;
    let version = read_version(alloc, text)?;
    Ok(Value::Single(Single::Version(version)))
}

/// `isSemver(text)`
pub(crate) fn is_version(alloc: Global, text: &Value) -> Result<Value, EvalError>
    ensures { Gives result (spec.is_version_of text.now) }
{
    let text = text_in(text)?;
    match read_version(alloc, text) {
        Ok(_) => Ok(Value::bool(true)),
        Err(EvalError::Memory) => Err(EvalError::Memory),
        Err(_) => Ok(Value::bool(false)),
    }
}

fn read_version(alloc: Global, text: &Text) -> Result<Version, EvalError>
    ensures { Gives result (spec.version_read text.now) }
{
    match semver::Version::parse(alloc, text.as_str()) {
        Ok(version) => Ok(Version::new(version)),
        Err(error) => {
            if error == semver::Error::from(AllocError) {
                Err(EvalError::Memory)
            } else {
                Err(EvalError::BadConversion)
            }
        }
    }
}
