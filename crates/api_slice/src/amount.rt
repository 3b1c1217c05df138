ghost use Rattle.serde_json.specs.View.{number_view, view};
ghost use Rattle.object_fields.specs.Fields.{Reads};
ghost use Rattle.api_slice.specs.Amounts as fields;

use object_fields::{FieldError, FieldErrorKind, Path, field, value_object};
use quantity::{Quantity, QuantityError};
use serde_json::{Number, Value};
use std::alloc::Global;

/// One, in 10^-9.
const ONE: i128 = 1_000_000_000;

/// A field that is a quantity: a text, or a whole number of 64 bits. Missing, then WrongType, then
/// BadQuantity or OutOfRange.
pub(crate) fn read_quantity<'a>(
    alloc: Global,
    object: &Value,
    path: &'a Path<'a>,
    name: &'a str,
) -> Result<Quantity, FieldError>
    ensures { Reads result (fields.quantity_at path.now name.now (view object.now)) }
{
    let value = field(alloc, object, path, name)?;
    let path = path.member(name);
    quantity_of(alloc, value, &path)
}

/// The quantity of a value at its own path.
fn quantity_of(alloc: Global, value: &Value, path: &Path) -> Result<Quantity, FieldError>
    ensures { Reads result (fields.quantity_of path.now (view value.now)) }
{
    match value {
        Value::String(text) => quantity_in(alloc, path, text.as_str()),
        Value::Number(number) => number_quantity(alloc, path, number),
        _ => Err(FieldError::at(alloc, path, FieldErrorKind::WrongType)),
    }
}

fn quantity_in(alloc: Global, path: &Path, text: &str) -> Result<Quantity, FieldError>
    ensures { Reads result (fields.quantity_text path.now text.now) }
{
    match Quantity::parse(text.as_bytes()) {
        Ok(quantity) => Ok(quantity),
        Err(QuantityError::OutOfRange) => Err(FieldError::at(
            alloc,
            path,
            FieldErrorKind::OutOfRange,
        )),
        Err(_) => Err(FieldError::at(alloc, path, FieldErrorKind::BadQuantity)),
    }
}

fn number_quantity(alloc: Global, path: &Path, number: &Number) -> Result<Quantity, FieldError>
    ensures { Reads result (fields.number_quantity path.now (number_view number.now)) }
{
    if let Some(number) = number.as_i64() {
        whole_quantity(alloc, path, number)
    } else if number.is_u64() {
        Err(FieldError::at(alloc, path, FieldErrorKind::OutOfRange))
    } else {
        Err(FieldError::at(alloc, path, FieldErrorKind::WrongType))
    }
}

/// The quantity of a whole number of ones.
fn whole_quantity(alloc: Global, path: &Path, number: i64) -> Result<Quantity, FieldError>
    ensures { Reads result (fields.whole_quantity path.now number) }
{
    match Quantity::from_nanos(i128::from(number) * ONE) {
        Some(quantity) => Ok(quantity),
        None => Err(FieldError::at(alloc, path, FieldErrorKind::OutOfRange)),
    }
}

/// An object whose `value` is a quantity that isn't negative, as the values of counters are.
/// Missing, then WrongType, then BadQuantity or OutOfRange, which a negative quantity is too.
pub(crate) fn read_amount(alloc: Global, value: &Value, path: &Path) -> Result<Quantity, FieldError>
    ensures { Reads result (fields.amount_of path.now (view value.now)) }
{
    let object = value_object(alloc, value, path)?;
    let quantity = read_quantity(alloc, object, path, "value")?;
    if quantity.nanos() < 0 {
        Err(FieldError::of_field(alloc, path, "value", FieldErrorKind::OutOfRange))
    } else {
        Ok(quantity)
    }
}
