ghost use Rattle.std.specs.Prelude.{◌≡◌};
ghost use Rattle.serde_json.specs.View.{items_view, view};
ghost use Rattle.object_fields.specs.Fields.{Gives, Reads, natural_at, object_value, short_list_at, signed_at, table_value, text_value};
ghost use Rattle.serde_json.specs.View.{members_view};

use crate::error::{FieldError, or_memory};
use crate::fields::{list, whole};
use crate::kind::FieldErrorKind;
use crate::path::Path;
use dra_values::Text;
use serde_json::{Map, Value};
use std::alloc::Global;

/// A list of at most `most` items, borrowed. Missing, then WrongType, then TooMany.
#[tactic(auto, using(crate::proofs::Lengths::items_length_view))]
pub fn short_list<'a>(
    alloc: Global,
    object: &'a Value,
    path: &Path,
    name: &str,
    most: usize,
) -> Result<&'a [Value], FieldError>
    ensures { Gives (λ v. items_view v.now) result
        (short_list_at most path.now name.now (view object.now)) }
{
    let items = list(alloc, object, path, name)?;
    if items.len() > most {
        Err(FieldError::of_field(alloc, path, name, FieldErrorKind::TooMany))
    } else {
        Ok(items)
    }
}

/// A whole number from `least` to `most`. Missing, then WrongType, then OutOfRange.
pub fn natural(
    alloc: Global,
    object: &Value,
    path: &Path,
    name: &str,
    least: u64,
    most: u64,
) -> Result<u64, FieldError>
    ensures { Reads result (natural_at least most path.now name.now (view object.now)) }
{
    let number = whole(alloc, object, path, name)?;
    if i128::from(least) <= number && number <= i128::from(most) {
        Ok(number as u64)
    } else {
        Err(FieldError::of_field(alloc, path, name, FieldErrorKind::OutOfRange))
    }
}

/// A whole number from -2^63 to 2^63-1. Missing, then WrongType, then OutOfRange.
pub fn signed(alloc: Global, object: &Value, path: &Path, name: &str) -> Result<i64, FieldError>
    ensures { Reads result (signed_at path.now name.now (view object.now)) }
{
    match i64::try_from(whole(alloc, object, path, name)?) {
        Ok(number) => Ok(number),
        Err(_) => Err(FieldError::of_field(alloc, path, name, FieldErrorKind::OutOfRange)),
    }
}

/// A text at its own path, as an item of a list or a value of a map. Missing if it is null, then
/// WrongType.
pub fn value_text(alloc: Global, value: &Value, path: &Path) -> Result<Text, FieldError>
    ensures { Reads result (text_value path.now (view value.now)) }
{
    match value {
        Value::Null => Err(FieldError::at(alloc, path, FieldErrorKind::Missing)),
        Value::String(text) => or_memory(alloc, Text::from_str(alloc, text.as_str())),
        _ => Err(FieldError::at(alloc, path, FieldErrorKind::WrongType)),
    }
}

/// The members of a value that is an object, at its own path, borrowed. Missing if it is null,
/// then WrongType.
pub fn value_table<'a>(
    alloc: Global,
    value: &'a Value,
    path: &Path,
) -> Result<&'a Map<String, Value>, FieldError>
    ensures { Gives (λ m. members_view m.now.entries) result
        (table_value path.now (view value.now)) }
{
    match value {
        Value::Null => Err(FieldError::at(alloc, path, FieldErrorKind::Missing)),
        Value::Object(members) => Ok(members),
        _ => Err(FieldError::at(alloc, path, FieldErrorKind::WrongType)),
    }
}

/// A value that is an object, at its own path, borrowed as a value. Missing if it is null, then
/// WrongType.
pub fn value_object<'a>(
    alloc: Global,
    value: &'a Value,
    path: &Path,
) -> Result<&'a Value, FieldError>
    ensures { Gives (λ v. view v.now) result (object_value path.now (view value.now)) }
{
    match value {
        Value::Null => Err(FieldError::at(alloc, path, FieldErrorKind::Missing)),
        Value::Object(_) => Ok(value),
        _ => Err(FieldError::at(alloc, path, FieldErrorKind::WrongType)),
    }
}
