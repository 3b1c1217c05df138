ghost use Rattle.std.specs.Prelude.{◌≡◌, option_map};
ghost use Rattle.serde_json.specs.View.{items_view, members_view, view};
ghost use Rattle.object_fields.specs.Fields.{Gives, Reads, field_at, list_at, member_of, object_at, table_at, text_at, truth_at, whole_at};

use crate::error::{FieldError, or_memory};
use crate::kind::FieldErrorKind;
use crate::path::Path;
use dra_values::Text;
use serde_json::{Map, Value};
use std::alloc::Global;

/// The member of that name, if it is there and isn't null. Allocates nothing.
pub fn member<'a>(object: &'a Value, name: &str) -> Option<&'a Value>
    ensures { option_map (λ v. view v.now) result ≡ member_of name.now (view object.now) }
{
    match object.get(name) {
        None | Some(Value::Null) => None,
        Some(value) => Some(value),
    }
}

/// The member of that name. Missing if it isn't there or is null.
pub fn field<'a>(
    alloc: Global,
    object: &'a Value,
    path: &Path,
    name: &str,
) -> Result<&'a Value, FieldError>
    ensures { Gives (λ v. view v.now) result (field_at path.now name.now (view object.now)) }
{
    match member(object, name) {
        Some(value) => Ok(value),
        None => Err(FieldError::of_field(alloc, path, name, FieldErrorKind::Missing)),
    }
}

/// A text, borrowed. Missing, then WrongType.
pub fn borrowed<'a>(
    alloc: Global,
    object: &'a Value,
    path: &Path,
    name: &str,
) -> Result<&'a str, FieldError>
    ensures { Gives (λ s. s.now) result (text_at path.now name.now (view object.now)) }
{
    match field(alloc, object, path, name)?.as_str() {
        Some(text) => Ok(text),
        None => Err(FieldError::of_field(alloc, path, name, FieldErrorKind::WrongType)),
    }
}

/// A text. Missing, then WrongType.
pub fn text(alloc: Global, object: &Value, path: &Path, name: &str) -> Result<Text, FieldError>
    ensures { Reads result (text_at path.now name.now (view object.now)) }
{
    match borrowed(alloc, object, path, name) {
        Ok(text) => or_memory(alloc, Text::from_str(alloc, text)),
        Err(error) => Err(error),
    }
}

/// A whole number of 64 bits, signed or unsigned: from -2^63 to 2^64-1. Missing, then WrongType,
/// which any other number is too.
pub fn whole(alloc: Global, object: &Value, path: &Path, name: &str) -> Result<i128, FieldError>
    ensures { Reads result (whole_at path.now name.now (view object.now)) }
{
    let value = field(alloc, object, path, name)?;
    if let Some(n) = value.as_u64() {
        Ok(i128::from(n))
    } else if let Some(n) = value.as_i64() {
        Ok(i128::from(n))
    } else {
        Err(FieldError::of_field(alloc, path, name, FieldErrorKind::WrongType))
    }
}

/// `true` or `false`. Missing, then WrongType.
pub fn truth(alloc: Global, object: &Value, path: &Path, name: &str) -> Result<bool, FieldError>
    ensures { Reads result (truth_at path.now name.now (view object.now)) }
{
    match field(alloc, object, path, name)?.as_bool() {
        Some(truth) => Ok(truth),
        None => Err(FieldError::of_field(alloc, path, name, FieldErrorKind::WrongType)),
    }
}

/// A list, borrowed. Missing, then WrongType.
pub fn list<'a>(
    alloc: Global,
    object: &'a Value,
    path: &Path,
    name: &str,
) -> Result<&'a [Value], FieldError>
    ensures { Gives (λ v. items_view v.now) result (list_at path.now name.now (view object.now)) }
{
    match field(alloc, object, path, name)?.as_array() {
        Some(list) => Ok(list.as_slice()),
        None => Err(FieldError::of_field(alloc, path, name, FieldErrorKind::WrongType)),
    }
}

/// The members of a field that is an object, borrowed, in the order of their keys. Missing, then
/// WrongType.
pub fn table<'a>(
    alloc: Global,
    object: &'a Value,
    path: &Path,
    name: &str,
) -> Result<&'a Map<String, Value>, FieldError>
    ensures { Gives (λ m. members_view m.now.entries) result
        (table_at path.now name.now (view object.now)) }
{
    match field(alloc, object, path, name)?.as_object() {
        Some(map) => Ok(map),
        None => Err(FieldError::of_field(alloc, path, name, FieldErrorKind::WrongType)),
    }
}

/// A field whose value is an object, borrowed as a value. Missing, then WrongType.
pub fn object<'a>(
    alloc: Global,
    object: &'a Value,
    path: &Path,
    name: &str,
) -> Result<&'a Value, FieldError>
    ensures { Gives (λ v. view v.now) result (object_at path.now name.now (view object.now)) }
{
    let value = field(alloc, object, path, name)?;
    if value.is_object() {
        Ok(value)
    } else {
        Err(FieldError::of_field(alloc, path, name, FieldErrorKind::WrongType))
    }
}
