ghost use Rattle.std.specs.Prelude.{◌≡◌, option_map};
ghost use Rattle.serde_json.specs.View.{items_view, members_view, view};
ghost use Rattle.object_fields.specs.Fields.{Gives, Reads, dns_label_at, has_no_items, has_no_members, list_at, natural_at, object_at, optional_at, short_list_at, signed_at, table_at, text_at, truth_at, is_unset, unset_at};

use crate::error::{FieldError, or_memory};
use crate::fields::{borrowed, list, member, object as object_field, table, truth};
use crate::kind::FieldErrorKind;
use crate::limits::{natural, short_list, signed};
use crate::naming::read_dns_label;
use crate::path::Path;
use dra_values::Text;
use serde_json::{Map, Value};
use std::alloc::Global;

/// A text that may be missing or null. WrongType is its only error beside Memory.
pub fn optional_text(
    alloc: Global,
    object: &Value,
    path: &Path,
    name: &str,
) -> Result<Option<Text>, FieldError>
    ensures { Reads result (optional_at text_at path.now name.now (view object.now)) }
{
    if member(object, name).is_none() {
        return Ok(None);
    }
    match borrowed(alloc, object, path, name) {
        Ok(text) => Ok(Some(or_memory(alloc, Text::from_str(alloc, text))?)),
        Err(error) => Err(error),
    }
}

/// `true` or `false`, which may be missing or null. WrongType is its only error beside Memory.
pub fn optional_truth(
    alloc: Global,
    object: &Value,
    path: &Path,
    name: &str,
) -> Result<Option<bool>, FieldError>
    ensures { Reads result (optional_at truth_at path.now name.now (view object.now)) }
{
    if member(object, name).is_none() {
        return Ok(None);
    }
    Ok(Some(truth(alloc, object, path, name)?))
}

/// A whole number from `least` to `most` that may be missing or null. WrongType, then OutOfRange.
pub fn optional_natural(
    alloc: Global,
    object: &Value,
    path: &Path,
    name: &str,
    least: u64,
    most: u64,
) -> Result<Option<u64>, FieldError>
    ensures { Reads result
        (optional_at (natural_at least most) path.now name.now (view object.now)) }
{
    if member(object, name).is_none() {
        return Ok(None);
    }
    Ok(Some(natural(alloc, object, path, name, least, most)?))
}

/// A whole number from -2^63 to 2^63-1 that may be missing or null. WrongType, then OutOfRange.
pub fn optional_signed(
    alloc: Global,
    object: &Value,
    path: &Path,
    name: &str,
) -> Result<Option<i64>, FieldError>
    ensures { Reads result (optional_at signed_at path.now name.now (view object.now)) }
{
    if member(object, name).is_none() {
        return Ok(None);
    }
    Ok(Some(signed(alloc, object, path, name)?))
}

/// A list of any length that may be missing or null, borrowed. WrongType is its only error beside
/// Memory.
pub fn optional_list<'a>(
    alloc: Global,
    object: &'a Value,
    path: &Path,
    name: &str,
) -> Result<Option<&'a [Value]>, FieldError>
    ensures { Gives (option_map (λ v. items_view v.now)) result
        (optional_at list_at path.now name.now (view object.now)) }
{
    if member(object, name).is_none() {
        return Ok(None);
    }
    Ok(Some(list(alloc, object, path, name)?))
}

/// A list of at most `most` items that may be missing or null, borrowed. WrongType, then TooMany.
pub fn optional_short_list<'a>(
    alloc: Global,
    object: &'a Value,
    path: &Path,
    name: &str,
    most: usize,
) -> Result<Option<&'a [Value]>, FieldError>
    ensures { Gives (option_map (λ v. items_view v.now)) result
        (optional_at (short_list_at most) path.now name.now (view object.now)) }
{
    if member(object, name).is_none() {
        return Ok(None);
    }
    Ok(Some(short_list(alloc, object, path, name, most)?))
}

/// The members of an object that may be missing or null, borrowed, in the order of their keys.
/// WrongType is its only error beside Memory.
pub fn optional_table<'a>(
    alloc: Global,
    object: &'a Value,
    path: &Path,
    name: &str,
) -> Result<Option<&'a Map<String, Value>>, FieldError>
    ensures { Gives (option_map (λ m. members_view m.now.entries)) result
        (optional_at table_at path.now name.now (view object.now)) }
{
    if member(object, name).is_none() {
        return Ok(None);
    }
    Ok(Some(table(alloc, object, path, name)?))
}

/// An object that may be missing or null, borrowed as a value. WrongType is its only error beside
/// Memory.
pub fn optional_object<'a>(
    alloc: Global,
    object: &'a Value,
    path: &Path,
    name: &str,
) -> Result<Option<&'a Value>, FieldError>
    ensures { Gives (option_map (λ v. view v.now)) result
        (optional_at object_at path.now name.now (view object.now)) }
{
    if member(object, name).is_none() {
        return Ok(None);
    }
    Ok(Some(object_field(alloc, object, path, name)?))
}

/// A DNS label that may be missing or null, at most 63 bytes. WrongType, then TooLong and BadName.
pub fn optional_dns_label(
    alloc: Global,
    object: &Value,
    path: &Path,
    name: &str,
) -> Result<Option<Text>, FieldError>
    ensures { Reads result (optional_at dns_label_at path.now name.now (view object.now)) }
{
    if member(object, name).is_none() {
        return Ok(None);
    }
    Ok(Some(read_dns_label(alloc, object, path, name)?))
}

/// Ok if the member is missing, null, false, or an empty text, list or object; else
/// NotSupported (this project's own rule for what it leaves out).
pub fn unset(alloc: Global, object: &Value, path: &Path, name: &str) -> Result<(), FieldError>
    ensures { Reads result (unset_at path.now name.now (view object.now)) }
{
    match object.get(name) {
        None => Ok(()),
        Some(value) => {
            if is_blank(value) {
                Ok(())
            } else {
                Err(FieldError::of_field(alloc, path, name, FieldErrorKind::NotSupported))
            }
        }
    }
}

fn is_blank(value: &Value) -> bool
    ensures { result ≡ is_unset (view value.now) }
{
    match value {
        Value::Null => true,
        Value::Bool(truth) => !*truth,
        Value::Number(_) => false,
        Value::String(text) => text.as_str().is_empty(),
        Value::Array(items) => no_items(items.as_slice()),
        Value::Object(members) => no_members(members),
    }
}

#[tactic(auto, using(crate::proofs::Lengths::no_items_view))]
fn no_items(items: &[Value]) -> bool
    ensures { result ≡ has_no_items (items_view items.now) }
{
    items.is_empty()
}

#[tactic(auto, using(crate::proofs::Lengths::no_members_view))]
fn no_members(members: &Map<String, Value>) -> bool
    ensures { result ≡ has_no_members (members_view members.now.entries) }
{
    members.len() == 0
}
