ghost use Rattle.std.specs.Prelude.{◌≡◌};
ghost use Rattle.serde_json.specs.View.{items_view, view};
ghost use Rattle.object_fields.specs.Fields.{Gives, Reads};
ghost use Rattle.object_fields.specs.NewNames.{is_among};
ghost use Rattle.api_claim.specs.Lists as fields;

use dra_values::Text;
use object_fields::{FieldError, FieldErrorKind, Path, member, read_dns_label, short_list};
use serde_json::Value;
use std::alloc::Global;

/// A list of 1 to `most` items, borrowed. Missing, also for an empty list, then WrongType and
/// TooMany.
pub(crate) fn some_items<'a>(
    alloc: Global,
    object: &'a Value,
    path: &Path,
    name: &str,
    most: usize,
) -> Result<&'a [Value], FieldError>
    ensures { Gives (λ v. items_view v.now) result
        (fields.some_items_at most path.now name.now (view object.now)) }
{
    let items = short_list(alloc, object, path, name, most)?;
    match items.first() {
        Some(_) => Ok(items),
        None => Err(FieldError::of_field(alloc, path, name, FieldErrorKind::Missing)),
    }
}

/// `name` of an object, a DNS label that isn't among those before. Missing, then WrongType, TooLong,
/// BadName and Doubled.
pub(crate) fn read_new_name(
    alloc: Global,
    object: &Value,
    path: &Path,
    before: &[Text],
) -> Result<Text, FieldError>
    ensures { Reads result (fields.new_name_at path.now before.now (view object.now)) }
{
    let name = read_dns_label(alloc, object, path, "name")?;
    if has_text(before, name.as_str()) {
        return Err(FieldError::of_field(alloc, path, "name", FieldErrorKind::Doubled));
    }
    Ok(name)
}

/// Whether the text is among the texts.
pub(crate) fn has_text(texts: &[Text], text: &str) -> bool
    ensures { result ≡ is_among text.now texts.now }
{
    for one in texts {
        if one.as_str() == text {
            return true;
        }
    }
    false
}

/// Whether the member of that name is there; an empty list counts as not there.
pub(crate) fn has_some(object: &Value, name: &str) -> bool
    ensures { result ≡ fields.has_some name.now (view object.now) }
{
    match member(object, name) {
        Some(value) => is_no_empty_list(value),
        None => false,
    }
}

fn is_no_empty_list(value: &Value) -> bool
    ensures { result ≡ fields.is_no_empty_list (view value.now) }
{
    match value {
        Value::Array(items) => has_items(items.as_slice()),
        _ => true,
    }
}

fn has_items(items: &[Value]) -> bool
    ensures { result ≡ fields.has_items (items_view items.now) }
{
    match items.first() {
        Some(_) => true,
        None => false,
    }
}
