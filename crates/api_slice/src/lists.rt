ghost use Rattle.std.specs.Prelude.{◌≡◌, ◌+◌, nat_lt, option_map};
ghost use Rattle.serde_json.specs.View.{items_view, members_view, view};
ghost use Rattle.object_fields.specs.Fields.{Reads, has_no_items};
ghost use Rattle.object_fields.specs.Lists.{items_or_none};
ghost use Rattle.api_slice.specs.Lists.{count_on, count_at, is_empty_or_none, members_length};

use object_fields::{FieldError, FieldErrorKind, Path, member};
use serde_json::{Map, Value};
use std::alloc::Global;

/// The items of a list that may be missing.
pub(crate) fn items_or_none(items: Option<&[Value]>) -> &[Value]
    ensures { items_view result.now ≡ items_or_none (option_map (λ v. items_view v.now) items.entry) }
{
    match items {
        Some(items) => items,
        None => &[],
    }
}

/// Whether a member is an empty list, or missing.
pub(crate) fn is_empty_or_none(value: Option<&Value>) -> bool
    ensures { result ≡ is_empty_or_none (option_map (λ v. view v.now) value.entry) }
{
    match value {
        Some(Value::Array(items)) => no_items(items.as_slice()),
        Some(_) => false,
        None => true,
    }
}

/// Whether a list has no items.
pub(crate) fn no_items(items: &[Value]) -> bool
    ensures { result ≡ has_no_items (items_view items.now) }
{
    match items.first() {
        Some(_) => false,
        None => true,
    }
}

/// How many members an object has.
#[tactic(auto, using(crate::proofs::Lengths::members_length_view))]
pub(crate) fn member_count(members: &Map<String, Value>) -> usize
    ensures { result ≡ members_length (members_view members.now.entries) }
{
    members.len()
}

/// How many members the object of that name has; 0 if it is missing.
pub(crate) fn count_in(object: &Value, name: &str) -> usize
    ensures { result ≡ count_at name.now (view object.now) }
{
    match member(object, name) {
        Some(Value::Object(members)) => member_count(members),
        _ => 0,
    }
}

/// How many there are so far with the members of a map, `met` of them before it; TooMany at the path
/// where these are more than `most`.
pub(crate) fn count_on(
    alloc: Global,
    path: &Path,
    most: usize,
    met: usize,
    members: &Map<String, Value>,
) -> Result<usize, FieldError>
    ensures { Reads result (count_on path.now most met (members_view members.now.entries)) }
{
    let count = member_count(members);
    if exceed(most, met, count) {
        Err(FieldError::at(alloc, path, FieldErrorKind::TooMany))
    } else {
        Ok(met + count)
    }
}

/// Whether both together are more than `most`.
pub(crate) fn exceed(most: usize, count: usize, more: usize) -> bool
    ensures { result ≡ nat_lt most (count + more) }
{
    count > most || more > most - count
}
