ghost use Rattle.std.specs.Prelude.{◌≡◌, ℕ, List, option_map, IfOk};
ghost use Rattle.serde_json.specs.Data.{Data, no_members, string};
ghost use Rattle.serde_json.specs.View.{view};
ghost use Rattle.api_print.specs.Shapes.{flag_if, list_if, list_json, own_text, table_if, table_json, text_if};

use dra_values::{Table, Text};
use serde_json::{Map, Value, put};
use std::alloc::{AllocError, Global};

/// What is printed as one JSON value.
pub trait Printed {
    ghost json: { Self → Data };

    /// Its JSON. `AllocError` only if memory runs out.
    fn value(&self, alloc: Global) -> Result<Value, AllocError>
        ensures { IfOk result (λ v. view v ≡ json self.now) };
}

/// A text is a string.
impl Printed for Text {
    ghost json = { string };

    fn value(&self, alloc: Global) -> Result<Value, AllocError> {
        Value::try_from_str(alloc, self.as_str())
    }
}

/// A text that isn't empty. `AllocError` only if memory runs out.
pub fn some_text(alloc: Global, text: &Text) -> Result<Option<Value>, AllocError>
    ensures { IfOk result (λ o. option_map view o ≡ text_if text.now) }
{
    let text = text.as_str();
    if text.is_empty() {
        return Ok(None);
    }
    Ok(Some(Value::try_from_str(alloc, text)?))
}

/// What names a member of an object.
pub trait Named {
    ghost name: { Self → List ℕ };

    /// Its name. `AllocError` only if memory runs out.
    fn name(&self, alloc: Global) -> Result<Text, AllocError>
        ensures { IfOk result (λ t. t ≡ name self.now) };
}

/// A text names itself.
impl Named for Text {
    ghost name = { own_text };

    fn name(&self, alloc: Global) -> Result<Text, AllocError> {
        self.copy(alloc)
    }
}

/// A list of all items, in order. `AllocError` only if memory runs out.
pub fn list<T: Printed>(alloc: Global, items: &[T]) -> Result<Value, AllocError>
    ensures { IfOk result (λ v. view v ≡ list_json T.json items.now) }
{
    let mut list = Vec::new(alloc);
    for item in items {
        list.push(item.value(alloc)?)?;
    }
    Ok(Value::Array(list))
}

/// The same, or `None` if there are no items.
pub fn some_list<T: Printed>(alloc: Global, items: &[T]) -> Result<Option<Value>, AllocError>
    ensures { IfOk result (λ o. option_map view o ≡ list_if T.json items.now) }
{
    if items.is_empty() {
        return Ok(None);
    }
    let list = list(alloc, items)?;
    Ok(Some(list))
}

/// An object with a member for each entry. `AllocError` only if memory runs out.
pub fn table<K: Ord + Named, V: Printed>(
    alloc: Global,
    table: &Table<K, V>,
) -> Result<Value, AllocError>
    ensures { IfOk result (λ v. view v ≡ table_json K.name V.json table.now) }
{
    let mut members = Map::new(alloc);
    for (key, value) in table.as_map() {
        let name = key.name(alloc)?;
        let value = value.value(alloc)?;
        put(&mut members, alloc, name.as_str(), value)?;
    }
    Ok(Value::Object(members))
}

/// The same, or `None` if there are no entries.
pub fn some_table<K: Ord + Named, V: Printed>(
    alloc: Global,
    entries: &Table<K, V>,
) -> Result<Option<Value>, AllocError>
    ensures { IfOk result (λ o. option_map view o ≡ table_if K.name V.json entries.now) }
{
    if entries.is_empty() {
        return Ok(None);
    }
    let members = table(alloc, entries)?;
    Ok(Some(members))
}

/// True, or `None` for false.
pub fn flag(truth: bool) -> Option<Value>
    ensures { option_map view result ≡ flag_if truth }
{
    if truth { Some(Value::Bool(true)) } else { None }
}
