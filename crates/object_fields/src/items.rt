ghost use Rattle.std.specs.Prelude.{List, Result};
ghost use Rattle.serde_json.specs.Data.{Data};
ghost use Rattle.serde_json.specs.View.{items_view, view};
ghost use Rattle.object_fields.specs.Fields.{Reads, text_value};
ghost use Rattle.object_fields.specs.Lists.{each, each_at};
ghost use Rattle.object_fields.specs.declared.error.FieldError.{FieldError};
ghost use Rattle.object_fields.specs.declared.path.Step.{Step};

use crate::error::{FieldError, or_memory};
use crate::limits::value_text;
use crate::optional::optional_short_list;
use crate::path::Path;
use dra_values::{Seq, Text};
use serde_json::Value;
use std::alloc::Global;

/// A value that an item of a list is read as, whatever items precede it.
pub trait ReadItem: Sized {
    ghost reading: { List Step → Data → Result Self FieldError };

    /// The value of an item at its own path, or the first error of its fields.
    fn read_item(alloc: Global, item: &Value, path: &Path) -> Result<Self, FieldError>
        ensures { Reads result (reading path.now (view item.now)) };
}

/// Any text, as `value_text` reads it.
impl ReadItem for Text {
    ghost reading = { text_value };

    fn read_item(alloc: Global, item: &Value, path: &Path) -> Result<Text, FieldError> {
        value_text(alloc, item, path)
    }
}

/// The items of a list in order, each read at its index; the error of the first that can't be read.
pub fn read_items<T: ReadItem + Drop>(
    alloc: Global,
    items: &[Value],
    path: &Path,
) -> Result<Seq<T>, FieldError>
    ensures { Reads result (each T.reading path.now (items_view items.now)) }
{
    let mut read = Seq::empty(alloc);
    for place in 0..items.len() {
        let at = path.place(place);
        let item = T::read_item(alloc, &items[place], &at)?;
        or_memory(alloc, read.push(item))?;
    }
    Ok(read)
}

/// The items of a field that may be missing or null: WrongType, then TooMany above `most`, then as
/// `read_items`. No items if it is missing.
pub fn optional_items<T: ReadItem + Drop>(
    alloc: Global,
    object: &Value,
    path: &Path,
    name: &str,
    most: usize,
) -> Result<Seq<T>, FieldError>
    ensures { Reads result (each_at most T.reading path.now name.now (view object.now)) }
{
    match optional_short_list(alloc, object, path, name, most)? {
        Some(items) => {
            let path = path.member(name);
            read_items(alloc, items, &path)
        }
        None => Ok(Seq::empty(alloc)),
    }
}
