ghost use Rattle.serde_json.specs.View.{items_view, view};
ghost use Rattle.object_fields.specs.Fields.{Reads};
ghost use Rattle.object_fields.specs.Lists.{each};
ghost use Rattle.object_fields.specs.Selectors as spec;

use crate::error::{FieldError, or_memory};
use crate::fields::{object as object_field, text};
use crate::limits::value_object;
use crate::optional::optional_short_list;
use crate::path::Path;
use dra_values::{Seq, Text};
use serde_json::Value;
use std::alloc::Global;

/// The most selectors of a class, of `exactly` or of a subrequest (API reference of
/// `resource.k8s.io/v1`).
const SELECTORS_MOST: usize = 32;

/// The field `selectors`, which may be missing or null: the text of each `cel.expression`. WrongType
/// and TooMany above 32 of the list; then of each selector Missing and WrongType, at its index, at
/// `cel` and at `expression`, which is any text.
pub fn read_selectors(alloc: Global, object: &Value, path: &Path) -> Result<Seq<Text>, FieldError>
    ensures { Reads result (spec.selectors_at path.now (view object.now)) }
{
    match optional_short_list(alloc, object, path, "selectors", SELECTORS_MOST)? {
        Some(selectors) => {
            let path = path.member("selectors");
            read_each(alloc, selectors, &path)
        }
        None => Ok(Seq::empty(alloc)),
    }
}

fn read_each(alloc: Global, selectors: &[Value], path: &Path) -> Result<Seq<Text>, FieldError>
    ensures { Reads result (each spec.selector_at path.now (items_view selectors.now)) }
{
    let mut texts = Seq::empty(alloc);
    for place in 0..selectors.len() {
        let at = path.place(place);
        let text = read_selector(alloc, &selectors[place], &at)?;
        or_memory(alloc, texts.push(text))?;
    }
    Ok(texts)
}

fn read_selector(alloc: Global, value: &Value, path: &Path) -> Result<Text, FieldError>
    ensures { Reads result (spec.selector_at path.now (view value.now)) }
{
    let selector = value_object(alloc, value, path)?;
    let cel = object_field(alloc, selector, path, "cel")?;
    let path = path.member("cel");
    text(alloc, cel, &path, "expression")
}
