use crate::fields::{counted, printed, sized, written};
use crate::input::CaseError;
use crate::shown::{Out, read};
use dra_values::{Seq, Text};
use object_fields::{
    FieldError, Path, list, natural, read_dns_label, read_dns_subdomain, read_items,
    read_pool_name, read_selectors, short_list, signed, value_object, value_table, value_text,
};
use serde_json::Value;
use std::alloc::Global;

/// Appends the field `f`, or the whole value, by one of the readers with limits.
pub fn limited(alloc: Global, out: &mut Out, reader: &str, value: &Value) -> Result<(), CaseError> {
    limited_at(alloc, out, reader, value, &Path::top())
}

fn limited_at(
    alloc: Global,
    out: &mut Out,
    reader: &str,
    value: &Value,
    top: &Path,
) -> Result<(), CaseError> {
    match reader {
        "short_list" => counted(alloc, out, short_list(alloc, value, top, "f", 2)),
        "natural" => printed(alloc, out, natural(alloc, value, top, "f", 1, 9)),
        "signed" => printed(alloc, out, signed(alloc, value, top, "f")),
        "label" => printed(alloc, out, read_dns_label(alloc, value, top, "f")),
        "subdomain" => printed(alloc, out, read_dns_subdomain(alloc, value, top, "f", 8)),
        "pool" => printed(alloc, out, read_pool_name(alloc, value, top, "f")),
        "value_text" => printed(alloc, out, value_text(alloc, value, top)),
        "value_table" => sized(alloc, out, value_table(alloc, value, top)),
        "value_object" => written(alloc, out, value_object(alloc, value, top)),
        "items" => joined(alloc, out, texts_of(alloc, value, top)),
        "selectors" => joined(alloc, out, read_selectors(alloc, value, top)),
        _ => Err(CaseError::BadCase),
    }
}

/// The texts of the list `f`.
fn texts_of(alloc: Global, value: &Value, path: &Path) -> Result<Seq<Text>, FieldError> {
    read_items(alloc, list(alloc, value, path, "f")?, path)
}

/// Appends the texts, with a `;` after each, or the error.
pub fn joined(
    alloc: Global,
    out: &mut Out,
    answer: Result<Seq<Text>, FieldError>,
) -> Result<(), CaseError> {
    let texts = read(alloc, out, answer)?;
    for text in texts.as_slice() {
        out.show(text);
        out.say(";");
    }
    Ok(())
}
