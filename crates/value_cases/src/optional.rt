use crate::input::CaseError;
use crate::limited::joined;
use crate::shown::{Out, read};
use object_fields::{
    FieldError, Path, optional_dns_label, optional_items, optional_list, optional_natural,
    optional_object, optional_short_list, optional_signed, optional_table, optional_text,
    optional_truth, unset,
};
use serde_json::{Map, Value};
use std::alloc::Global;
use std::fmt::Display;

/// Appends the field `f` by one of the readers of fields that may be missing.
pub fn optional(
    alloc: Global,
    out: &mut Out,
    reader: &str,
    value: &Value,
) -> Result<(), CaseError> {
    optional_at(alloc, out, reader, value, &Path::top())
}

fn optional_at(
    alloc: Global,
    out: &mut Out,
    reader: &str,
    value: &Value,
    top: &Path,
) -> Result<(), CaseError> {
    match reader {
        "text" => printed_if(alloc, out, optional_text(alloc, value, top, "f")),
        "label" => printed_if(alloc, out, optional_dns_label(alloc, value, top, "f")),
        "truth" => printed_if(alloc, out, optional_truth(alloc, value, top, "f")),
        "natural" => printed_if(alloc, out, optional_natural(alloc, value, top, "f", 1, 9)),
        "signed" => printed_if(alloc, out, optional_signed(alloc, value, top, "f")),
        "list" => counted_if(alloc, out, optional_list(alloc, value, top, "f")),
        "short_list" => counted_if(alloc, out, optional_short_list(alloc, value, top, "f", 1)),
        "items" => joined(alloc, out, optional_items(alloc, value, top, "f", 2)),
        "table" => sized_if(alloc, out, optional_table(alloc, value, top, "f")),
        "object" => written_if(alloc, out, optional_object(alloc, value, top, "f")),
        "unset" => nothing(alloc, out, unset(alloc, value, top, "f")),
        _ => Err(CaseError::BadCase),
    }
}

fn printed_if<T: Display + Drop>(
    alloc: Global,
    out: &mut Out,
    answer: Result<Option<T>, FieldError>,
) -> Result<(), CaseError> {
    match read(alloc, out, answer)? {
        Some(value) => out.show(&value),
        None => out.say("absent"),
    }
    Ok(())
}

fn counted_if(
    alloc: Global,
    out: &mut Out,
    answer: Result<Option<&[Value]>, FieldError>,
) -> Result<(), CaseError> {
    match read(alloc, out, answer)? {
        Some(items) => out.show(&items.len()),
        None => out.say("absent"),
    }
    Ok(())
}

fn sized_if(
    alloc: Global,
    out: &mut Out,
    answer: Result<Option<&Map<String, Value>>, FieldError>,
) -> Result<(), CaseError> {
    match read(alloc, out, answer)? {
        Some(members) => out.show(&members.len()),
        None => out.say("absent"),
    }
    Ok(())
}

fn written_if(
    alloc: Global,
    out: &mut Out,
    answer: Result<Option<&Value>, FieldError>,
) -> Result<(), CaseError> {
    match read(alloc, out, answer)? {
        Some(value) => out.json(alloc, value),
        None => out.say("absent"),
    }
    Ok(())
}

fn nothing(alloc: Global, out: &mut Out, answer: Result<(), FieldError>) -> Result<(), CaseError> {
    read(alloc, out, answer)?;
    out.say("unset");
    Ok(())
}
