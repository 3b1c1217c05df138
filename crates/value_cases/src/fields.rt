use crate::input::CaseError;
use crate::shown::{Out, read};
use dra_values::Text;
use object_fields::{
    FieldError, ObjectMeta, Path, Scope, borrowed, field, list, member, object, table, text, truth,
    whole,
};
use serde_json::{Map, Value};
use std::alloc::{AllocError, Global};
use std::fmt::Display;

/// Appends a result's value, or its error.
pub fn printed<T: Display + Drop>(
    alloc: Global,
    out: &mut Out,
    answer: Result<T, FieldError>,
) -> Result<(), CaseError> {
    let value = read(alloc, out, answer)?;
    out.show(&value);
    Ok(())
}

/// Appends how many items a list has, or the error.
pub fn counted(
    alloc: Global,
    out: &mut Out,
    answer: Result<&[Value], FieldError>,
) -> Result<(), CaseError> {
    let items = read(alloc, out, answer)?;
    out.show(&items.len());
    Ok(())
}

/// Appends how many members an object has, or the error.
pub fn sized(
    alloc: Global,
    out: &mut Out,
    answer: Result<&Map<String, Value>, FieldError>,
) -> Result<(), CaseError> {
    let members = read(alloc, out, answer)?;
    out.show(&members.len());
    Ok(())
}

/// Appends the JSON text of a value, or the error.
pub fn written(
    alloc: Global,
    out: &mut Out,
    answer: Result<&Value, FieldError>,
) -> Result<(), CaseError> {
    let value = read(alloc, out, answer)?;
    out.json(alloc, value);
    Ok(())
}

fn push_member(alloc: Global, out: &mut Out, value: Option<&Value>) -> Result<(), CaseError> {
    match value {
        Some(value) => out.json(alloc, value),
        None => out.say("absent"),
    }
    Ok(())
}

/// Appends the field `f` by one of the readers that require it.
pub fn required(
    alloc: Global,
    out: &mut Out,
    reader: &str,
    value: &Value,
) -> Result<(), CaseError> {
    required_at(alloc, out, reader, value, &Path::top())
}

fn required_at(
    alloc: Global,
    out: &mut Out,
    reader: &str,
    value: &Value,
    top: &Path,
) -> Result<(), CaseError> {
    match reader {
        "member" => push_member(alloc, out, member(value, "f")),
        "field" => written(alloc, out, field(alloc, value, top, "f")),
        "borrowed" => printed(alloc, out, borrowed(alloc, value, top, "f")),
        "text" => printed(alloc, out, text(alloc, value, top, "f")),
        "whole" => printed(alloc, out, whole(alloc, value, top, "f")),
        "truth" => printed(alloc, out, truth(alloc, value, top, "f")),
        "list" => counted(alloc, out, list(alloc, value, top, "f")),
        "table" => sized(alloc, out, table(alloc, value, top, "f")),
        "object" => written(alloc, out, object(alloc, value, top, "f")),
        _ => Err(CaseError::BadCase),
    }
}

/// Appends the metadata of a document of a kind with or without namespace: the key, the version, which is 99 if
/// there is none, and a label.
pub fn metadata(alloc: Global, out: &mut Out, scope: &str, value: &Value) -> Result<(), CaseError> {
    match scope {
        "namespaced" => metadata_of(alloc, out, Scope::Namespaced, value),
        "cluster" => metadata_of(alloc, out, Scope::Cluster, value),
        _ => Err(CaseError::BadCase),
    }
}

fn metadata_of(alloc: Global, out: &mut Out, scope: Scope, value: &Value) -> Result<(), CaseError> {
    let meta = read(alloc, out, ObjectMeta::read(alloc, value, scope))?;
    out.show(&meta.key);
    out.show_after(" ", &meta.version.unwrap_or(99));
    Ok(push_label(alloc, out, &meta)?)
}

/// Appends the label `l`, if there is one.
fn push_label(alloc: Global, out: &mut Out, meta: &ObjectMeta) -> Result<(), AllocError> {
    let name = Text::from_str(alloc, "l")?;
    match meta.labels.get(&name) {
        Some(label) => {
            out.show_after(" ", label);
        }
        None => {}
    }
    Ok(())
}
