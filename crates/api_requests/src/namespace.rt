ghost use Rattle.std.specs.Prelude.{◌≡◌, IfOk, option_map};
ghost use Rattle.serde_json.specs.Data.{put as with_member};
ghost use Rattle.serde_json.specs.View.{members_view, view};
ghost use Rattle.api_requests.specs.Bodies as spec;

use crate::naming::{is_namespaced, lacks_namespace};
use api_routes::Kind;
use serde_json::{Map, Value, put};
use std::alloc::{AllocError, Global};

/// The members with one more or another.
fn with_member(
    mut members: Map<String, Value>,
    alloc: Global,
    key: &str,
    value: Value,
) -> Result<Map<String, Value>, AllocError>
    ensures { IfOk result (λ m. members_view m.entries ≡ with_member key.now (view value) (members_view members.entries)) }
{
    put(&mut members, alloc, key, value)?;
    Ok(members)
}

/// An object with one more member or another; another value stays.
fn in_object(value: Value, alloc: Global, key: &str, member: Value) -> Result<Value, AllocError>
    ensures { IfOk result (λ v. view v ≡ spec.with_member key.now (view member) (view value)) }
{
    match value {
        Value::Object(members) => Ok(Value::Object(with_member(members, alloc, key, member)?)),
        other => Ok(other),
    }
}

/// The metadata of a document with this namespace, or `None` if it has no metadata.
fn named_metadata(
    alloc: Global,
    document: &Value,
    namespace: &str,
) -> Result<Option<Value>, AllocError>
    ensures { IfOk result (λ o. option_map view o ≡ spec.named_metadata namespace.now (view document.now)) }
{
    let Some(metadata) = document.get("metadata") else {
        return Ok(None);
    };
    let metadata = metadata.clone()?;
    let namespace = Value::try_from_str(alloc, namespace)?;
    Ok(Some(in_object(metadata, alloc, "namespace", namespace)?))
}

/// The document with this namespace, if it lacks one and objects of its kind have one.
pub fn in_namespace(
    alloc: Global,
    document: Value,
    kind: Kind,
    namespace: &str,
) -> Result<Value, AllocError>
    ensures { IfOk result (λ v. view v ≡ spec.in_namespace kind namespace.now (view document)) }
{
    if is_namespaced(kind) && lacks_namespace(&document) {
        named(alloc, document, namespace)
    } else {
        Ok(document)
    }
}

/// The document with this namespace, if it has metadata.
fn named(alloc: Global, document: Value, namespace: &str) -> Result<Value, AllocError>
    ensures { IfOk result (λ v. view v ≡ spec.named namespace.now (view document)) }
{
    match named_metadata(alloc, &document, namespace)? {
        Some(metadata) => in_object(document, alloc, "metadata", metadata),
        None => Ok(document),
    }
}
