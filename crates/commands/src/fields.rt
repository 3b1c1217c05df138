ghost use Rattle.std.specs.Prelude.{◌≡◌, IfOk, option_map};
ghost use Rattle.serde_json.specs.View.{view};
ghost use Rattle.commands.specs.Commands as spec;

use crate::document::{ObjectKind, object_kind, text_at};
use cluster::Target;
use dra_values::Text;
use object_fields::{Key, member};
use serde_json::Value;
use std::alloc::{AllocError, Global};

/// The command's `namespace`: `default` if it is missing or null, None if it is of another
/// type than text.
fn namespace(value: &Value) -> Option<&str>
    ensures { option_map (λ s. s.now) result ≡ spec.namespace_of (view value.now) }
{
    match member(value, "namespace") {
        None => Some("default"),
        Some(namespace) => namespace.as_str(),
    }
}

/// The key that a command's `namespace` and `name` make, None if one of them doesn't read.
pub fn read_key(alloc: Global, value: &Value) -> Result<Option<Key>, AllocError>
    ensures { IfOk result (λ key. key ≡ spec.key_of (view value.now)) }
{
    match (namespace(value), text_at(value, "name")) {
        (Some(namespace), Some(name)) => Ok(Some(Key {
            namespace: Text::from_str(alloc, namespace)?,
            name: Text::from_str(alloc, name)?,
        })),
        _ => Ok(None),
    }
}

/// The object that a Delete's `target`, `namespace` and `name` make, None if one of them doesn't
/// read.
pub fn read_target(alloc: Global, value: &Value) -> Result<Option<Target>, AllocError>
    ensures { IfOk result (λ target. target ≡ spec.target_of (view value.now)) }
{
    let Some(kind) = target_kind(value) else {
        return Ok(None);
    };
    match read_key(alloc, value)? {
        Some(key) => Ok(Some(target_of(kind, key))),
        None => Ok(None),
    }
}

fn target_of(kind: ObjectKind, key: Key) -> Target
    ensures { result ≡ spec.target_by kind key }
{
    match kind {
        ObjectKind::ResourceSlice => Target::Slice(key.name),
        ObjectKind::DeviceClass => Target::Class(key.name),
        ObjectKind::ResourceClaim => Target::Claim(key),
        ObjectKind::Node => Target::Node(key.name),
        ObjectKind::Pod => Target::Pod(key),
    }
}

/// The kind of object that a Delete names.
fn target_kind(value: &Value) -> Option<ObjectKind>
    ensures { result ≡ spec.kind_at (view value.now) }
{
    match text_at(value, "target") {
        Some(name) => object_kind(name),
        None => None,
    }
}
