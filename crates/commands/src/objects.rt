ghost use Rattle.std.specs.Prelude.{Ok};
ghost use Rattle.serde_json.specs.View.{view};
ghost use Rattle.object_fields.specs.Fields.{Reads};
ghost use Rattle.commands.specs.Objects as spec;

use crate::document::ObjectKind;
use api_claim::ResourceClaim;
use api_cluster::{DeviceClass, Node, Pod};
use api_slice::ResourceSlice;
use cluster::{Object, Ready};
use dra_values::Shared;
use object_fields::{FieldError, or_memory};
use serde_json::Value;
use std::alloc::Global;

/// Reads an object of that kind and compiles its selectors: the object, or the first error of its
/// fields, or else of its selectors.
pub fn read_ready(alloc: Global, kind: ObjectKind, value: &Value) -> Result<Ready, FieldError>
    ensures { Reads result (spec.ready_object kind (view value.now)) }
{
    let object = read_object(alloc, kind, value)?;
    Ready::of(alloc, object)
}

fn read_object(alloc: Global, kind: ObjectKind, value: &Value) -> Result<Object, FieldError>
    ensures { Reads result (spec.object_of kind (view value.now)) }
{
    match kind {
        ObjectKind::ResourceSlice => {
            Ok(Object::Slice(shared(alloc, ResourceSlice::read(alloc, value)?)?))
        }
        ObjectKind::DeviceClass => {
            Ok(Object::Class(shared(alloc, DeviceClass::read(alloc, value)?)?))
        }
        ObjectKind::ResourceClaim => {
            Ok(Object::Claim(shared(alloc, ResourceClaim::read(alloc, value)?)?))
        }
        ObjectKind::Node => Ok(Object::Node(shared(alloc, Node::read(alloc, value)?)?)),
        ObjectKind::Pod => Ok(Object::Pod(shared(alloc, Pod::read(alloc, value)?)?)),
    }
}

/// The value with one owner, or Memory.
fn shared<T: Drop>(alloc: Global, value: T) -> Result<Shared<T>, FieldError>
    ensures { Reads result (Ok value) }
{
    or_memory(alloc, Shared::new(alloc, value))
}
