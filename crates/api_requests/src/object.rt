ghost use Rattle.std.specs.Prelude.{◌≡◌, IfOk, Ok};
ghost use Rattle.serde_json.specs.View.{view};
ghost use Rattle.object_fields.specs.Fields.{Reads};
ghost use Rattle.api_requests.specs.Objects as spec;

use api_claim::{ClaimStatus, ResourceClaim};
use api_cluster::{DeviceClass, Node, Pod};
use api_routes::Kind;
use api_slice::ResourceSlice;
use cluster::{Mode, Object, Ready};
use commands::Command;
use dra_values::Shared;
use object_fields::{FieldError, FieldErrorKind, Key, or_memory};
use serde_json::Value;
use std::alloc::{AllocError, Global};

/// The command that creates or updates the object that a document is, or `Invalid` with the first error of its
/// fields, or else of its selectors.
pub fn apply(alloc: Global, kind: Kind, mode: Mode, document: &Value) -> Result<Command, AllocError>
    ensures { IfOk result (λ command. command ≡ spec.apply_of kind mode (view document.now)) }
{
    match read_ready(alloc, kind, document) {
        Ok(ready) => Ok(Command::Apply(ready, mode)),
        Err(error) => invalid(error),
    }
}

/// The command that grants a claim what the status in a document says, or `Invalid` with the first error of its
/// fields.
pub fn adopt(alloc: Global, claim: Key, document: &Value) -> Result<Command, AllocError>
    ensures { IfOk result (λ command. command ≡ spec.adopt_of claim (view document.now)) }
{
    match ClaimStatus::read(alloc, document) {
        Ok(status) => Ok(Command::Adopt(claim, status)),
        Err(error) => invalid(error),
    }
}

/// The command that refuses a document with this error.
fn invalid(error: FieldError) -> Result<Command, AllocError>
    ensures { IfOk result (λ command. (command ≡ Command.Invalid error) × (error.kind ≡ FieldErrorKind.Memory → ⊥)) }
{
    if error.kind == FieldErrorKind::Memory {
        return Err(AllocError);
    }
    Ok(Command::Invalid(error))
}

fn read_ready(alloc: Global, kind: Kind, document: &Value) -> Result<Ready, FieldError>
    ensures { Reads result (spec.ready_object kind (view document.now)) }
{
    let object = read_object(alloc, kind, document)?;
    Ready::of(alloc, object)
}

fn read_object(alloc: Global, kind: Kind, document: &Value) -> Result<Object, FieldError>
    ensures { Reads result (spec.object_of kind (view document.now)) }
{
    match kind {
        Kind::ResourceSlice => {
            Ok(Object::Slice(shared(alloc, ResourceSlice::read(alloc, document)?)?))
        }
        Kind::DeviceClass => {
            Ok(Object::Class(shared(alloc, DeviceClass::read(alloc, document)?)?))
        }
        Kind::ResourceClaim => {
            Ok(Object::Claim(shared(alloc, ResourceClaim::read(alloc, document)?)?))
        }
        Kind::Node => Ok(Object::Node(shared(alloc, Node::read(alloc, document)?)?)),
        Kind::Pod => Ok(Object::Pod(shared(alloc, Pod::read(alloc, document)?)?)),
    }
}

/// The value with one owner, or Memory.
fn shared<T: Drop>(alloc: Global, value: T) -> Result<Shared<T>, FieldError>
    ensures { Reads result (Ok value) }
{
    or_memory(alloc, Shared::new(alloc, value))
}
