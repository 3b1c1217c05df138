ghost use Rattle.std.specs.Prelude.{◌≡◌, ◌↔◌, IfOk, IfErr, IsErrOf, option_map};
ghost use Rattle.serde_json.specs.View.{items_view, view};
ghost use Rattle.commands.specs.Commands as spec;
ghost use Rattle.commands.specs.Readings.{Fails, FailsJson, Unfailing, json_of, reading};
ghost use Rattle.commands.specs.Readings as readings;

use crate::document::{Document, ObjectKind, document_of};
use crate::fields::{read_key, read_target};
use crate::objects::read_ready;
use crate::{Command, Given, GivenError};
use cluster::Mode;
use doc_split::Doc;
use dra_values::Seq;
use object_fields::FieldErrorKind;
use serde_json::Value;
use std::alloc::{AllocError, Global};
use std::str;

/// The most members of a Together (this project's own rule).
const TOGETHER_MOST: usize = 256;

/// What a document asks for, in order, where a Schedule makes at most so many attempts. Unless memory
/// runs out, `NotJson` is returned if and only if its bytes aren't one JSON object in UTF-8, and
/// `NotACommand` if and only if they are one that is no command. `Memory` is returned only if memory
/// runs out.
///
/// The document's `apiVersion` and `kind` say what it is:
///
/// | apiVersion | kind | Fields |
/// |---|---|---|
/// | `resource.k8s.io/v1` | ResourceSlice, DeviceClass, ResourceClaim | an object, applied |
/// | `v1` | Node, Pod | an object, applied |
/// | `v1` | List | `items`: a list of objects of the two rows above, each applied |
/// | `dra.replay/v1` | Delete | `target`, the kind of an object; `namespace`, `name` |
/// | `dra.replay/v1` | Schedule, Release, Prepare, Unprepare | a pod's `namespace`, `name` |
/// | `dra.replay/v1` | Reopen | none |
/// | `dra.replay/v1` | Together | `commands`: 1 to 256 objects, Deletes, Schedules and Releases |
///
/// The kinds of `resource.k8s.io/v1` and `v1` are those of the Kubernetes API reference; the
/// documents of `dra.replay/v1` are this project's own. `name` is any text; `namespace` is any
/// text, and `default` if it is missing or null. A document whose fields don't read so is no
/// command, nor is a List or a Together with a member that isn't allowed there. A List is one
/// command for each of its items, and none if it is empty; every other document is one `Given`.
/// An object is always a command, whatever its fields: it is Invalid, with the first error in their
/// order, if they don't read, and else applied with `Mode::Apply`.
pub fn commands(alloc: Global, doc: &Doc, attempts: u64) -> Result<Vec<Given>, GivenError>
    ensures given { IfOk result (λ given. reading attempts doc.now.bytes.items ≡ readings.Asks given.items) }
    ensures not_json { Unfailing result → IsErrOf result GivenError.NotJson ↔ reading attempts doc.now.bytes.items ≡ readings.NotJson }
    ensures not_a_command { Unfailing result → IsErrOf result GivenError.NotACommand ↔ reading attempts doc.now.bytes.items ≡ readings.NotACommand }
{
    read_document(alloc, &doc.bytes, attempts)
}

/// What a document of these bytes asks for.
fn read_document(alloc: Global, bytes: &[u8], attempts: u64) -> Result<Vec<Given>, GivenError>
    ensures given { IfOk result (λ given. reading attempts bytes.now ≡ readings.Asks given.items) }
    ensures fails { IfErr result (λ e. Fails e (reading attempts bytes.now)) }
{
    let value = match read_object(alloc, bytes) {
        Ok(value) => value,
        Err(error) => return Err(error),
    };
    match given_in(alloc, &value, attempts) {
        Ok(Some(given)) => Ok(given.into_vec()),
        Ok(None) => Err(GivenError::NotACommand),
        Err(_) => Err(GivenError::Memory),
    }
}

/// The JSON object that the bytes are.
fn read_object(alloc: Global, bytes: &[u8]) -> Result<Value, GivenError>
    ensures value { IfOk result (λ value. json_of bytes.now ≡ Some (view value)) }
    ensures fails { IfErr result (λ e. FailsJson e (json_of bytes.now)) }
{
    let Ok(text) = str::from_utf8(bytes) else {
        return Err(GivenError::NotJson);
    };
    match Value::from_str(alloc, text) {
        Ok(value) => {
            if value.is_object() {
                Ok(value)
            } else {
                Err(GivenError::NotJson)
            }
        }
        Err(error) => {
            if error.is_memory() {
                Err(GivenError::Memory)
            } else {
                Err(GivenError::NotJson)
            }
        }
    }
}

/// What a JSON value asks for, None if it is no command.
fn given_in(alloc: Global, value: &Value, attempts: u64) -> Result<Option<Seq<Given>>, AllocError>
    ensures { IfOk result (λ given. given ≡ spec.given_of attempts (view value.now)) }
{
    match document_of(value) {
        None => Ok(None),
        Some(document) => given_by(alloc, document, value, attempts),
    }
}

/// What a document of this kind asks for.
fn given_by(
    alloc: Global,
    document: Document,
    value: &Value,
    attempts: u64,
) -> Result<Option<Seq<Given>>, AllocError>
    ensures { IfOk result (λ given. given ≡ spec.given_by attempts (view value.now) document) }
{
    match document {
        Document::Object(kind) => alone(alloc, Some(Given::One(apply(alloc, kind, value)?))),
        Document::List => list(alloc, value),
        Document::Delete => alone(alloc, one(delete(alloc, value)?)),
        Document::Schedule => alone(alloc, one(schedule(alloc, value, attempts)?)),
        Document::Release => alone(alloc, one(release(alloc, value)?)),
        Document::Prepare => alone(alloc, prepare(alloc, value)?),
        Document::Unprepare => alone(alloc, unprepare(alloc, value)?),
        Document::Reopen => alone(alloc, Some(Given::Reopen)),
        Document::Together => alone(alloc, together(alloc, value, attempts)?),
    }
}

/// What is asked for by itself.
fn alone(alloc: Global, given: Option<Given>) -> Result<Option<Seq<Given>>, AllocError>
    ensures { IfOk result (λ all. all ≡ spec.alone given) }
{
    let Some(given) = given else {
        return Ok(None);
    };
    let mut all = Seq::empty(alloc);
    all.push(given)?;
    Ok(Some(all))
}

fn one(command: Option<Command>) -> Option<Given>
    ensures { result ≡ option_map Given.One command }
{
    match command {
        Some(command) => Some(Given::One(command)),
        None => None,
    }
}

/// The commands of a List, None if its `items` aren't a list of objects.
fn list(alloc: Global, value: &Value) -> Result<Option<Seq<Given>>, AllocError>
    ensures { IfOk result (λ given. given ≡ spec.listed (view value.now)) }
{
    match value.get("items") {
        Some(Value::Array(items)) => apply_each(alloc, items.as_slice()),
        _ => Ok(None),
    }
}

fn apply_each(alloc: Global, items: &[Value]) -> Result<Option<Seq<Given>>, AllocError>
    ensures { IfOk result (λ given. given ≡ spec.each_of spec.list_item (items_view items.now)) }
{
    let mut all = Seq::empty(alloc);
    for value in items {
        match apply_item(alloc, value)? {
            Some(given) => all.push(given)?,
            None => return Ok(None),
        }
    }
    Ok(Some(all))
}

fn apply_item(alloc: Global, value: &Value) -> Result<Option<Given>, AllocError>
    ensures { IfOk result (λ given. given ≡ spec.list_item (view value.now)) }
{
    match document_of(value) {
        Some(Document::Object(kind)) => Ok(Some(Given::One(apply(alloc, kind, value)?))),
        _ => Ok(None),
    }
}

/// A Together, None if its `commands` aren't 1 to 256 that may run at the same time.
fn together(alloc: Global, value: &Value, attempts: u64) -> Result<Option<Given>, AllocError>
    ensures { IfOk result (λ given. given ≡ spec.together attempts (view value.now)) }
{
    match value.get("commands") {
        Some(Value::Array(commands)) => together_of(alloc, commands.as_slice(), attempts),
        _ => Ok(None),
    }
}

#[tactic(auto, using(crate::proofs::Lengths::items_length_view))]
fn together_of(
    alloc: Global,
    commands: &[Value],
    attempts: u64,
) -> Result<Option<Given>, AllocError>
    ensures { IfOk result (λ given. given ≡ option_map Given.Together (spec.together_of attempts (items_view commands.now))) }
{
    if commands.is_empty() || commands.len() > TOGETHER_MOST {
        return Ok(None);
    }
    match read_members(alloc, commands, attempts)? {
        Some(members) => Ok(Some(Given::Together(members))),
        None => Ok(None),
    }
}

fn read_members(
    alloc: Global,
    commands: &[Value],
    attempts: u64,
) -> Result<Option<Seq<Command>>, AllocError>
    ensures { IfOk result (λ members. members ≡ spec.each_of (spec.member attempts) (items_view commands.now)) }
{
    let mut all = Seq::empty(alloc);
    for value in commands {
        match member(alloc, value, attempts)? {
            Some(command) => all.push(command)?,
            None => return Ok(None),
        }
    }
    Ok(Some(all))
}

/// The command of a member of a Together, None if it may not be one or doesn't read.
fn member(alloc: Global, value: &Value, attempts: u64) -> Result<Option<Command>, AllocError>
    ensures { IfOk result (λ command. command ≡ spec.member attempts (view value.now)) }
{
    match document_of(value) {
        Some(Document::Object(kind)) => Ok(Some(apply(alloc, kind, value)?)),
        Some(Document::Delete) => delete(alloc, value),
        Some(Document::Schedule) => schedule(alloc, value, attempts),
        Some(Document::Release) => release(alloc, value),
        _ => Ok(None),
    }
}

/// The command that applies the object, or Invalid if it doesn't read.
fn apply(alloc: Global, kind: ObjectKind, value: &Value) -> Result<Command, AllocError>
    ensures { IfOk result (λ command. command ≡ spec.apply_of kind (view value.now)) }
{
    match read_ready(alloc, kind, value) {
        Ok(ready) => Ok(Command::Apply(ready, Mode::Apply)),
        Err(error) => {
            if error.kind == FieldErrorKind::Memory {
                Err(AllocError)
            } else {
                Ok(Command::Invalid(error))
            }
        }
    }
}

fn delete(alloc: Global, value: &Value) -> Result<Option<Command>, AllocError>
    ensures { IfOk result (λ command. command ≡ spec.delete_of (view value.now)) }
{
    match read_target(alloc, value)? {
        Some(target) => Ok(Some(Command::Delete(target))),
        None => Ok(None),
    }
}

fn schedule(alloc: Global, value: &Value, attempts: u64) -> Result<Option<Command>, AllocError>
    ensures { IfOk result (λ command. command ≡ spec.schedule_of attempts (view value.now)) }
{
    match read_key(alloc, value)? {
        Some(pod) => Ok(Some(Command::Schedule(pod, attempts))),
        None => Ok(None),
    }
}

fn release(alloc: Global, value: &Value) -> Result<Option<Command>, AllocError>
    ensures { IfOk result (λ command. command ≡ spec.release_of (view value.now)) }
{
    match read_key(alloc, value)? {
        Some(pod) => Ok(Some(Command::Release(pod))),
        None => Ok(None),
    }
}

fn prepare(alloc: Global, value: &Value) -> Result<Option<Given>, AllocError>
    ensures { IfOk result (λ given. given ≡ option_map Given.Prepare (spec.key_of (view value.now))) }
{
    match read_key(alloc, value)? {
        Some(pod) => Ok(Some(Given::Prepare(pod))),
        None => Ok(None),
    }
}

fn unprepare(alloc: Global, value: &Value) -> Result<Option<Given>, AllocError>
    ensures { IfOk result (λ given. given ≡ option_map Given.Unprepare (spec.key_of (view value.now))) }
{
    match read_key(alloc, value)? {
        Some(pod) => Ok(Some(Given::Unprepare(pod))),
        None => Ok(None),
    }
}
