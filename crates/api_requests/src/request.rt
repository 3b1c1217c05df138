ghost use Rattle.std.specs.Prelude.{◌≡◌, IfOk, Ok, Err, Result, option_map};
ghost use Rattle.serde_json.specs.View.{view};
ghost use Rattle.api_requests.specs.Tasks as spec;

use crate::Task;
use crate::body::object_in;
use crate::namespace::in_namespace;
use crate::naming::{belongs, is_object};
use crate::object::{adopt, apply};
use api_routes::{Asked, Kind, Unserved, asked_of};
use cluster::Mode;
use commands::Command;
use dra_values::Text;
use object_fields::Key;
use serde_json::Value;
use std::alloc::{AllocError, Global};

/// What a request of this method, target and body is for, where a Schedule makes at most so many attempts, or why
/// it is refused.
///
/// The method and the path are looked at first (`NotFound`, `MethodNotAllowed`). Then the body of a POST of an
/// object and of a PUT has to be a JSON object in UTF-8, of the path's kind, whose `metadata.namespace` is the
/// path's, or is missing and then is the path's, and of a PUT whose `metadata.name` is the path's; else it is
/// `BadRequest`. Other bodies aren't looked at. A body with another error in its fields is a command all the same,
/// `Invalid` with the first error. `AllocError` is returned only if memory runs out.
#[tactic(auto, unfolding(crate::specs::Tasks::task_of))]
pub fn task_of(
    alloc: Global,
    method: &str,
    target: &str,
    body: &[u8],
    attempts: u64,
) -> Result<Result<Task, Unserved>, AllocError>
    ensures { IfOk result (λ task. task ≡ spec.task_of attempts method.now target.now body.now) }
{
    match asked_of(alloc, method, target)? {
        Ok(asked) => by_asked(alloc, asked, body, attempts),
        Err(why) => Ok(Err(why)),
    }
}

fn by_asked(
    alloc: Global,
    asked: Asked,
    body: &[u8],
    attempts: u64,
) -> Result<Result<Task, Unserved>, AllocError>
    ensures { IfOk result (λ task. task ≡ spec.by_asked attempts body.now asked) }
{
    match asked {
        Asked::List(kind, namespace) => Ok(Ok(Task::List(kind, namespace))),
        Asked::Create(kind, namespace) => create(alloc, kind, &namespace, body),
        Asked::Read(kind, key) => Ok(Ok(Task::Show(kind.target(key)))),
        Asked::Update(kind, key) => update(alloc, kind, &key, body),
        Asked::Delete(kind, key) => Ok(Ok(Task::Run(Command::Delete(kind.target(key))))),
        Asked::Adopt(claim) => write_status(alloc, claim, body),
        Asked::Schedule(pod) => Ok(Ok(Task::Run(Command::Schedule(pod, attempts)))),
        Asked::Release(pod) => Ok(Ok(Task::Run(Command::Release(pod)))),
        Asked::History => Ok(Ok(Task::History)),
    }
}

/// A POST of an object.
fn create(
    alloc: Global,
    kind: Kind,
    namespace: &Text,
    body: &[u8],
) -> Result<Result<Task, Unserved>, AllocError>
    ensures { IfOk result (λ task. task ≡ spec.create kind namespace.now body.now) }
{
    match object_in(alloc, body)? {
        Some(document) => create_from(alloc, kind, namespace.as_str(), document),
        None => Ok(Err(Unserved::BadRequest)),
    }
}

fn create_from(
    alloc: Global,
    kind: Kind,
    namespace: &str,
    document: Value,
) -> Result<Result<Task, Unserved>, AllocError>
    ensures { IfOk result (λ task. task ≡ spec.create_from kind namespace.now (view document)) }
{
    if !belongs(&document, kind, namespace) {
        return Ok(Err(Unserved::BadRequest));
    }
    let document = in_namespace(alloc, document, kind, namespace)?;
    Ok(Ok(Task::Run(apply(alloc, kind, Mode::Create, &document)?)))
}

/// A PUT of an object.
fn update(
    alloc: Global,
    kind: Kind,
    key: &Key,
    body: &[u8],
) -> Result<Result<Task, Unserved>, AllocError>
    ensures { IfOk result (λ task. task ≡ spec.update kind key.now body.now) }
{
    match object_in(alloc, body)? {
        Some(document) => update_from(alloc, kind, key, document),
        None => Ok(Err(Unserved::BadRequest)),
    }
}

fn update_from(
    alloc: Global,
    kind: Kind,
    key: &Key,
    document: Value,
) -> Result<Result<Task, Unserved>, AllocError>
    ensures { IfOk result (λ task. task ≡ spec.update_from kind key.now (view document)) }
{
    if !is_object(&document, kind, key) {
        return Ok(Err(Unserved::BadRequest));
    }
    let document = in_namespace(alloc, document, kind, key.namespace.as_str())?;
    Ok(Ok(Task::Run(apply(alloc, kind, Mode::Update, &document)?)))
}

/// A PUT of a claim's status.
fn write_status(
    alloc: Global,
    claim: Key,
    body: &[u8],
) -> Result<Result<Task, Unserved>, AllocError>
    ensures { IfOk result (λ task. task ≡ spec.write_status claim body.now) }
{
    match object_in(alloc, body)? {
        Some(document) => status_from(alloc, claim, &document),
        None => Ok(Err(Unserved::BadRequest)),
    }
}

fn status_from(
    alloc: Global,
    claim: Key,
    document: &Value,
) -> Result<Result<Task, Unserved>, AllocError>
    ensures { IfOk result (λ task. task ≡ spec.status_from claim (view document.now)) }
{
    if !is_object(document, Kind::ResourceClaim, &claim) {
        return Ok(Err(Unserved::BadRequest));
    }
    Ok(Ok(Task::Run(adopt(alloc, claim, document)?)))
}
