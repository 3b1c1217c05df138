ghost use Rattle.std.specs.Prelude.{◌≡◌, option_map, IfOk, codes, decimal, string_bytes};
ghost use Rattle.serde_json.specs.View.{members_view, view};
ghost use Rattle.serde_json.specs.Data.{member, no_members, string};
ghost use Rattle.api_print.specs.Metadata.{key_metadata_json, metadata_json, object_json, uid_text};

use crate::fields::{Members, before, before_if, before_text, none};
use object_fields::Key;
use serde_json::Value;
use std::alloc::{AllocError, Global};

/// The uid of what the entry at this index created: `00000000-0000-4000-8000-` and the index in
/// twelve lower-case hexadecimal digits, or as many as it has if it has more. `AllocError` only if
/// memory runs out. The form is this project's own.
#[tactic(auto, using(crate::proofs::Padded::padded_twelve), unfolding(crate::specs::Metadata::uid_text))]
pub fn uid_text(alloc: Global, place: u64) -> Result<String, AllocError>
    ensures { IfOk result (λ s. string_bytes s ≡ uid_text place) }
{
    format!(in alloc; "00000000-0000-4000-8000-{place:012x}")
}

/// A uid as a string.
pub fn uid(alloc: Global, place: u64) -> Result<Value, AllocError>
    ensures { IfOk result (λ v. view v ≡ string (uid_text place)) }
{
    let text = uid_text(alloc, place)?;
    Ok(Value::String(text))
}

/// A version as a string of decimal digits.
fn version_string(alloc: Global, version: u64) -> Result<Value, AllocError>
    ensures { IfOk result (λ v. view v ≡ string (decimal version)) }
{
    let text = format!(in alloc; "{version}")?;
    Ok(Value::String(text))
}

/// `resourceVersion` and `uid`.
fn version_and_uid(alloc: Global, version: u64, place: u64) -> Result<Members, AllocError>
    ensures { IfOk result (λ m. members_view m.entries ≡ member (codes "resourceVersion") (string (decimal version))
        (member (codes "uid") (string (uid_text place)) no_members)) }
{
    let uid = uid(alloc, place)?;
    let members = before(none(alloc), alloc, "uid", uid)?;
    let version = version_string(alloc, version)?;
    before(members, alloc, "resourceVersion", version)
}

/// The metadata of an object without namespace.
pub fn metadata(
    alloc: Global,
    labels: Option<Value>,
    name: &str,
    version: u64,
    place: u64,
) -> Result<Value, AllocError>
    ensures { IfOk result (λ v. view v ≡ metadata_json (option_map view labels) name.now version place) }
{
    let members = version_and_uid(alloc, version, place)?;
    let members = before_text(members, alloc, "name", name)?;
    let members = before_if(members, alloc, "labels", labels)?;
    Ok(Value::Object(members))
}

/// The metadata of an object with a namespace.
pub fn key_metadata(alloc: Global, key: &Key, version: u64, place: u64) -> Result<Value, AllocError>
    ensures { IfOk result (λ v. view v ≡ key_metadata_json key.now version place) }
{
    let members = version_and_uid(alloc, version, place)?;
    let members = before_text(members, alloc, "namespace", key.namespace.as_str())?;
    let members = before_text(members, alloc, "name", key.name.as_str())?;
    Ok(Value::Object(members))
}

/// An object of an API version and a kind. `AllocError` only if memory runs out.
#[tactic(auto, using(crate::proofs::Order::before_member_if))]
pub fn object(
    alloc: Global,
    version: &str,
    kind: &str,
    metadata: Value,
    spec: Option<Value>,
    status: Option<Value>,
) -> Result<Value, AllocError>
    ensures { IfOk result (λ v. view v ≡ object_json version.now kind.now (view metadata) (option_map view spec) (option_map view status)) }
{
    let members = before_if(none(alloc), alloc, "status", status)?;
    let members = before_if(members, alloc, "spec", spec)?;
    let members = before(members, alloc, "metadata", metadata)?;
    let members = before_text(members, alloc, "kind", kind)?;
    let members = before_text(members, alloc, "apiVersion", version)?;
    Ok(Value::Object(members))
}
