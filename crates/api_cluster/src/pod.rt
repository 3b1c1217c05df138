ghost use Rattle.std.specs.Prelude.{◌≡◌, option_map};
ghost use Rattle.serde_json.specs.Find.{get};
ghost use Rattle.serde_json.specs.View.{view};
ghost use Rattle.object_fields.specs.Fields.{Reads};
ghost use Rattle.api_cluster.specs.Pods as fields;

use crate::laws::limits_are_kept;
use crate::types::{Pod, PodResourceClaim};
use dra_values::{Seq, Text};
use object_fields::{
    FieldError, FieldErrorKind, ObjectMeta, Path, ReadItem, Scope, optional_items, optional_object,
    text, unset, value_object,
};
use serde_json::Value;
use std::alloc::Global;

/// The most claims of a pod.
const CLAIMS_MOST: usize = 32;

impl Pod {
    /// Reads a Pod of the API reference of `v1`: its metadata, with the errors of
    /// `ObjectMeta::read`, then `spec` (WrongType), and in it `nodeName` and `resourceClaims`
    /// (WrongType, TooMany above 32), which all may be missing.
    ///
    /// A `nodeName` that isn't missing, null or the empty text is NotSupported, since a pod is bound
    /// by the scheduling of this project alone. Each entry of `resourceClaims` (Missing, WrongType)
    /// has no `resourceClaimTemplateName` (NotSupported if one is set, since nothing here makes
    /// claims from templates), and a `name` and a `resourceClaimName`, which are any texts (Missing,
    /// WrongType), in this order.
    ///
    /// Fields that this project doesn't know, such as a pod's containers, are not looked at. Memory may
    /// be returned at any point.
    pub fn read(alloc: Global, value: &Value) -> Result<Pod, FieldError>
        ensures { Reads result (fields.pod_of (view value.now)) }
    {
        let meta = ObjectMeta::read(alloc, value, Scope::Namespaced)?;
        let claims = read_spec(alloc, value)?;
        limits_are_kept();
        Ok(Pod {
            key: meta.key,
            version: meta.version,
            claims,
        })
    }
}

fn read_spec(alloc: Global, document: &Value) -> Result<Seq<PodResourceClaim>, FieldError>
    ensures { Reads result (fields.spec_at (view document.now)) }
{
    let top = Path::top();
    match optional_object(alloc, document, &top, "spec")? {
        Some(spec) => {
            let path = top.member("spec");
            read_members(alloc, spec, &path)
        }
        None => Ok(Seq::empty(alloc)),
    }
}

fn read_members(
    alloc: Global,
    spec: &Value,
    path: &Path,
) -> Result<Seq<PodResourceClaim>, FieldError>
    ensures { Reads result (fields.members_at path.now (view spec.now)) }
{
    read_node(alloc, spec, path)?;
    read_claims(alloc, spec, path)
}

/// Nothing, if the spec names no node.
fn read_node(alloc: Global, spec: &Value, path: &Path) -> Result<(), FieldError>
    ensures { Reads result (fields.node_at path.now (view spec.now)) }
{
    if is_no_name(spec.get("nodeName")) {
        Ok(())
    } else {
        Err(FieldError::of_field(alloc, path, "nodeName", FieldErrorKind::NotSupported))
    }
}

/// Whether a member is missing, null or the empty text.
fn is_no_name(member: Option<&Value>) -> bool
    ensures { result ≡ fields.is_no_name (option_map (λ v. view v.now) member.entry) }
{
    match member {
        None | Some(Value::Null) => true,
        Some(Value::String(text)) => text.is_empty(),
        Some(_) => false,
    }
}

fn read_claims(
    alloc: Global,
    spec: &Value,
    path: &Path,
) -> Result<Seq<PodResourceClaim>, FieldError>
    ensures { Reads result (fields.claims_at path.now (view spec.now)) }
{
    optional_items(alloc, spec, path, "resourceClaims", CLAIMS_MOST)
}

impl ReadItem for PodResourceClaim {
    ghost reading = { fields.entry_at };

    fn read_item(alloc: Global, item: &Value, path: &Path) -> Result<PodResourceClaim, FieldError> {
        let entry = value_object(alloc, item, path)?;
        unset(alloc, entry, path, "resourceClaimTemplateName")?;
        let name = text(alloc, entry, path, "name")?;
        let claim = text(alloc, entry, path, "resourceClaimName")?;
        Ok(PodResourceClaim { name, claim })
    }
}
