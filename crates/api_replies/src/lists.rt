ghost use Rattle.std.specs.Prelude.{◌≡◌, ◌++◌, IfOk, OnOk, true, false, Bool};
ghost use Rattle.serde_json.specs.Written.{comma_if, items_text};
ghost use Rattle.api_replies.specs.Answers.{answer_of};
ghost use Rattle.api_replies.specs.Lists as spec;

use crate::objects::targets;
use crate::outcomes::json;
use crate::quoted::push_quoted;
use api_print::print;
use api_routes::Kind;
use cluster::{State, Target};
use dra_values::Text;
use http::StatusCode;
use http_wire::Reply;
use std::alloc::{AllocError, Global};

/// The reply to a GET of all objects of a kind in a namespace: a List of that kind, in the order of keys, with how
/// many entries the history has. `AllocError` only if memory runs out.
pub fn listed(
    alloc: Global,
    kind: Kind,
    namespace: &Text,
    state: &State,
    place: u64,
) -> Result<Reply, AllocError>
    ensures { IfOk result (λ r. answer_of r ≡ spec.listed state.now place kind namespace.now) }
{
    let targets = targets(alloc, kind, namespace, state)?;
    let body = list_body(alloc, kind, targets.as_slice(), state, place)?;
    Ok(json(StatusCode::OK, body))
}

#[tactic(auto, using(crate::proofs::Texts::list_is))]
fn list_body(
    alloc: Global,
    kind: Kind,
    targets: &[Target],
    state: &State,
    place: u64,
) -> Result<Vec<u8>, AllocError>
    ensures { IfOk result (λ v. v.items ≡ spec.list_body state.now place kind targets.now) }
{
    let mut body = Vec::new(alloc);
    push_head(&mut body, kind)?;
    push_items(alloc, &mut body, targets, state)?;
    push_tail(alloc, &mut body, kind, place)?;
    Ok(body)
}

/// Appends the text of a list up to its items.
fn push_head(body: &mut Vec<u8>, kind: Kind) -> Result<(), AllocError>
    ensures { OnOk result (body.new.items ≡ body.old.items ++ spec.list_head kind) }
{
    body.extend_from_slice(b"{\"apiVersion\":")?;
    push_quoted(body, version_word(kind).as_bytes())?;
    body.extend_from_slice(b",\"items\":[")?;
    Ok(())
}

/// Appends the text of a list after its items.
fn push_tail(alloc: Global, body: &mut Vec<u8>, kind: Kind, place: u64) -> Result<(), AllocError>
    ensures { OnOk result (body.new.items ≡ body.old.items ++ spec.list_tail place kind) }
{
    let version = format!(in alloc; "{place}")?;
    body.extend_from_slice(b",\"kind\":")?;
    push_quoted(body, list_word(kind).as_bytes())?;
    body.extend_from_slice(b",\"metadata\":{\"resourceVersion\":")?;
    push_quoted(body, version.as_bytes())?;
    body.extend_from_slice(b"}}")?;
    Ok(())
}

/// Appends the objects that exist, with commas between them, and the closing bracket.
fn push_items(
    alloc: Global,
    body: &mut Vec<u8>,
    targets: &[Target],
    state: &State,
) -> Result<(), AllocError>
    ensures { OnOk result (body.new.items ≡ body.old.items ++ items_text false (spec.items state.now targets.now)) }
{
    let mut later = false;
    for target in targets {
        later = push_item(alloc, body, target, state, later)?;
    }
    body.push(b']')?;
    Ok(())
}

/// Appends an object, after a comma if others come before it. Returns whether one comes before the next.
fn push_item(
    alloc: Global,
    body: &mut Vec<u8>,
    target: &Target,
    state: &State,
    later: bool,
) -> Result<bool, AllocError>
    ensures { IfOk result (λ next. spec.PushesItem state.now target.now later body.old.items body.new.items next) }
{
    match print(alloc, target, state)? {
        Some(text) => {
            push_comma(body, later)?;
            body.extend_from_slice(&text)?;
            Ok(true)
        }
        None => Ok(later),
    }
}

fn push_comma(body: &mut Vec<u8>, later: bool) -> Result<(), AllocError>
    ensures { OnOk result (body.new.items ≡ body.old.items ++ comma_if later) }
{
    if later {
        body.push(b',')?;
    }
    Ok(())
}

/// The `apiVersion` of a List of a kind.
fn version_word(kind: Kind) -> &'static str
    ensures { result.now ≡ spec.version_word kind }
{
    match kind {
        Kind::Node => "v1",
        Kind::ResourceSlice => "resource.k8s.io/v1",
        Kind::DeviceClass => "resource.k8s.io/v1",
        Kind::ResourceClaim => "resource.k8s.io/v1",
        Kind::Pod => "v1",
    }
}

/// The `kind` of a List of a kind.
fn list_word(kind: Kind) -> &'static str
    ensures { result.now ≡ spec.list_word kind }
{
    match kind {
        Kind::Node => "NodeList",
        Kind::ResourceSlice => "ResourceSliceList",
        Kind::DeviceClass => "DeviceClassList",
        Kind::ResourceClaim => "ResourceClaimList",
        Kind::Pod => "PodList",
    }
}
