ghost use Rattle.std.specs.Prelude.{◌≡◌, IfOk, [], Option, codes, option_map};
ghost use Rattle.api_routes.specs.Paths as spec;
ghost use Rattle.api_routes.specs.Paths.{following};

use crate::segment::{is_named, next};
use crate::{Kind, Route};
use dra_values::Text;
use object_fields::Key;
use std::alloc::{AllocError, Global};

/// What a path names, or `None` if it names nothing. Names and namespaces aren't empty, and are as they are in
/// the path: escapes aren't decoded. `AllocError` is returned only if memory runs out.
#[tactic(auto, unfolding(crate::specs::Paths::route_of))]
pub fn route_of(alloc: Global, path: &str) -> Result<Option<Route>, AllocError>
    ensures { IfOk result (λ r. r ≡ spec.route_of path.now) }
{
    let (before, rest) = next(path);
    if before == "" {
        root(alloc, rest)
    } else {
        Ok(None)
    }
}

fn root(alloc: Global, rest: Option<&str>) -> Result<Option<Route>, AllocError>
    ensures { IfOk result (λ r. r ≡ spec.root (following (option_map (λ p. p.now) rest.entry))) }
{
    let Some(path) = rest else {
        return Ok(None);
    };
    let (word, rest) = next(path);
    if word == "api" {
        core_version(alloc, rest)
    } else if word == "apis" {
        group(alloc, rest)
    } else {
        Ok(None)
    }
}

/// What follows `/api`.
fn core_version(alloc: Global, rest: Option<&str>) -> Result<Option<Route>, AllocError>
    ensures { IfOk result (λ r. r ≡ spec.under (codes "v1") spec.core (following (option_map (λ p. p.now) rest.entry))) }
{
    let Some(path) = rest else {
        return Ok(None);
    };
    let (word, rest) = next(path);
    if word == "v1" {
        core(alloc, rest)
    } else {
        Ok(None)
    }
}

/// What follows `/api/v1`.
fn core(alloc: Global, rest: Option<&str>) -> Result<Option<Route>, AllocError>
    ensures { IfOk result (λ r. r ≡ spec.core (following (option_map (λ p. p.now) rest.entry))) }
{
    let Some(path) = rest else {
        return Ok(None);
    };
    let (word, rest) = next(path);
    if word == "nodes" {
        objects(alloc, Kind::Node, "", rest)
    } else if word == "namespaces" {
        core_namespace(alloc, rest)
    } else {
        Ok(None)
    }
}

/// What follows `/api/v1/namespaces`.
fn core_namespace(alloc: Global, rest: Option<&str>) -> Result<Option<Route>, AllocError>
    ensures { IfOk result (λ r. r ≡ spec.named (λ namespace. spec.under (codes "pods") (spec.objects Kind.Pod namespace)) (following (option_map (λ p. p.now) rest.entry))) }
{
    let Some(path) = rest else {
        return Ok(None);
    };
    let (namespace, rest) = next(path);
    if is_named(namespace) {
        pods(alloc, namespace, rest)
    } else {
        Ok(None)
    }
}

fn pods(alloc: Global, namespace: &str, rest: Option<&str>) -> Result<Option<Route>, AllocError>
    ensures { IfOk result (λ r. r ≡ spec.under (codes "pods") (spec.objects Kind.Pod namespace.now) (following (option_map (λ p. p.now) rest.entry))) }
{
    let Some(path) = rest else {
        return Ok(None);
    };
    let (word, rest) = next(path);
    if word == "pods" {
        objects(alloc, Kind::Pod, namespace, rest)
    } else {
        Ok(None)
    }
}

/// What follows `/apis`.
fn group(alloc: Global, rest: Option<&str>) -> Result<Option<Route>, AllocError>
    ensures { IfOk result (λ r. r ≡ spec.groups (following (option_map (λ p. p.now) rest.entry))) }
{
    let Some(path) = rest else {
        return Ok(None);
    };
    let (word, rest) = next(path);
    if word == "resource.k8s.io" {
        resource_version(alloc, rest)
    } else if word == "dra.replay" {
        replay_version(alloc, rest)
    } else {
        Ok(None)
    }
}

/// What follows `/apis/resource.k8s.io`.
fn resource_version(alloc: Global, rest: Option<&str>) -> Result<Option<Route>, AllocError>
    ensures { IfOk result (λ r. r ≡ spec.under (codes "v1") spec.resource (following (option_map (λ p. p.now) rest.entry))) }
{
    let Some(path) = rest else {
        return Ok(None);
    };
    let (word, rest) = next(path);
    if word == "v1" {
        resource(alloc, rest)
    } else {
        Ok(None)
    }
}

/// What follows `/apis/resource.k8s.io/v1`.
fn resource(alloc: Global, rest: Option<&str>) -> Result<Option<Route>, AllocError>
    ensures { IfOk result (λ r. r ≡ spec.resource (following (option_map (λ p. p.now) rest.entry))) }
{
    let Some(path) = rest else {
        return Ok(None);
    };
    let (word, rest) = next(path);
    if word == "namespaces" {
        resource_namespace(alloc, rest)
    } else if word == "resourceslices" {
        objects(alloc, Kind::ResourceSlice, "", rest)
    } else if word == "deviceclasses" {
        objects(alloc, Kind::DeviceClass, "", rest)
    } else {
        Ok(None)
    }
}

/// What follows `/apis/resource.k8s.io/v1/namespaces`.
fn resource_namespace(alloc: Global, rest: Option<&str>) -> Result<Option<Route>, AllocError>
    ensures { IfOk result (λ r. r ≡ spec.named (λ namespace. spec.under (codes "resourceclaims") (spec.claims namespace)) (following (option_map (λ p. p.now) rest.entry))) }
{
    let Some(path) = rest else {
        return Ok(None);
    };
    let (namespace, rest) = next(path);
    if is_named(namespace) {
        resource_claims(alloc, namespace, rest)
    } else {
        Ok(None)
    }
}

fn resource_claims(
    alloc: Global,
    namespace: &str,
    rest: Option<&str>,
) -> Result<Option<Route>, AllocError>
    ensures { IfOk result (λ r. r ≡ spec.under (codes "resourceclaims") (spec.claims namespace.now) (following (option_map (λ p. p.now) rest.entry))) }
{
    let Some(path) = rest else {
        return Ok(None);
    };
    let (word, rest) = next(path);
    if word == "resourceclaims" {
        claims(alloc, namespace, rest)
    } else {
        Ok(None)
    }
}

/// What follows `/apis/dra.replay`.
fn replay_version(alloc: Global, rest: Option<&str>) -> Result<Option<Route>, AllocError>
    ensures { IfOk result (λ r. r ≡ spec.under (codes "v1") spec.replay (following (option_map (λ p. p.now) rest.entry))) }
{
    let Some(path) = rest else {
        return Ok(None);
    };
    let (word, rest) = next(path);
    if word == "v1" {
        replay(alloc, rest)
    } else {
        Ok(None)
    }
}

/// What follows `/apis/dra.replay/v1`.
fn replay(alloc: Global, rest: Option<&str>) -> Result<Option<Route>, AllocError>
    ensures { IfOk result (λ r. r ≡ spec.replay (following (option_map (λ p. p.now) rest.entry))) }
{
    let Some(path) = rest else {
        return Ok(None);
    };
    let (word, rest) = next(path);
    if word == "history" {
        Ok(last(Route::History, rest))
    } else if word == "namespaces" {
        replay_namespace(alloc, rest)
    } else {
        Ok(None)
    }
}

/// What follows `/apis/dra.replay/v1/namespaces`.
fn replay_namespace(alloc: Global, rest: Option<&str>) -> Result<Option<Route>, AllocError>
    ensures { IfOk result (λ r. r ≡ spec.named (λ namespace. spec.under (codes "pods") (spec.named (λ name. spec.doing (spec.key_of namespace name)))) (following (option_map (λ p. p.now) rest.entry))) }
{
    let Some(path) = rest else {
        return Ok(None);
    };
    let (namespace, rest) = next(path);
    if is_named(namespace) {
        replay_pods(alloc, namespace, rest)
    } else {
        Ok(None)
    }
}

fn replay_pods(
    alloc: Global,
    namespace: &str,
    rest: Option<&str>,
) -> Result<Option<Route>, AllocError>
    ensures { IfOk result (λ r. r ≡ spec.under (codes "pods") (spec.named (λ name. spec.doing (spec.key_of namespace.now name))) (following (option_map (λ p. p.now) rest.entry))) }
{
    let Some(path) = rest else {
        return Ok(None);
    };
    let (word, rest) = next(path);
    if word == "pods" {
        replay_pod(alloc, namespace, rest)
    } else {
        Ok(None)
    }
}

fn replay_pod(
    alloc: Global,
    namespace: &str,
    rest: Option<&str>,
) -> Result<Option<Route>, AllocError>
    ensures { IfOk result (λ r. r ≡ spec.named (λ name. spec.doing (spec.key_of namespace.now name)) (following (option_map (λ p. p.now) rest.entry))) }
{
    let Some(path) = rest else {
        return Ok(None);
    };
    let (name, rest) = next(path);
    if is_named(name) {
        let pod = key_of(alloc, namespace, name)?;
        Ok(doing(pod, rest))
    } else {
        Ok(None)
    }
}

/// What is done with a pod.
fn doing(pod: Key, rest: Option<&str>) -> Option<Route>
    ensures { result ≡ spec.doing pod (following (option_map (λ p. p.now) rest.entry)) }
{
    let Some(path) = rest else {
        return None;
    };
    let (word, rest) = next(path);
    if word == "schedule" {
        last(Route::Schedule(pod), rest)
    } else if word == "release" {
        last(Route::Release(pod), rest)
    } else {
        None
    }
}

/// The objects of a kind in a namespace, or the one whose name follows.
fn objects(
    alloc: Global,
    kind: Kind,
    namespace: &str,
    rest: Option<&str>,
) -> Result<Option<Route>, AllocError>
    ensures { IfOk result (λ r. r ≡ spec.objects kind namespace.now (following (option_map (λ p. p.now) rest.entry))) }
{
    let Some(path) = rest else {
        let namespace = Text::from_str(alloc, namespace)?;
        return Ok(Some(Route::Objects(kind, namespace)));
    };
    let (name, rest) = next(path);
    if is_named(name) {
        let key = key_of(alloc, namespace, name)?;
        Ok(last(Route::Object(kind, key), rest))
    } else {
        Ok(None)
    }
}

/// The claims of a namespace, or the one whose name follows.
fn claims(alloc: Global, namespace: &str, rest: Option<&str>) -> Result<Option<Route>, AllocError>
    ensures { IfOk result (λ r. r ≡ spec.claims namespace.now (following (option_map (λ p. p.now) rest.entry))) }
{
    let Some(path) = rest else {
        let namespace = Text::from_str(alloc, namespace)?;
        return Ok(Some(Route::Objects(Kind::ResourceClaim, namespace)));
    };
    let (name, rest) = next(path);
    if is_named(name) {
        let key = key_of(alloc, namespace, name)?;
        Ok(claim(key, rest))
    } else {
        Ok(None)
    }
}

/// A claim, or its status.
fn claim(key: Key, rest: Option<&str>) -> Option<Route>
    ensures { result ≡ spec.claim key (following (option_map (λ p. p.now) rest.entry)) }
{
    let Some(path) = rest else {
        return Some(Route::Object(Kind::ResourceClaim, key));
    };
    let (word, rest) = next(path);
    if word == "status" {
        last(Route::Status(key), rest)
    } else {
        None
    }
}

/// The route, if the path ends here.
#[tactic(auto, unfolding(crate::specs::Paths::segments))]
fn last(route: Route, rest: Option<&str>) -> Option<Route>
    ensures { result ≡ spec.last route (following (option_map (λ p. p.now) rest.entry)) }
{
    match rest {
        None => Some(route),
        Some(path) => {
            let _ = next(path);
            None
        }
    }
}

fn key_of(alloc: Global, namespace: &str, name: &str) -> Result<Key, AllocError>
    ensures { IfOk result (λ key. key ≡ spec.key_of namespace.now name.now) }
{
    Ok(Key {
        namespace: Text::from_str(alloc, namespace)?,
        name: Text::from_str(alloc, name)?,
    })
}
