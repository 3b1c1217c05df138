ghost use Rattle.std.specs.Prelude.{◌≡◌, IfOk, Ok, Err, Result};
ghost use Rattle.api_routes.specs.Methods as spec;
ghost use Rattle.api_routes.specs.Paths.{path_part};

use crate::find::route_of;
use crate::segment::path_part;
use crate::{Asked, Kind, Route, Unserved};
use std::alloc::{AllocError, Global};

/// What a request of this method and target asks for, or why it is refused: `NotFound` if the path, which is the
/// target up to its first `?`, names nothing, and else `MethodNotAllowed` if the path has no such method.
/// Upper and lower case differ. `AllocError` is returned only if memory runs out.
///
/// | Path | Methods |
/// |---|---|
/// | `/apis/resource.k8s.io/v1/resourceslices`, `/apis/resource.k8s.io/v1/deviceclasses`, `/api/v1/nodes` | GET, POST |
/// | the same and `/{name}` | GET, PUT, DELETE |
/// | `/apis/resource.k8s.io/v1/namespaces/{namespace}/resourceclaims`, `/api/v1/namespaces/{namespace}/pods` | GET, POST |
/// | the same and `/{name}` | GET, PUT, DELETE |
/// | `/apis/resource.k8s.io/v1/namespaces/{namespace}/resourceclaims/{name}/status` | GET, PUT |
/// | `/apis/dra.replay/v1/namespaces/{namespace}/pods/{name}/schedule` and `/release` | POST |
/// | `/apis/dra.replay/v1/history` | GET |
#[tactic(auto, unfolding(crate::specs::Methods::asked_of))]
pub fn asked_of(
    alloc: Global,
    method: &str,
    target: &str,
) -> Result<Result<Asked, Unserved>, AllocError>
    ensures { IfOk result (λ asked. asked ≡ spec.asked_of method.now target.now) }
{
    match route_of(alloc, path_part(target))? {
        Some(route) => Ok(by_method(method, route)),
        None => Ok(Err(Unserved::NotFound)),
    }
}

fn by_method(method: &str, route: Route) -> Result<Asked, Unserved>
    ensures { result ≡ spec.by_method method.now route }
{
    match route {
        Route::Objects(kind, namespace) => {
            if method == "GET" {
                Ok(Asked::List(kind, namespace))
            } else if method == "POST" {
                Ok(Asked::Create(kind, namespace))
            } else {
                Err(Unserved::MethodNotAllowed)
            }
        }
        Route::Object(kind, key) => {
            if method == "GET" {
                Ok(Asked::Read(kind, key))
            } else if method == "PUT" {
                Ok(Asked::Update(kind, key))
            } else if method == "DELETE" {
                Ok(Asked::Delete(kind, key))
            } else {
                Err(Unserved::MethodNotAllowed)
            }
        }
        Route::Status(claim) => {
            if method == "GET" {
                Ok(Asked::Read(Kind::ResourceClaim, claim))
            } else if method == "PUT" {
                Ok(Asked::Adopt(claim))
            } else {
                Err(Unserved::MethodNotAllowed)
            }
        }
        Route::Schedule(pod) => only(method, "POST", Asked::Schedule(pod)),
        Route::Release(pod) => only(method, "POST", Asked::Release(pod)),
        Route::History => only(method, "GET", Asked::History),
    }
}

/// What is asked for, if the method is the path's only one.
fn only(method: &str, word: &str, asked: Asked) -> Result<Asked, Unserved>
    ensures { result ≡ spec.on method.now word.now asked (Err Unserved.MethodNotAllowed) }
{
    if method == word {
        Ok(asked)
    } else {
        Err(Unserved::MethodNotAllowed)
    }
}
