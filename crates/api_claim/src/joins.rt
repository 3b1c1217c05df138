ghost use Rattle.std.specs.Prelude.{◌≡◌, IfOk, map};
ghost use Rattle.std.specs.List.{zip};
ghost use Rattle.api_claim.specs.Requests.{kind_of, kind_with, request_of, subrequest_of};

use crate::asks::Asked;
use crate::types::{DeviceAsk, DeviceRequest, DeviceSubRequest, RequestKind};
use dra_values::{Seq, Text};
use std::alloc::{AllocError, Global};

/// The requests of these names and kinds, index by index.
pub(crate) fn join_requests(
    alloc: Global,
    names: Seq<Text>,
    kinds: Seq<RequestKind>,
) -> Result<Seq<DeviceRequest>, AllocError>
    ensures { IfOk result (λ s. s ≡ map request_of (zip names kinds)) }
{
    let mut requests = Seq::empty(alloc);
    for (name, kind) in names.into_vec().into_iter().zip(kinds.into_vec()) {
        requests.push(DeviceRequest { name, kind })?;
    }
    Ok(requests)
}

/// The kinds of requests that ask so, with the names of their subrequests.
pub(crate) fn join_kinds(
    alloc: Global,
    asks: Seq<Asked>,
    names: Seq<Seq<Text>>,
) -> Result<Seq<RequestKind>, AllocError>
    ensures { IfOk result (λ s. s ≡ map kind_of (zip asks names)) }
{
    let mut kinds = Seq::empty(alloc);
    for (asked, names) in asks.into_vec().into_iter().zip(names.into_vec()) {
        kinds.push(join_kind(alloc, asked, names)?)?;
    }
    Ok(kinds)
}

fn join_kind(alloc: Global, asked: Asked, names: Seq<Text>) -> Result<RequestKind, AllocError>
    ensures { IfOk result (λ k. k ≡ kind_with asked names) }
{
    match asked {
        Asked::Exactly(exactly) => Ok(RequestKind::Exactly(exactly)),
        Asked::FirstAvailable(asks) => {
            Ok(RequestKind::FirstAvailable(join_subrequests(alloc, names, asks)?))
        }
    }
}

fn join_subrequests(
    alloc: Global,
    names: Seq<Text>,
    asks: Seq<DeviceAsk>,
) -> Result<Seq<DeviceSubRequest>, AllocError>
    ensures { IfOk result (λ s. s ≡ map subrequest_of (zip names asks)) }
{
    let mut subrequests = Seq::empty(alloc);
    for (name, ask) in names.into_vec().into_iter().zip(asks.into_vec()) {
        subrequests.push(DeviceSubRequest { name, ask })?;
    }
    Ok(subrequests)
}
