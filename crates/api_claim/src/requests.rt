ghost use Rattle.std.specs.Prelude.{◌≡◌, ◌++◌, map, IfOk, Ok, OnOk};
ghost use Rattle.serde_json.specs.View.{items_view, view};
ghost use Rattle.object_fields.specs.Fields.{Reads};
ghost use Rattle.object_fields.specs.Lists.{each, each_beside};
ghost use Rattle.api_claim.specs.Requests as fields;

use crate::asks::Asked;
use crate::joins::{join_kinds, join_requests};
use crate::lists::{has_some, read_new_name, some_items};
use crate::types::{DeviceRequest, DeviceSubRequest, RequestKind};
use dra_values::{Seq, Text};
use object_fields::{
    FieldError, FieldErrorKind, Path, member, or_memory, read_items, short_list, value_object,
};
use serde_json::Value;
use std::alloc::{AllocError, Global};

/// The most requests of a claim (API reference of `resource.k8s.io/v1`).
const REQUESTS_MOST: usize = 32;

/// The most subrequests of a request (API reference of `resource.k8s.io/v1`).
const SUBREQUESTS_MOST: usize = 8;

/// The requests of a spec's devices. One row of fields is read over all requests before the next:
/// names, what is asked for, and the names of subrequests.
pub(crate) fn read_requests(
    alloc: Global,
    devices: &Value,
    path: &Path,
) -> Result<Seq<DeviceRequest>, FieldError>
    ensures { Reads result (fields.requests_at path.now (view devices.now)) }
{
    let requests = some_items(alloc, devices, path, "requests", REQUESTS_MOST)?;
    let path = path.member("requests");
    read_rows(alloc, requests, &path)
}

fn read_rows(
    alloc: Global,
    requests: &[Value],
    path: &Path,
) -> Result<Seq<DeviceRequest>, FieldError>
    ensures { Reads result (fields.requests_in path.now (items_view requests.now)) }
{
    let names = read_names(alloc, requests, path)?;
    let kinds = read_kinds(alloc, requests, path)?;
    or_memory(alloc, join_requests(alloc, names, kinds))
}

fn read_kinds(
    alloc: Global,
    requests: &[Value],
    path: &Path,
) -> Result<Seq<RequestKind>, FieldError>
    ensures { Reads result (fields.kinds_in path.now (items_view requests.now)) }
{
    let asks: Seq<Asked> = read_items(alloc, requests, path)?;
    let names = read_inner_names(alloc, requests, path)?;
    or_memory(alloc, join_kinds(alloc, asks, names))
}

/// The names of the requests.
fn read_names(alloc: Global, requests: &[Value], path: &Path) -> Result<Seq<Text>, FieldError>
    ensures { Reads result
        (each_beside fields.request_name_at path.now (items_view requests.now)) }
{
    let mut names = Seq::empty(alloc);
    for place in 0..requests.len() {
        let at = path.place(place);
        let name = read_name(alloc, &requests[place], &at, names.as_slice())?;
        or_memory(alloc, names.push(name))?;
    }
    Ok(names)
}

fn read_name(alloc: Global, value: &Value, path: &Path, before: &[Text]) -> Result<Text, FieldError>
    ensures { Reads result (fields.request_name_at path.now before.now (view value.now)) }
{
    let request = value_object(alloc, value, path)?;
    let name = read_new_name(alloc, request, path, before)?;
    if has_one_kind(request) {
        Ok(name)
    } else {
        Err(FieldError::at(alloc, path, FieldErrorKind::NotOne))
    }
}

/// Whether a request has exactly one of `exactly` and `firstAvailable`.
fn has_one_kind(request: &Value) -> bool
    ensures { result ≡ fields.has_one_kind (view request.now) }
{
    match member(request, "exactly") {
        Some(_) => !has_some(request, "firstAvailable"),
        None => has_some(request, "firstAvailable"),
    }
}

/// For each of the requests the names of its subrequests.
fn read_inner_names(
    alloc: Global,
    requests: &[Value],
    path: &Path,
) -> Result<Seq<Seq<Text>>, FieldError>
    ensures { Reads result (each fields.subrequest_names_at path.now (items_view requests.now)) }
{
    let mut names = Seq::empty(alloc);
    for place in 0..requests.len() {
        let at = path.place(place);
        let inner = read_subrequest_names(alloc, &requests[place], &at)?;
        or_memory(alloc, names.push(inner))?;
    }
    Ok(names)
}

fn read_subrequest_names(
    alloc: Global,
    request: &Value,
    path: &Path,
) -> Result<Seq<Text>, FieldError>
    ensures { Reads result (fields.subrequest_names_at path.now (view request.now)) }
{
    if !has_some(request, "firstAvailable") {
        return Ok(Seq::empty(alloc));
    }
    let subrequests = short_list(alloc, request, path, "firstAvailable", SUBREQUESTS_MOST)?;
    let path = path.member("firstAvailable");
    read_each_name(alloc, subrequests, &path)
}

fn read_each_name(
    alloc: Global,
    subrequests: &[Value],
    path: &Path,
) -> Result<Seq<Text>, FieldError>
    ensures { Reads result
        (each_beside fields.subrequest_name_at path.now (items_view subrequests.now)) }
{
    let mut names = Seq::empty(alloc);
    for place in 0..subrequests.len() {
        let at = path.place(place);
        let subrequest = value_object(alloc, &subrequests[place], &at)?;
        let name = read_new_name(alloc, subrequest, &at, names.as_slice())?;
        or_memory(alloc, names.push(name))?;
    }
    Ok(names)
}

/// The names by which constraints and results call the requests: that of each request, and
/// `request/subrequest`.
pub(crate) fn all_names(alloc: Global, requests: &[DeviceRequest]) -> Result<Seq<Text>, FieldError>
    ensures { Reads result (Ok (fields.all_names requests.now)) }
{
    let mut names = Seq::empty(alloc);
    for request in requests {
        or_memory(alloc, add_names(alloc, &mut names, request))?;
    }
    Ok(names)
}

/// Appends the names of one request.
fn add_names(
    alloc: Global,
    names: &mut Seq<Text>,
    request: &DeviceRequest,
) -> Result<(), AllocError>
    ensures { OnOk result (names.new ≡ names.old ++ fields.names_of request.now) }
{
    names.push(request.name.copy(alloc)?)?;
    match &request.kind {
        RequestKind::Exactly(_) => Ok(()),
        RequestKind::FirstAvailable(subrequests) => {
            add_inner_names(alloc, names, &request.name, subrequests.as_slice())
        }
    }
}

fn add_inner_names(
    alloc: Global,
    names: &mut Seq<Text>,
    request: &Text,
    subrequests: &[DeviceSubRequest],
) -> Result<(), AllocError>
    ensures { OnOk result
        (names.new ≡ names.old ++ map (fields.joined_name request.now) subrequests.now) }
{
    for subrequest in subrequests {
        names.push(joined_name(alloc, request, subrequest)?)?;
    }
    Ok(())
}

/// `request/subrequest`.
fn joined_name(
    alloc: Global,
    request: &Text,
    subrequest: &DeviceSubRequest,
) -> Result<Text, AllocError>
    ensures { IfOk result (λ name. name ≡ fields.joined_name request.now subrequest.now) }
{
    let name = format!(in alloc; "{request}/{}", subrequest.name)?;
    Text::new(alloc, name)
}
