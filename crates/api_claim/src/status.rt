ghost use Rattle.std.specs.Prelude.{◌≡◌, ◌++◌, [], ◌∷◌, codes, option_map};
ghost use Rattle.serde_json.specs.Find.{as_str};
ghost use Rattle.serde_json.specs.View.{items_view, view};
ghost use Rattle.object_fields.specs.Fields.{Reads, ◌>>=◌ as ◌and_then◌};
ghost use Rattle.object_fields.specs.Lists.{each};
ghost use Rattle.object_fields.specs.declared.path.Step.TheVariants.{Member};
ghost use Rattle.api_claim.specs.Lists.{some_items_at};
ghost use Rattle.api_claim.specs.Status as fields;

use crate::asks::read_admin;
use crate::laws::limits_are_kept;
use crate::lists::{has_some, some_items};
use crate::types::{ClaimStatus, StatusResult};
use dra_values::{Seq, Text};
use object_fields::{
    DeviceId, FieldError, FieldErrorKind, ObjectMeta, Path, ReadItem, Scope, member, object,
    or_memory, read_items, text, unset, value_object,
};
use serde_json::Value;
use std::alloc::Global;

/// The most results of an allocation (API reference of `resource.k8s.io/v1`).
const RESULTS_MOST: usize = 32;

/// What is read of `status.allocation` of a claim.
#[derive(Drop)]
struct Allocation {
    results: Seq<StatusResult>,
    node: Text,
}

impl ClaimStatus {
    /// Reads the status of a ResourceClaim of the API reference of `resource.k8s.io/v1`, in a
    /// document that is a whole claim. Its fields, in the order in which they are looked at:
    ///
    /// - `metadata`, with the errors of `ObjectMeta::read`; only the version is kept
    /// - `status`, `status.allocation` and `status.allocation.devices` (Missing, WrongType)
    /// - `results` of the devices, 1 to 32 (Missing, WrongType, TooMany): of each `request`,
    ///   `driver`, `pool` and `device`, which are any text, and `adminAccess`
    /// - `status.allocation.nodeSelector` (Missing, WrongType): one term, without
    ///   `matchExpressions`, whose `matchFields` require that `metadata.name` is In one value;
    ///   NotSupported for any other selector (this project's own)
    /// - `status.reservedFor`, which must not be set (NotSupported, this project's own)
    ///
    /// `spec`, and fields that this project doesn't know, are not looked at. Memory may be returned
    /// at any point.
    pub fn read(alloc: Global, value: &Value) -> Result<ClaimStatus, FieldError>
        ensures { Reads result (fields.status_of (view value.now)) }
    {
        let meta = ObjectMeta::read(alloc, value, Scope::Namespaced)?;
        let allocation = read_status(alloc, value)?;
        limits_are_kept();
        Ok(ClaimStatus {
            version: meta.version,
            node: allocation.node,
            results: allocation.results,
        })
    }
}

fn read_status(alloc: Global, document: &Value) -> Result<Allocation, FieldError>
    ensures { Reads result (fields.status_at (view document.now)) }
{
    let top = Path::top();
    let status = object(alloc, document, &top, "status")?;
    let path = top.member("status");
    read_members(alloc, status, &path)
}

fn read_members(alloc: Global, status: &Value, path: &Path) -> Result<Allocation, FieldError>
    ensures { Reads result (fields.members_at path.now (view status.now)) }
{
    let allocation = read_allocation(alloc, status, path)?;
    unset(alloc, status, path, "reservedFor")?;
    Ok(allocation)
}

fn read_allocation(alloc: Global, status: &Value, path: &Path) -> Result<Allocation, FieldError>
    ensures { Reads result (fields.allocation_at path.now (view status.now)) }
{
    let allocation = object(alloc, status, path, "allocation")?;
    let path = path.member("allocation");
    read_parts(alloc, allocation, &path)
}

fn read_parts(alloc: Global, allocation: &Value, path: &Path) -> Result<Allocation, FieldError>
    ensures { Reads result (fields.allocation_in path.now (view allocation.now)) }
{
    let results = read_results(alloc, allocation, path)?;
    let node = read_node(alloc, allocation, path)?;
    Ok(Allocation { results, node })
}

fn read_results(
    alloc: Global,
    allocation: &Value,
    path: &Path,
) -> Result<Seq<StatusResult>, FieldError>
    ensures { Reads result (fields.results_at path.now (view allocation.now)) }
{
    let devices = object(alloc, allocation, path, "devices")?;
    let path = path.member("devices");
    read_result_list(alloc, devices, &path)
}

fn read_result_list(
    alloc: Global,
    devices: &Value,
    path: &Path,
) -> Result<Seq<StatusResult>, FieldError>
    ensures { Reads result
        (some_items_at fields.results_most path.now (codes "results") (view devices.now)
        and_then each fields.result_at (path.now ++ Member (codes "results") ∷ [])) }
{
    let results = some_items(alloc, devices, path, "results", RESULTS_MOST)?;
    let path = path.member("results");
    read_items(alloc, results, &path)
}

impl ReadItem for StatusResult {
    ghost reading = { fields.result_at };

    fn read_item(alloc: Global, item: &Value, path: &Path) -> Result<StatusResult, FieldError> {
        let found = value_object(alloc, item, path)?;
        let request = text(alloc, found, path, "request")?;
        let device = read_device(alloc, found, path)?;
        let admin = read_admin(alloc, found, path)?;
        Ok(StatusResult {
            request,
            device,
            admin,
        })
    }
}

fn read_device(alloc: Global, found: &Value, path: &Path) -> Result<DeviceId, FieldError>
    ensures { Reads result (fields.device_id_at path.now (view found.now)) }
{
    let driver = text(alloc, found, path, "driver")?;
    let pool = text(alloc, found, path, "pool")?;
    let device = text(alloc, found, path, "device")?;
    Ok(DeviceId {
        driver,
        pool,
        device,
    })
}

/// The node that `nodeSelector` names. NotSupported for any other selector.
fn read_node(alloc: Global, allocation: &Value, path: &Path) -> Result<Text, FieldError>
    ensures { Reads result (fields.node_at path.now (view allocation.now)) }
{
    let selector = object(alloc, allocation, path, "nodeSelector")?;
    match selector_node(selector) {
        Some(node) => or_memory(alloc, Text::from_str(alloc, node)),
        None => Err(FieldError::of_field(
            alloc,
            path,
            "nodeSelector",
            FieldErrorKind::NotSupported,
        )),
    }
}

fn selector_node(selector: &Value) -> Option<&str>
    ensures { option_map (λ s. s.now) result ≡ fields.selector_node (view selector.now) }
{
    match only_of(selector, "nodeSelectorTerms") {
        Some(term) => term_node(term),
        None => None,
    }
}

/// The node that a term without `matchExpressions` names.
fn term_node(term: &Value) -> Option<&str>
    ensures { option_map (λ s. s.now) result ≡ fields.term_node (view term.now) }
{
    if has_some(term, "matchExpressions") {
        return None;
    }
    match only_of(term, "matchFields") {
        Some(field) => field_node(field),
        None => None,
    }
}

/// The one value of `metadata.name` In.
fn field_node(field: &Value) -> Option<&str>
    ensures { option_map (λ s. s.now) result ≡ fields.field_node (view field.now) }
{
    if !says(field, "key", "metadata.name") || !says(field, "operator", "In") {
        return None;
    }
    match only_of(field, "values") {
        Some(value) => value.as_str(),
        None => None,
    }
}

/// Whether the member of that name is that text.
fn says(object: &Value, name: &str, want: &str) -> bool
    ensures { result ≡ fields.says name.now want.now (view object.now) }
{
    match member(object, name) {
        Some(value) => is_text(value, want),
        None => false,
    }
}

fn is_text(value: &Value, want: &str) -> bool
    ensures { result ≡ fields.is_text want.now (as_str (view value.now)) }
{
    match value.as_str() {
        Some(text) => text == want,
        None => false,
    }
}

/// The one item of the list of that name; None unless it is a list of exactly one item.
fn only_of<'a>(object: &'a Value, name: &str) -> Option<&'a Value>
    ensures { option_map (λ v. view v.now) result ≡ fields.only_of name.now (view object.now) }
{
    match member(object, name) {
        Some(Value::Array(items)) => only_item(items.as_slice()),
        _ => None,
    }
}

fn only_item(items: &[Value]) -> Option<&Value>
    ensures { option_map (λ v. view v.now) result ≡ fields.only_item (items_view items.now) }
{
    match items {
        [] => None,
        [item] => Some(item),
        [_, _, ..] => None,
    }
}
