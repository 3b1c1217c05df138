ghost use Rattle.std.specs.Prelude.{◌≡◌};
ghost use Rattle.serde_json.specs.View.{view};
ghost use Rattle.object_fields.specs.Fields.{Reads};
ghost use Rattle.api_claim.specs.Asks as fields;

use crate::lists::has_some;
use crate::types::{AllocationMode, DeviceAsk, ExactDeviceRequest};
use device_taints::read_tolerations;
use dra_values::{Seq, Text};
use object_fields::{
    FieldError, FieldErrorKind, Path, ReadItem, list, object, optional_natural, optional_text,
    optional_truth, read_items, read_selectors, text, unset, value_object,
};
use serde_json::Value;
use std::alloc::Global;

/// The greatest `count`, 2^31-1.
const COUNT_MOST: u64 = 2_147_483_647;

/// What one request asks for, before the names of its subrequests are read.
#[derive(Drop)]
pub(crate) enum Asked {
    Exactly(ExactDeviceRequest),
    FirstAvailable(Seq<DeviceAsk>),
}

/// What `exactly` or a subrequest asks for, before its tolerations are read.
#[derive(Drop)]
struct Selection {
    class: Text,
    selectors: Seq<Text>,
    mode: AllocationMode,
}

/// What one of the requests asks for.
impl ReadItem for Asked {
    ghost reading = { fields.asked_at };

    fn read_item(alloc: Global, item: &Value, path: &Path) -> Result<Asked, FieldError> {
        if has_some(item, "firstAvailable") {
            Ok(Asked::FirstAvailable(read_first_available(alloc, item, path)?))
        } else {
            Ok(Asked::Exactly(read_exactly(alloc, item, path)?))
        }
    }
}

fn read_first_available(
    alloc: Global,
    request: &Value,
    path: &Path,
) -> Result<Seq<DeviceAsk>, FieldError>
    ensures { Reads result (fields.first_available_at path.now (view request.now)) }
{
    let subrequests = list(alloc, request, path, "firstAvailable")?;
    let path = path.member("firstAvailable");
    read_items(alloc, subrequests, &path)
}

fn read_exactly(
    alloc: Global,
    request: &Value,
    path: &Path,
) -> Result<ExactDeviceRequest, FieldError>
    ensures { Reads result (fields.exactly_at path.now (view request.now)) }
{
    let exactly = object(alloc, request, path, "exactly")?;
    let path = path.member("exactly");
    read_exact(alloc, exactly, &path)
}

/// What one of the subrequests asks for.
impl ReadItem for DeviceAsk {
    ghost reading = { fields.subrequest_in };

    fn read_item(alloc: Global, item: &Value, path: &Path) -> Result<DeviceAsk, FieldError> {
        let subrequest = value_object(alloc, item, path)?;
        let selection = read_selection(alloc, subrequest, path)?;
        read_ask(alloc, subrequest, path, selection)
    }
}

fn read_exact(alloc: Global, exactly: &Value, path: &Path) -> Result<ExactDeviceRequest, FieldError>
    ensures { Reads result (fields.exactly_in path.now (view exactly.now)) }
{
    let selection = read_selection(alloc, exactly, path)?;
    let admin = read_admin(alloc, exactly, path)?;
    let ask = read_ask(alloc, exactly, path, selection)?;
    Ok(ExactDeviceRequest { ask, admin })
}

/// `adminAccess`, false if it is missing or null.
pub(crate) fn read_admin(alloc: Global, object: &Value, path: &Path) -> Result<bool, FieldError>
    ensures { Reads result (fields.admin_at path.now (view object.now)) }
{
    Ok(optional_truth(alloc, object, path, "adminAccess")?.unwrap_or(false))
}

/// What is asked for, with `tolerations`. NotSupported if `capacity` is set.
fn read_ask(
    alloc: Global,
    ask: &Value,
    path: &Path,
    selection: Selection,
) -> Result<DeviceAsk, FieldError>
    ensures { Reads result (fields.ask_with selection path.now (view ask.now)) }
{
    let tolerations = read_tolerations(alloc, ask, path)?;
    unset(alloc, ask, path, "capacity")?;
    Ok(DeviceAsk {
        class: selection.class,
        selectors: selection.selectors,
        mode: selection.mode,
        tolerations,
    })
}

/// The class, the selectors and how many devices.
fn read_selection(alloc: Global, ask: &Value, path: &Path) -> Result<Selection, FieldError>
    ensures { Reads result (fields.selection_at path.now (view ask.now)) }
{
    let class = text(alloc, ask, path, "deviceClassName")?;
    let selectors = read_selectors(alloc, ask, path)?;
    let mode = read_mode(alloc, ask, path)?;
    Ok(Selection {
        class,
        selectors,
        mode,
    })
}

/// `allocationMode`, then `count`.
fn read_mode(alloc: Global, ask: &Value, path: &Path) -> Result<AllocationMode, FieldError>
    ensures { Reads result (fields.mode_at path.now (view ask.now)) }
{
    if read_all(alloc, ask, path)? {
        optional_natural(alloc, ask, path, "count", 0, 0)?;
        Ok(AllocationMode::All)
    } else {
        let count = optional_natural(alloc, ask, path, "count", 0, COUNT_MOST)?;
        Ok(counted(count))
    }
}

/// As many as a count says; one if it is 0 or missing.
fn counted(count: Option<u64>) -> AllocationMode
    ensures { result ≡ fields.counted count }
{
    match count {
        None | Some(0) => AllocationMode::ExactCount(1),
        Some(count) => AllocationMode::ExactCount(count),
    }
}

/// Whether `allocationMode` asks for all devices. NotSupported if it is neither of its two values.
fn read_all(alloc: Global, ask: &Value, path: &Path) -> Result<bool, FieldError>
    ensures { Reads result (fields.all_at path.now (view ask.now)) }
{
    match optional_text(alloc, ask, path, "allocationMode")? {
        None => Ok(false),
        Some(word) => all_asked(alloc, path, word.as_str()),
    }
}

fn all_asked(alloc: Global, path: &Path, word: &str) -> Result<bool, FieldError>
    ensures { Reads result (fields.all_meant path.now word.now) }
{
    if word == "ExactCount" {
        Ok(false)
    } else if word == "All" {
        Ok(true)
    } else {
        Err(FieldError::of_field(alloc, path, "allocationMode", FieldErrorKind::NotSupported))
    }
}
