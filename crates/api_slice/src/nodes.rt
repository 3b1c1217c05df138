ghost use Rattle.std.specs.Prelude.{◌≡◌, codes};
ghost use Rattle.serde_json.specs.View.{view};
ghost use Rattle.object_fields.specs.Fields.{Reads, optional_at};
ghost use Rattle.api_slice.specs.Nodes as fields;

use crate::selector::read_selector;
use crate::types::{Nodes, SliceNodes};
use dra_values::Text;
use node_select::Selector;
use object_fields::{
    FieldError, FieldErrorKind, Path, field, member, optional_text, optional_truth,
};
use serde_json::Value;
use std::alloc::Global;

/// The members that say where devices are, None or false where one is unset.
#[derive(Drop)]
pub(crate) struct Places {
    /// `nodeName`, which isn't empty.
    pub(crate) name: Option<Text>,
    /// `nodeSelector`.
    pub(crate) selector: Option<Selector>,
    /// `allNodes`.
    pub(crate) all: bool,
}

/// Where the devices of a slice are. The members are read first; then it is NotOne at the path where
/// not exactly one is set.
pub(crate) fn read_slice_nodes(
    alloc: Global,
    spec: &Value,
    path: &Path,
) -> Result<SliceNodes, FieldError>
    ensures { Reads result (fields.slice_nodes_at path.now (view spec.now)) }
{
    let places = read_places(alloc, spec, path)?;
    let per_device = read_flag(alloc, spec, path, "perDeviceNodeSelection")?;
    match one_of_slice(places, per_device) {
        Some(nodes) => Ok(nodes),
        None => Err(FieldError::at(alloc, path, FieldErrorKind::NotOne)),
    }
}

/// Where a device is: nodes of its own where its slice is `per_device`, else none. The members are
/// read first; then it is NotOne at the path where not just these are set.
pub(crate) fn read_device_nodes(
    alloc: Global,
    device: &Value,
    path: &Path,
    per_device: bool,
) -> Result<Option<Nodes>, FieldError>
    ensures { Reads result (fields.device_nodes_of per_device path.now (view device.now)) }
{
    let places = read_places(alloc, device, path)?;
    match as_due(places, per_device) {
        Some(nodes) => Ok(nodes),
        None => Err(FieldError::at(alloc, path, FieldErrorKind::NotOne)),
    }
}

fn read_places(alloc: Global, object: &Value, path: &Path) -> Result<Places, FieldError>
    ensures { Reads result (fields.places_at path.now (view object.now)) }
{
    let name = read_node_name(alloc, object, path)?;
    let selector = read_node_selector(alloc, object, path)?;
    let all = read_flag(alloc, object, path, "allNodes")?;
    Ok(Places {
        name,
        selector,
        all,
    })
}

/// The node's name, which is unset where it is empty.
fn read_node_name(alloc: Global, object: &Value, path: &Path) -> Result<Option<Text>, FieldError>
    ensures { Reads result (fields.node_name_at path.now (view object.now)) }
{
    match optional_text(alloc, object, path, "nodeName")? {
        Some(name) if !name.as_str().is_empty() => Ok(Some(name)),
        _ => Ok(None),
    }
}

fn read_node_selector(
    alloc: Global,
    object: &Value,
    path: &Path,
) -> Result<Option<Selector>, FieldError>
    ensures { Reads result
        (optional_at fields.selector_at path.now (codes "nodeSelector") (view object.now)) }
{
    if member(object, "nodeSelector").is_none() {
        return Ok(None);
    }
    Ok(Some(selector_field(alloc, object, path)?))
}

fn selector_field(alloc: Global, object: &Value, path: &Path) -> Result<Selector, FieldError>
    ensures { Reads result
        (fields.selector_at path.now (codes "nodeSelector") (view object.now)) }
{
    let value = field(alloc, object, path, "nodeSelector")?;
    let path = path.member("nodeSelector");
    read_selector(alloc, value, &path)
}

/// Whether the member is true; it may be missing.
fn read_flag(alloc: Global, object: &Value, path: &Path, name: &str) -> Result<bool, FieldError>
    ensures { Reads result (fields.flag_at name.now path.now (view object.now)) }
{
    match optional_truth(alloc, object, path, name)? {
        Some(flag) => Ok(flag),
        None => Ok(false),
    }
}

/// The one that is set, if there is just one.
fn one_of(name: Option<Text>, selector: Option<Selector>, all: bool) -> Option<Nodes>
    ensures { result ≡ fields.only (fields.set_of name selector all) }
{
    match (name, selector, all) {
        (Some(name), None, false) => Some(Nodes::Named(name)),
        (None, Some(selector), false) => Some(Nodes::Selected(selector)),
        (None, None, true) => Some(Nodes::All),
        _ => None,
    }
}

fn none_set(places: &Places) -> bool
    ensures { result ≡ fields.is_empty (fields.all_set places.now) }
{
    places.name.is_none() && places.selector.is_none() && !places.all
}

fn one_of_slice(places: Places, per_device: bool) -> Option<SliceNodes>
    ensures { result ≡ fields.one_of_slice (fields.all_set places) per_device }
{
    if per_device {
        if none_set(&places) {
            Some(SliceNodes::PerDevice)
        } else {
            None
        }
    } else {
        let Places {
            name,
            selector,
            all,
        } = places;
        match one_of(name, selector, all) {
            Some(nodes) => Some(SliceNodes::Nodes(nodes)),
            None => None,
        }
    }
}

fn as_due(places: Places, per_device: bool) -> Option<Option<Nodes>>
    ensures { result ≡ fields.as_due per_device (fields.all_set places) }
{
    if per_device {
        let Places {
            name,
            selector,
            all,
        } = places;
        match one_of(name, selector, all) {
            Some(nodes) => Some(Some(nodes)),
            None => None,
        }
    } else if none_set(&places) {
        Some(None)
    } else {
        None
    }
}
