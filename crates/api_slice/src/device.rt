ghost use Rattle.std.specs.Prelude.{◌≡◌, IfOk};
ghost use Rattle.serde_json.specs.View.{items_view, view};
ghost use Rattle.object_fields.specs.Fields.{Reads};
ghost use Rattle.object_fields.specs.Lists.{each_beside};
ghost use Rattle.api_slice.specs.Devices as fields;
ghost use Rattle.api_slice.specs.Properties.{ArePaired};

use crate::column::read_column;
use crate::driver::DriverName;
use crate::lists::items_or_none;
use crate::properties::Properties;
use crate::types::{Attribute, CounterConsumption, Device, Nodes};
use device_taints::Taint;
use dra_values::{Seq, Table, Text};
use object_fields::{
    ByName, FieldError, FieldErrorKind, Path, QualName, optional_short_list, or_memory,
    read_dns_label, unset, value_object,
};
use quantity::Quantity;
use serde_json::Value;
use std::alloc::{AllocError, Global};

/// The most devices of a slice (API reference of `resource.k8s.io/v1`).
const MAX_DEVICES_PER_SLICE: usize = 128;

/// The devices of a spec; none where they are missing. Each row of fields is read of all devices
/// before the next row of any. The driver and `per_device`, whether each device has its own nodes, are
/// the slice's.
pub(crate) fn read_devices(
    alloc: Global,
    spec: &Value,
    path: &Path,
    driver: &DriverName,
    per_device: bool,
) -> Result<Seq<Device>, FieldError>
    ensures { Reads result
        (fields.devices_at driver.now per_device path.now (view spec.now)) }
{
    let values = optional_short_list(alloc, spec, path, "devices", MAX_DEVICES_PER_SLICE)?;
    let path = path.member("devices");
    read_rows(alloc, items_or_none(values), &path, driver, per_device)
}

#[tactic(auto, using(crate::proofs::Limits::paired))]
fn read_rows(
    alloc: Global,
    values: &[Value],
    path: &Path,
    driver: &DriverName,
    per_device: bool,
) -> Result<Seq<Device>, FieldError>
    ensures { Reads result
        (fields.rows_of driver.now per_device path.now (items_view values.now)) }
{
    let name = driver.as_text().as_str();
    let columns = read_columns(alloc, values, path, name, per_device)?;
    each_nothing_more(alloc, values, path)?;
    or_memory(alloc, devices_of(alloc, columns))
}

/// The fields of devices, each list in the order of the devices.
#[derive(Drop)]
pub(crate) struct Columns {
    names: Seq<Text>,
    attributes: Seq<Table<QualName, Attribute>>,
    capacity: Seq<Table<QualName, Quantity>>,
    consumes: Seq<Seq<CounterConsumption>>,
    nodes: Seq<Option<Nodes>>,
    taints: Seq<Seq<Taint>>,
}

fn read_columns(
    alloc: Global,
    values: &[Value],
    path: &Path,
    driver: &str,
    per_device: bool,
) -> Result<Columns, FieldError>
    ensures { Reads result
        (fields.columns_of driver.now per_device path.now (items_view values.now)) }
{
    let names = each_name(alloc, values, path)?;
    let attributes = read_column(alloc, values, path, driver, per_device)?;
    let capacity = read_column(alloc, values, path, driver, per_device)?;
    let consumes = read_column(alloc, values, path, driver, per_device)?;
    let nodes = read_column(alloc, values, path, driver, per_device)?;
    let taints = read_column(alloc, values, path, driver, per_device)?;
    Ok(Columns {
        names,
        attributes,
        capacity,
        consumes,
        nodes,
        taints,
    })
}

/// The names of devices, each a DNS label that no device before has.
fn each_name(alloc: Global, values: &[Value], path: &Path) -> Result<Seq<Text>, FieldError>
    ensures { Reads result (each_beside fields.new_device_name path.now (items_view values.now)) }
{
    let mut names = ByName::empty(alloc);
    for place in 0..values.len() {
        let at = path.place(place);
        let name = new_device_name(alloc, &values[place], &at, &names)?;
        names = or_memory(alloc, names.with(alloc, name))?;
    }
    Ok(names.into_seq())
}

fn new_device_name(
    alloc: Global,
    value: &Value,
    path: &Path,
    names: &ByName<Text>,
) -> Result<Text, FieldError>
    ensures { Reads result (fields.new_device_name path.now names.now (view value.now)) }
{
    let object = value_object(alloc, value, path)?;
    let name = read_dns_label(alloc, object, path, "name")?;
    if names.has(&name) {
        Err(FieldError::of_field(alloc, path, "name", FieldErrorKind::Doubled))
    } else {
        Ok(name)
    }
}

/// Nothing where no device sets a member that this project leaves out, else NotSupported at the
/// first.
fn each_nothing_more(alloc: Global, values: &[Value], path: &Path) -> Result<(), FieldError>
    ensures { Reads result (fields.nothing_more_from path.now 0 (items_view values.now)) }
{
    for place in 0..values.len() {
        let at = path.place(place);
        nothing_more(alloc, &values[place], &at)?;
    }
    Ok(())
}

fn nothing_more(alloc: Global, device: &Value, path: &Path) -> Result<(), FieldError>
    ensures { Reads result (fields.nothing_more path.now (view device.now)) }
{
    unset(alloc, device, path, "allowMultipleAllocations")?;
    unset(alloc, device, path, "bindingConditions")?;
    unset(alloc, device, path, "bindingFailureConditions")?;
    unset(alloc, device, path, "bindsToNode")
}

/// The devices of which these are the fields.
fn devices_of(alloc: Global, columns: Columns) -> Result<Seq<Device>, AllocError>
    requires { ArePaired columns.attributes columns.capacity }
    ensures { IfOk result (λ devices. devices ≡ fields.devices_of columns) }
{
    let mut attributes = columns.attributes.into_vec().into_iter();
    let mut capacity = columns.capacity.into_vec().into_iter();
    let mut consumes = columns.consumes.into_vec().into_iter();
    let mut nodes = columns.nodes.into_vec().into_iter();
    let mut taints = columns.taints.into_vec().into_iter();
    let mut devices = Seq::empty(alloc);
    for name in columns.names.into_vec() {
        let Some(attributes) = attributes.next() else {
            return Ok(devices);
        };
        let Some(capacity) = capacity.next() else {
            return Ok(devices);
        };
        let Some(consumes) = consumes.next() else {
            return Ok(devices);
        };
        let Some(nodes) = nodes.next() else {
            return Ok(devices);
        };
        let Some(taints) = taints.next() else {
            return Ok(devices);
        };
        devices.push(Device {
            name,
            properties: Properties::new(attributes, capacity),
            consumes,
            nodes,
            taints,
        })?;
    }
    Ok(devices)
}
