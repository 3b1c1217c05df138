ghost use Rattle.std.specs.Prelude.{◌++◌, ◌∷◌, [], Bool, List, Result, ℕ};
ghost use Rattle.serde_json.specs.Data.{Data};
ghost use Rattle.serde_json.specs.View.{items_view, view};
ghost use Rattle.object_fields.specs.Fields.{Reads};
ghost use Rattle.object_fields.specs.Lists.{each};
ghost use Rattle.object_fields.specs.declared.error.FieldError.{FieldError};
ghost use Rattle.object_fields.specs.declared.path.Step.{Step};
ghost use Rattle.object_fields.specs.declared.path.Step.TheVariants.{Place};
ghost use Rattle.device_taints.specs.Reading.{taints_at};
ghost use Rattle.api_slice.specs.Attributes.{attributes_of};
ghost use Rattle.api_slice.specs.Capacity.{capacity_of};
ghost use Rattle.api_slice.specs.Consumption.{consumes_of};
ghost use Rattle.api_slice.specs.Nodes.{device_nodes_of};

use crate::attribute::read_attributes;
use crate::capacity::read_capacity;
use crate::consumption::read_consumption;
use crate::nodes::read_device_nodes;
use crate::types::{Attribute, CounterConsumption, Nodes};
use device_taints::{Taint, read_taints};
use dra_values::{Seq, Table};
use object_fields::{FieldError, Path, QualName, or_memory};
use quantity::Quantity;
use serde_json::Value;
use std::alloc::Global;

/// What a device has in one row of its fields, which are read by themselves, but for the driver of
/// the slice and whether each device has its own nodes.
pub(crate) trait ReadRow: Sized {
    ghost reading: { List ℕ → Bool → List Step → Data → Result Self FieldError };

    /// The fields of one device, or the first error of them.
    fn read_row(
        alloc: Global,
        device: &Value,
        path: &Path,
        driver: &str,
        per_device: bool,
    ) -> Result<Self, FieldError>
        ensures { Reads result (reading driver.now per_device path.now (view device.now)) };
}

impl ReadRow for Table<QualName, Attribute> {
    ghost reading = { λ driver per_device. attributes_of driver };

    fn read_row(
        alloc: Global,
        device: &Value,
        path: &Path,
        driver: &str,
        per_device: bool,
    ) -> Result<Table<QualName, Attribute>, FieldError> {
        let _ = per_device;
        read_attributes(alloc, device, path, driver)
    }
}

impl ReadRow for Table<QualName, Quantity> {
    ghost reading = { λ driver per_device. capacity_of driver };

    fn read_row(
        alloc: Global,
        device: &Value,
        path: &Path,
        driver: &str,
        per_device: bool,
    ) -> Result<Table<QualName, Quantity>, FieldError> {
        let _ = per_device;
        read_capacity(alloc, device, path, driver)
    }
}

impl ReadRow for Seq<CounterConsumption> {
    ghost reading = { λ driver per_device. consumes_of };

    fn read_row(
        alloc: Global,
        device: &Value,
        path: &Path,
        driver: &str,
        per_device: bool,
    ) -> Result<Seq<CounterConsumption>, FieldError> {
        let _ = driver;
        let _ = per_device;
        read_consumption(alloc, device, path)
    }
}

impl ReadRow for Option<Nodes> {
    ghost reading = { λ driver. device_nodes_of };

    fn read_row(
        alloc: Global,
        device: &Value,
        path: &Path,
        driver: &str,
        per_device: bool,
    ) -> Result<Option<Nodes>, FieldError> {
        let _ = driver;
        read_device_nodes(alloc, device, path, per_device)
    }
}

impl ReadRow for Seq<Taint> {
    ghost reading = { λ driver per_device. taints_at };

    fn read_row(
        alloc: Global,
        device: &Value,
        path: &Path,
        driver: &str,
        per_device: bool,
    ) -> Result<Seq<Taint>, FieldError> {
        let _ = driver;
        let _ = per_device;
        read_taints(alloc, device, path)
    }
}

/// What each device has in a row, in the order of the devices; the error of the first that can't be
/// read.
pub(crate) fn read_column<T: ReadRow + Drop>(
    alloc: Global,
    values: &[Value],
    path: &Path,
    driver: &str,
    per_device: bool,
) -> Result<Seq<T>, FieldError>
    ensures { Reads result
        (each (T.reading driver.now per_device) path.now (items_view values.now)) }
{
    let mut column = Seq::empty(alloc);
    for place in 0..values.len() {
        let row = read_place(alloc, &values[place], path, place, driver, per_device)?;
        or_memory(alloc, column.push(row))?;
    }
    Ok(column)
}

/// What the device at an index of the list at the path has in a row.
fn read_place<T: ReadRow + Drop>(
    alloc: Global,
    device: &Value,
    path: &Path,
    place: usize,
    driver: &str,
    per_device: bool,
) -> Result<T, FieldError>
    ensures { Reads result
        (T.reading driver.now per_device (path.now ++ Place place ∷ []) (view device.now)) }
{
    let at = path.place(place);
    T::read_row(alloc, device, &at, driver, per_device)
}
