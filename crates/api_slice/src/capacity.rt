ghost use Rattle.std.specs.Prelude.{◌≡◌, []};
ghost use Rattle.serde_json.specs.View.{members_view, view};
ghost use Rattle.object_fields.specs.Fields.{Reads};
ghost use Rattle.api_slice.specs.Capacity as fields;
ghost use Rattle.api_slice.specs.Entries.{capacity_by, capacity_entry};

use crate::amount::read_quantity;
use crate::lists::{count_in, exceed};
use crate::qualified::new_name;
use dra_values::Table;
use object_fields::{
    FieldError, FieldErrorKind, Path, QualName, optional_table, or_memory, unset, value_object,
};
use quantity::Quantity;
use serde_json::{Map, Value};
use std::alloc::Global;

/// The most attributes and capacities of a device together (API reference of `resource.k8s.io/v1`).
const TOGETHER_MOST: usize = 32;

/// The capacities of a device by their full names; none where they are missing. It is TooMany at
/// `capacity` where these and the attributes are too many together.
#[tactic(auto, using(crate::proofs::Entries::capacity_is))]
pub(crate) fn read_capacity(
    alloc: Global,
    device: &Value,
    path: &Path,
    driver: &str,
) -> Result<Table<QualName, Quantity>, FieldError>
    ensures { Reads result (fields.capacity_of driver.now path.now (view device.now)) }
{
    let members = optional_table(alloc, device, path, "capacity")?;
    check_together(alloc, device, path)?;
    match members {
        Some(members) => {
            let path = path.member("capacity");
            capacity_with(alloc, members, &path, driver)
        }
        None => Ok(Table::new(alloc)),
    }
}

fn check_together(alloc: Global, device: &Value, path: &Path) -> Result<(), FieldError>
    ensures { Reads result (fields.together_at path.now (view device.now)) }
{
    let attributes = count_in(device, "attributes");
    if exceed(TOGETHER_MOST, attributes, count_in(device, "capacity")) {
        Err(FieldError::of_field(alloc, path, "capacity", FieldErrorKind::TooMany))
    } else {
        Ok(())
    }
}

fn capacity_with(
    alloc: Global,
    members: &Map<String, Value>,
    path: &Path,
    driver: &str,
) -> Result<Table<QualName, Quantity>, FieldError>
    ensures { Reads result
        (capacity_by driver.now path.now [] (members_view members.now.entries)) }
{
    let mut capacity = Table::new(alloc);
    for (key, value) in members {
        let (name, amount) = read_entry(alloc, key.as_str(), value, &*path, driver, &capacity)?;
        or_memory(alloc, capacity.insert(name, amount))?;
    }
    Ok(capacity)
}

/// The full name of a member, which none before has, and its value.
fn read_entry<'a>(
    alloc: Global,
    key: &'a str,
    value: &Value,
    path: &'a Path<'a>,
    driver: &str,
    before: &Table<QualName, Quantity>,
) -> Result<(QualName, Quantity), FieldError>
    ensures { Reads result
        (capacity_entry driver.now path.now before.now key.now (view value.now)) }
{
    let at = path.key(key);
    let name = new_name(alloc, key, &at, driver, before)?;
    let amount = read_one(alloc, value, &at)?;
    Ok((name, amount))
}

/// A capacity's value, at its own path.
fn read_one(alloc: Global, value: &Value, path: &Path) -> Result<Quantity, FieldError>
    ensures { Reads result (fields.value_without_policy path.now (view value.now)) }
{
    let object = value_object(alloc, value, path)?;
    let amount = read_quantity(alloc, object, path, "value")?;
    unset(alloc, object, path, "requestPolicy")?;
    Ok(amount)
}
