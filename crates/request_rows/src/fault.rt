ghost use Rattle.std.specs.Prelude.{◌≡◌, option_copied, option_map, IfOk};
ghost use Rattle.pool_view.specs.Pools.{id_in};
ghost use Rattle.request_rules.specs.Lists.{first_some};
ghost use Rattle.request_rows.specs.Columns.{cell};
ghost use Rattle.request_rows.specs.Places.{place_by, place_in, place_of, place_of_row};

use crate::rows::{Row, cell};
use dra_values::{Seq, Text};
use object_fields::{DeviceId, Key};
use pool_view::{Cause, DeviceRef, Match};
use std::alloc::{AllocError, Global};

/// Where a selector is neither true nor false of a device of a node.
#[derive(Drop)]
pub struct FaultPlace {
    pub claim: Key,
    /// The name of the results expected for the request.
    pub request: Text,
    /// The selector's index among those of the class and then of the request, from 0.
    pub selector: usize,
    pub device: DeviceId,
    pub cause: Cause,
}

fn device_id(alloc: Global, device: &DeviceRef) -> Result<DeviceId, AllocError>
    ensures { IfOk result (λ id. id ≡ id_in device.now) }
{
    let slice = device.slice();
    let offered = device.device();
    Ok(DeviceId {
        driver: slice.driver.as_text().copy(alloc)?,
        pool: slice.pool.name.copy(alloc)?,
        device: offered.name.copy(alloc)?,
    })
}

/// The location of an evaluation error of a row on a device, if it is one.
fn place_of(
    alloc: Global,
    row: &Row,
    device: &DeviceRef,
    found: Match,
) -> Result<Option<FaultPlace>, AllocError>
    ensures { IfOk result (λ place. place ≡ place_of row.now device.now found) }
{
    match found {
        Match::Yes | Match::No => Ok(None),
        Match::Fault { place, cause } => Ok(Some(FaultPlace {
            claim: row.key.copy(alloc)?,
            request: row.name.copy(alloc)?,
            selector: place,
            device: device_id(alloc, device)?,
            cause,
        })),
    }
}

fn place_by(
    alloc: Global,
    row: &Row,
    device: Option<&DeviceRef>,
    found: Match,
) -> Result<Option<FaultPlace>, AllocError>
    ensures { IfOk result (λ place. place ≡ place_by row.now (option_copied device.entry) found) }
{
    match device {
        None => Ok(None),
        Some(device) => place_of(alloc, row, device, found),
    }
}

fn place_of_row(
    alloc: Global,
    devices: &[DeviceRef],
    columns: &[Seq<Match>],
    at: usize,
    row: Option<&Row>,
) -> Result<Option<FaultPlace>, AllocError>
    ensures { IfOk result (λ place. place ≡ place_of_row devices.now columns.now at (option_copied row.entry)) }
{
    let Some(row) = row else {
        return Ok(None);
    };
    match row.fault {
        None => Ok(None),
        Some(position) => place_by(
            alloc,
            row,
            devices.get(position),
            cell(columns, at, position),
        ),
    }
}

fn place_in(
    alloc: Global,
    devices: &[DeviceRef],
    columns: &[Seq<Match>],
    rows: &[Row],
    row: usize,
) -> Result<Option<FaultPlace>, AllocError>
    ensures { IfOk result (λ place. place ≡ place_in devices.now columns.now rows.now row) }
{
    place_of_row(alloc, devices, columns, row, rows.get(row))
}

/// The location of the evaluation error of the first of the rows that has one.
pub fn first_place(
    alloc: Global,
    devices: &[DeviceRef],
    columns: &[Seq<Match>],
    rows: &[Row],
    chosen: &[usize],
) -> Result<Option<FaultPlace>, AllocError>
    ensures { IfOk result (λ place. place ≡ first_some (place_in devices.now columns.now rows.now) chosen.now) }
{
    for row in chosen {
        if let Some(place) = place_in(alloc, devices, columns, rows, *row)? {
            return Ok(Some(place));
        }
    }
    Ok(None)
}
