ghost use Rattle.request_rows.specs.Wanted.{input_of};
ghost use Rattle.std.specs.Prelude.{◌≡◌, ◌++◌, ◌∷◌, [], length, map, IfOk, OnOk};
ghost use Rattle.request_rules.specs.Allocation.{Result, result_of};
ghost use Rattle.request_rules.specs.Grants.{grants_from, named_result};
ghost use Rattle.allocator.specs.Answered.{device_result, grant_of, granted};
ghost use Rattle.allocator.specs.Placing.{IsPick, IsPlacing, pick_seen, placed};
ghost use Rattle.pool_view.specs.Pools.{id_in};

use crate::pick::Pick;
use cluster::{DeviceResult, Grant};
use dra_values::Seq;
use object_fields::DeviceId;
use pool_view::DeviceRef;
use request_rows::{Rows, Slot, WantedClaim};
use std::alloc::{AllocError, Global};

fn device_id(alloc: Global, device: &DeviceRef) -> Result<DeviceId, AllocError>
    ensures { IfOk result (λ id. id ≡ id_in device.now) }
{
    Ok(DeviceId {
        driver: device.slice().driver.as_text().copy(alloc)?,
        pool: device.slice().pool.name.copy(alloc)?,
        device: device.device().name.copy(alloc)?,
    })
}

fn result_of(alloc: Global, rows: &Rows, pick: Pick) -> Result<DeviceResult, AllocError>
    requires { IsPick (input_of rows.now) pick }
    ensures { IfOk result (λ r. r ≡ device_result (named_result (result_of (input_of rows.now) (pick_seen (input_of rows.now) pick)))) }
{
    let row = rows.row(pick.row);
    let name = row.name.copy(alloc)?;
    let device = device_id(alloc, &rows.devices()[pick.position])?;
    Ok(DeviceResult {
        name,
        device,
        admin: row.admin,
    })
}

/// Adds the result of a device, if it is the claim's.
fn add_result(
    alloc: Global,
    rows: &Rows,
    results: &mut Seq<DeviceResult>,
    pick: Pick,
    claim: usize,
) -> Result<(), AllocError>
    requires { IsPick (input_of rows.now) pick }
    ensures { OnOk result (results.new ≡ results.old ++ granted (input_of rows.now) claim (pick_seen (input_of rows.now) pick ∷ [])) }
{
    if rows.row(pick.row).claim != claim {
        return Ok(());
    }
    let result = result_of(alloc, rows, pick)?;
    results.push(result)
}

/// The results of a claim, in order.
fn results_of(
    alloc: Global,
    rows: &Rows,
    slots: &[Slot],
    positions: &[usize],
    claim: usize,
) -> Result<Seq<DeviceResult>, AllocError>
    requires { IsPlacing (input_of rows.now) slots.now positions.now }
    ensures { IfOk result (λ rs. rs ≡ granted (input_of rows.now) claim (placed (input_of rows.now) slots.now positions.now)) }
{
    let mut results = Seq::empty(alloc);
    for at in 0..positions.len() {
        let row = slots[at].row;
        let position = positions[at];
        add_result(alloc, rows, &mut results, Pick { row, position }, claim)?;
    }
    Ok(results)
}

/// A grant for each claim, in order, of the devices that are placed. `AllocError` only if memory runs
/// out.
pub fn grants_of(
    alloc: Global,
    rows: &Rows,
    slots: &[Slot],
    positions: &[usize],
    claims: &[WantedClaim],
) -> Result<Seq<Grant>, AllocError>
    requires { IsPlacing (input_of rows.now) slots.now positions.now }
    ensures { IfOk result (λ gs. gs ≡ map grant_of (grants_from 0 claims.now (map (result_of (input_of rows.now)) (placed (input_of rows.now) slots.now positions.now)))) }
{
    let mut grants = Seq::empty(alloc);
    for claim in 0..claims.len() {
        let results = results_of(alloc, rows, slots, positions, claim)?;
        let wanted = &claims[claim];
        let key = wanted.key.copy(alloc)?;
        grants.push(Grant {
            claim: key,
            results,
        })?;
    }
    Ok(grants)
}
