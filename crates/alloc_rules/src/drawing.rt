//! What results draw, with what the devices draw that claims hold.

ghost use Rattle.std.specs.Prelude.{◌≡◌, ◌≤◌, ◌+◌, None, Some, false, IfOk, OnOk, map, slice_get, if◌then◌else◌};
ghost use Rattle.cluster.specs.Held.{held};
ghost use Rattle.request_rules.specs.Draws.{CounterId, drawn_from};
ghost use Rattle.counter_sets.specs.Holding.{AreHeld};
ghost use Rattle.counter_sets.specs.Totals.{drawn_in, keeps, sum_most, value_of};
ghost use Rattle.pool_totals.specs.Counting.{AreCounted};
ghost use Rattle.pool_totals.specs.Drawn.{AreDrawnByBoth};
ghost use Rattle.request_rules.specs.Lists.{Each};
ghost use Rattle.request_rows.specs.Wanted as wanting;
ghost use Rattle.alloc_rules.specs.Rows.{AreRowsOf, IsDue, due_seen, pairs_of};
ghost use Rattle.plan_rules.specs.Standing as standing;

use crate::due::Due;
use cluster::State;
use counter_sets::{Held, SharedTotals};
use dra_values::Text;
use node_inputs::devices_differ;
use pool_totals::kept_totals_are_drawn;
use pool_view::{DeviceRef, usable_slices_differ};
use request_rows::Rows;
use std::alloc::{AllocError, Global};

/// The device of a result.
fn device_of<'a>(rows: &'a Rows<'a>, due: &Due) -> &'a DeviceRef<'a>
    requires { IsDue (wanting.input_of rows.now) due.now }
    ensures { slice_get (wanting.input_of rows.now).devices due.now.position ≡ Some result.now }
{
    &rows.devices()[due.position]
}

/// Whether the result has admin access.
fn is_admin(due: &Due) -> bool
    ensures { result ≡ due.now.result.admin }
{
    due.result.admin
}

/// Draws what the device of a result draws, unless the result has admin access.
fn draw(
    alloc: Global,
    totals: &mut SharedTotals,
    device: &DeviceRef,
    admin: bool,
) -> Result<(), AllocError>
    requires kept { admin ≡ false → (c : CounterId) → keeps totals.old c ≡ false → drawn_from c device.now ≡ 0 }
    requires fits { admin ≡ false → (c : CounterId) → drawn_in totals.old c + drawn_from c device.now ≤ sum_most }
    ensures drawn { OnOk result ((c : CounterId) → drawn_in totals.new c ≡ drawn_in totals.old c + (if admin then 0 else drawn_from c device.now)) }
    ensures value { OnOk result ((c : CounterId) → value_of totals.new c ≡ value_of totals.old c) }
{
    if admin {
        return Ok(());
    }
    totals.hold(device, alloc)
}

/// Draws what the devices of results without admin access draw, which nobody holds.
fn draw_all<'a>(
    alloc: Global,
    state: &State,
    holders: &Held,
    totals: &mut SharedTotals,
    rows: &'a Rows<'a>,
    node: &Text,
    dues: &[Due],
) -> Result<(), AllocError>
    requires holders { AreHeld holders.now (held state.now) }
    requires totals { AreCounted state.now.inventory holders.now totals.old }
    requires rows { AreRowsOf state.now node.now rows.now }
    requires dues { Each (IsDue (wanting.input_of rows.now)) dues.now }
    requires free { standing.held (held state.now) (map (due_seen (wanting.input_of rows.now)) dues.now) ≡ None }
    ensures { OnOk result (AreDrawnByBoth state.now.inventory (held state.now) (pairs_of (map (due_seen (wanting.input_of rows.now)) dues.now)) totals.new) }
{
    kept_totals_are_drawn();
    usable_slices_differ();
    devices_differ(&state.inventory, node);
    for due in dues {
        let device = device_of(rows, due);
        draw(alloc, totals, device, is_admin(due))?;
    }
    Ok(())
}

/// Totals with what is drawn by the devices that claims hold, as `totals` has it, and by those of the results,
/// which nobody holds. They share with `totals` the pools of all other devices.
pub fn totals_with<'a>(
    alloc: Global,
    state: &State,
    holders: &Held,
    totals: &SharedTotals,
    rows: &'a Rows<'a>,
    node: &Text,
    dues: &[Due],
) -> Result<SharedTotals, AllocError>
    requires holders { AreHeld holders.now (held state.now) }
    requires totals { AreCounted state.now.inventory holders.now totals.now }
    requires rows { AreRowsOf state.now node.now rows.now }
    requires dues { Each (IsDue (wanting.input_of rows.now)) dues.now }
    requires free { standing.held (held state.now) (map (due_seen (wanting.input_of rows.now)) dues.now) ≡ None }
    ensures { IfOk result (AreDrawnByBoth state.now.inventory (held state.now) (pairs_of (map (due_seen (wanting.input_of rows.now)) dues.now))) }
{
    let mut with = totals.share()?;
    draw_all(alloc, state, holders, &mut with, rows, node, dues)?;
    Ok(with)
}
