//! The devices of results, what the selectors of their requests evaluate to for them, and their taints.

ghost use Rattle.std.specs.Prelude.{◌≡◌, IfOk, find, option_copied, map};
ghost use Rattle.request_rules.specs.Lists.{Each};
ghost use Rattle.request_rows.specs.Wanted.{input_of};
ghost use Rattle.alloc_rules.specs.Rows.{IsDue, due_seen};
ghost use Rattle.plan_rules.specs.Standing as spec;

use crate::due::Due;
use cluster::{DeviceResult, Failure, Grant};
use pool_view::{Match, PoolView};
use request_rows::Rows;
use std::alloc::{AllocError, Global};

/// The first of the results whose device isn't in the view.
fn first_gone<'a>(view: &PoolView, results: &'a [DeviceResult]) -> Option<&'a DeviceResult>
    ensures { option_copied result ≡ find (spec.is_off view.now.devices) results.now }
{
    results
        .iter()
        .find(|found| view.position(&found.device).is_none())
}

/// The failure of the first result whose device isn't in the view.
pub fn device_gone(
    alloc: Global,
    view: &PoolView,
    grants: &[Grant],
) -> Result<Option<Failure>, AllocError>
    ensures { IfOk result (λ found. found ≡ spec.device_gone view.now.devices grants.now) }
{
    for grant in grants {
        if let Some(found) = first_gone(view, grant.results.as_slice()) {
            return Ok(Some(Failure::DeviceGone(found.device.copy(alloc)?)));
        }
    }
    Ok(None)
}

fn is_no(found: Match) -> bool
    ensures { result ≡ spec.is_no found }
{
    match found {
        Match::No => true,
        Match::Yes | Match::Fault { .. } => false,
    }
}

/// Whether the device of a result doesn't meet its request.
fn is_unmet(rows: &Rows, due: &Due) -> bool
    requires { IsDue (input_of rows.now) due.now }
    ensures { result ≡ spec.is_unmet (input_of rows.now) (due_seen (input_of rows.now) due.now) }
{
    is_no(rows.matched(due.row, due.position))
}

/// The failure of the first result whose device doesn't meet its request.
pub fn selector_no(alloc: Global, rows: &Rows, dues: &[Due]) -> Result<Option<Failure>, AllocError>
    requires { Each (IsDue (input_of rows.now)) dues.now }
    ensures { IfOk result (λ found. found ≡ spec.selector_no (input_of rows.now) (map (due_seen (input_of rows.now)) dues.now)) }
{
    for due in dues {
        if is_unmet(rows, due) {
            return Ok(Some(Failure::SelectorNo(due.result.device.copy(alloc)?)));
        }
    }
    Ok(None)
}

/// The failure of a choice with a selector that is neither true nor false of a device.
pub fn selector_fault(
    alloc: Global,
    rows: &Rows,
    choice: &[usize],
) -> Result<Option<Failure>, AllocError>
    ensures { IfOk result (λ found. found ≡ spec.selector_fault (input_of rows.now) choice.now) }
{
    match rows.fault_of(alloc, choice)? {
        None => Ok(None),
        Some(fault) => Ok(Some(Failure::SelectorFault(fault.device))),
    }
}

/// Whether the device of a result has a taint that its request doesn't tolerate.
fn is_untolerated(rows: &Rows, due: &Due) -> bool
    requires { IsDue (input_of rows.now) due.now }
    ensures { result ≡ spec.is_untolerated (input_of rows.now) (due_seen (input_of rows.now) due.now) }
{
    !rows.tolerates(due.row, due.position)
}

/// The failure of the first result, with admin access or without, whose device has a taint that its request
/// doesn't tolerate.
pub fn tainted(alloc: Global, rows: &Rows, dues: &[Due]) -> Result<Option<Failure>, AllocError>
    requires { Each (IsDue (input_of rows.now)) dues.now }
    ensures { IfOk result (λ found. found ≡ spec.tainted (input_of rows.now) (map (due_seen (input_of rows.now)) dues.now)) }
{
    for due in dues {
        if is_untolerated(rows, due) {
            return Ok(Some(Failure::Tainted(due.result.device.copy(alloc)?)));
        }
    }
    Ok(None)
}
