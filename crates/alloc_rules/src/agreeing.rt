//! Whether results keep the constraints of their claims.

ghost use Rattle.std.specs.Prelude.{◌≡◌, ◌∷◌, [], ◌+◌, ◌≤◌, IfOk, map, length, drop};
ghost use Rattle.std.specs.List.{flat_map, prefix_len};
ghost use Rattle.request_rules.specs.Agreeing.{each_agrees};
ghost use Rattle.request_rules.specs.Lists.{Each};
ghost use Rattle.request_rows.specs.Wanted.{input_of};
ghost use Rattle.plan_rules.specs.Chosen.{pick_of};
ghost use Rattle.alloc_rules.specs.Rows.{AreByClaim, IsDue, due_seen, is_at_place, seen_as};
ghost use Rattle.plan_rules.specs.Standing as spec;

use crate::due::Due;
use api_claim::DeviceConstraint;
use cluster::Failure;
use constraints::{Agreement, Picked};
use object_fields::Key;
use pool_view::DeviceRef;
use request_rows::{Row, Rows, WantedClaim};
use std::alloc::{AllocError, Global};

/// A result as constraints see it.
fn picked_of<'a>(rows: &'a Rows<'a>, due: &Due) -> Picked<'a>
    requires { IsDue (input_of rows.now) due.now }
    ensures { seen_as (input_of rows.now) due.now ≡ result ∷ [] }
{
    let row: &'a Row = rows.row(due.row);
    let device = &rows.devices()[due.position];
    Picked::of(
        &row.name,
        DeviceRef::of(device.slice(), device.device()),
        row.admin,
    )
}

/// Whether the results keep a constraint of their claim.
fn agree<'a>(rows: &'a Rows<'a>, constraint: &'a DeviceConstraint, dues: &[Due]) -> bool
    requires { Each (IsDue (input_of rows.now)) dues.now }
    ensures { result ≡ each_agrees constraint.now [] (flat_map (seen_as (input_of rows.now)) dues.now) }
{
    let mut agreement = Agreement::of(constraint);
    for due in dues {
        let picked = picked_of(rows, due);
        if !agreement.fits(&picked) {
            return false;
        }
        agreement.take(&picked);
    }
    true
}

/// The failure of the first of a claim's constraints that its results don't keep.
fn broken<'a>(
    alloc: Global,
    rows: &'a Rows<'a>,
    key: &Key,
    constraints: &'a [DeviceConstraint],
    dues: &[Due],
) -> Result<Option<Failure>, AllocError>
    requires { Each (IsDue (input_of rows.now)) dues.now }
    ensures { IfOk result (λ found. found ≡ spec.broken_by (λ c. each_agrees c [] (flat_map (seen_as (input_of rows.now)) dues.now)) key.now 0 constraints.now) }
{
    for index in 0..constraints.len() {
        if !agree(rows, &constraints[index], dues) {
            return Ok(Some(Failure::Constraint {
                claim: key.copy(alloc)?,
                index,
            }));
        }
    }
    Ok(None)
}

/// Whether the result is of the claim at an index.
fn is_of(rows: &Rows, due: &Due, place: usize) -> bool
    requires { IsDue (input_of rows.now) due.now }
    ensures { result ≡ is_at_place (input_of rows.now) place due.now }
{
    rows.row(due.row).claim == place
}

/// The index after the results of the claim at an index, of which the first has index `first`, if there
/// are any.
fn end_of(rows: &Rows, dues: &[Due], place: usize, first: usize) -> usize
    requires dues { Each (IsDue (input_of rows.now)) dues.now }
    requires first { first ≤ length dues.now }
    ensures is { result ≡ first + prefix_len (is_at_place (input_of rows.now) place) (drop first dues.now) }
    ensures within { result ≤ length dues.now }
{
    for at in first..dues.len() {
        if !is_of(rows, &dues[at], place) {
            return at;
        }
    }
    dues.len()
}

/// The failure of the first claim whose results don't keep one of its constraints, and of the first such
/// constraint. The results are in the order of the claims.
pub fn constraint_broken<'a>(
    alloc: Global,
    rows: &'a Rows<'a>,
    claims: &'a [WantedClaim<'a>],
    dues: &[Due],
) -> Result<Option<Failure>, AllocError>
    requires claims { claims.now ≡ (input_of rows.now).claims }
    requires dues { Each (IsDue (input_of rows.now)) dues.now }
    requires in_order { AreByClaim 0 (map (due_seen (input_of rows.now)) dues.now) }
    ensures { IfOk result (λ found. found ≡ spec.constraint_broken (input_of rows.now) (map (pick_of (input_of rows.now)) (map (due_seen (input_of rows.now)) dues.now))) }
{
    let mut first = 0;
    for place in 0..claims.len() {
        let wanted = &claims[place];
        let constraints = wanted.claim.claim().constraints.as_slice();
        let end = end_of(rows, dues, place, first);
        if let Some(found) = broken(alloc, rows, wanted.key, constraints, &dues[first..end])? {
            return Ok(Some(found));
        }
        first = end;
    }
    Ok(None)
}
