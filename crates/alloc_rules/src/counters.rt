//! Whether counters have enough for what results draw.

ghost use Rattle.std.specs.Prelude.{◌≡◌, ℕ, List, None, Some, false, IfOk, map, option_map, slice_get};
ghost use Rattle.request_rules.specs.Input.{SearchInput};
ghost use Rattle.request_rules.specs.Lists.{Each};
ghost use Rattle.request_rules.specs.Rules.{Pick};
ghost use Rattle.request_rows.specs.Wanted.{input_of};
ghost use Rattle.plan_rules.specs.Chosen.{pick_of};
ghost use Rattle.alloc_rules.specs.Rows.{HasDrawn, IsDue, draws_any, draws_one, due_seen};
ghost use Rattle.plan_rules.specs.Standing as spec;

use crate::due::Due;
use cluster::{Failure, Shortfall};
use counter_sets::{SharedTotals, Shortage};
use request_rows::Rows;
use std::alloc::{AllocError, Global};

/// Whether the result has no admin access and its device draws on a counter.
fn draws_one(rows: &Rows, due: &Due) -> bool
    requires { IsDue (input_of rows.now) due.now }
    ensures { result ≡ draws_one (input_of rows.now) due.now }
{
    let device = &rows.devices()[due.position];
    !due.result.admin && !device.device().consumes.as_slice().is_empty()
}

/// Whether one of the results does.
pub fn draws_any(rows: &Rows, dues: &[Due]) -> bool
    requires { Each (IsDue (input_of rows.now)) dues.now }
    ensures { result ≡ draws_any (input_of rows.now) dues.now }
{
    for due in dues {
        if draws_one(rows, due) {
            return true;
        }
    }
    false
}

/// The first counter of a device that doesn't cover what is drawn from it with all results, among which the
/// device's is. The totals have what all results draw, and are the same after it if there is none.
fn short_of<'a>(
    alloc: Global,
    rows: &'a Rows<'a>,
    totals: &mut SharedTotals,
    due: &Due,
) -> Result<Option<Shortage<'a>>, AllocError>
    requires { IsDue (input_of rows.now) due.now }
    ensures found { (w : SearchInput) (ps : List Pick) (i : ℕ) → HasDrawn (input_of rows.now) w totals.old ps → slice_get ps i ≡ Some (pick_of w (due_seen (input_of rows.now) due.now)) → due.now.result.admin ≡ false →
        IfOk result (λ short. option_map (λ s. record { set = s.set.now; counter = s.counter.now; drawn = s.drawn; value = s.value }) short ≡ spec.short_on w ps (pick_of w (due_seen (input_of rows.now) due.now))) }
    ensures same { (w : SearchInput) (ps : List Pick) (i : ℕ) → HasDrawn (input_of rows.now) w totals.old ps → slice_get ps i ≡ Some (pick_of w (due_seen (input_of rows.now) due.now)) → due.now.result.admin ≡ false →
        IfOk result (λ short. short ≡ None → HasDrawn (input_of rows.now) w totals.new ps) }
{
    let device = &rows.devices()[due.position];
    totals.give_back(device, alloc)?;
    let short = totals.first_short(device);
    if short.is_none() {
        totals.draw(device, alloc)?;
        return Ok(short);
    }
    Ok(short)
}

fn shortfall(alloc: Global, short: Shortage) -> Result<Shortfall, AllocError>
    ensures { IfOk result (λ s. s ≡ record { set = short.entry.set.now; counter = short.entry.counter.now; drawn = short.entry.drawn; value = short.entry.value }) }
{
    Ok(Shortfall {
        set: short.set.copy(alloc)?,
        counter: short.counter.copy(alloc)?,
        drawn: short.drawn,
        value: short.value,
    })
}

/// The failure of a result without admin access if one of its counters doesn't cover what is drawn from it with
/// all results. The totals have what all results draw, and are the same after it if there is none.
fn short_for<'a>(
    alloc: Global,
    rows: &'a Rows<'a>,
    totals: &mut SharedTotals,
    due: &Due,
) -> Result<Option<Failure>, AllocError>
    requires { IsDue (input_of rows.now) due.now }
    ensures found { (w : SearchInput) (ps : List Pick) (i : ℕ) → HasDrawn (input_of rows.now) w totals.old ps → slice_get ps i ≡ Some (pick_of w (due_seen (input_of rows.now) due.now)) →
        IfOk result (λ found. found ≡ spec.short_for w ps (pick_of w (due_seen (input_of rows.now) due.now))) }
    ensures same { (w : SearchInput) (ps : List Pick) (i : ℕ) → HasDrawn (input_of rows.now) w totals.old ps → slice_get ps i ≡ Some (pick_of w (due_seen (input_of rows.now) due.now)) →
        IfOk result (λ found. found ≡ None → HasDrawn (input_of rows.now) w totals.new ps) }
{
    if due.result.admin {
        return Ok(None);
    }
    match short_of(alloc, rows, totals, due)? {
        None => Ok(None),
        Some(short) => Ok(Some(Failure::Counter(shortfall(alloc, short)?))),
    }
}

/// The failure of the first result without admin access one of whose counters doesn't cover what is drawn from
/// it with all results, by totals that have what the held devices and all results draw.
pub fn counter_short<'a>(
    alloc: Global,
    rows: &'a Rows<'a>,
    totals: &mut SharedTotals,
    dues: &[Due],
) -> Result<Option<Failure>, AllocError>
    requires { Each (IsDue (input_of rows.now)) dues.now }
    ensures { (w : SearchInput) → HasDrawn (input_of rows.now) w totals.old (map (pick_of w) (map (due_seen (input_of rows.now)) dues.now)) →
        IfOk result (λ found. found ≡ spec.counter_short w (map (pick_of w) (map (due_seen (input_of rows.now)) dues.now))) }
{
    for due in dues {
        if let Some(found) = short_for(alloc, rows, totals, due)? {
            return Ok(Some(found));
        }
    }
    Ok(None)
}
