ghost use Rattle.std.specs.Prelude.{◌≡◌, ◌≤◌, ◌++◌, [], map, false, nat_lt, option_copied, IfOk, OnOk};
ghost use Rattle.std.specs.List.{list_any};
ghost use Rattle.request_rows.specs.Chosen.{all_fails, chosen_rows, due_at, due_of, due_with, fails_at, faulty_at, is_crowded, is_faulty, row_for_choice, seat_due, seats_counted, seats_repeated, shape_in, slot_of, slots_at, slots_by, slots_in, slots_row};

use crate::rows::Row;
use crate::ways::RequestRows;
use api_claim::AllocationMode;
use std::alloc::{AllocError, Global};

/// Which position a slot takes.
#[derive(Clone, Copy, Debug, PartialEq, Eq)]
pub enum Seat {
    /// Any, as the first of a request with a count.
    First,
    /// One above that of the slot before it.
    Next,
    /// This one, of a request for all devices.
    Due(usize),
}

/// A result to fill.
#[derive(Clone, Copy, Debug, PartialEq, Eq)]
pub struct Slot {
    /// The index of the row that it is for.
    pub row: usize,
    pub seat: Seat,
}

/// What a choice asks for as a whole.
#[derive(Clone, Copy, Debug, PartialEq, Eq)]
pub enum Shape {
    /// A selector of a chosen request is neither true nor false of a device of the node.
    Faulty,
    /// A chosen request for all devices fails as a whole, or a claim would have more than 32 results.
    Hopeless,
    /// This many slots need to be filled.
    Open(usize),
}

/// What a choice asks for.
#[derive(Drop)]
pub struct Choice {
    pub shape: Shape,
    /// Empty if the shape isn't Open.
    pub slots: Vec<Slot>,
}

/// The row of a request that a choice picks.
fn row_for_choice(request: RequestRows, choice: usize) -> Result<Option<usize>, AllocError>
    ensures { IfOk result (λ row. row ≡ row_for_choice request choice) }
{
    if request.exact {
        Ok(Some(request.first))
    } else if choice < request.ways {
        // Memory can't hold more than 2^64 rows.
        let row = request.first.checked_add(choice).ok_or(AllocError)?;
        Ok(Some(row))
    } else {
        Ok(None)
    }
}

/// The rows that a choice picks, in order.
pub fn chosen_rows(
    alloc: Global,
    requests: &[RequestRows],
    choice: &[usize],
) -> Result<Vec<usize>, AllocError>
    ensures { IfOk result (λ v. v.items ≡ chosen_rows requests.now choice.now) }
{
    let mut chosen = Vec::new(alloc);
    let mut at = 0;
    while at < requests.len() && at < choice.len() {
        if let Some(row) = row_for_choice(requests[at], choice[at])? {
            chosen.push(row)?;
        }
        at += 1;
    }
    Ok(chosen)
}

fn is_faulty(row: Option<&Row>) -> bool
    ensures { result ≡ is_faulty (option_copied row.entry) }
{
    match row {
        None => false,
        Some(row) => row.fault.is_some(),
    }
}

fn faulty_at(rows: &[Row], row: usize) -> bool
    ensures { result ≡ faulty_at rows.now row }
{
    is_faulty(rows.get(row))
}

/// Whether one of the rows has an evaluation error.
fn any_faulty(rows: &[Row], chosen: &[usize]) -> bool
    ensures { result ≡ list_any (faulty_at rows.now) chosen.now }
{
    for row in chosen {
        if faulty_at(rows, *row) {
            return true;
        }
    }
    false
}

fn all_fails(broken: bool, row: Option<&Row>) -> bool
    ensures { result ≡ all_fails broken (option_copied row.entry) }
{
    match row {
        None => false,
        Some(row) => match row.mode {
            AllocationMode::ExactCount(_) => false,
            AllocationMode::All => broken || row.matching.as_slice().is_empty(),
        },
    }
}

fn fails_at(broken: bool, rows: &[Row], row: usize) -> bool
    ensures { result ≡ fails_at broken rows.now row }
{
    all_fails(broken, rows.get(row))
}

/// Whether one of the rows asks for all devices, and fails as a whole.
fn any_fails(broken: bool, rows: &[Row], chosen: &[usize]) -> bool
    ensures { result ≡ list_any (fails_at broken rows.now) chosen.now }
{
    for row in chosen {
        if fails_at(broken, rows, *row) {
            return true;
        }
    }
    false
}

/// The claim of a row, and how many slots the row has.
fn due_of(row: Option<&Row>) -> (usize, u64)
    ensures { result ≡ due_of (option_copied row.entry) }
{
    match row {
        None => (0, 0),
        Some(row) => match row.mode {
            AllocationMode::ExactCount(count) => (row.claim, count),
            AllocationMode::All => (row.claim, row.matching.as_slice().len() as u64),
        },
    }
}

fn due_at(rows: &[Row], row: usize) -> (usize, u64)
    ensures { result ≡ due_at rows.now row }
{
    due_of(rows.get(row))
}

/// Whether a claim has more than 32 slots with those of a row, after `total` slots of `claim`.
fn is_over(claim: usize, total: u64, due: (usize, u64)) -> bool
    requires { total ≤ 32 }
    ensures { result ≡ nat_lt 32 (due_with claim total due) }
{
    if due.0 == claim {
        due.1 > 32 - total
    } else {
        due.1 > 32
    }
}

fn total_with(claim: usize, total: u64, due: (usize, u64)) -> u64
    requires few { total ≤ 32 }
    requires within { nat_lt 32 (due_with claim total due) ≡ false }
    ensures total { result ≡ due_with claim total due }
    ensures few { result ≤ 32 }
{
    if due.0 == claim { due.1 + total } else { due.1 }
}

/// Whether a claim has more slots than it may have results, if the rows of each claim are
/// adjacent.
fn is_crowded(rows: &[Row], chosen: &[usize]) -> bool
    ensures { result ≡ is_crowded rows.now 0 0 chosen.now }
{
    let mut claim = 0;
    let mut total = 0;
    for row in chosen {
        let due = due_at(rows, *row);
        if is_over(claim, total, due) {
            return true;
        }
        total = total_with(claim, total, due);
        claim = due.0;
    }
    false
}

fn add_next(slots: &mut Vec<Slot>, row: usize, count: u64) -> Result<(), AllocError>
    ensures { OnOk result (slots.new.items ≡ slots.old.items ++ map (slot_of row) (seats_repeated count)) }
{
    let mut left = count;
    while left > 0 {
        slots.push(Slot {
            row,
            seat: Seat::Next,
        })?;
        left -= 1;
    }
    Ok(())
}

fn add_counted(slots: &mut Vec<Slot>, row: usize, count: u64) -> Result<(), AllocError>
    ensures { OnOk result (slots.new.items ≡ slots.old.items ++ map (slot_of row) (seats_counted count)) }
{
    if count == 0 {
        return Ok(());
    }
    slots.push(Slot {
        row,
        seat: Seat::First,
    })?;
    add_next(slots, row, count - 1)
}

fn add_due(slots: &mut Vec<Slot>, row: usize, positions: &[usize]) -> Result<(), AllocError>
    ensures { OnOk result (slots.new.items ≡ slots.old.items ++ map (slot_of row) (map seat_due positions.now)) }
{
    for position in positions {
        slots.push(Slot {
            row,
            seat: Seat::Due(*position),
        })?;
    }
    Ok(())
}

fn add_slots(slots: &mut Vec<Slot>, at: usize, row: Option<&Row>) -> Result<(), AllocError>
    ensures { OnOk result (slots.new.items ≡ slots.old.items ++ slots_at at (option_copied row.entry)) }
{
    match row {
        None => Ok(()),
        Some(row) => match row.mode {
            AllocationMode::ExactCount(count) => add_counted(slots, at, count),
            AllocationMode::All => add_due(slots, at, row.matching.as_slice()),
        },
    }
}

fn add_row(slots: &mut Vec<Slot>, rows: &[Row], row: usize) -> Result<(), AllocError>
    ensures { OnOk result (slots.new.items ≡ slots.old.items ++ slots_row rows.now row) }
{
    add_slots(slots, row, rows.get(row))
}

/// The slots of the rows, in order.
fn slots_of(alloc: Global, rows: &[Row], chosen: &[usize]) -> Result<Vec<Slot>, AllocError>
    ensures { IfOk result (λ v. v.items ≡ slots_in rows.now chosen.now) }
{
    let mut slots = Vec::new(alloc);
    for row in chosen {
        add_row(&mut slots, rows, *row)?;
    }
    Ok(slots)
}

/// What the rows ask for together.
pub fn choice_of(
    alloc: Global,
    broken: bool,
    rows: &[Row],
    chosen: &[usize],
) -> Result<Choice, AllocError>
    ensures shape { IfOk result (λ c. c.shape ≡ shape_in broken rows.now chosen.now (slots_in rows.now chosen.now)) }
    ensures slots { IfOk result (λ c. c.slots.items ≡ slots_by (shape_in broken rows.now chosen.now (slots_in rows.now chosen.now)) (slots_in rows.now chosen.now)) }
{
    if any_faulty(rows, chosen) {
        return Ok(closed(alloc, Shape::Faulty));
    }
    if any_fails(broken, rows, chosen) || is_crowded(rows, chosen) {
        return Ok(closed(alloc, Shape::Hopeless));
    }
    let slots = slots_of(alloc, rows, chosen)?;
    Ok(Choice {
        shape: Shape::Open(slots.len()),
        slots,
    })
}

/// A choice without slots.
fn closed(alloc: Global, shape: Shape) -> Choice
    ensures shape { result.shape ≡ shape }
    ensures slots { result.slots.items ≡ [] }
{
    Choice {
        shape,
        slots: Vec::new(alloc),
    }
}
