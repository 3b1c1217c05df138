ghost use Rattle.std.specs.Prelude.{◌≡◌, ◌<◌, [], IfOk, IfSome, OnOk, length, vec_capacity, vec_len};
ghost use Rattle.ckpt_journal.specs.Table.{leave_row, place_from, remove_row, row_after, set_row, table};

use crate::{Claim, Record, Row, RowState};
use dra_values::Text;
use std::alloc::{AllocError, Global};

/// The index of the row of the claim with this uid.
fn place_of(rows: &[Row], uid: &Text) -> Option<usize>
    ensures first { result ≡ place_from 0 uid.now rows.now }
    ensures within { IfSome result (λ at. at < length rows.now) }
{
    for at in 0..rows.len() {
        if rows[at].claim.uid == *uid {
            return Some(at);
        }
    }
    None
}

#[tactic(auto, using(crate::proofs::Tables::set_here, crate::proofs::Tables::set_last))]
/// Puts the row of a claim in the place of the one of its uid, or after all others. Allocates nothing.
fn set(rows: &mut Vec<Row>, state: RowState, claim: Claim)
    requires { vec_len rows.old < vec_capacity rows.old }
    ensures { rows.new.items ≡ set_row (record { state = state; claim = claim }) rows.old.items }
{
    match place_of(rows, &claim.uid) {
        Some(at) => rows[at] = Row { state, claim },
        None => rows.push_reserved(Row { state, claim }),
    }
}

#[tactic(auto, using(crate::proofs::Tables::leave_here, crate::proofs::Tables::leave_none, crate::proofs::Tables::no_place))]
/// Makes the row of the uid Leaving, if there is one. Allocates nothing.
fn leave(rows: &mut Vec<Row>, uid: &Text)
    ensures { rows.new.items ≡ leave_row uid.now rows.old.items }
{
    if let Some(at) = place_of(rows, uid) {
        rows[at].state = RowState::Leaving;
    }
}

#[tactic(auto, using(crate::proofs::Tables::remove_here, crate::proofs::Tables::remove_none, crate::proofs::Tables::no_place))]
/// Takes the row of the uid away, if there is one. Allocates nothing.
fn remove(rows: &mut Vec<Row>, uid: &Text)
    ensures { rows.new.items ≡ remove_row uid.now rows.old.items }
{
    if let Some(at) = place_of(rows, uid) {
        rows.remove(at);
    }
}

/// Changes the rows as a record says. Allocates nothing.
pub fn take_in(rows: &mut Vec<Row>, item: Record)
    requires { vec_len rows.old < vec_capacity rows.old }
    ensures { rows.new.items ≡ row_after rows.old.items item }
{
    match item {
        Record::Begun(claim) => set(rows, RowState::Begun, claim),
        Record::Prepared(claim) => set(rows, RowState::Prepared, claim),
        Record::Leaving(uid) => leave(rows, &uid),
        Record::Gone(uid) => remove(rows, &uid),
    }
}

/// An equal record, and room for its row. Returns `AllocError` only if out of memory.
pub fn copy_with_room(
    alloc: Global,
    rows: &mut Vec<Row>,
    item: &Record,
) -> Result<Record, AllocError>
    ensures copied { IfOk result (λ copied. copied ≡ item.now) }
    ensures items { rows.new.items ≡ rows.old.items }
    ensures space { OnOk result (vec_len rows.new < vec_capacity rows.new) }
{
    rows.reserve(1)?;
    item.copy(alloc)
}

/// Changes the rows as a record says, which stays. Returns `AllocError` only if out of memory.
fn add_copy(alloc: Global, rows: &mut Vec<Row>, item: &Record) -> Result<(), AllocError>
    ensures { OnOk result (rows.new.items ≡ row_after rows.old.items item.now) }
{
    let copied = copy_with_room(alloc, rows, item)?;
    take_in(rows, copied);
    Ok(())
}

/// The table that records make. Returns `AllocError` only if out of memory.
pub fn table_of(alloc: Global, records: &[Record]) -> Result<Vec<Row>, AllocError>
    ensures { IfOk result (λ rows. rows.items ≡ table records.now) }
{
    let mut rows = Vec::new(alloc);
    for item in records {
        add_copy(alloc, &mut rows, item)?;
    }
    Ok(rows)
}
