ghost use Rattle.std.specs.Prelude.{◌≡◌, ◌⊎◌, ◌+◌, ◌<◌, ◌≤◌, false, true, IfErr, IfOk, IsErrOf, OnOk, length};
ghost use Rattle.ckpt_journal.specs.Format.{Fits, ReadsBack, blocks};
ghost use Rattle.ckpt_journal.specs.Layout.{IsSized, start_of};
ghost use Rattle.ckpt_journal.specs.Plan.{is_full};
ghost use Rattle.ckpt_journal.specs.Planned.{IsPlan};
ghost use Rattle.ckpt_journal.specs.Table.{IsTable, compact};
ghost use Rattle.ckpt_journal.specs.declared.error.JournalError.TheVariants.{Full, Memory};

use crate::layout::Halves;
use crate::spelling::{compacted, spelled};
use crate::{JournalError, Record, Row};
use std::alloc::Global;

/// What is written to add a record, made before anything is written.
#[derive(Drop)]
pub struct Plan {
    /// The compacted table for the half that isn't live, if the record doesn't fit the live one.
    pub table: Option<Vec<u8>>,
    /// The record and the next gate.
    pub bytes: Vec<u8>,
    /// The halves once the table is written.
    pub halves: Halves,
    /// The offset of the closed gate that the record is added after.
    pub gate: u64,
}

/// What is written to add a record to a journal with these rows whose closed gate has the offset `end`.
///
/// The error is `Full` only if a text or a count of the record is over 65,535 or the compacted table and the
/// record don't fit a half, and if so the result is not `Ok`. It is `Memory` only if memory runs out.
pub fn plan_append(
    alloc: Global,
    halves: Halves,
    end: u64,
    rows: &[Row],
    item: &Record,
) -> Result<Plan, JournalError>
    requires sized { IsSized halves }
    requires rows { IsTable rows.now }
    requires used { start_of halves + length (blocks (compact rows.now)) ≤ end }
    requires within { end < start_of halves + halves.half }
    requires reads { ReadsBack item.now }
    ensures plan { IfOk result (IsPlan halves end rows.now item.now) }
    ensures fits { OnOk result (Fits item.now) }
    ensures room { OnOk result (is_full halves.half rows.now item.now ≡ false) }
    ensures full { IsErrOf result Full → is_full halves.half rows.now item.now ≡ true }
    ensures only { IfErr result (λ e. (e ≡ Full) ⊎ (e ≡ Memory)) }
{
    let bytes = spelled(alloc, item, halves.half)?;
    let after = end + bytes.len() as u64;
    let limit = halves.start() + halves.half;
    if after < limit {
        return Ok(Plan {
            table: None,
            bytes,
            halves,
            gate: end,
        });
    }
    let table = compacted(alloc, rows)?;
    let needed = table.len() as u64 + bytes.len() as u64;
    let most = halves.half;
    if most < needed {
        return Err(JournalError::Full);
    }
    let other = halves.other();
    let gate = other.start() + (table.len() as u64 - 1);
    Ok(Plan {
        table: Some(table),
        bytes,
        halves: other,
        gate,
    })
}
