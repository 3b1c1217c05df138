ghost use Rattle.std.specs.Prelude.{◌≡◌, ◌↔◌, ◌⊎◌, ◌+◌, ◌<◌, ◌≤◌, ◌^◌, ℕ, IfSome, IfErr, IfOk, IsErrOf, IsOk, OnErr, OnOk, false, length, true, vec_capacity, vec_len};
ghost use Rattle.std.specs.List.{AllByRecursion};
ghost use Rattle.std.specs.Option.{option_map};
ghost use Rattle.dra_ports.specs.Causes.{HasCause, Rose};
ghost use Rattle.dra_ports.specs.DiskImages.{AtEachMoment};
ghost use Rattle.dra_ports.specs.declared.error.PortError.TheVariants as port;
ghost use Rattle.ckpt_journal.specs.Format.{Fits, ReadsBack, blocks};
ghost use Rattle.ckpt_journal.specs.Layout.{IsSized, start_of};
ghost use Rattle.ckpt_journal.specs.Plan.{is_full};
ghost use Rattle.ckpt_journal.specs.Planned.{IsPlan, IsReached, steps_of};
ghost use Rattle.ckpt_journal.specs.Standing.{HasHalves, IsBeforeOrAfter, Keeps};
ghost use Rattle.ckpt_journal.specs.Steps.{StoppedIn, all_done};
ghost use Rattle.ckpt_journal.specs.Table.{IsTable, compact, row_after};
ghost use Rattle.ckpt_journal.specs.Words.{IsSame, disk_of, half_of, halves_of, has_ended, place_of, rows_of};
ghost use Rattle.ckpt_journal.specs.declared.error.JournalError.TheVariants.{Full, Memory};

use crate::layout::Halves;
use crate::plan::{Plan, plan_append};
use crate::rows::{copy_with_room, take_in};
use crate::writing::{append_at, switch_half};
use crate::{Journal, JournalError, Record, Row};
use dra_ports::{Disk, PortError};
use std::alloc::Global;

/// Carries out a plan.
fn carry_out<D: Disk>(disk: &mut D, halves: Halves, plan: &Plan) -> Result<(), PortError>
    requires sized { IsSized halves }
    requires within { IfSome (D.content disk.old) (λ c. halves.base + halves.half + 6 ≤ length c.bytes) }
    requires gate { IfSome (D.content disk.old) (λ c. IsReached halves plan.now (length c.bytes)) }
    requires room { plan.now.gate + 1 < 2 ^ 64 }
    ensures ok { OnOk result (D.content disk.new ≡ option_map (all_done (steps_of halves plan.now)) (D.content disk.old)) }
    ensures err { OnErr result (StoppedIn (steps_of halves plan.now) (D.content disk.old) (D.content disk.new)) }
    ensures cause { HasCause (D.faults disk.old) (D.faults disk.new) result }
    ensures no_memory { IsErrOf result port.Memory → ⊥ }
{
    match &plan.table {
        None => append_at(disk, plan.gate, &plan.bytes),
        Some(table) => {
            switch_half(disk, halves, table)?;
            append_at(disk, plan.gate, &plan.bytes)
        }
    }
}

/// The plan that adds a record, the record for the rows, and room for it there.
fn make_ready(
    alloc: Global,
    halves: Halves,
    end: u64,
    rows: &mut Vec<Row>,
    item: &Record,
) -> Result<(Plan, Record), JournalError>
    requires sized { IsSized halves }
    requires rows { IsTable rows.old.items }
    requires used { start_of halves + length (blocks (compact rows.old.items)) ≤ end }
    requires within { end < start_of halves + halves.half }
    requires reads { ReadsBack item.now }
    ensures plan { IfOk result (λ x. IsPlan halves end rows.old.items item.now x.0) }
    ensures kept { IfOk result (λ x. x.1 ≡ item.now) }
    ensures fits { OnOk result (Fits item.now) }
    ensures room { OnOk result (is_full halves.half rows.old.items item.now ≡ false) }
    ensures full { IsErrOf result Full → is_full halves.half rows.old.items item.now ≡ true }
    ensures only { IfErr result (λ e. (e ≡ Full) ⊎ (e ≡ Memory)) }
    ensures items { rows.new.items ≡ rows.old.items }
    ensures space { OnOk result (vec_len rows.new < vec_capacity rows.new) }
{
    let plan = plan_append(alloc, halves, end, rows, item)?;
    let kept = copy_with_room(alloc, rows, item)?;
    Ok((plan, kept))
}

impl<D: Disk> Journal<D> {
    /// The table that the records make, in the order in which its rows were made. Allocates nothing.
    pub fn rows(&self) -> &[Row]
        ensures { result.now ≡ rows_of self.now }
    {
        &self.rows
    }

    /// Whether an earlier call on this journal returned `DiskFault`, which ended it. Allocates nothing.
    pub fn has_ended(&self) -> bool
        ensures { result ≡ has_ended self.now }
    {
        self.ended
    }

    /// Adds a record. Once this has returned `Ok`, whatever a crash leaves has the table with it. A crash at
    /// any moment of the call, and after any of its results, leaves the table from before, or the one with the
    /// new record. Each key and device id of the record has to be the one that its printed form reads as: a
    /// key's namespace ends at its first `/`, and in a device id the driver ends at the first `/` and the
    /// device begins after the last.
    ///
    /// If the record doesn't fit the live half, the table is compacted into the other half first.
    ///
    /// `Closed` is returned if and only if an earlier call on this journal returned `DiskFault`. `Full`
    /// is returned only if a text or a count of the record is over 65,535 or the compacted table and the record
    /// don't fit a half, and if so no call returns `Ok`. `Memory` is returned only if memory runs out,
    /// and `DiskFault` only if the disk's error count rose in this call or is at its last value. All
    /// errors but `DiskFault` change nothing; that one ends the journal.
    pub fn append(&mut self, alloc: Global, item: &Record) -> Result<(), JournalError>
        requires { ReadsBack item.now }
        ensures any_moment { has_ended self.old ≡ false → AtEachMoment (IsBeforeOrAfter (rows_of self.old) item.now) (D.content (disk_of self.old)) (D.content (disk_of self.new)) }
        ensures acknowledged { OnOk result (IfSome (D.content (disk_of self.new)) (Keeps (row_after (rows_of self.old) item.now))) }
        ensures rows { OnOk result (rows_of self.new ≡ row_after (rows_of self.old) item.now) }
        ensures half { half_of self.new ≡ half_of self.old }
        ensures going { OnOk result (has_ended self.new ≡ false) }
        ensures no_fault { OnOk result (D.faults (disk_of self.new) ≡ D.faults (disk_of self.old)) }
        ensures fault { IsErrOf result JournalError.DiskFault → Rose (D.faults (disk_of self.old)) (D.faults (disk_of self.new)) × (has_ended self.new ≡ true) }
        ensures closed { IsErrOf result JournalError.Closed ↔ (has_ended self.old ≡ true) }
        ensures full { IsErrOf result JournalError.Full → is_full (half_of self.old) (rows_of self.old) item.now ≡ true }
        ensures room { (IsOk result ⊎ IsErrOf result JournalError.DiskFault) → is_full (half_of self.old) (rows_of self.old) item.now ≡ false }
        ensures no_bytes { (at : ℕ) → IsErrOf result (JournalError.NotAJournal at) → ⊥ }
        ensures same { OnErr result (IsErrOf result JournalError.DiskFault ⊎ IsSame self.old self.new) }
    {
        if self.ended {
            return Err(JournalError::Closed);
        }
        let (plan, kept) = make_ready(alloc, self.halves, self.end, &mut self.rows, item)?;
        self.add(item, &plan, kept)
    }

    /// Carries out the plan that adds a record, and changes the rows as the record says.
    fn add(&mut self, item: &Record, plan: &Plan, kept: Record) -> Result<(), JournalError>
        requires going { has_ended self.old ≡ false }
        requires plan { IsPlan (halves_of self.old) (place_of self.old) (rows_of self.old) item.now plan.now }
        requires fits { Fits item.now }
        requires kept { kept ≡ item.now }
        requires space { vec_len self.old.rows < vec_capacity self.old.rows }
        ensures any_moment { AtEachMoment (IsBeforeOrAfter (rows_of self.old) item.now) (D.content (disk_of self.old)) (D.content (disk_of self.new)) }
        ensures acknowledged { OnOk result (IfSome (D.content (disk_of self.new)) (Keeps (row_after (rows_of self.old) item.now))) }
        ensures rows { OnOk result (rows_of self.new ≡ row_after (rows_of self.old) item.now) }
        ensures half { half_of self.new ≡ half_of self.old }
        ensures going { OnOk result (has_ended self.new ≡ false) }
        ensures no_fault { OnOk result (D.faults (disk_of self.new) ≡ D.faults (disk_of self.old)) }
        ensures fault { OnErr result (Rose (D.faults (disk_of self.old)) (D.faults (disk_of self.new)) × (has_ended self.new ≡ true)) }
        ensures only { IfErr result (λ e. e ≡ JournalError.DiskFault) }
    {
        match carry_out(&mut self.disk, self.halves, plan) {
            Ok(()) => {
                self.halves = plan.halves;
                self.end = plan.gate + plan.bytes.len() as u64;
                take_in(&mut self.rows, kept);
                Ok(())
            }
            Err(_) => {
                self.ended = true;
                drop(kept);
                Err(JournalError::DiskFault)
            }
        }
    }

    /// States what a journal keeps: if it has not ended, whatever a crash leaves has its table, and what a read returns
    /// has halves of its size; and the records of its rows may be appended again.
    pub fn keeps(&self)
        ensures table { has_ended self.now ≡ false → IfSome (D.content (disk_of self.now)) (Keeps (rows_of self.now)) }
        ensures readable { AllByRecursion ReadsBack (compact (rows_of self.now)) }
        ensures half { has_ended self.now ≡ false → IfSome (D.content (disk_of self.now)) (HasHalves (half_of self.now)) }
    {
        let _ended = self.ended;
    }

    /// Hands the disk back unchanged. Touches nothing and allocates nothing.
    pub fn close(self) -> D
        ensures { result ≡ disk_of self }
    {
        let Journal {
            disk,
            halves: _,
            end: _,
            rows: _,
            ended: _,
        } = self;
        disk
    }
}
