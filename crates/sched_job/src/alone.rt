ghost use Rattle.std.specs.Prelude.{◌≡◌, ◌≤◌, ◌<◌, ◌+◌, ◌*◌, ◌∷◌, [], ℕ, length, IfOk, OnOk, OnErr, IsErrOf};
ghost use Rattle.cluster.specs.declared.entry.JobState.TheVariants.{Ended, Fresh};
ghost use Rattle.cluster.specs.History.{job_state_of};
ghost use Rattle.histories.specs.Legal.{Legal};
ghost use Rattle.histories.specs.Alone.{NeverSetBack};
ghost use Rattle.histories.specs.JobRuns.{JobBegun, JobRun, attempts_of};
ghost use Rattle.sched_job.specs.declared.work.Stage.TheVariants.{Ready};
ghost use Rattle.sched_job.specs.Steps.{Extends, run_of};

use crate::steps::go;
use crate::{Work, alone_is_undisturbed, turns_are_few};
use cluster::JobState;
use commands::Command;
use engine_ports::Engine;
use ledger_core::{Ledger, LedgerError};
use std::alloc::Global;

/// Runs a job that has no entry yet to its end, by turns and searches, with no other job between them.
/// Returns the index of its last entry. Whatever it returns, the history extends the old one by entries of
/// this job alone, none of which is a refusal of its plan, a conflict or contended; there are at most 35 of
/// them for each attempt and one more. `Full` is returned only if the history has its limit of entries, and
/// `Memory` only if memory runs out: the entries that were made before stay, and the job was begun.
pub fn run_alone<E: Engine>(
    alloc: Global,
    ledger: &mut Ledger,
    job: u64,
    command: Command,
    budget: u64,
) -> Result<u64, LedgerError>
    requires fresh { job_state_of ledger.old.entries job ≡ Fresh }
    requires attempts { 0 < attempts_of command }
    ensures extends { Extends (job ∷ []) ledger.old.entries ledger.new.entries }
    ensures run { OnOk result (JobRun (record { job = job; command = command; from = length ledger.old.entries; budget = budget }) ledger.new.entries) }
    ensures index { IfOk result (λ index. job_state_of ledger.new.entries job ≡ Ended index) }
    ensures begun { OnErr result (JobBegun (record { job = job; command = command; from = length ledger.old.entries; budget = budget }) ledger.new.entries) }
    ensures full { (n : ℕ) → IsErrOf result (LedgerError.Full n) → (length ledger.new.entries ≡ n) × (ledger.new.limit ≤ n) }
    ensures limit { ledger.new.limit ≡ ledger.old.limit }
    ensures legal { Legal ledger.new.entries }
    ensures undisturbed { NeverSetBack job ledger.new.entries }
    ensures few { OnOk result (length ledger.new.entries ≤ length ledger.old.entries + 35 * attempts_of command + 1) }
{
    let mut work = Work::new(job, command);
    run_work::<E>(alloc, ledger, &mut work, budget)
}

/// Runs the work of a job that has no entry yet to the job's end.
fn run_work<E: Engine>(
    alloc: Global,
    ledger: &mut Ledger,
    work: &mut Work,
    budget: u64,
) -> Result<u64, LedgerError>
    requires fresh { job_state_of ledger.old.entries work.old.job ≡ Fresh }
    requires ready { work.old.stage ≡ Ready }
    requires attempts { 0 < attempts_of work.old.command }
    ensures extends { Extends (work.old.job ∷ []) ledger.old.entries ledger.new.entries }
    ensures run { OnOk result (JobRun (run_of (length ledger.old.entries) budget work.old) ledger.new.entries) }
    ensures index { IfOk result (λ index. job_state_of ledger.new.entries work.old.job ≡ Ended index) }
    ensures begun { OnErr result (JobBegun (run_of (length ledger.old.entries) budget work.old) ledger.new.entries) }
    ensures full { (n : ℕ) → IsErrOf result (LedgerError.Full n) → (length ledger.new.entries ≡ n) × (ledger.new.limit ≤ n) }
    ensures limit { ledger.new.limit ≡ ledger.old.limit }
    ensures legal { Legal ledger.new.entries }
    ensures undisturbed { NeverSetBack work.old.job ledger.new.entries }
    ensures few { OnOk result (length ledger.new.entries ≤ length ledger.old.entries + 35 * attempts_of work.old.command + 1) }
{
    alone_is_undisturbed();
    turns_are_few();
    let _len = ledger.len();
    'turns: loop {
        if let JobState::Ended(index) = ledger.job_state(work.job) {
            return Ok(index);
        }
        go::<E>(alloc, ledger, work, budget)?;
    }
}
