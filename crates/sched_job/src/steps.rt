ghost use Rattle.std.specs.Prelude.{◌≡◌, ◌≤◌, ◌<◌, ◌∷◌, [], ℕ, List, length, slice_index, false, IfOk, OnErr, IsErrOf, IsSome};
ghost use Rattle.cluster.specs.declared.entry.Entry.{Entry};
ghost use Rattle.cluster.specs.History.{job_state_of};
ghost use Rattle.histories.specs.Legal.{Legal};
ghost use Rattle.sched_job.specs.Moves.{Fits, move_of};
ghost use Rattle.sched_job.specs.Runs.{Running};
ghost use Rattle.histories.specs.JobRuns.{Run, is_ended};
ghost use Rattle.sched_job.specs.Steps.{jobs_of, Differ, Extends, AllNew, AllFit, AllEnds, IsOneDue, Ran, Went, WentAt, Walk};

use crate::{Next, Work, runs_go_on};
use cluster::JobState;
use engine_ports::Engine;
use ledger_core::{Ledger, LedgerError};
use std::alloc::Global;

fn is_ended(job_state: JobState) -> bool
    ensures { result ≡ is_ended job_state }
{
    match job_state {
        JobState::Ended(_) => true,
        JobState::Fresh | JobState::Reserved(_) | JobState::Conflicted(_) | JobState::Failed(_) =>
            false,
    }
}

/// One turn of the work, and the search if one is next, unless its job has ended. Returns how many turns
/// that were.
pub fn go<E: Engine>(
    alloc: Global,
    ledger: &mut Ledger,
    work: &mut Work,
    budget: u64,
) -> Result<u64, LedgerError>
    requires { Fits ledger.old.entries work.old }
    ensures went { IfOk result (λ turns. Went budget ledger.old ledger.new work.old work.new turns) }
    ensures full { (n : ℕ) → IsErrOf result (LedgerError.Full n) → (length ledger.new.entries ≡ n) × (ledger.new.limit ≤ n) }
    ensures due { (n : ℕ) → IsErrOf result (LedgerError.Full n) → IsSome (move_of ledger.new.entries work.new) }
    ensures few { IfOk result (λ turns. turns ≤ 1) }
    ensures extends { Extends (work.old.job ∷ []) ledger.old.entries ledger.new.entries }
    ensures limit { ledger.new.limit ≡ ledger.old.limit }
    ensures job { work.new.job ≡ work.old.job }
    ensures command { work.new.command ≡ work.old.command }
    ensures running { (c : Run) → c.budget ≡ budget → Running c ledger.old.entries work.old → Running c ledger.new.entries work.new }
    ensures begun { OnErr result (is_ended (job_state_of ledger.new.entries work.old.job) ≡ false) }
    ensures within { length ledger.new.entries ≤ ledger.new.limit }
    ensures legal { Legal ledger.new.entries }
{
    let _len = ledger.len();
    if is_ended(ledger.job_state(work.job)) {
        return Ok(0);
    }
    match work.turn::<E>(alloc, ledger)? {
        Next::Think => work.think_over::<E>(alloc, ledger, budget)?,
        Next::Again | Next::Ended(_) => (),
    }
    Ok(1)
}

fn go_at<E: Engine>(
    alloc: Global,
    ledger: &mut Ledger,
    works: &mut [Work],
    at: usize,
    budget: u64,
) -> Result<u64, LedgerError>
    requires index { at < length works.old }
    requires fit { AllFit ledger.old.entries works.old }
    ensures went { IfOk result (λ turns. WentAt budget ledger.old ledger.new works.old works.new at turns) }
    ensures full { (n : ℕ) → IsErrOf result (LedgerError.Full n) → (length ledger.new.entries ≡ n) × (ledger.new.limit ≤ n) }
    ensures due { (n : ℕ) → IsErrOf result (LedgerError.Full n) → IsOneDue ledger.new.entries works.new }
    ensures few { IfOk result (λ turns. turns ≤ 1) }
    ensures ran { (from : ℕ) (jobs : List ℕ) (h : List Entry) → Differ jobs → Ran from budget jobs h ledger.old.entries works.old → Ran from budget jobs h ledger.new.entries works.new }
    ensures limit { ledger.new.limit ≡ ledger.old.limit }
    ensures legal { Legal ledger.new.entries }
{
    runs_go_on();
    go::<E>(alloc, ledger, &mut works[at], budget)
}

/// Makes one turn for each step, of the work at that index, with the search after it if one is next; a
/// work whose job has ended is passed over. Returns how many turns there were. Whatever it returns, the
/// history extends the old one by entries of these jobs, each job that has ended was run to its end, and
/// each other one was begun. `Full` is returned only if the history has its limit of entries and one of
/// the works is to append one more, and `Memory` only if memory runs out.
pub fn run_steps<E: Engine>(
    alloc: Global,
    ledger: &mut Ledger,
    works: &mut [Work],
    steps: &[usize],
    budget: u64,
) -> Result<u64, LedgerError>
    requires places { (k : ℕ) → k < length steps.now → slice_index steps.now k < length works.old }
    requires differ { Differ (jobs_of works.old) }
    requires fresh { AllNew ledger.old.entries works.old }
    ensures ran { Ran (length ledger.old.entries) budget (jobs_of works.old) ledger.old.entries ledger.new.entries works.new }
    ensures legal { Legal ledger.new.entries }
    ensures ends { AllEnds (length ledger.old.entries) budget ledger.new.entries works.new }
    ensures walk { IfOk result (λ turns. Walk budget steps.now ledger.old works.old ledger.new works.new turns) }
    ensures full { (n : ℕ) → IsErrOf result (LedgerError.Full n) → (length ledger.new.entries ≡ n) × (ledger.new.limit ≤ n) }
    ensures due { (n : ℕ) → IsErrOf result (LedgerError.Full n) → IsOneDue ledger.new.entries works.new }
    ensures limit { ledger.new.limit ≡ ledger.old.limit }
{
    runs_go_on();
    let mut turns = 0;
    let _len = ledger.len();
    for step in steps {
        turns += go_at::<E>(alloc, ledger, works, *step, budget)?;
    }
    Ok(turns)
}
