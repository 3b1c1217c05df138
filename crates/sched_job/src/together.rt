ghost use Rattle.std.specs.Prelude.{◌≡◌, ◌≤◌, ◌<◌, [], ℕ, length, max, min, IfSome, IfNone, OnOk, IsErrOf};
ghost use mathlib.Core.List.{IsPrefix};
ghost use Rattle.turn_lock.specs.Known.{IsFree, IsOf};
ghost use Rattle.sched_job.specs.Steps.{AllNew, Differ, jobs_of};
ghost use Rattle.sched_job.specs.Dealt.{AreReady};
ghost use Rattle.sched_job.specs.Together.{AllDone, AllEnded, DidAll, RanTogether, SomeFull, SomeOpen};

use crate::deal::deal;
use crate::passes::{join_all, split_all};
use crate::past::runs_go_past;
use crate::run::JobEnd;
use crate::work::Work;
use crew::{Unrun, run_all};
use dra_ports::Gate;
use engine_ports::Engine;
use ledger_core::{Ledger, LedgerError};
use std::alloc::Global;
use std::sync::Wait;
use std::thread::Threads;
use turn_lock::{Pass, Refused, TurnLock};

/// Why jobs weren't all run to their end: one of them was out of memory, or else one met the limit of the
/// history.
fn first_failure(ends: &[JobEnd]) -> Result<(), LedgerError>
    ensures ok { OnOk result (AllDone ends.now) }
    ensures full { (n : ℕ) → IsErrOf result (LedgerError.Full n) → SomeFull n ends.now }
{
    let mut failure = Ok(());
    for end in ends {
        match end {
            JobEnd::Ended(_) => {}
            JobEnd::Full(count) => failure = Err(LedgerError::Full(*count)),
            JobEnd::Memory => return Err(LedgerError::Memory),
        }
    }
    failure
}

/// How many workers are used: as many as there are, or as there are jobs, if that is fewer, and at least one.
fn used_workers(workers: u64, jobs: usize) -> u64
    ensures { result ≡ min workers (max jobs 1) }
{
    workers.min(jobs.max(1) as u64)
}

/// Deals the works to workers, runs them under the lock, and joins the passes. `None` means that memory ran
/// out before a job began.
fn run_under<E: Engine + Send, R: Threads + Wait + Sync, G: Gate + Sync>(
    rt: &R,
    alloc: Global,
    gate: &G,
    lock: &TurnLock<Ledger>,
    first: Pass<Ledger>,
    works: Vec<Work>,
    workers: u64,
    budget: u64,
) -> (Pass<Ledger>, Option<Vec<JobEnd>>)
    requires workers { 0 < workers }
    requires ready { AreReady works.items }
    requires of { IsOf lock.now first × IsFree first }
    requires opened { (first.front ≡ lock.now.opening) × (first.own ≡ []) }
    requires share { first.share ≡ workers }
    ensures of { IsOf lock.now result.0 × IsFree result.0 }
    ensures share { result.0.share ≡ workers }
    ensures begins { IsPrefix lock.now.opening result.0.front }
    ensures none { IfNone result.1 (result.0.own ≡ []) }
    ensures did { IfSome result.1 (λ ends. DidAll lock.now budget works.items ends.items result.0) }
{
    let Ok(lists) = deal::<E>(alloc, lock, works, workers, budget) else {
        return (first, None);
    };
    match split_all(alloc, lock, first, workers) {
        Err(whole) => (whole, None),
        Ok(passes) => {
            let (passes, ends) = run_all(rt, alloc, gate, passes, lists);
            let whole = join_all(lock, passes);
            match ends {
                Ok(ends) => (whole, Some(ends)),
                Err(Unrun { jobs: _ }) => (whole, None),
            }
        }
    }
}

/// Runs jobs beside each other over a ledger, by so many workers: the job at index i by worker i modulo their
/// number, each worker's jobs in order, each worker in a thread of its own as far as threads can be started.
/// Workers past the number of jobs have none and aren't used. Returns the ledger again when all jobs are done.
///
/// The history then has entries of these jobs more and nothing else. Each job that has ended was run to its
/// end, whatever the others did meanwhile, and each other one was begun. `Ok` says that all have ended. `Full`
/// is returned only if the history has its limit of entries and some job hasn't ended, and `Memory` only if
/// memory runs out.
pub fn run_together<E: Engine + Send, R: Threads + Wait + Sync, G: Gate + Sync>(
    rt: &R,
    alloc: Global,
    gate: &G,
    ledger: Ledger,
    works: Vec<Work>,
    workers: u64,
    budget: u64,
) -> (Ledger, Result<(), LedgerError>)
    requires workers { (0 < workers) × (workers < 66) }
    requires fresh { AllNew ledger.entries works.items }
    requires differ { Differ (jobs_of works.items) }
    ensures ran { RanTogether budget works.items ledger result.0 }
    ensures done { OnOk result.1 (AllEnded result.0.entries works.items) }
    ensures full { (n : ℕ) → IsErrOf result.1 (LedgerError.Full n) → (length result.0.entries ≡ n) × (ledger.limit ≤ n) × SomeOpen result.0.entries works.items }
{
    runs_go_past();
    let workers = used_workers(workers, works.len());
    let (lock, first) = match TurnLock::new(alloc, ledger, workers) {
        Ok(made) => made,
        Err(Refused { state }) => {
            let _len = state.len();
            return (state, Err(LedgerError::Memory));
        }
    };
    let (whole, ends) = run_under::<E, _, _>(rt, alloc, gate, &lock, first, works, workers, budget);
    let ledger = lock.close(whole);
    let _len = ledger.len();
    match ends {
        Some(ends) => (ledger, first_failure(&ends)),
        None => (ledger, Err(LedgerError::Memory)),
    }
}
