ghost use Rattle.std.specs.Prelude.{◌≡◌, ◌+◌, ◌≤◌, ◌<◌, ◌^◌, ℕ, Err, IfOk, OnOk, IsErrOf, length};
ghost use Rattle.cluster.specs.declared.entry.JobState.TheVariants.{Fresh};
ghost use Rattle.cluster.specs.History.{job_state_of};
ghost use Rattle.commands.specs.Commands.{together_most};
ghost use Rattle.commands.specs.declared.given.Given.TheVariants.{Together};
ghost use Rattle.sched_job.specs.Steps.{AllNew, Differ, jobs_of};
ghost use Rattle.sched_job.specs.Together.{AllEnded, RanTogether, SomeOpen};
ghost use Rattle.replay_core.specs.Attempts.{AllTry, MayTry};
ghost use Rattle.replay_core.specs.Doing.{Met, Ran, works_from};
ghost use Rattle.replay_core.specs.Forms.{members, width};

use crate::{ReplayOptions, Stop};
use commands::{Command, Given};
use dra_ports::Gate;
use engine_ports::Engine;
use sched_job::{Ledger, LedgerError, Work, run_alone, run_together};
use std::alloc::{AllocError, Global};
use std::mem;
use std::sync::Wait;
use std::thread::Threads;

/// Does what is asked for as the next jobs, which are numbered on from `before` and have no entry yet, with
/// searches within the budget. Returns the number of the last of them.
///
/// A command by itself is one job. An Apply has one entry, which creates or updates the object, a Delete
/// one, which takes the object away, a Release one, which takes the uses of its pod away; an Invalid has
/// one, which refuses it with its error. A Schedule has one for the reservation, one for each claim of the
/// pod in order and one for the binding, or one for the verdict. Where a refusal of the command holds, its
/// one entry is the denial.
///
/// The commands of a Together are a job each, and run beside each other: member i, from 0, is done by worker
/// i modulo the number of workers, each worker in a thread of its own as far as threads can be started, and
/// in order. All of them are done when this returns. The gate is called as each of these jobs goes on.
///
/// A command of the kubelet has no entry.
///
/// `Stop::Full` is returned if the history has as many entries as it may have and one more is expected, and
/// `Stop::Memory` only if memory runs out: the entries that were made before stay.
pub fn do_command<E: Engine + Send, R: Threads + Wait + Sync, G: Gate + Sync>(
    rt: &R,
    alloc: Global,
    gate: &G,
    ledger: &mut Ledger,
    before: u64,
    given: Given,
    options: &ReplayOptions,
) -> Result<u64, Stop>
    requires workers { (0 < options.now.workers) × (options.now.workers ≤ 64) }
    requires fresh { (job : ℕ) → before < job → job_state_of ledger.old.entries job ≡ Fresh }
    requires small { before < 2 ^ 49 }
    requires attempts { MayTry given }
    ensures last { IfOk result (λ last. last ≡ before + width given) }
    ensures ran { OnOk result (Ran before given options.now.budget ledger.old ledger.new) }
    ensures full { (n : ℕ) → IsErrOf result (Stop.Full n) → Met before given options.now.budget ledger.old ledger.new n }
{
    match given {
        Given::One(command) => {
            let job = before + 1;
            run_alone::<E>(alloc, ledger, job, command, options.budget)?;
            Ok(job)
        }
        Given::Together(commands) => do_together::<E, _, _>(
            rt,
            alloc,
            gate,
            ledger,
            before,
            commands.into_vec(),
            options,
        ),
        Given::Prepare(_) => Ok(before + 1),
        Given::Unprepare(_) => Ok(before + 1),
        Given::Reopen => Ok(before + 1),
    }
}

/// Does commands beside each other, each as a job numbered on from `before`, and returns the number of the
/// last.
fn do_together<E: Engine + Send, R: Threads + Wait + Sync, G: Gate + Sync>(
    rt: &R,
    alloc: Global,
    gate: &G,
    ledger: &mut Ledger,
    before: u64,
    commands: Vec<Command>,
    options: &ReplayOptions,
) -> Result<u64, Stop>
    requires workers { (0 < options.now.workers) × (options.now.workers ≤ 64) }
    requires fresh { (job : ℕ) → before < job → job_state_of ledger.old.entries job ≡ Fresh }
    requires small { before < 2 ^ 49 }
    requires attempts { AllTry commands.items }
    requires most { length commands.items ≤ together_most }
    ensures last { IfOk result (λ last. last ≡ before + length commands.items) }
    ensures ran { OnOk result (Ran before (Together commands.items) options.now.budget ledger.old ledger.new) }
    ensures full { (n : ℕ) → IsErrOf result (Stop.Full n) → Met before (Together commands.items) options.now.budget ledger.old ledger.new n }
{
    let last = before + commands.len() as u64;
    let works = works_of(alloc, before, commands)?;
    run_works::<E, _, _>(rt, alloc, gate, ledger, works, options)?;
    Ok(last)
}

/// The works of commands, each a job numbered on from `before`.
fn works_of(alloc: Global, before: u64, commands: Vec<Command>) -> Result<Vec<Work>, AllocError>
    requires small { before < 2 ^ 49 }
    requires most { length commands.items ≤ together_most }
    ensures { IfOk result (λ works. works.items ≡ works_from before commands.items) }
{
    let mut works = Vec::new(alloc);
    let mut job = before;
    for command in commands {
        job += 1;
        works.push(Work::new(job, command))?;
    }
    Ok(works)
}

/// Runs the works beside each other over the ledger, in whose place is an empty one meanwhile.
fn run_works<E: Engine + Send, R: Threads + Wait + Sync, G: Gate + Sync>(
    rt: &R,
    alloc: Global,
    gate: &G,
    ledger: &mut Ledger,
    works: Vec<Work>,
    options: &ReplayOptions,
) -> Result<(), LedgerError>
    requires workers { (0 < options.now.workers) × (options.now.workers ≤ 64) }
    requires fresh { AllNew ledger.old.entries works.items }
    requires differ { Differ (jobs_of works.items) }
    ensures ran { OnOk result (RanTogether options.now.budget works.items ledger.old ledger.new) }
    ensures done { OnOk result (AllEnded ledger.new.entries works.items) }
    ensures met { (n : ℕ) → IsErrOf result (LedgerError.Full n) → RanTogether options.now.budget works.items ledger.old ledger.new }
    ensures full { (n : ℕ) → IsErrOf result (LedgerError.Full n) → (length ledger.new.entries ≡ n) × (ledger.new.limit ≤ n) × SomeOpen ledger.new.entries works.items }
{
    // A worker without a work isn't started; who does which work is the same.
    let workers = options.workers.min(works.len() as u64).max(1);
    let empty = Ledger::new(alloc, 0)?;
    let taken = mem::replace(ledger, empty);
    let (back, ended) = run_together::<E, _, _>(
        rt,
        alloc,
        gate,
        taken,
        works,
        workers,
        options.budget,
    );
    *ledger = back;
    ended
}
