ghost use Rattle.std.specs.Prelude.{◌≡◌, ◌≤◌, ◌⊎◌, ℕ, true, false, length, IfOk, OnOk, OnErr, IsErrOf};
ghost use Rattle.cluster.specs.declared.entry.JobState.TheVariants.{Fresh};
ghost use Rattle.cluster.specs.History.{entry_at, job_state_of, state_of};
ghost use Rattle.histories.specs.JobRuns.{is_schedule};
ghost use Rattle.histories.specs.Legal.{Legal};
ghost use Rattle.sched_job.specs.Ledgers.{appended};
ghost use Rattle.turn_lock.specs.Known.{IsFree, IsOf};
ghost use Rattle.api_server.specs.Once.{Acts, Captures, TookOnce, event_of};

use api_print::Part;
use api_replies::part_after;
use cluster::{Entry, JobState};
use commands::Command;
use engine_ports::Engine;
use entry_copies::copy_entry;
use sched_job::{Done, Ledger, LedgerError};
use std::alloc::{AllocError, Global};
use std::sync::Wait;
use turn_lock::{Pass, TurnLock};

/// The last entry of a job, and what the reply shows of the state after it.
#[derive(Drop)]
pub struct Ended {
    pub place: u64,
    pub entry: Entry,
    pub part: Part,
}

/// Carries out a command whose job has one entry.
fn carry_out<E: Engine>(
    alloc: Global,
    ledger: &mut Ledger,
    job: u64,
    command: Command,
) -> Result<Done, LedgerError>
    requires fresh { job_state_of ledger.old.entries job ≡ Fresh }
    requires once { is_schedule command ≡ false }
    ensures ok { OnOk result (ledger.new ≡ appended ledger.old job (event_of (state_of ledger.old.entries) command)) }
    ensures full { (n : ℕ) → IsErrOf result (LedgerError.Full n) → (length ledger.old.entries ≡ n) × (ledger.old.limit ≤ n) }
    ensures err { OnErr result (ledger.new ≡ ledger.old) }
    ensures legal { Legal ledger.new.entries }
{
    match command {
        Command::Apply(ready, mode) => ledger.apply(alloc, job, ready, mode),
        Command::Invalid(error) => ledger.deny(job, error),
        Command::Delete(target) => ledger.delete(alloc, job, &target),
        Command::Schedule(_, _) => unreachable!(),
        Command::Release(pod) => ledger.release(alloc, job, &pod),
        Command::Adopt(claim, status) => ledger.adopt::<E>(alloc, job, &claim, status),
    }
}

/// What a turn did for a job.
#[derive(Drop)]
pub enum Acted {
    /// The job has ended.
    Ended(Ended),
    /// It has ended, and memory ran out.
    Made,
    /// Nothing was done.
    Failed(LedgerError),
}

/// The last entry, and what its reply shows of the state after it.
fn capture(alloc: Global, ledger: &Ledger) -> Result<Option<Ended>, AllocError>
    ensures { IfOk result (λ o. Captures ledger.now.entries o) }
{
    let place = ledger.len();
    let Some(entry) = ledger.entry(place) else {
        return Ok(None);
    };
    let copied = copy_entry(alloc, entry)?;
    match part_after(alloc, &entry.event, ledger.state()) {
        Ok(part) => Ok(Some(Ended {
            place,
            entry: copied,
            part,
        })),
        Err(error) => {
            drop(copied);
            Err(error)
        }
    }
}

/// Carries out a command whose job has one entry, unless the job has an entry.
fn act<E: Engine>(alloc: Global, ledger: &mut Ledger, job: u64, command: Command) -> Acted
    requires once { is_schedule command ≡ false }
    ensures { Acts ledger.old ledger.new job command result }
{
    let _before = ledger.len();
    match ledger.job_state(job) {
        JobState::Fresh => {}
        _ => return Acted::Failed(LedgerError::Memory),
    }
    match carry_out::<E>(alloc, ledger, job, command) {
        Ok(_) => match capture(alloc, ledger) {
            Ok(Some(ended)) => Acted::Ended(ended),
            _ => Acted::Made,
        },
        Err(error) => Acted::Failed(error),
    }
}

/// The same in a turn under the lock.
pub fn take_turn<E: Engine, R: Wait>(
    rt: &R,
    alloc: Global,
    lock: &TurnLock<Ledger>,
    pass: &mut Pass<Ledger>,
    job: u64,
    command: Command,
) -> Acted
    requires of { IsOf lock.now pass.old }
    requires free { IsFree pass.old }
    requires once { is_schedule command ≡ false }
    ensures of { IsOf lock.now pass.new }
    ensures free { IsFree pass.new }
    ensures took { TookOnce lock.now.number pass.old pass.new job command result }
{
    let mut turn = lock.enter(rt, pass);
    let acted = act::<E>(alloc, turn.state(), job, command);
    lock.leave(turn, pass);
    acted
}
