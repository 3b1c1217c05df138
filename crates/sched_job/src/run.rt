ghost use Rattle.std.specs.Prelude.{◌≡◌, ◌≤◌, ◌<◌, ◌++◌, ℕ, List, length, OnOk, OnErr, IfOk, IfNone, IfSome, IsErrOf};
ghost use Rattle.cluster.specs.declared.entry.Entry.{Entry};
ghost use Rattle.cluster.specs.declared.entry.JobState.TheVariants.{Fresh};
ghost use Rattle.cluster.specs.History.{job_state_of};
ghost use Rattle.histories.specs.Legal.{Legal};
ghost use Rattle.turn_lock.specs.Known.{IsFree, IsOf, Known};
ghost use Rattle.sched_job.specs.Going.{Going, TookTurn, Worked, end_for};
ghost use Rattle.sched_job.specs.Moves.{answer, moved, move_of, stage_after, Fits};
ghost use Rattle.sched_job.specs.Runs.{Running};
ghost use Rattle.histories.specs.JobRuns.{Run, attempts_of};
ghost use Rattle.sched_job.specs.Noted.{AreNotesOf, AreSince};
ghost use Rattle.sched_job.specs.Steps.{IsPresent, run_of};
ghost use Rattle.sched_job.specs.declared.work.Stage.TheVariants.{Ready};

use crate::notes::{Notes, give_back, notes_for};
use crate::{Next, Work};
use cluster::JobState;
use dra_ports::{Gate, Point};
use engine_ports::Engine;
use histories::histories_grow;
use ledger_core::{Ledger, LedgerError};
use std::alloc::Global;
use std::sync::Wait;
use turn_lock::{Pass, TurnLock};

/// How a job that shares its ledger ended.
#[derive(Clone, Copy, Debug, PartialEq, Eq, Drop)]
pub enum JobEnd {
    /// The job has ended: this is the index of its last entry.
    Ended(u64),
    /// The history has so many entries, its limit, and one more is expected.
    Full(u64),
    /// Memory ran out.
    Memory,
}

/// What a turn did.
#[derive(Drop)]
struct Turned {
    next: Result<Next, LedgerError>,
    reserved: bool,
}

fn is_reserved(job_state: JobState) -> bool {
    match job_state {
        JobState::Reserved(_) => true,
        JobState::Fresh | JobState::Conflicted(_) | JobState::Failed(_) | JobState::Ended(_) =>
            false,
    }
}

/// One turn of the work, and whether it reserved the devices of the job's plan.
fn act<E: Engine>(alloc: Global, ledger: &mut Ledger, work: &mut Work) -> Turned
    requires { Fits ledger.old.entries work.old }
    ensures ok { OnOk result.next (ledger.new ≡ moved ledger.old work.old.job (move_of ledger.old.entries work.old)) }
    ensures job { work.new.job ≡ work.old.job }
    ensures command { work.new.command ≡ work.old.command }
    ensures stage { OnOk result.next (work.new.stage ≡ stage_after ledger.old.entries work.old) }
    ensures answer { IfOk result.next (λ next. next ≡ answer (job_state_of ledger.new.entries work.old.job) work.new.stage) }
    ensures full { (n : ℕ) → IsErrOf result.next (LedgerError.Full n) → (length ledger.old.entries ≡ n) × (ledger.old.limit ≤ n) }
    ensures err { OnErr result.next (ledger.new ≡ ledger.old) }
    ensures running { (c : Run) → Running c ledger.old.entries work.old → Running c ledger.new.entries work.new }
    ensures legal { Legal ledger.new.entries }
    ensures present { OnOk result.next (IsPresent ledger.new.entries work.new.stage) }
{
    let had_reserved = is_reserved(ledger.job_state(work.job));
    let next = work.turn::<E>(alloc, ledger);
    let has_reserved = is_reserved(ledger.job_state(work.job));
    Turned {
        next,
        reserved: has_reserved && !had_reserved,
    }
}

/// One turn of the work, before which the ledger gets back what was remembered of nodes, and after which it is taken out
/// again if a search is next.
fn act_with<E: Engine>(
    alloc: Global,
    ledger: &mut Ledger,
    work: &mut Work,
    notes: &mut Option<Notes>,
) -> Turned
    requires fits { Fits ledger.old.entries work.old }
    requires notes { AreSince ledger.old.entries notes.old }
    ensures ok { OnOk result.next (ledger.new ≡ moved ledger.old work.old.job (move_of ledger.old.entries work.old)) }
    ensures job { work.new.job ≡ work.old.job }
    ensures command { work.new.command ≡ work.old.command }
    ensures stage { OnOk result.next (work.new.stage ≡ stage_after ledger.old.entries work.old) }
    ensures answer { IfOk result.next (λ next. next ≡ answer (job_state_of ledger.new.entries work.old.job) work.new.stage) }
    ensures full { (n : ℕ) → IsErrOf result.next (LedgerError.Full n) → (length ledger.old.entries ≡ n) × (ledger.old.limit ≤ n) }
    ensures err { OnErr result.next (ledger.new ≡ ledger.old) }
    ensures running { (c : Run) → Running c ledger.old.entries work.old → Running c ledger.new.entries work.new }
    ensures legal { Legal ledger.new.entries }
    ensures present { OnOk result.next (IsPresent ledger.new.entries work.new.stage) }
    ensures notes { AreNotesOf ledger.new.entries notes.new }
{
    give_back(ledger, notes);
    let turned = act::<E>(alloc, ledger, work);
    *notes = notes_for(alloc, ledger, &turned.next);
    turned
}

/// One turn of the work under the lock.
fn take_turn<E: Engine, R: Wait>(
    rt: &R,
    alloc: Global,
    lock: &TurnLock<Ledger>,
    pass: &mut Pass<Ledger>,
    work: &mut Work,
    notes: &mut Option<Notes>,
) -> Turned
    requires of { IsOf lock.now pass.old }
    requires free { IsFree pass.old }
    requires fits { (more : List Entry) → Fits (pass.old.front ++ more) work.old }
    requires notes { AreSince pass.old.front notes.old }
    ensures of { IsOf lock.now pass.new }
    ensures took { TookTurn lock.now.number pass.old pass.new work.old work.new result.next }
    ensures present { OnOk result.next (IsPresent pass.new.front work.new.stage) }
    ensures notes { AreNotesOf pass.new.front notes.new }
{
    let mut turn = lock.enter(rt, pass);
    let turned = act_with::<E>(alloc, turn.state(), work, notes);
    lock.leave(turn, pass);
    turned
}

/// One turn of the work, the calls of the gate and the search after it. Returns how the job ended, if
/// it did.
fn go_on<E: Engine, R: Wait, G: Gate>(
    rt: &R,
    alloc: Global,
    lock: &TurnLock<Ledger>,
    pass: &mut Pass<Ledger>,
    gate: &G,
    work: &mut Work,
    notes: &mut Option<Notes>,
    budget: u64,
) -> Option<JobEnd>
    requires of { IsOf lock.now pass.old }
    requires free { IsFree pass.old }
    requires fits { (more : List Entry) → Fits (pass.old.front ++ more) work.old }
    requires notes { AreSince pass.old.front notes.old }
    ensures of { IsOf lock.now pass.new }
    ensures notes { AreSince pass.new.front notes.new }
    ensures on { IfNone result ((c : Run) (began : Known Entry) → c.budget ≡ budget → Going c began pass.old work.old → Going c began pass.new work.new) }
    ensures over { IfSome result (λ end. (c : Run) (began : Known Entry) → c.budget ≡ budget → Going c began pass.old work.old → Worked c began pass.new end) }
{
    histories_grow();
    let turned = take_turn::<E, _>(rt, alloc, lock, pass, work, notes);
    if turned.reserved {
        gate.reached(work.job, Point::Reserved);
    }
    match turned.next {
        Ok(next) => match next {
            Next::Ended(index) => {
                gate.reached(work.job, Point::Ended);
                Some(JobEnd::Ended(index))
            }
            Next::Again => None,
            Next::Think => match work.think_with::<E, _>(alloc, gate, budget, notes) {
                Ok(()) => None,
                Err(_) => Some(JobEnd::Memory),
            },
        },
        Err(error) => Some(end_for(error)),
    }
}

/// How a job ends whose turn failed.
fn end_for(error: LedgerError) -> JobEnd
    ensures { result ≡ end_for error }
{
    match error {
        LedgerError::Full(count) => JobEnd::Full(count),
        LedgerError::Memory => JobEnd::Memory,
    }
}

/// Runs the work of a job to the job's end over a ledger that other threads may change too: it takes a
/// turn under the lock for each step, and searches between the turns, while it holds none. It calls the gate
/// outside the lock: after each search, after the turn that reserved the devices of a plan, and after the
/// job's end.
///
/// The pass has then seen more of the history. The entries that were made with it are of this job and its
/// command, come after all that it had seen before, and their plans and verdicts are what searches within the
/// budget found since then and since the job's entry before. If nobody else made an entry of the job, these are
/// its run (`JobRun`), or its beginning (`JobBegun`) if the job hasn't ended. `Ended` has the index of the
/// job's last entry, `Full` the limit of the history, which it has reached, and `Memory` is returned only if
/// memory runs out.
pub fn run_job<E: Engine, R: Wait, G: Gate>(
    rt: &R,
    alloc: Global,
    lock: &TurnLock<Ledger>,
    pass: &mut Pass<Ledger>,
    gate: &G,
    work: Work,
    budget: u64,
) -> JobEnd
    requires of { IsOf lock.now pass.old }
    requires free { IsFree pass.old }
    requires ready { work.stage ≡ Ready }
    requires attempts { 0 < attempts_of work.command }
    ensures of { IsOf lock.now pass.new }
    ensures free { IsFree pass.new }
    ensures worked { Worked (run_of (length pass.old.front) budget work) pass.old pass.new result }
{
    let mut work = work;
    let mut notes = None;
    run_on::<E, _, _>(rt, alloc, lock, pass, gate, &mut work, &mut notes, budget)
}

/// Runs the work of a job to the job's end, with what is remembered of nodes between two turns.
fn run_on<E: Engine, R: Wait, G: Gate>(
    rt: &R,
    alloc: Global,
    lock: &TurnLock<Ledger>,
    pass: &mut Pass<Ledger>,
    gate: &G,
    work: &mut Work,
    notes: &mut Option<Notes>,
    budget: u64,
) -> JobEnd
    requires of { IsOf lock.now pass.old }
    requires free { IsFree pass.old }
    requires ready { work.old.stage ≡ Ready }
    requires attempts { 0 < attempts_of work.old.command }
    requires notes { AreSince pass.old.front notes.old }
    ensures of { IsOf lock.now pass.new }
    ensures free { IsFree pass.new }
    ensures worked { Worked (run_of (length pass.old.front) budget work.old) pass.old pass.new result }
{
    for _ in rt.forever() {
        if let Some(end) = go_on::<E, _, _>(rt, alloc, lock, pass, gate, work, notes, budget) {
            return end;
        }
    }
    unreachable!()
}
