ghost use Rattle.std.specs.Prelude.{◌≡◌, ◌≤◌, ℕ, List, length, true, IfOk, OnOk, OnErr, IsErrOf, IsSome};
ghost use Rattle.cluster.specs.declared.entry.Entry.{Entry};
ghost use Rattle.cluster.specs.History.{job_state_of};
ghost use Rattle.histories.specs.Legal.{Legal};
ghost use Rattle.sched_job.specs.Moves.{answer, moved, move_of, stage_after, Fits};
ghost use Rattle.sched_job.specs.Runs.{Running, IsStaged};
ghost use Rattle.histories.specs.JobRuns.{Run};
ghost use Rattle.engine_ports.specs.Decisions.{IsDecision};
ghost use Rattle.plan_rules.specs.Idle.{is_idle_pod};
ghost use Rattle.sched_job.specs.Noted.{AreNotesOf, AreOf, AreOfSeen, MaySearch, MayThink};
ghost use Rattle.sched_job.specs.Steps.{IsNow, IsPresent, IsSearched, Thought, ThoughtOf};

use crate::notes::{Notes, give_back, take_notes};
use crate::turns::step;
use cluster::JobState;
use commands::Command;
use dra_ports::{Gate, Point};
use dra_values::Shared;
use engine_ports::{Decision, Engine, may_schedule};
use histories::{histories_grow, legal_steps};
use ledger_core::{Ledger, LedgerError, Snapshot};
use object_fields::Key;
use std::alloc::{AllocError, Global};

/// What a work keeps between two turns.
#[derive(Drop)]
pub enum Stage {
    /// Nothing.
    Ready,
    /// A search over this snapshot is next.
    Seen(Shared<Snapshot>),
    /// What a search found.
    Chosen(Shared<Decision>),
}

/// The work of one job.
#[derive(Drop)]
pub struct Work {
    pub job: u64,
    pub command: Command,
    pub stage: Stage,
}

/// How a job goes on after a turn.
#[derive(Clone, Copy, Debug, PartialEq, Eq, Drop)]
pub enum Next {
    /// By a search (`Work::think`) before the next turn.
    Think,
    /// By another turn.
    Again,
    /// It has ended: this is the index of its last entry.
    Ended(u64),
}

impl Work {
    /// The work of a job that has no entry yet. Allocates nothing.
    pub fn new(job: u64, command: Command) -> Work
        ensures { result ≡ record { job = job; command = command; stage = Stage.Ready } }
    {
        Work {
            job,
            command,
            stage: Stage::Ready,
        }
    }

    /// Makes the job's next step, which appends at most one entry: the one that the history so far, the
    /// command and the last search require (`move_of`). It returns `Ended` if and only if the job has
    /// ended, `Think` if a snapshot of the present state was taken, and else `Again`. `Full` is returned only if
    /// the history has its limit of entries and the step is to append one more, and `Memory` only if memory runs
    /// out; then nothing changed.
    pub fn turn<E: Engine>(
        &mut self,
        alloc: Global,
        ledger: &mut Ledger,
    ) -> Result<Next, LedgerError>
        requires { Fits ledger.old.entries self.old }
        ensures ok { OnOk result (ledger.new ≡ moved ledger.old self.old.job (move_of ledger.old.entries self.old)) }
        ensures job { self.new.job ≡ self.old.job }
        ensures command { self.new.command ≡ self.old.command }
        ensures stage { OnOk result (self.new.stage ≡ stage_after ledger.old.entries self.old) }
        ensures answer { IfOk result (λ next. next ≡ answer (job_state_of ledger.new.entries self.old.job) self.new.stage) }
        ensures full { (n : ℕ) → IsErrOf result (LedgerError.Full n) → (length ledger.old.entries ≡ n) × (ledger.old.limit ≤ n) }
        ensures due { (n : ℕ) → IsErrOf result (LedgerError.Full n) → IsSome (move_of ledger.old.entries self.old) }
        ensures err { OnErr result (ledger.new ≡ ledger.old) }
        ensures err_work { OnErr result (self.new ≡ self.old) }
        ensures running { (c : Run) → Running c ledger.old.entries self.old → Running c ledger.new.entries self.new }
        ensures legal { Legal ledger.new.entries }
        ensures within { length ledger.new.entries ≤ ledger.new.limit }
    {
        histories_grow();
        legal_steps();
        let _before = ledger.len();
        self.stage = step::<E>(alloc, ledger, self.job, &self.command, &self.stage)?;
        let _len = ledger.len();
        Ok(answer(ledger.job_state(self.job), &self.stage))
    }

    /// Makes the search that is next over a snapshot, in which each search of a node looks at no more items
    /// of its walk than the budget says, and drops the snapshot. It reads no ledger. `AllocError` only
    /// if memory runs out; else its last act is to call the gate with its job at `Point::Searched`.
    pub fn think<E: Engine, G: Gate>(
        &mut self,
        alloc: Global,
        gate: &G,
        budget: u64,
    ) -> Result<(), AllocError>
        ensures job { self.new.job ≡ self.old.job }
        ensures command { self.new.command ≡ self.old.command }
        ensures thought { OnOk result (Thought budget self.old.command self.old.stage self.new.stage) }
        ensures running { (c : Run) (h : List Entry) → c.budget ≡ budget → Running c h self.old → Running c h self.new }
    {
        let mut notes = None;
        self.think_with::<E, _>(alloc, gate, budget, &mut notes)
    }

    /// Makes the search that is next as `think` does, with what is remembered of nodes without an allocation.
    pub(crate) fn think_with<E: Engine, G: Gate>(
        &mut self,
        alloc: Global,
        gate: &G,
        budget: u64,
        notes: &mut Option<Notes>,
    ) -> Result<(), AllocError>
        requires { MayThink self.old.stage notes.old }
        ensures job { self.new.job ≡ self.old.job }
        ensures command { self.new.command ≡ self.old.command }
        ensures thought { OnOk result (Thought budget self.old.command self.old.stage self.new.stage) }
        ensures running { (c : Run) (h : List Entry) → c.budget ≡ budget → Running c h self.old → Running c h self.new }
        ensures notes { (h : List Entry) → IsPresent h self.old.stage → AreNotesOf h notes.old → AreNotesOf h notes.new }
    {
        search::<E>(alloc, &self.command, &mut self.stage, notes, budget)?;
        gate.reached(self.job, Point::Searched);
        Ok(())
    }

    /// Makes the search that is next over a snapshot of the present state, as `think` does, with what the ledger
    /// remembers of nodes without an allocation. It calls no gate. `AllocError` only if memory runs out.
    pub fn think_over<E: Engine>(
        &mut self,
        alloc: Global,
        ledger: &mut Ledger,
        budget: u64,
    ) -> Result<(), AllocError>
        requires { IsPresent ledger.old.entries self.old.stage }
        ensures ledger { ledger.new ≡ ledger.old }
        ensures job { self.new.job ≡ self.old.job }
        ensures command { self.new.command ≡ self.old.command }
        ensures thought { OnOk result (Thought budget self.old.command self.old.stage self.new.stage) }
        ensures running { (c : Run) (h : List Entry) → c.budget ≡ budget → Running c h self.old → Running c h self.new }
    {
        let mut notes = take_notes(alloc, ledger);
        let made = search::<E>(alloc, &self.command, &mut self.stage, &mut notes, budget);
        give_back(ledger, &mut notes);
        made
    }
}

fn answer(job_state: JobState, stage: &Stage) -> Next
    ensures { result ≡ answer job_state stage.now }
{
    match job_state {
        JobState::Ended(index) => Next::Ended(index),
        JobState::Fresh | JobState::Reserved(_) | JobState::Conflicted(_) | JobState::Failed(_) =>
            match stage {
                Stage::Seen(_) => Next::Think,
                Stage::Ready | Stage::Chosen(_) => Next::Again,
            },
    }
}

/// Makes the search that is next for a command, if one is.
fn search<E: Engine>(
    alloc: Global,
    command: &Command,
    stage: &mut Stage,
    notes: &mut Option<Notes>,
    budget: u64,
) -> Result<(), AllocError>
    requires { MayThink stage.old notes.old }
    ensures thought { OnOk result (Thought budget command.now stage.old stage.new) }
    ensures err { OnErr result (stage.new ≡ stage.old) }
    ensures notes { (h : List Entry) → IsPresent h stage.old → AreNotesOf h notes.old → AreNotesOf h notes.new }
{
    match command {
        Command::Schedule(pod, _) => search_for::<E>(alloc, pod, stage, notes, budget),
        Command::Apply(..)
        | Command::Invalid(_)
        | Command::Delete(_)
        | Command::Release(_)
        | Command::Adopt(..) => Ok(()),
    }
}

fn search_for<E: Engine>(
    alloc: Global,
    pod: &Key,
    stage: &mut Stage,
    notes: &mut Option<Notes>,
    budget: u64,
) -> Result<(), AllocError>
    requires { MayThink stage.old notes.old }
    ensures thought { OnOk result (ThoughtOf budget pod.now stage.old stage.new) }
    ensures err { OnErr result (stage.new ≡ stage.old) }
    ensures notes { (h : List Entry) → IsPresent h stage.old → AreNotesOf h notes.old → AreNotesOf h notes.new }
{
    match stage {
        Stage::Seen(snapshot) => {
            let made = choose::<E>(alloc, pod, snapshot.value(), notes, budget)?;
            *stage = made;
            Ok(())
        }
        Stage::Ready | Stage::Chosen(_) => Ok(()),
    }
}

/// Decides on a pod over a snapshot, if the pod is there and Idle.
fn choose<E: Engine>(
    alloc: Global,
    pod: &Key,
    snapshot: &Snapshot,
    notes: &mut Option<Notes>,
    budget: u64,
) -> Result<Stage, AllocError>
    requires { MaySearch snapshot.now notes.old }
    ensures searched { IfOk result (λ made. IsSearched snapshot.now pod.now budget made) }
    ensures notes { (h : List Entry) → IsNow h snapshot.now → AreNotesOf h notes.old → AreNotesOf h notes.new }
{
    if may_schedule(snapshot.state(), pod) {
        let decision = decide_for::<E>(alloc, pod, snapshot, notes, budget)?;
        Ok(Stage::Chosen(Shared::new(alloc, decision)?))
    } else {
        Ok(Stage::Ready)
    }
}

/// Decides on a pod that is there and Idle, with what is remembered, if anything is.
fn decide_for<E: Engine>(
    alloc: Global,
    pod: &Key,
    snapshot: &Snapshot,
    notes: &mut Option<Notes>,
    budget: u64,
) -> Result<Decision, AllocError>
    requires idle { is_idle_pod snapshot.now.state pod.now ≡ true }
    requires notes { MaySearch snapshot.now notes.old }
    ensures decision { IfOk result (IsDecision snapshot.now.state pod.now budget snapshot.now.at) }
    ensures notes { (h : List Entry) → IsNow h snapshot.now → AreNotesOf h notes.old → AreNotesOf h notes.new }
{
    match notes {
        Some(notes) => decide_by::<E>(alloc, pod, snapshot, notes, budget),
        None => E::decide(
            alloc,
            snapshot.state(),
            snapshot.holders(),
            snapshot.totals(),
            pod,
            snapshot.at(),
            budget,
        ),
    }
}

/// Decides on a pod that is there and Idle, with what is remembered, which then is more.
fn decide_by<E: Engine>(
    alloc: Global,
    pod: &Key,
    snapshot: &Snapshot,
    notes: &mut Notes,
    budget: u64,
) -> Result<Decision, AllocError>
    requires idle { is_idle_pod snapshot.now.state pod.now ≡ true }
    requires notes { AreOfSeen snapshot.now notes.old }
    ensures decision { IfOk result (IsDecision snapshot.now.state pod.now budget snapshot.now.at) }
    ensures notes { (h : List Entry) → IsNow h snapshot.now → AreOf h notes.old → AreOf h notes.new }
{
    E::decide_with(
        alloc,
        snapshot.state(),
        snapshot.holders(),
        snapshot.totals(),
        pod,
        snapshot.at(),
        budget,
        &notes.dates,
        &mut notes.memo,
    )
}
