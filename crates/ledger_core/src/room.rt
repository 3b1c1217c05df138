ghost use Rattle.std.specs.Prelude.{◌≡◌, ◌≤◌, ◌<◌, ◌^◌, ◌+◌, ◌++◌, ◌∷◌, ◌==◌, [], true, false, length, ℕ, IfOk, OnOk, OnErr, IsErrOf, is_some, vec_len, if◌then◌else◌};
ghost use Rattle.std.specs.BTreeMap.{insert_entry, is_at};
ghost use Rattle.std.specs.Map.{set_value};
ghost use Rattle.std.specs.Ordering.{nat_cmp};
ghost use Rattle.std.specs.Vec.{vec_capacity};
ghost use Rattle.cluster.specs.Events.{job_state_after};
ghost use Rattle.cluster.specs.JobState.{failures};
ghost use Rattle.ledger_core.specs.Ledger.{at, job_state_in};

use crate::LedgerError;
use cluster::{Entry, Event, JobState};
use dra_values::Table;
use std::alloc::{AllocError, Global};
use std::marker::Model;

/// Each job's state; a job without a row is Fresh. Contracts see the rows.
#[derive(Drop)]
pub struct JobStates {
    rows: Table<u64, JobState>,
    /// No job above it has a row: most look-ups are of a new job, or of the last one.
    most: u64,
    /// The row that was set last.
    last: Option<Row>,
}

/// The row of a job.
#[derive(Clone, Copy, Drop)]
struct Row {
    job: u64,
    state: JobState,
}

impl Model for JobStates {
    ghost use Rattle.std.specs.Prelude.{ℕ, List};
    ghost use Rattle.cluster.specs.declared.entry.JobState.{JobState};
    ghost use Rattle.ledger_core.specs.Rows.{AreBelow, IsLast};

    ghost Value = { List (ℕ × JobState) };

    ghost view = { λ s. s.rows };

    ghost invariant = { λ s. AreBelow s.rows s.most × IsLast s.rows s.last };
}

impl JobStates {
    /// No rows.
    pub fn new(alloc: Global) -> JobStates
        ensures { result ≡ [] }
    {
        JobStates {
            rows: Table::new(alloc),
            most: 0,
            last: None,
        }
    }

    /// The state of a job.
    pub fn state(&self, job: u64) -> JobState
        ensures { result ≡ job_state_in self.now job }
    {
        if self.most < job {
            return JobState::Fresh;
        }
        if let Some(last) = &self.last {
            if last.job == job {
                return last.state;
            }
        }
        match self.rows.get(&job) {
            None => JobState::Fresh,
            Some(state) => *state,
        }
    }

    /// Whether a job has a row.
    fn has_row(&self, job: u64) -> bool
        ensures { result ≡ is_some (at self.now job) }
    {
        if self.most < job {
            return false;
        }
        if let Some(last) = &self.last {
            if last.job == job {
                return true;
            }
        }
        self.rows.contains_key(&job)
    }

    /// Makes a row for a job that has none.
    fn add_row(&mut self, job: u64) -> Result<(), AllocError>
        requires { is_some (at self.old job) ≡ false }
        ensures ok { OnOk result (self.new ≡ insert_entry nat_cmp self.old job JobState.Fresh) }
        ensures err { OnErr result (self.new ≡ self.old) }
    {
        let most = higher(self.most, job);
        self.rows.insert(job, JobState::Fresh)?;
        self.most = most;
        self.last = Some(Row {
            job,
            state: JobState::Fresh,
        });
        Ok(())
    }

    /// Sets a job that has a row to this state.
    fn set(&mut self, job: u64, state: JobState)
        requires { is_some (at self.old job) ≡ true }
        ensures { self.new ≡ set_value (is_at (nat_cmp job)) self.old state }
    {
        if let Some(row) = self.rows.get_mut(&job) {
            *row = state;
            self.last = Some(Row { job, state });
        }
    }
}

/// A number that neither of the two is above.
fn higher(a: u64, b: u64) -> u64
    ensures first { a ≤ result }
    ensures second { b ≤ result }
{
    if a < b { b } else { a }
}

/// Makes room for an entry of a job and for its state, and returns the entry's index.
pub fn make_room(
    entries: &mut Vec<Entry>,
    job_states: &mut JobStates,
    limit: u64,
    job: u64,
) -> Result<u64, LedgerError>
    requires { limit < 2 ^ 48 }
    ensures entries { entries.new.items ≡ entries.old.items }
    ensures job_states { (j : ℕ) → job_state_in job_states.new j ≡ job_state_in job_states.old j }
    ensures row { OnOk result (is_some (at job_states.new job) ≡ true) }
    ensures room { OnOk result (vec_len entries.new < vec_capacity entries.new) }
    ensures within { OnOk result (length entries.old.items < limit) }
    ensures index { IfOk result (λ index. index ≡ length entries.old.items + 1) }
    ensures full { (n : ℕ) → IsErrOf result (LedgerError.Full n) → (length entries.old.items ≡ n) × (limit ≤ n) }
{
    let len = entries.len() as u64;
    if len >= limit {
        return Err(LedgerError::Full(len));
    }
    make_row(job_states, job)?;
    entries.reserve(1)?;
    Ok(len + 1)
}

/// Appends an entry that there is room for, and sets its job to the state that it leaves.
pub fn append(entries: &mut Vec<Entry>, job_states: &mut JobStates, job: u64, event: Event)
    requires room { vec_len entries.old < vec_capacity entries.old }
    requires row { is_some (at job_states.old job) ≡ true }
    requires few { length entries.old.items < 2 ^ 48 }
    requires tries { failures (job_state_in job_states.old job) < 2 ^ 48 }
    ensures entries { entries.new.items ≡ entries.old.items ++ record { job = job; event = event } ∷ [] }
    ensures job_states { (j : ℕ) → job_state_in job_states.new j ≡ (if job == j then job_state_after (job_state_in job_states.old job) (length entries.old.items + 1) event else job_state_in job_states.old j) }
{
    let index = entries.len() as u64 + 1;
    let job_state = job_state_after(job_states.state(job), index, &event);
    set_job_state(job_states, job, job_state);
    entries.push_reserved(Entry { job, event });
}

/// Makes room for an entry and appends it, and returns its index.
pub fn add(
    entries: &mut Vec<Entry>,
    job_states: &mut JobStates,
    limit: u64,
    job: u64,
    event: Event,
) -> Result<u64, LedgerError>
    requires small { limit < 2 ^ 48 }
    requires tries { failures (job_state_in job_states.old job) < 2 ^ 48 }
    ensures ok { OnOk result (entries.new.items ≡ entries.old.items ++ record { job = job; event = event } ∷ []) }
    ensures states { OnOk result ((j : ℕ) → job_state_in job_states.new j ≡ (if job == j then job_state_after (job_state_in job_states.old job) (length entries.old.items + 1) event else job_state_in job_states.old j)) }
    ensures within { OnOk result (length entries.old.items < limit) }
    ensures index { IfOk result (λ index. index ≡ length entries.old.items + 1) }
    ensures full { (n : ℕ) → IsErrOf result (LedgerError.Full n) → (length entries.old.items ≡ n) × (limit ≤ n) }
    ensures err { OnErr result (entries.new.items ≡ entries.old.items) }
    ensures same { OnErr result ((j : ℕ) → job_state_in job_states.new j ≡ job_state_in job_states.old j) }
{
    let index = make_room(entries, job_states, limit, job)?;
    append(entries, job_states, job, event);
    Ok(index)
}

/// Makes a row for a job, where it has none.
fn make_row(job_states: &mut JobStates, job: u64) -> Result<(), AllocError>
    ensures same { (j : ℕ) → job_state_in job_states.new j ≡ job_state_in job_states.old j }
    ensures row { OnOk result (is_some (at job_states.new job) ≡ true) }
{
    if job_states.has_row(job) {
        Ok(())
    } else {
        job_states.add_row(job)
    }
}

/// Sets a job that has a row to this state.
fn set_job_state(job_states: &mut JobStates, job: u64, job_state: JobState)
    requires { is_some (at job_states.old job) ≡ true }
    ensures { (j : ℕ) → job_state_in job_states.new j ≡ (if job == j then job_state else job_state_in job_states.old j) }
{
    job_states.set(job, job_state);
}

/// How many attempts of a job have failed.
pub fn failures(job_state: JobState) -> u64
    ensures { result ≡ failures job_state }
{
    match job_state {
        JobState::Fresh | JobState::Ended(_) => 0,
        JobState::Reserved(failed) | JobState::Conflicted(failed) | JobState::Failed(failed) =>
            failed,
    }
}

/// The state of a job after an event, from its state before.
fn job_state_after(job_state: JobState, index: u64, event: &Event) -> JobState
    requires { failures job_state < 2 ^ 48 }
    ensures { result ≡ job_state_after job_state index event.now }
{
    match event {
        Event::Applied { .. }
        | Event::Deleted(_)
        | Event::Bound { .. }
        | Event::VerdictGiven { .. }
        | Event::Contended { .. }
        | Event::Released(_)
        | Event::Adopted { .. }
        | Event::Denied { .. } => JobState::Ended(index),
        Event::Reserved { .. } | Event::Wrote { .. } => JobState::Reserved(failures(job_state)),
        Event::Conflict { .. } => JobState::Conflicted(failures(job_state)),
        Event::Refused { .. } | Event::Unreserved(_) => JobState::Failed(failures(job_state) + 1),
    }
}
