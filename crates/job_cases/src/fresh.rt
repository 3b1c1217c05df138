ghost use Rattle.std.specs.Prelude.{◌≡◌, ◌<◌, ℕ, length, slice_index, true, nat_eq};
ghost use Rattle.std.specs.List.{list_any};
ghost use Rattle.cluster.specs.declared.entry.JobState.TheVariants.{Fresh};
ghost use Rattle.cluster.specs.History.{job_state_of};
ghost use Rattle.histories.specs.JobRuns.{attempts_of};
ghost use Rattle.sched_job.specs.Steps.{AllNew, Differ, jobs_of};
ghost use Rattle.sched_job.specs.declared.work.Stage.TheVariants.{Ready};

use cluster::JobState;
use commands::Command;
use sched_job::{Ledger, Stage, Work};

/// Whether a command has an attempt.
fn has_attempt(command: &Command) -> bool
    ensures { result ≡ true → 0 < attempts_of command.now }
{
    match command {
        Command::Schedule(_, attempts) => 0 < *attempts,
        Command::Apply(..)
        | Command::Invalid(_)
        | Command::Delete(_)
        | Command::Release(_)
        | Command::Adopt(..) => true,
    }
}

/// Whether a job has no entry yet, and its command an attempt.
pub fn is_new(ledger: &Ledger, job: u64, command: &Command) -> bool
    ensures fresh { result ≡ true → job_state_of ledger.now.entries job ≡ Fresh }
    ensures attempts { result ≡ true → 0 < attempts_of command.now }
{
    match ledger.job_state(job) {
        JobState::Fresh => has_attempt(command),
        JobState::Reserved(_)
        | JobState::Conflicted(_)
        | JobState::Failed(_)
        | JobState::Ended(_) => false,
    }
}

fn is_ready(stage: &Stage) -> bool
    ensures { result ≡ true → stage.now ≡ Ready }
{
    match stage {
        Stage::Ready => true,
        Stage::Seen(_) | Stage::Chosen(_) => false,
    }
}

fn is_new_work(ledger: &Ledger, work: &Work) -> bool
    ensures { result ≡ true → (job_state_of ledger.now.entries work.now.job ≡ Fresh) × (work.now.stage ≡ Ready) × (0 < attempts_of work.now.command) }
{
    is_new(ledger, work.job, &work.command) && is_ready(&work.stage)
}

/// Whether the jobs of these works have no entry yet.
fn all_new(ledger: &Ledger, works: &[Work]) -> bool
    ensures { result ≡ true → AllNew ledger.now.entries works.now }
{
    for work in works {
        if !is_new_work(ledger, work) {
            return false;
        }
    }
    true
}

fn has_job(works: &[Work], job: u64) -> bool
    ensures { result ≡ list_any (nat_eq job) (jobs_of works.now) }
{
    for work in works {
        if job == work.job {
            return true;
        }
    }
    false
}

/// Whether no two of these works are of one job.
fn differ(works: &[Work]) -> bool
    ensures { result ≡ true → Differ (jobs_of works.now) }
{
    for at in 0..works.len() {
        if has_job(&works[at + 1..], works[at].job) {
            return false;
        }
    }
    true
}

/// Whether each step is of a work that is there.
fn are_steps(steps: &[usize], count: usize) -> bool
    ensures { result ≡ true → (k : ℕ) → k < length steps.now → slice_index steps.now k < count }
{
    for step in steps {
        if *step >= count {
            return false;
        }
    }
    true
}

/// Whether these steps may be made of these works.
pub fn may_step(ledger: &Ledger, works: &[Work], steps: &[usize]) -> bool
    ensures places { result ≡ true → (k : ℕ) → k < length steps.now → slice_index steps.now k < length works.now }
    ensures differ { result ≡ true → Differ (jobs_of works.now) }
    ensures fresh { result ≡ true → AllNew ledger.now.entries works.now }
{
    are_steps(steps, works.len()) && differ(works) && all_new(ledger, works)
}
