ghost use Rattle.std.specs.Prelude.{◌≡◌, ◌≤◌, ℕ, length, true, IfOk, OnOk, OnErr, IsErrOf, IsSome};
ghost use Rattle.cluster.specs.declared.entry.Command.TheVariants.{Invalid};
ghost use Rattle.cluster.specs.declared.entry.Event.TheVariants.{Denied};
ghost use Rattle.cluster.specs.declared.entry.Refusal.TheVariants as refusal;
ghost use Rattle.cluster.specs.History.{state_of, job_state_of};
ghost use Rattle.cluster.specs.JobState.{has_reserved, is_conflicted, is_fresh, may_try};
ghost use Rattle.histories.specs.Adopted.{adoption};
ghost use Rattle.histories.specs.Applied.{application};
ghost use Rattle.histories.specs.Deleted.{deletion};
ghost use Rattle.ledger_core.specs.Ledger.{appended};
ghost use Rattle.histories.specs.Released.{release_of};
ghost use Rattle.sched_job.specs.Moves.{begin_move, chosen_event, finish_move, give_up_move, moved, move_of, once, stage_after, tried, try_move, Fits, FitsChoice, FitsStage};

use crate::Stage;
use crate::due::{Due, due_of, is_taken};
use api_claim::ClaimStatus;
use cluster::{JobState, Mode, Ready, Target};
use commands::Command;
use engine_ports::{Decision, Engine};
use histories::pods_use_claims;
use ledger_core::{Done, Ledger, LedgerError, Start};
use object_fields::{FieldError, Key};
use std::alloc::Global;

/// One step of the job, and what its work keeps after it.
pub fn step<E: Engine>(
    alloc: Global,
    ledger: &mut Ledger,
    job: u64,
    command: &Command,
    stage: &Stage,
) -> Result<Stage, LedgerError>
    requires { Fits ledger.old.entries (record { job = job; command = command.now; stage = stage.now }) }
    ensures ok { OnOk result (ledger.new ≡ moved ledger.old job (move_of ledger.old.entries (record { job = job; command = command.now; stage = stage.now }))) }
    ensures stage { IfOk result (λ made. made ≡ stage_after ledger.old.entries (record { job = job; command = command.now; stage = stage.now })) }
    ensures full { (n : ℕ) → IsErrOf result (LedgerError.Full n) → (length ledger.old.entries ≡ n) × (ledger.old.limit ≤ n) }
    ensures due { (n : ℕ) → IsErrOf result (LedgerError.Full n) → IsSome (move_of ledger.old.entries (record { job = job; command = command.now; stage = stage.now })) }
    ensures err { OnErr result (ledger.new ≡ ledger.old) }
{
    match command {
        Command::Apply(ready, mode) => {
            apply(alloc, ledger, job, ready, *mode)?;
            Ok(Stage::Ready)
        }
        Command::Invalid(error) => {
            deny(alloc, ledger, job, error)?;
            Ok(Stage::Ready)
        }
        Command::Delete(target) => {
            delete(alloc, ledger, job, target)?;
            Ok(Stage::Ready)
        }
        Command::Schedule(pod, attempts) => schedule::<E>(
            alloc, ledger, job, pod, *attempts, stage,
        ),
        Command::Release(pod) => {
            release(alloc, ledger, job, pod)?;
            Ok(Stage::Ready)
        }
        Command::Adopt(claim, status) => {
            adopt::<E>(alloc, ledger, job, claim, status)?;
            Ok(Stage::Ready)
        }
    }
}

fn is_fresh(job_state: JobState) -> bool
    ensures { result ≡ is_fresh job_state }
{
    match job_state {
        JobState::Fresh => true,
        JobState::Reserved(_)
        | JobState::Conflicted(_)
        | JobState::Failed(_)
        | JobState::Ended(_) => false,
    }
}

fn apply(
    alloc: Global,
    ledger: &mut Ledger,
    job: u64,
    ready: &Ready,
    mode: Mode,
) -> Result<(), LedgerError>
    ensures ok { OnOk result (ledger.new ≡ moved ledger.old job (once (job_state_of ledger.old.entries job) (application (state_of ledger.old.entries) ready.now mode))) }
    ensures full { (n : ℕ) → IsErrOf result (LedgerError.Full n) → (length ledger.old.entries ≡ n) × (ledger.old.limit ≤ n) }
    ensures due { (n : ℕ) → IsErrOf result (LedgerError.Full n) → IsSome (once (job_state_of ledger.old.entries job) (application (state_of ledger.old.entries) ready.now mode)) }
    ensures err { OnErr result (ledger.new ≡ ledger.old) }
{
    if is_fresh(ledger.job_state(job)) {
        let ready = ready.share()?;
        ledger.apply(alloc, job, ready, mode)?;
    }
    Ok(())
}

fn deny(alloc: Global, ledger: &mut Ledger, job: u64, error: &FieldError) -> Result<(), LedgerError>
    ensures ok { OnOk result (ledger.new ≡ moved ledger.old job (once (job_state_of ledger.old.entries job) (Denied (Invalid error.now) refusal.Invalid))) }
    ensures full { (n : ℕ) → IsErrOf result (LedgerError.Full n) → (length ledger.old.entries ≡ n) × (ledger.old.limit ≤ n) }
    ensures due { (n : ℕ) → IsErrOf result (LedgerError.Full n) → IsSome (once (job_state_of ledger.old.entries job) (Denied (Invalid error.now) refusal.Invalid)) }
    ensures err { OnErr result (ledger.new ≡ ledger.old) }
{
    match ledger.job_state(job) {
        JobState::Fresh => {
            let error = error.copy(alloc)?;
            ledger.deny(job, error)?;
            Ok(())
        }
        JobState::Reserved(_)
        | JobState::Conflicted(_)
        | JobState::Failed(_)
        | JobState::Ended(_) => Ok(()),
    }
}

fn delete(alloc: Global, ledger: &mut Ledger, job: u64, target: &Target) -> Result<(), LedgerError>
    ensures ok { OnOk result (ledger.new ≡ moved ledger.old job (once (job_state_of ledger.old.entries job) (deletion (state_of ledger.old.entries) target.now))) }
    ensures full { (n : ℕ) → IsErrOf result (LedgerError.Full n) → (length ledger.old.entries ≡ n) × (ledger.old.limit ≤ n) }
    ensures due { (n : ℕ) → IsErrOf result (LedgerError.Full n) → IsSome (once (job_state_of ledger.old.entries job) (deletion (state_of ledger.old.entries) target.now)) }
    ensures err { OnErr result (ledger.new ≡ ledger.old) }
{
    if is_fresh(ledger.job_state(job)) {
        ledger.delete(alloc, job, target)?;
    }
    Ok(())
}

fn release(alloc: Global, ledger: &mut Ledger, job: u64, pod: &Key) -> Result<(), LedgerError>
    ensures ok { OnOk result (ledger.new ≡ moved ledger.old job (once (job_state_of ledger.old.entries job) (release_of (state_of ledger.old.entries) pod.now))) }
    ensures full { (n : ℕ) → IsErrOf result (LedgerError.Full n) → (length ledger.old.entries ≡ n) × (ledger.old.limit ≤ n) }
    ensures due { (n : ℕ) → IsErrOf result (LedgerError.Full n) → IsSome (once (job_state_of ledger.old.entries job) (release_of (state_of ledger.old.entries) pod.now)) }
    ensures err { OnErr result (ledger.new ≡ ledger.old) }
{
    if is_fresh(ledger.job_state(job)) {
        ledger.release(alloc, job, pod)?;
    }
    Ok(())
}

fn adopt<E: Engine>(
    alloc: Global,
    ledger: &mut Ledger,
    job: u64,
    claim: &Key,
    status: &ClaimStatus,
) -> Result<(), LedgerError>
    ensures ok { OnOk result (ledger.new ≡ moved ledger.old job (once (job_state_of ledger.old.entries job) (adoption (state_of ledger.old.entries) claim.now status.now))) }
    ensures full { (n : ℕ) → IsErrOf result (LedgerError.Full n) → (length ledger.old.entries ≡ n) × (ledger.old.limit ≤ n) }
    ensures due { (n : ℕ) → IsErrOf result (LedgerError.Full n) → IsSome (once (job_state_of ledger.old.entries job) (adoption (state_of ledger.old.entries) claim.now status.now)) }
    ensures err { OnErr result (ledger.new ≡ ledger.old) }
{
    if is_fresh(ledger.job_state(job)) {
        let status = status.copy(alloc)?;
        ledger.adopt::<E>(alloc, job, claim, status)?;
    }
    Ok(())
}

fn schedule<E: Engine>(
    alloc: Global,
    ledger: &mut Ledger,
    job: u64,
    pod: &Key,
    attempts: u64,
    stage: &Stage,
) -> Result<Stage, LedgerError>
    requires { FitsStage ledger.old.entries pod.now stage.now }
    ensures ok { OnOk result (ledger.new ≡ moved ledger.old job (move_of ledger.old.entries (record { job = job; command = Command.Schedule pod.now attempts; stage = stage.now }))) }
    ensures stage { IfOk result (λ made. made ≡ stage_after ledger.old.entries (record { job = job; command = Command.Schedule pod.now attempts; stage = stage.now })) }
    ensures full { (n : ℕ) → IsErrOf result (LedgerError.Full n) → (length ledger.old.entries ≡ n) × (ledger.old.limit ≤ n) }
    ensures due { (n : ℕ) → IsErrOf result (LedgerError.Full n) → IsSome (move_of ledger.old.entries (record { job = job; command = Command.Schedule pod.now attempts; stage = stage.now })) }
    ensures err { OnErr result (ledger.new ≡ ledger.old) }
{
    match ledger.job_state(job) {
        JobState::Ended(_) => Ok(Stage::Ready),
        JobState::Reserved(_) => {
            finish(alloc, ledger, job, pod)?;
            Ok(Stage::Ready)
        }
        JobState::Conflicted(_) => {
            give_up(alloc, ledger, job, pod)?;
            Ok(Stage::Ready)
        }
        JobState::Fresh => attempt::<E>(alloc, ledger, job, pod, stage),
        JobState::Failed(failed) => {
            if attempts <= failed {
                ledger.record_contended(alloc, job, pod)?;
                Ok(Stage::Ready)
            } else {
                attempt::<E>(alloc, ledger, job, pod, stage)
            }
        }
    }
}

/// Writes the next use of a pod that the job has reserved, or binds the pod.
fn finish(alloc: Global, ledger: &mut Ledger, job: u64, pod: &Key) -> Result<(), LedgerError>
    requires { has_reserved (job_state_of ledger.old.entries job) ≡ true }
    ensures ok { OnOk result (ledger.new ≡ moved ledger.old job (finish_move (state_of ledger.old.entries) job pod.now)) }
    ensures full { (n : ℕ) → IsErrOf result (LedgerError.Full n) → (length ledger.old.entries ≡ n) × (ledger.old.limit ≤ n) }
    ensures due { (n : ℕ) → IsErrOf result (LedgerError.Full n) → IsSome (finish_move (state_of ledger.old.entries) job pod.now) }
    ensures err { OnErr result (ledger.new ≡ ledger.old) }
{
    pods_use_claims();
    let _len = ledger.len();
    match due_of(alloc, ledger.state(), job, pod)? {
        Due::Nothing => Ok(()),
        Due::Write(claim) => {
            ledger.write_status(alloc, job, pod, &claim)?;
            Ok(())
        }
        Due::Bind => {
            ledger.bind(alloc, job, pod)?;
            Ok(())
        }
    }
}

/// Gives up what the job has reserved, after a conflict.
fn give_up(alloc: Global, ledger: &mut Ledger, job: u64, pod: &Key) -> Result<(), LedgerError>
    requires { is_conflicted (job_state_of ledger.old.entries job) ≡ true }
    ensures ok { OnOk result (ledger.new ≡ moved ledger.old job (give_up_move (state_of ledger.old.entries) job pod.now)) }
    ensures full { (n : ℕ) → IsErrOf result (LedgerError.Full n) → (length ledger.old.entries ≡ n) × (ledger.old.limit ≤ n) }
    ensures due { (n : ℕ) → IsErrOf result (LedgerError.Full n) → IsSome (give_up_move (state_of ledger.old.entries) job pod.now) }
    ensures err { OnErr result (ledger.new ≡ ledger.old) }
{
    if is_taken(ledger.state(), job, pod) {
        ledger.unreserve(alloc, job, pod)?;
    }
    Ok(())
}

/// A step of an attempt: it carries out what a search found, or else begins.
fn attempt<E: Engine>(
    alloc: Global,
    ledger: &mut Ledger,
    job: u64,
    pod: &Key,
    stage: &Stage,
) -> Result<Stage, LedgerError>
    requires job_state { may_try (job_state_of ledger.old.entries job) ≡ true }
    requires fits { FitsStage ledger.old.entries pod.now stage.now }
    ensures ok { OnOk result (ledger.new ≡ moved ledger.old job (try_move (state_of ledger.old.entries) pod.now stage.now)) }
    ensures stage { IfOk result (λ made. made ≡ tried ledger.old.entries (try_move (state_of ledger.old.entries) pod.now stage.now)) }
    ensures full { (n : ℕ) → IsErrOf result (LedgerError.Full n) → (length ledger.old.entries ≡ n) × (ledger.old.limit ≤ n) }
    ensures due { (n : ℕ) → IsErrOf result (LedgerError.Full n) → IsSome (try_move (state_of ledger.old.entries) pod.now stage.now) }
    ensures err { OnErr result (ledger.new ≡ ledger.old) }
{
    match stage {
        Stage::Chosen(choice) => {
            carry_out::<E>(alloc, ledger, job, pod, choice.value())?;
            Ok(Stage::Ready)
        }
        Stage::Ready | Stage::Seen(_) => begin(alloc, ledger, job, pod),
    }
}

fn carry_out<E: Engine>(
    alloc: Global,
    ledger: &mut Ledger,
    job: u64,
    pod: &Key,
    choice: &Decision,
) -> Result<Done, LedgerError>
    requires job_state { may_try (job_state_of ledger.old.entries job) ≡ true }
    requires fits { FitsChoice ledger.old.entries pod.now choice.now }
    ensures ok { OnOk result (ledger.new ≡ appended ledger.old job (chosen_event (state_of ledger.old.entries) pod.now choice.now)) }
    ensures full { (n : ℕ) → IsErrOf result (LedgerError.Full n) → (length ledger.old.entries ≡ n) × (ledger.old.limit ≤ n) }
    ensures err { OnErr result (ledger.new ≡ ledger.old) }
{
    match choice {
        Decision::Reserve(plan) => ledger.reserve::<E>(alloc, job, pod, plan),
        Decision::Judge(verdict) => {
            let verdict = verdict.copy(alloc)?;
            ledger.record_verdict(alloc, job, pod, verdict)
        }
    }
}

/// Begins an attempt: it is denied, or a snapshot is taken.
fn begin(alloc: Global, ledger: &mut Ledger, job: u64, pod: &Key) -> Result<Stage, LedgerError>
    requires { may_try (job_state_of ledger.old.entries job) ≡ true }
    ensures ok { OnOk result (ledger.new ≡ moved ledger.old job (begin_move (state_of ledger.old.entries) pod.now)) }
    ensures stage { IfOk result (λ made. made ≡ tried ledger.old.entries (begin_move (state_of ledger.old.entries) pod.now)) }
    ensures full { (n : ℕ) → IsErrOf result (LedgerError.Full n) → (length ledger.old.entries ≡ n) × (ledger.old.limit ≤ n) }
    ensures due { (n : ℕ) → IsErrOf result (LedgerError.Full n) → IsSome (begin_move (state_of ledger.old.entries) pod.now) }
    ensures err { OnErr result (ledger.new ≡ ledger.old) }
{
    match ledger.begin(alloc, job, pod)? {
        Start::Denied(_) => Ok(Stage::Ready),
        Start::Seen(snapshot) => Ok(Stage::Seen(snapshot)),
    }
}
