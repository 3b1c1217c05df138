ghost use Rattle.std.specs.Prelude.{◌≡◌, IfOk, Some, not, find, option_copied};
ghost use Rattle.pool_view.specs.Names.{at_key};
ghost use Rattle.cluster.specs.State.{claims_of, has_written, is_written};
ghost use Rattle.sched_job.specs.Moves.{due_by, due_of, is_taken_by, taken_by};

use allocations::keys_of_pod;
use cluster::{Phase, PodState, State, Use};
use object_fields::Key;
use std::alloc::{AllocError, Global};

/// What a job that has reserved a pod does next.
#[derive(Drop)]
pub enum Due {
    /// It hasn't taken the pod.
    Nothing,
    /// To write the pod's use of this claim.
    Write(Key),
    /// To bind the pod, since each of its uses is written.
    Bind,
}

/// What a job that has reserved a pod does next. `AllocError` only if memory runs out.
pub fn due_of(alloc: Global, state: &State, job: u64, pod: &Key) -> Result<Due, AllocError>
    ensures { IfOk result (λ due. due ≡ due_of state.now job pod.now) }
{
    match state.pods.get(pod) {
        None => Ok(Due::Nothing),
        Some(found) => due_of_pod(alloc, state, job, pod, found),
    }
}

fn due_of_pod(
    alloc: Global,
    state: &State,
    job: u64,
    key: &Key,
    pod: &PodState,
) -> Result<Due, AllocError>
    ensures { IfOk result (λ due. due ≡ due_by state.now job key.now (Some pod.now)) }
{
    if !is_taken_by(job, &pod.phase) {
        return Ok(Due::Nothing);
    }
    let claims = keys_of_pod(alloc, &pod.pod.object)?;
    match next_claim(state, key, claims.as_slice()) {
        Some(claim) => Ok(Due::Write(claim.copy(alloc)?)),
        None => Ok(Due::Bind),
    }
}

/// Whether the pod is there, and taken by the job. Allocates nothing.
pub fn is_taken(state: &State, job: u64, pod: &Key) -> bool
    ensures { result ≡ taken_by job (at_key state.now.pods pod.now) }
{
    match state.pods.get(pod) {
        None => false,
        Some(pod) => is_taken_by(job, &pod.phase),
    }
}

fn is_taken_by(job: u64, phase: &Phase) -> bool
    ensures { result ≡ is_taken_by job phase.now }
{
    match phase {
        Phase::Taken { job: holder, .. } => *holder == job,
        Phase::Idle | Phase::Bound(_) => false,
    }
}

/// The first of the claims of which the pod's use isn't written.
fn next_claim<'a>(state: &State, pod: &Key, claims: &'a [Key]) -> Option<&'a Key>
    ensures { option_copied result ≡ find (λ k. not (has_written state.now pod.now k)) claims.now }
{
    claims.iter().find(|claim| !has_written(state, pod, claim))
}

fn has_written(state: &State, pod: &Key, claim: &Key) -> bool
    ensures { result ≡ has_written state.now pod.now claim.now }
{
    match state.claims.get(claim) {
        None => false,
        Some(claim) => is_written(claim.users.get(pod)),
    }
}

fn is_written(found: Option<&Use>) -> bool
    ensures { result ≡ is_written (option_copied found.entry) }
{
    match found {
        Some(Use::Written) => true,
        Some(Use::Assumed(_)) | None => false,
    }
}
