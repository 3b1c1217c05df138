ghost use Rattle.std.specs.Prelude.{◌≡◌, IfOk};

use crate::command::copy_command;
use crate::refusal::copy_refusal;
use api_claim::ClaimStatus;
use cluster::{Command, Event, Failure, Mode, Object, Plan, Refusal, Verdict};
use dra_values::{Shared, Text};
use object_fields::Key;
use std::alloc::{AllocError, Global};

/// An equal event.
pub fn copy_event(alloc: Global, event: &Event) -> Result<Event, AllocError>
    ensures { IfOk result (λ copy. copy ≡ event.now) }
{
    match event {
        Event::Applied { object, mode } => copy_applied(object, *mode),
        Event::Deleted(target) => Ok(Event::Deleted(target.copy(alloc)?)),
        Event::Reserved { pod, plan } => copy_reserved(alloc, pod, plan),
        Event::Refused { pod, plan, why } => copy_refused(alloc, pod, plan, why),
        Event::Wrote { pod, claim, seen } => copy_wrote(alloc, pod, claim, *seen),
        Event::Conflict {
            pod,
            claim,
            had,
            now,
        } => copy_conflict(alloc, pod, claim, *had, *now),
        Event::Unreserved(pod) => Ok(Event::Unreserved(pod.copy(alloc)?)),
        Event::Bound { pod, node } => copy_bound(alloc, pod, node),
        Event::VerdictGiven { pod, verdict } => copy_verdict(alloc, pod, verdict),
        Event::Contended { pod, attempts } => copy_contended(alloc, pod, *attempts),
        Event::Released(pod) => Ok(Event::Released(pod.copy(alloc)?)),
        Event::Adopted { claim, status } => copy_adopted(alloc, claim, status),
        Event::Denied { command, refusal } => copy_denied(alloc, command, refusal),
    }
}

fn copy_applied(object: &Object, mode: Mode) -> Result<Event, AllocError>
    ensures { IfOk result (λ copy. copy ≡ Event.Applied object.now mode) }
{
    Ok(Event::Applied {
        object: object.share()?,
        mode,
    })
}

fn copy_reserved(alloc: Global, pod: &Key, plan: &Shared<Plan>) -> Result<Event, AllocError>
    ensures { IfOk result (λ copy. copy ≡ Event.Reserved pod.now plan.now) }
{
    Ok(Event::Reserved {
        pod: pod.copy(alloc)?,
        plan: plan.share()?,
    })
}

fn copy_refused(
    alloc: Global,
    pod: &Key,
    plan: &Shared<Plan>,
    why: &Shared<Failure>,
) -> Result<Event, AllocError>
    ensures { IfOk result (λ copy. copy ≡ Event.Refused pod.now plan.now why.now) }
{
    Ok(Event::Refused {
        pod: pod.copy(alloc)?,
        plan: plan.share()?,
        why: why.share()?,
    })
}

fn copy_wrote(alloc: Global, pod: &Key, claim: &Key, seen: u64) -> Result<Event, AllocError>
    ensures { IfOk result (λ copy. copy ≡ Event.Wrote pod.now claim.now seen) }
{
    Ok(Event::Wrote {
        pod: pod.copy(alloc)?,
        claim: claim.copy(alloc)?,
        seen,
    })
}

fn copy_conflict(
    alloc: Global,
    pod: &Key,
    claim: &Key,
    had: u64,
    now: u64,
) -> Result<Event, AllocError>
    ensures { IfOk result (λ copy. copy ≡ Event.Conflict pod.now claim.now had now) }
{
    Ok(Event::Conflict {
        pod: pod.copy(alloc)?,
        claim: claim.copy(alloc)?,
        had,
        now,
    })
}

fn copy_bound(alloc: Global, pod: &Key, node: &Text) -> Result<Event, AllocError>
    ensures { IfOk result (λ copy. copy ≡ Event.Bound pod.now node.now) }
{
    Ok(Event::Bound {
        pod: pod.copy(alloc)?,
        node: node.copy(alloc)?,
    })
}

fn copy_verdict(alloc: Global, pod: &Key, verdict: &Shared<Verdict>) -> Result<Event, AllocError>
    ensures { IfOk result (λ copy. copy ≡ Event.VerdictGiven pod.now verdict.now) }
{
    Ok(Event::VerdictGiven {
        pod: pod.copy(alloc)?,
        verdict: verdict.share()?,
    })
}

fn copy_contended(alloc: Global, pod: &Key, attempts: u64) -> Result<Event, AllocError>
    ensures { IfOk result (λ copy. copy ≡ Event.Contended pod.now attempts) }
{
    Ok(Event::Contended {
        pod: pod.copy(alloc)?,
        attempts,
    })
}

fn copy_adopted(
    alloc: Global,
    claim: &Key,
    status: &Shared<ClaimStatus>,
) -> Result<Event, AllocError>
    ensures { IfOk result (λ copy. copy ≡ Event.Adopted claim.now status.now) }
{
    Ok(Event::Adopted {
        claim: claim.copy(alloc)?,
        status: status.share()?,
    })
}

fn copy_denied(alloc: Global, command: &Command, refusal: &Refusal) -> Result<Event, AllocError>
    ensures { IfOk result (λ copy. copy ≡ Event.Denied command.now refusal.now) }
{
    let command = copy_command(alloc, command)?;
    let refusal = copy_refusal(alloc, refusal)?;
    Ok(Event::Denied { command, refusal })
}
