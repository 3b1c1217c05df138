ghost use Rattle.std.specs.Prelude.{◌≡◌, IfOk};
ghost use Rattle.cluster.specs.declared.state.State.{State};
ghost use Rattle.api_print.specs.Parts.{part_json};
ghost use Rattle.api_replies.specs.Answers as spec;

use crate::after::target_for;
use crate::failures::failure;
use crate::message::{line_text, refusal_text};
use crate::outcomes::{outcome, success};
use crate::reason::refusal_reason;
use crate::showing::object;
use api_print::Part;
use cluster::{Entry, Event, Mode, Object, Refusal, Target};
use http::StatusCode;
use http_wire::Reply;
use object_fields::Key;
use std::alloc::{AllocError, Global};

/// The status of the reply to a POST or a PUT that was done.
fn made_status(mode: Mode) -> StatusCode
    ensures { result ≡ spec.made_code mode }
{
    match mode {
        Mode::Create => StatusCode::CREATED,
        Mode::Update => StatusCode::OK,
        Mode::Apply => StatusCode::OK,
    }
}

/// The reply to a command by the last entry of its job, which is at this index, and what of the state after that
/// entry the reply shows (`part_after`). `AllocError` only if memory runs out.
///
/// An object that was created is returned with 201, and one that was updated, or a claim whose status was written,
/// with 200. A DELETE returns a Status with `Success`. A command on a pod returns the line of the entry. A command
/// that is refused returns a Status with `Failure`, whose message is the text of the refusal.
pub fn ended(alloc: Global, place: u64, entry: &Entry, part: &Part) -> Result<Reply, AllocError>
    ensures { (s : State) → part_json part.now ≡ spec.json_after s entry.now.event → IfOk result (λ r. spec.answer_of r ≡ spec.ended s place entry.now) }
{
    by_event(alloc, place, entry, part)
}

/// The same, by what is printed of the part.
fn by_event(alloc: Global, place: u64, entry: &Entry, part: &Part) -> Result<Reply, AllocError>
    ensures { IfOk result (λ r. spec.answer_of r ≡ spec.ended_with (part_json part.now) place entry.now entry.now.event) }
{
    match &entry.event {
        Event::Applied { object: made, mode } => applied(alloc, made, *mode, part),
        Event::Deleted(_) => success(alloc),
        Event::Adopted { claim, status: _ } => adopted(alloc, claim, part),
        Event::Denied {
            command: _,
            refusal,
        } => denied(alloc, entry, refusal),
        Event::Reserved { .. }
        | Event::Refused { .. }
        | Event::Wrote { .. }
        | Event::Conflict { .. }
        | Event::Unreserved(_)
        | Event::Bound { .. }
        | Event::VerdictGiven { .. }
        | Event::Contended { .. }
        | Event::Released(_) => done(alloc, place, entry),
    }
}

fn applied(alloc: Global, made: &Object, mode: Mode, part: &Part) -> Result<Reply, AllocError>
    ensures { IfOk result (λ r. spec.answer_of r ≡ spec.object_by (spec.made_code mode) (spec.target_for made.now) (part_json part.now)) }
{
    let target = target_for(alloc, made)?;
    object(alloc, made_status(mode), &target, part)
}

fn adopted(alloc: Global, claim: &Key, part: &Part) -> Result<Reply, AllocError>
    ensures { IfOk result (λ r. spec.answer_of r ≡ spec.object_by 200 (Target.Claim claim.now) (part_json part.now)) }
{
    let target = Target::Claim(claim.copy(alloc)?);
    object(alloc, StatusCode::OK, &target, part)
}

fn denied(alloc: Global, entry: &Entry, refusal: &Refusal) -> Result<Reply, AllocError>
    ensures { IfOk result (λ r. spec.answer_of r ≡ spec.denied entry.now.event refusal.now) }
{
    let message = refusal_text(alloc, entry)?;
    failure(alloc, refusal_reason(refusal), &message)
}

fn done(alloc: Global, place: u64, entry: &Entry) -> Result<Reply, AllocError>
    ensures { IfOk result (λ r. spec.answer_of r ≡ spec.done place entry.now) }
{
    let line = line_text(alloc, place, entry)?;
    outcome(alloc, &line)
}
