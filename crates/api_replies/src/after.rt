ghost use Rattle.std.specs.Prelude.{◌≡◌, IfOk};
ghost use Rattle.api_print.specs.Objects.{json_of};
ghost use Rattle.api_print.specs.Parts.{part_json};
ghost use Rattle.api_replies.specs.Answers as spec;

use api_print::{Part, part_of};
use cluster::{Event, Object, State, Target};
use object_fields::Key;
use std::alloc::{AllocError, Global};

/// The kind and the name of an object.
pub fn target_for(alloc: Global, object: &Object) -> Result<Target, AllocError>
    ensures { IfOk result (λ t. t ≡ spec.target_for object.now) }
{
    match object {
        Object::Node(node) => Ok(Target::Node(node.value().name.copy(alloc)?)),
        Object::Slice(slice) => Ok(Target::Slice(slice.value().name.copy(alloc)?)),
        Object::Class(class) => Ok(Target::Class(class.value().name.copy(alloc)?)),
        Object::Claim(claim) => Ok(Target::Claim(claim.value().key.copy(alloc)?)),
        Object::Pod(pod) => Ok(Target::Pod(pod.value().key.copy(alloc)?)),
    }
}

/// The part of a state that the reply to a command shows whose job ended with this event: the object that was applied,
/// or the claim whose status was written. Other replies show no object. `AllocError` only if memory runs out, or the
/// count of owners of an object is full.
pub fn part_after(alloc: Global, event: &Event, state: &State) -> Result<Part, AllocError>
    ensures { IfOk result (λ part. part_json part ≡ spec.json_after state.now event.now) }
{
    match event {
        Event::Applied { object, mode: _ } => applied_part(alloc, object, state),
        Event::Adopted { claim, status: _ } => adopted_part(alloc, claim, state),
        Event::Deleted(_)
        | Event::Reserved { .. }
        | Event::Refused { .. }
        | Event::Wrote { .. }
        | Event::Conflict { .. }
        | Event::Unreserved(_)
        | Event::Bound { .. }
        | Event::VerdictGiven { .. }
        | Event::Contended { .. }
        | Event::Released(_)
        | Event::Denied { .. } => Ok(Part::Absent),
    }
}

fn applied_part(alloc: Global, object: &Object, state: &State) -> Result<Part, AllocError>
    ensures { IfOk result (λ part. part_json part ≡ json_of state.now (spec.target_for object.now)) }
{
    let target = target_for(alloc, object)?;
    part_of(alloc, &target, state)
}

fn adopted_part(alloc: Global, claim: &Key, state: &State) -> Result<Part, AllocError>
    ensures { IfOk result (λ part. part_json part ≡ json_of state.now (Target.Claim claim.now)) }
{
    let target = Target::Claim(claim.copy(alloc)?);
    part_of(alloc, &target, state)
}
