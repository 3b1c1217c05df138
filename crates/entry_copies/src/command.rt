ghost use Rattle.std.specs.Prelude.{◌≡◌, IfOk};

use api_claim::ClaimStatus;
use cluster::{Command, Mode, Object};
use dra_values::Shared;
use object_fields::Key;
use std::alloc::{AllocError, Global};

/// An equal command.
pub fn copy_command(alloc: Global, command: &Command) -> Result<Command, AllocError>
    ensures { IfOk result (λ copy. copy ≡ command.now) }
{
    match command {
        Command::Invalid(error) => Ok(Command::Invalid(error.copy(alloc)?)),
        Command::Apply { object, mode } => copy_apply(object, *mode),
        Command::Delete(target) => Ok(Command::Delete(target.copy(alloc)?)),
        Command::Schedule(pod) => Ok(Command::Schedule(pod.copy(alloc)?)),
        Command::Release(pod) => Ok(Command::Release(pod.copy(alloc)?)),
        Command::Adopt { claim, status } => copy_adopt(alloc, claim, status),
    }
}

fn copy_apply(object: &Object, mode: Mode) -> Result<Command, AllocError>
    ensures { IfOk result (λ copy. copy ≡ Command.Apply object.now mode) }
{
    Ok(Command::Apply {
        object: object.share()?,
        mode,
    })
}

fn copy_adopt(
    alloc: Global,
    claim: &Key,
    status: &Shared<ClaimStatus>,
) -> Result<Command, AllocError>
    ensures { IfOk result (λ copy. copy ≡ Command.Adopt claim.now status.now) }
{
    Ok(Command::Adopt {
        claim: claim.copy(alloc)?,
        status: status.share()?,
    })
}
