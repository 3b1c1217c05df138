ghost use Rattle.std.specs.Prelude.{◌≡◌, IfOk};

use cluster::Refusal;
use std::alloc::{AllocError, Global};

/// An equal refusal.
pub fn copy_refusal(alloc: Global, refusal: &Refusal) -> Result<Refusal, AllocError>
    ensures { IfOk result (λ copy. copy ≡ refusal.now) }
{
    match refusal {
        Refusal::Invalid => Ok(Refusal::Invalid),
        Refusal::NotFound => Ok(Refusal::NotFound),
        Refusal::Exists => Ok(Refusal::Exists),
        Refusal::Conflict { had, now } => Ok(Refusal::Conflict {
            had: *had,
            now: *now,
        }),
        Refusal::Immutable => Ok(Refusal::Immutable),
        Refusal::InUse => Ok(Refusal::InUse),
        Refusal::Devices => Ok(Refusal::Devices),
        Refusal::Busy(job) => Ok(Refusal::Busy(*job)),
        Refusal::Bound(node) => Ok(Refusal::Bound(node.copy(alloc)?)),
        Refusal::NotBound => Ok(Refusal::NotBound),
        Refusal::Failure(why) => Ok(Refusal::Failure(why.share()?)),
    }
}
