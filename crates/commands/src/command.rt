use api_claim::ClaimStatus;
use cluster::{Mode, Ready, Target};
use object_fields::{FieldError, Key};

/// What a job is to do.
#[derive(Drop)]
pub enum Command {
    /// To create or update an object whose selectors are compiled, by the mode.
    Apply(Ready, Mode),
    /// To refuse a document, whose fields or selectors have this first error.
    Invalid(FieldError),
    /// To take an object away.
    Delete(Target),
    /// To find devices for a pod, and to bind it to their node, in at most so many attempts.
    Schedule(Key, u64),
    /// To take the uses of a bound pod away.
    Release(Key),
    /// To grant a claim what a status write says.
    Adopt(Key, ClaimStatus),
}
