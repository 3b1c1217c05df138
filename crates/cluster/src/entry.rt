use crate::{Failure, Object, Plan, Target, Verdict};
use api_claim::ClaimStatus;
use dra_values::{Shared, Text};
use object_fields::{FieldError, Key};

/// One event of the ledger, made by a job.
#[derive(Drop)]
pub struct Entry {
    /// The number of the command.
    pub job: u64,
    pub event: Event,
}

/// What an entry does. Plans, verdicts and statuses are behind pointers, so that an entry is small
/// whatever it is.
#[derive(Drop)]
pub enum Event {
    /// Creates an object, whose uid and version are the entry's index, or updates one that is there,
    /// which keeps its uid and gets the entry's index as its version.
    Applied {
        object: Object,
        mode: Mode,
    },
    /// Takes an object away.
    Deleted(Target),
    /// Makes the plan's grants, and takes the pod for the job.
    Reserved {
        pod: Key,
        plan: Shared<Plan>,
    },
    /// Says why the plan's grants can't be made, and changes nothing. The attempt has failed.
    Refused {
        pod: Key,
        plan: Shared<Plan>,
        why: Shared<Failure>,
    },
    /// Writes the pod's use of a claim, whose version was `seen`.
    Wrote {
        pod: Key,
        claim: Key,
        seen: u64,
    },
    /// Says that a claim, whose version was `had` when the job reserved, has the version `now`, and
    /// changes nothing.
    Conflict {
        pod: Key,
        claim: Key,
        had: u64,
        now: u64,
    },
    /// Takes the pod's uses away, and leaves the pod Idle. The attempt has failed.
    Unreserved(Key),
    /// Binds the pod to the node of its plan.
    Bound {
        pod: Key,
        node: Text,
    },
    /// Says that the pod can't be scheduled, and changes nothing.
    VerdictGiven {
        pod: Key,
        verdict: Shared<Verdict>,
    },
    /// Says that so many attempts have failed, and changes nothing.
    Contended {
        pod: Key,
        attempts: u64,
    },
    /// Takes the uses of a bound pod away, and leaves the pod Idle.
    Released(Key),
    /// Grants a claim what a status write says, published and without users.
    Adopted {
        claim: Key,
        status: Shared<ClaimStatus>,
    },
    /// Refuses a command by the first of its refusals that holds, and changes nothing.
    Denied {
        command: Command,
        refusal: Refusal,
    },
}

/// What a job is to do, as far as it may be refused.
#[derive(Drop)]
pub enum Command {
    /// To apply the document of an object whose fields, or else whose selectors, have this first error,
    /// which isn't that memory ran out. It names nothing.
    Invalid(FieldError),
    /// To create or update an object, by the mode.
    Apply {
        object: Object,
        mode: Mode,
    },
    /// To take an object away.
    Delete(Target),
    /// To find devices for a pod, and to bind it to their node.
    Schedule(Key),
    /// To take the uses of a bound pod away.
    Release(Key),
    /// To grant a claim what a status write says.
    Adopt {
        claim: Key,
        status: Shared<ClaimStatus>,
    },
}

/// Whether a command that applies an object asks for a new one.
#[derive(Clone, Copy, Debug, PartialEq, Eq, Drop)]
pub enum Mode {
    /// A new object. The version that the object carries isn't looked at.
    Create,
    /// An object that is there.
    Update,
    /// An update if an object of its kind and name is there, and else a new one.
    Apply,
}

/// Why a command is refused.
#[derive(Drop)]
pub enum Refusal {
    /// The document has an error.
    Invalid,
    /// No object of this kind and name is there; of a Schedule or a Release, the pod isn't there.
    NotFound,
    /// An object of this kind and name is there; of a status write, the claim has a grant.
    Exists,
    /// The object, or the status, carries the version `had`, and the one that is there has the version `now`.
    Conflict { had: u64, now: u64 },
    /// The spec of a claim, or the list of claims of a pod, isn't that of the one that is there.
    Immutable,
    /// The claim has a user, or the pod is taken, bound or a user of a claim.
    InUse,
    /// All slices would have more than 65,536 devices.
    Devices,
    /// This job has taken the pod.
    Busy(u64),
    /// The pod is bound to this node.
    Bound(Text),
    /// The pod isn't bound.
    NotBound,
    /// What the status write would grant isn't an allocation of the claim.
    Failure(Shared<Failure>),
}

/// What became of a command, by the kind of its entry.
#[derive(Clone, Copy, Debug, PartialEq, Eq, Drop)]
pub enum Outcome {
    /// It was done.
    Made,
    /// It was refused.
    Denied,
    /// The plan's grants couldn't be made.
    Refused,
    /// A claim had another version.
    Conflicted,
}

/// What a job's entries leave. The numbers count the attempts of the job that have failed.
#[derive(Clone, Copy, Debug, PartialEq, Eq, Drop)]
pub enum JobState {
    /// It has no entry.
    Fresh,
    /// It has reserved for its pod.
    Reserved(u64),
    /// It has found another version of a claim than the one it assumed.
    Conflicted(u64),
    /// Its last attempt has failed.
    Failed(u64),
    /// Its last entry is at this index.
    Ended(u64),
}
