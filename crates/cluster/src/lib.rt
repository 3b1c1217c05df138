//! The model of a cluster: its objects, its state, the events of its history, and what each event does.
#![tactic(auto)]

mod entry;
mod failure;
mod freed;
mod kept;
mod object;
mod passed;
mod plan;
mod ready;
mod refusals;
mod reserved;
mod same;
mod state;
mod users;

pub use entry::{Command, Entry, Event, JobState, Mode, Outcome, Refusal};
pub use failure::{Failure, Shortfall};
pub use kept::Kept;
pub use object::{Object, Target};
pub use passed::{NodeCause, PassedBuilder, PassedNodes, later_causes, next_cause};
pub use plan::{
    Cause, DeviceResult, Grant, Known, KnownClaim, Passed, Plan, Reason, SelectorFault, Verdict,
};
pub use ready::{Ready, ReadyParts};
pub use same::{same_is_equal, same_spec};
pub use state::{ClaimState, Granted, MOST_USERS, Phase, PodState, State, Use};
pub use users::Users;
