//! When plans and verdicts are true of a state, and the failures of a plan: definitions and laws, without
//! code.
#![tactic(auto)]

mod decided;
mod failures;
mod holders;
mod plans;

pub use decided::decisions_are_unique;
pub use failures::{
    allocations_pass, checked_is_allocation, checked_is_known, failures_are_true,
    fitting_is_of_pod, unfailing_is_allocated,
};
pub use holders::one_holder_is_kept;
pub use plans::plan_holds;
