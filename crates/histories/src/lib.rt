//! Which histories of a cluster are legal, and what each legal history has: definitions and laws, without
//! code.
#![tactic(auto)]

mod determined;
mod growing;
mod growth;
mod headline;

pub use determined::histories_are_determined;
pub use growing::{histories_grow, reserved_goes_on};
pub use growth::{dates_grow, held_since_dates, lacking_goes_on, nodes_stay_without_allocation};
pub use headline::{
    adoptions_are_allocations, busy_is_another, denials_change_nothing, grants_are_allocations,
    legal_steps, objects_keep_limits, one_holder, pods_stay_taken, pods_use_claims,
    uids_keep_claims, users_are_busy, users_are_granted, verdicts_are_true, versions_are_reserved,
};
