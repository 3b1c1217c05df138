//! What the held devices draw from the counters of a cluster's usable pools.
#![tactic(auto)]

mod kept;
mod recount;
mod totals;

pub use kept::{hold, kept_totals_are_drawn, leave, new_totals};
pub use recount::{recount_with, recount_without};
