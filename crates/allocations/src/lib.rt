//! What an allocation is in a state of a cluster, for all supported claims: which claims of a pod need devices,
//! what the input of a search of a node is, and what its outcomes mean.
#![tactic(auto)]

mod growth;
mod holders;
mod keys;
mod laws;

pub use growth::{
    changes_keep_held, growth_adds_up, lacking_is_found, losses_are_told, unsat_goes_on,
};
pub use holders::{changes_hold_once, grants_hold_once, holders_are_one_claim};
pub use keys::keys_of_pod;
pub use laws::{budget_is_true, faults_are_first, unsat_is_true, walk_is_allocations};
