//! What an allocation is: which devices of a node may be allocated to claims of `resource.k8s.io/v1`, and which
//! lists of positions begin an allocation.
//!
//! The definitions are in `specs/`; the only code of this crate is laws, whose bodies are empty.
#![tactic(auto)]

mod growth;
mod laws;

pub use growth::{fuller_inputs_are_narrower, matches_are_by_selectors, more_held_draw_more};
pub use laws::{
    allocations_hold_once, faults_are_first, grants_have_all_results, joining_is_by_device,
    prefixes_are_good, walk_is_meant,
};
