//! The decision on a pod: a plan, or a verdict that there is none; and the search of a node, which it is
//! made from.
#![tactic(auto)]

mod claims;
mod decision;
mod full_laws;
mod nodes;
mod search;
mod tries;

pub use decision::{decide, decide_with};
pub use full_laws::full_nodes_have_nothing;
pub use search::PodSearch;
