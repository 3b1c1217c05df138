//! Nodes whose devices are all held: what is known of the selectors on their slices, so that they can be
//! passed over without matching anything.
#![tactic(auto)]

mod evaluating;
mod full;
mod learn;
mod sure;

pub use learn::learn_full_slices;
pub use sure::{is_full, known_for};
