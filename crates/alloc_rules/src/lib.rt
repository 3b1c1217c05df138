//! The check of a plan against a state: the first of its failures, if there is one.
#![tactic(auto)]

mod agreeing;
mod checking;
mod counters;
mod drawing;
mod due;
mod holding;
mod known;
mod naming;
mod results;
mod shape;

pub use checking::{check, check_status};
