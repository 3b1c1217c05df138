//! The least allocation, found depth first within a budget.
#![tactic(auto)]

mod answer;
mod board;
mod choosing;
mod filling;
mod finding;

pub use answer::Answer;
pub use board::{Begun, Board};
pub use finding::search;
