//! Node selectors as data, and which nodes they select.
#![tactic(auto)]

mod number;
mod requirement;
mod selector;

pub use number::whole;
pub use requirement::{Requirement, Test};
pub use selector::Selector;
