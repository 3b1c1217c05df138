//! Classes and claims whose selectors are compiled.
#![tactic(auto)]

mod claim;
mod class;
mod compile;
mod laws;

pub use claim::ReadyClaim;
pub use class::ReadyClass;
pub use laws::selectors_decide;
