//! What is to be done with a pod, and what decides that: a decision is a plan or a verdict, judged by definitions; a trait
//! says what the history needs of whoever decides on pods and checks plans. Nothing here searches or checks, so nothing
//! above names a search or a check.
#![tactic(auto)]

mod decision;
mod engine;
mod unique;

pub use decision::{Decision, may_schedule};
pub use engine::Engine;
pub use unique::decision_is_unique;
