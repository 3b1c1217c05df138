//! The search of a node: the least allocation of a pod's claims, or that there is none, within a budget.
#![tactic(auto)]

mod agreements;
mod board;
mod faults;
mod grants;
mod held;
mod outcome;
mod pick;
mod run;
mod searching;
mod standing;

pub use outcome::Outcome;
pub use searching::search_devices;
