//! The check of expressions of the selector language, this project's profile of the CEL language
//! definition: a tree with its type, or its first fault.
#![tactic(auto)]

mod checks;
mod keys;
mod laws;
mod leaf;
mod typing;

pub use checks::{CheckError, check};
pub use laws::first_faults_are_found;
