//! What the documents of a generated script ask for: each of them is one command.
#![tactic(auto)]

mod laws;

pub use laws::{documents_are_commands, scripts_are_inputs};
