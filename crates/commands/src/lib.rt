//! Commands: what the documents of a script ask for.
#![tactic(auto)]

mod command;
mod document;
mod fields;
mod given;
mod objects;
mod read;

pub use command::Command;
pub use given::{Given, GivenError};
pub use read::commands;
