//! Copies of the entries of a history, which share what is large: so an entry can be read after the turn in which it
//! was found.
#![tactic(auto)]

mod command;
mod copies;
mod event;
mod refusal;

pub use copies::{copy_entries, copy_entry};
