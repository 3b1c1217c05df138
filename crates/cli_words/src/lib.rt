//! The arguments of `dra`: which of them are a command, and what they ask for.
#![tactic(auto)]

mod asked;
mod command;
mod given;
mod numbers;

pub use asked::words;
pub use command::{Command, ExerciseWords, ReplayWords, RunOptions, ServeWords};
