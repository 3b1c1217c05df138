//! Replays a script: reads its commands, does each as a job of a ledger, and prints what was decided.
#![tactic(auto)]

mod decided;
mod jobs;
mod kubelet;
mod laws;
mod options;
mod read_back;
mod script;
mod status;
mod stop;
mod work;

pub use decided::{runs_are_numbered, texts_determine_runs};
pub use laws::{
    empty_inputs_are_done, endings_have_causes, runs_are_complete, runs_end_their_jobs,
    runs_search_within, single_commands_are_undisturbed,
};
pub use options::ReplayOptions;
pub use script::replay;
pub use status::{Rejection, Status};
pub use stop::Stop;
