//! What a request to the server is for: a command, which a job carries out, or something to be shown.
#![tactic(auto)]

mod body;
mod namespace;
mod naming;
mod object;
mod request;
mod task;

pub use request::task_of;
pub use task::Task;
