//! How many entries a job has that runs alone, where each pod has one claim at most.
#![tactic(auto)]

mod laws;

pub use laws::single_jobs_are_short;
