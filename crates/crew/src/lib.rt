//! Lists of jobs, each run in order by a thread of its own, with a pass of its own.
//!
//! A job states what it needs of its pass and what holds after it ran, and `run_all` passes both on. So
//! what is proved of one job in one thread is known of each job after any number of threads. That
//! the threads run at the same time is shown only by a test.
#![tactic(auto)]

mod job;
mod lane;
mod room;
mod run;
#[cfg(test)]
mod tests;

pub use job::Job;
pub use run::{Unrun, run_all};
