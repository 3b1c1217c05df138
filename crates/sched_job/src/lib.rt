//! Jobs as machines of small steps over one shared history, and jobs that run beside each other, by some workers.
//!
//! For the latter the ledger is under a turn lock, each worker has a pass of its own, and the jobs are dealt to the
//! workers in order. Once all have ended, the passes say which entries each job made, so the entries that are
//! new are the runs of these jobs and nothing else.
#![tactic(auto)]

mod alone;
mod complete;
mod deal;
mod due;
mod laws;
mod member;
mod notes;
mod passes;
mod past;
mod run;
mod steps;
mod together;
mod turns;
mod work;

pub use alone::run_alone;
pub use complete::schedules_are_complete;
pub use laws::{alone_is_undisturbed, runs_go_on, turns_are_few, turns_move_on};
pub use ledger_core::{Done, Ledger, LedgerError};
pub use passes::{join_all, split_all};
pub use past::runs_go_past;
pub use run::{JobEnd, run_job};
pub use steps::run_steps;
pub use together::run_together;
pub use work::{Next, Stage, Work};
