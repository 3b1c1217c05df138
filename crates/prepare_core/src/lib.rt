//! The kubelet's side of claims: the devices of a claim are prepared on the node before its pod starts, and taken
//! back after the last pod that uses it. What was done is kept in a checkpoint journal, so that after a crash at
//! any moment the table on the disk is the one from before and some of the call's own records, none of them
//! skipped.
#![tactic(auto)]

mod ask;
mod begin;
mod begun;
mod claim;
mod driver;
mod error;
mod kubelet;
mod mem_driver;
mod moments;
mod prepare;
mod rows;
mod state;
mod unprepare;
mod way;

pub use begun::{Asked, Begun};
pub use claim::{ClaimForNode, Names};
pub use driver::{CallKind, Driver, DriverCall};
pub use error::KubeletError;
pub use mem_driver::MemDriver;
pub use moments::{held_claims_stay, prefixes_join};
pub use state::{Kubelet, Refused};
