//! The history of a cluster, which stays legal, and the state after it.
#![tactic(auto)]

mod counting;
mod dating;
mod deleting;
mod error;
mod holding;
mod ledger;
mod memos;
mod plans;
mod recorded;
mod room;
mod snapshot;

pub use dating::memory_goes_on;
pub use error::LedgerError;
pub use ledger::{Done, Ledger, Start};
pub use snapshot::Snapshot;
