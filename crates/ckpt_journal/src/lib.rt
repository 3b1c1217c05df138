//! The checkpoint journal: the steps of claims on a node as records on a disk, each of which is there
//! after every crash from its acknowledgement on.
//!
//! A file has two halves, one of which is live. When that is full, the table that the records make is
//! compacted into the other half, which is live from then on. A file of version 1, which has no halves, is moved
//! over when it is opened.
//!
//! The crate keeps the reading of one record (`named`, `body`), the reading of gates and records
//! (`layout`, `reading`), the table (`rows`), the spelling (`named`, `spelling`), what is to be written (`plan`)
//! and the order of writes and syncs (`writing`, `opening`, `journal`) apart.
#![tactic(auto)]

mod body;
mod error;
mod journal;
mod laws;
mod layout;
mod named;
mod opening;
mod plan;
mod reading;
mod record;
mod rows;
mod spelling;
mod state;
mod writing;

pub use error::JournalError;
pub use laws::{compacted_is_same, records_are_spelled};
pub use opening::{Unopened, format};
pub use record::{Claim, Record, Row, RowState};
pub use state::Journal;
