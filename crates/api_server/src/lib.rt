//! The server of an address: doors accept connections, each worker serves those of one door, one after another, over
//! one ledger in its lock. At the end the history and its summary are printed.
//!
//! [`serve`] states what was printed, with each status: the lines of a legal history, each entry of which is of the job of a
//! request of one of the connections, and where in it the replies to each connection stand. This is known whatever the
//! number of workers and however their turns interleave. That workers serve beside each other is shown only by tests.
//!
//! Below it, [`serve_share`]: the connections of one door, one after another, until its share of them is served or the
//! service ends early. [`serve_connection`]: the requests that a client sends, one after another, and the replies to them.
//! [`serve_request`]: what is done for one request. A command is carried out as a job, and what is to be shown is read in
//! one turn of the lock; replies are made outside the lock.
#![tactic(auto)]

mod connection;
mod end;
mod hire;
mod job;
mod laws;
mod look;
mod once;
mod options;
mod printing;
mod request;
mod serve_end;
mod server;
mod service;
mod serving;
mod share;
mod share_end;
mod task;
mod worker;

pub use connection::serve_connection;
pub use end::ConnEnd;
pub use laws::{connections_make_entries, replies_stand_in_order};
pub use options::{ServeOptions, ServeStatus};
pub use request::serve_request;
pub use sched_job::Ledger;
pub use service::Service;
pub use serving::serve;
pub use share::serve_share;
pub use share_end::ShareEnd;
pub use task::{Unreplied, serve_task};
