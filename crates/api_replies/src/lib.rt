//! The replies of the server: to a request that is refused, to a command by the last entry of its job, and to what
//! is to be shown.
#![tactic(auto)]

mod after;
mod ending;
mod failures;
mod lists;
mod message;
mod objects;
mod outcomes;
mod quoted;
mod reason;
mod showing;

pub use after::part_after;
pub use ending::ended;
pub use failures::{absent, refused};
pub use lists::listed;
pub use reason::Reason;
pub use showing::{journal, shown};
