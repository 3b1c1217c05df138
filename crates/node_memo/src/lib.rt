//! What is known of nodes that have no allocation: when something changed last that a search depends on, and which
//! nodes had none since.
#![tactic(auto)]

mod dates;
mod memo;
mod nodes;
mod pools;
mod same;

pub use dates::Dates;
pub use memo::Memo;
pub use nodes::{LackingNode, LackingNodes};
