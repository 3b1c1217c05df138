//! Splits an input into the JSON documents that it contains one after another, without reading it
//! whole: it holds one document and a piece of what follows.
#![tactic(auto)]

mod doc;
mod error;
mod first;
mod laws;
mod limits;
mod next;
mod place;
mod scan;
mod splitter;

pub use doc::Doc;
pub use error::DocError;
pub use first::documents_come_first;
pub use laws::documents_lie_in_order;
pub use splitter::Splitter;
