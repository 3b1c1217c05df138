//! Requests of HTTP/1.1 and HTTP/1.0 from a source of bytes, one after another, and replies to a
//! sink: what a server of one connection reads and writes, apart from what its replies say.
#![tactic(auto)]

mod buffer;
mod error;
mod fields;
mod head;
mod laws;
mod read;
mod reader;
mod reply;
mod request;
mod scan;

pub use error::WireError;
pub use laws::requests_lie_in_order;
pub use reader::RequestReader;
pub use reply::{Reply, write_reply};
pub use request::Request;
