//! The doors of the operating system: connections of TCP, each of them a source and a sink that doesn't expose
//! its bytes.
#![tactic(auto)]

mod conn;
mod door;
mod doors;
#[cfg(test)]
mod tests;

pub use conn::NetConn;
pub use door::NetDoor;
pub use doors::NetDoors;
