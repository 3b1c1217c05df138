//! Where connections come from, as traits: doors that accept the connections of a server, each of them a
//! share of its own, and take each back once it was served.
//!
//! What a connection itself is stands in [`dra_ports`]. Doors may expose what was read from each
//! connection and written to it: those in memory do, and those of the operating system do not. A door
//! returns `Failed` only if its count of errors rose in that call, or is at its maximum.
#![tactic(auto)]

mod accepted;
mod door;
mod doors;
mod mem_door;
mod mem_doors;
mod replies;
mod script;

pub use accepted::Accepted;
pub use door::Door;
pub use doors::Doors;
pub use mem_door::MemDoor;
pub use mem_doors::MemDoors;
pub use script::MemInput;
