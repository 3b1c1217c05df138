//! What the claims of a pod ask of a node, computed once before its search.
#![tactic(auto)]

mod choice;
mod columns;
mod fault;
mod laws;
mod rows;
mod taints;
mod wants;
mod ways;

pub use choice::{Choice, Seat, Shape, Slot};
pub use fault::FaultPlace;
pub use laws::choices_ask_alike;
pub use rows::{Row, Rows};
pub use wants::{Classes, WantedClaim, Wants};
