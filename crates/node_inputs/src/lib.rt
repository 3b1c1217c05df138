//! What a search and a check of a node take from the state: the claims that need devices, and how the
//! devices that a node sees differ.
#![tactic(auto)]

mod apart;
mod wanted;

pub use apart::devices_differ;
pub use wanted::{wanted_claims, wanted_in};
