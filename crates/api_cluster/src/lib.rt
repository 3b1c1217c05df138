//! Nodes, DeviceClasses and Pods: the fields that decide where devices may go.
#![tactic(auto)]

mod class;
mod laws;
mod node;
mod pod;
mod types;

pub use laws::limits_are_kept;
pub use types::{DeviceClass, Node, Pod, PodResourceClaim};
