//! Taints of devices and the tolerations of requests (KEP 5055, `resource.k8s.io/v1`): their fields,
//! and which toleration tolerates which taint.
#![tactic(auto)]

mod laws;
mod reading;
mod tolerating;
mod types;

pub use laws::{taints_keep_limits, tolerations_keep_limits};
pub use reading::{read_taints, read_tolerations};
pub use tolerating::{are_tolerated, tolerates, tolerations_are_by_facts};
pub use types::{Taint, TaintEffect, Toleration, TolerationOperator};
