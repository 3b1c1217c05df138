//! Objects of a state as Kubernetes prints them: compact JSON with members in the order of bytes.
//!
//! Printed are `apiVersion`, `kind`, the metadata with the object's version and uid in the state, the
//! fields of `spec` that are kept and set, and the status of a claim whose grant is published. Where
//! several texts would read as the same object, these are printed (this project's own choice):
//!
//! - optional lists and tables without entries, flags that are false, and empty values, keys and
//!   effects of taints and tolerations are left out
//! - the operator of a toleration is always printed, also if it is Equal
//! - `allocationMode` is always printed, and with ExactCount also a `count` of 1
//! - names of attributes and capacities are printed in full, `domain/id`, even if the domain is the
//!   driver
//! - a quantity is a string, as it prints, and so are the numbers of Gt and Lt, in decimal digits
//! - `reservedFor` has the pods whose use is written, in the order of their keys, and is left out if
//!   there are none
//! - a pod that is bound has no `nodeName`, which isn't kept of any pod
//!
//! The JSON of each object reads as the object, and that of a claim with a published grant, without
//! `reservedFor`, as its status.
#![tactic(auto)]

mod claim;
mod class;
mod counters;
mod device;
mod fields;
mod laws;
mod listing;
mod metadata;
mod node;
mod part;
mod pod;
mod printing;
mod properties;
mod ranges;
mod request;
mod selector;
mod slice;
mod spec;
mod status;
mod taints;

pub use claim::claim_value;
pub use class::class_value;
pub use laws::{
    claim_reads_back, class_reads_back, node_reads_back, pod_reads_back, slice_reads_back,
    status_reads_back, used_status_reads_back,
};
pub use metadata::uid_text;
pub use node::node_value;
pub use part::{Part, part_of};
pub use pod::pod_value;
pub use printing::{part_value, print, print_part, value_of};
pub use slice::slice_value;
