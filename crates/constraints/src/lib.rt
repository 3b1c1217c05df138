//! What two results of an allocation ask of each other: whether they agree on an attribute, as the constraints of a claim
//! want it (`matchAttribute`; API reference of `resource.k8s.io/v1`, KEP 4381), and whether they may be of one device.
#![tactic(auto)]

mod agreement;
mod laws;
mod names;
mod picked;
mod sharing;
mod values;

pub use agreement::Agreement;
pub use laws::results_keep_constraint;
pub use picked::Picked;
pub use sharing::excludes;
