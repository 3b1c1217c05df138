//! ResourceSlices: the devices or counter sets that a driver offers, as fields of `resource.k8s.io/v1`.
#![tactic(auto)]

mod amount;
mod attribute;
mod capacity;
mod column;
mod consumption;
mod counters;
mod device;
mod driver;
mod laws;
mod lists;
mod nodes;
mod operator;
mod properties;
mod qualified;
mod selector;
mod slice;
mod types;

pub use driver::DriverName;
pub use laws::{device_names_are_new, slices_have_their_lists, slices_keep_limits};
pub use properties::Properties;
pub use selector::read_selector;
pub use types::{
    Attribute, CounterConsumption, CounterSet, Device, Nodes, Pool, ResourceSlice, SliceNodes,
};
