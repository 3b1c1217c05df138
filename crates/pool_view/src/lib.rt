//! The nodes and slices of a cluster, which slices are usable, and what selectors, one after another, evaluate to on a
//! device of a slice.
#![tactic(auto)]

mod device;
mod draws;
mod groups;
mod inventory;
mod kept;
mod known;
mod laws;
mod learning;
mod matching;
mod names;
mod node_index;
mod nodes;
mod one_pool;
mod order;
mod pool_index;
mod pool_slices;
mod seen;
mod set_ref;
mod slice_ref;
mod sorting;
mod stored;
mod tally;
mod verdict;
mod view;
mod visible;

pub use device::DeviceRef;
pub use inventory::{Inventory, MAX_DEVICES_TOTAL, NamedNodes, Slices};
pub use known::{KnownList, KnownSlices, MAX_KNOWN_LISTS};
pub use laws::{
    devices_of_a_view_differ, pools_change_alone, usable_counters_are_there,
    usable_devices_are_few, usable_slices_differ,
};
pub use matching::{Match, first_that_is_not_true_decides};
pub use names::PoolName;
pub use nodes::named_node;
pub use order::SlicePlace;
pub use sorting::{counted, usable};
pub use stored::{Stored, put_named};
pub use verdict::{Cause, Verdict};
pub use view::{PoolView, Pools};
pub use visible::sees_slice;
