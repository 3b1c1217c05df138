//! Laws of how a ResourceSlice is read: when its lists and maps are Doubled and when they are TooMany. No code runs
//! here.
#![tactic(auto)]

mod counting;
mod keys;

pub use counting::{counter_sets_are_counted, draws_are_counted};
pub use keys::{attribute_names_are_new, capacity_names_are_new};
