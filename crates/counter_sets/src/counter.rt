//! What is kept of a counter.

use dra_values::{Duplicate, Table, Text};
use quantity::Quantity;
use std::alloc::{AllocError, Global};

/// A counter of a counter set.
#[derive(Clone, Copy, Debug, Drop)]
pub struct Counter {
    /// What it has.
    pub value: Quantity,
    /// What is drawn from it, in 10^-9.
    pub drawn: u128,
}

/// A copy is equal, and allocates nothing.
impl Duplicate for Counter {
    fn duplicate(&self, _alloc: Global) -> Result<Counter, AllocError> {
        Ok(Counter {
            value: self.value,
            drawn: self.drawn,
        })
    }
}

/// The counters of a set, by name.
pub type SetCounters = Table<Text, Counter>;

/// The counters of the sets of a pool.
pub type PoolCounters = Table<Text, SetCounters>;

/// The counters of the pools of a driver.
pub type DriverCounters = Table<Text, PoolCounters>;
