//! Counters that devices share, and what is drawn from them (KEP 4815).
#![tactic(auto)]

mod added;
mod amount;
mod change;
mod counter;
mod covered;
mod held;
mod pools;
mod shared;
mod short;
mod totals;

pub use held::{Held, HeldInPool};
pub use shared::SharedTotals;
pub use short::Shortage;
pub use totals::Totals;
