//! Quantities: the notation of Kubernetes for amounts, as exact counts of 10^-9.
//!
//! The notation is that of the Kubernetes API (`resource.Quantity`). The limit of 64 bytes, the
//! exponents from -9 to 18, the unit of 10^-9 and the greatest magnitude of 2^63 - 1 are this
//! project's own rules: what is beyond them is refused, and nothing is rounded or capped.
#![tactic(auto)]

mod cells;
mod error;
mod few;
mod laws;
mod magnitude;
mod print;
mod quantity;
mod text;

pub use error::QuantityError;
pub use laws::{quantity_reads_back, values_follow_the_grammar};
pub use print::Nanos;
pub use quantity::Quantity;
