//! The engine of this product: nodes are searched as `pod_decision` does, and plans are checked by `alloc_rules`.
#![tactic(auto)]

mod engine;

pub use engine::DefaultEngine;
