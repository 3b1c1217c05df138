use cluster::{Grant, SelectorFault};
use dra_values::Seq;

/// How the search of a node ended.
#[derive(Drop)]
pub enum Outcome {
    /// The least allocation: a grant for each claim that was wanted, in order.
    Found(Seq<Grant>),
    /// There is no allocation, and no selector is neither true nor false.
    Unsat,
    /// A selector is neither true nor false of a device, for a choice that comes before each
    /// allocation.
    Fault(SelectorFault),
    /// There are more items than the budget, and none within it is an allocation or a selector error.
    Budget,
}
