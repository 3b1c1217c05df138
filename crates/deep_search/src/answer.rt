/// How a search ended.
#[derive(Clone, Copy, Debug, PartialEq, Eq)]
pub enum Answer {
    /// The board is at the first `Full` item, which is the least allocation.
    Full,
    /// The board is at the first choice whose evaluation fails (a `Fault` item).
    Fault,
    /// There is no allocation and no `Fault` item.
    Unsat,
    /// The walk has more items than the budget, and those within it are neither `Full` nor `Fault`.
    Budget,
}

/// The status of a search.
#[derive(Clone, Copy, Debug, PartialEq, Eq)]
pub enum Status {
    /// No item so far was `Full` or `Fault`.
    Searching,
    /// The board is at a `Full` item.
    Full,
    /// The board is at a choice whose evaluation fails.
    Fault,
    /// There is an item for which nothing is left of the budget.
    Spent,
}

/// The positions that are still to be tried in one slot: those from `next` on and below `end`.
#[derive(Clone, Copy, Debug, PartialEq, Eq)]
pub struct Window {
    pub next: usize,
    pub end: usize,
}
