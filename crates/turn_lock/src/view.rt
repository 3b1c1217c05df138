// What a seat knows of its lock. These types exist for the proofs: no value of them is ever made.
use std::collections::LinkedList;
use std::snapshot::Snapshot;

/// How far a pass is on its way through one turn.
pub enum Stage<E> {
    /// It has no ticket.
    Idle,
    /// It has this ticket.
    Waiting(u64),
    /// Its ticket is the one served.
    InTurn(u64),
    /// It holds the state, whose history was this one when it took it.
    Holding(u64, LinkedList<E>),
    /// The state is back in its slot: it had the first history when it was taken, and has the second.
    Returned(u64, LinkedList<E>, LinkedList<E>),
}

/// What a pass knows.
pub struct View<E> {
    /// The history that it saw last.
    pub front: LinkedList<E>,
    /// Right after two passes were joined, the shorter of their fronts.
    pub beside: LinkedList<E>,
    /// The indices of the entries that were made with it, or with one joined into it.
    pub own: LinkedList<u64>,
    /// How many passes it represents, or 0 once it was joined into another.
    pub share: u64,
    /// The state's number.
    pub number: u64,
    pub stage: Stage<E>,
}

/// What the lock's table is given when it is made: the state as it was then, and the number of passes.
#[derive(Drop)]
pub struct Start<T> {
    pub state: Snapshot<T>,
    pub passes: u64,
}
