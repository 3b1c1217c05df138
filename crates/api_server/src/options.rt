/// How a server works.
#[derive(Clone, Copy, Debug, PartialEq, Eq, Drop)]
pub struct ServeOptions {
    /// How many workers serve connections beside each other, from 1 to 64.
    pub workers: u64,
    /// How many connections are served, from 1 to 65,535.
    pub connections: u64,
    /// How many items of a node's walk a search may look at.
    pub budget: u64,
    /// How many attempts a Schedule makes, from 1 on.
    pub attempts: u64,
    /// The most entries of the history.
    pub entries: u64,
}

/// How a server ended.
#[derive(Clone, Copy, Debug, PartialEq, Eq, Drop)]
pub enum ServeStatus {
    /// All connections were served, and all was printed.
    Done,
    /// Memory ran out.
    Memory,
    /// The output failed.
    Write,
    /// The doors, or one of them, failed.
    Door,
    /// The history has so many entries, its limit, and one more is expected.
    Limit(u64),
}
