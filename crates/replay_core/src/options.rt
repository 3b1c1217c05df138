use dra_values::Text;

/// How a script is replayed.
#[derive(Debug, PartialEq, Eq, Drop)]
pub struct ReplayOptions {
    /// How many workers do the commands of a Together, 1 to 64: each in a thread of its own as far as threads
    /// can be started.
    pub workers: u64,
    /// How many items of a node's walk a search looks at, at most.
    pub budget: u64,
    /// How many attempts to schedule a pod a job makes, at most.
    pub attempts: u64,
    /// How many entries the history has, at most.
    pub entries: u64,
    /// The name of the kubelet's node; the empty text, which no node has, if there is none.
    pub node: Text,
}
