use dra_values::Text;

/// The options of a run that `replay` and `serve` share.
#[derive(Clone, Copy, Debug, PartialEq, Eq, Drop)]
pub struct RunOptions {
    /// The number of workers, 1 to 64.
    pub workers: u64,
    /// The budget of a search, 1 to 10,000,000 items.
    pub budget: u64,
    /// The attempts of a Schedule, 1 to 64.
    pub attempts: u64,
    /// The most entries of a history, 1 to 1,000,000.
    pub entries: u64,
}

/// What `dra replay` is asked for.
#[derive(Debug, PartialEq, Eq, Drop)]
pub struct ReplayWords {
    pub options: RunOptions,
    /// The node whose kubelet the run is, a DNS subdomain of at most 253 bytes, or the empty text, which no
    /// node has.
    pub node: Text,
}

/// What `dra serve` is asked for.
#[derive(Debug, PartialEq, Eq, Drop)]
pub struct ServeWords {
    pub options: RunOptions,
    /// The address to listen at, 1 to 255 bytes.
    pub address: Text,
    /// The number of connections to serve, 1 to 65,535.
    pub connections: u64,
}

/// What `dra exercise` is asked for.
#[derive(Clone, Copy, Debug, PartialEq, Eq, Drop)]
pub struct ExerciseWords {
    /// Where the script begins, 0 to 2^63-1.
    pub from: u64,
    /// The number of its pods, 0 to 100,000.
    pub pods: u64,
}

/// A command of the command line.
#[derive(Debug, PartialEq, Eq, Drop)]
pub enum Command {
    Replay(ReplayWords),
    Serve(ServeWords),
    Exercise(ExerciseWords),
}
