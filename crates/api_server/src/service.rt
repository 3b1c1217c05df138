/// How the requests of a connection are served.
#[derive(Clone, Copy)]
pub struct Service {
    /// The number of the connection, from 1 to 65,535.
    pub number: u64,
    /// How many items of a node's walk a search may look at.
    pub budget: u64,
    /// How many attempts a Schedule makes.
    pub attempts: u64,
}
