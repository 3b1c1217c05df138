use http_wire::WireError;

/// How the service of a connection ended.
#[derive(Clone, Copy, Debug, PartialEq, Eq, Drop)]
pub enum ConnEnd {
    /// Each request has its reply, and no byte is left or the last request ends the connection.
    Closed,
    /// A request couldn't be read, or a reply not be written.
    Wire(WireError),
    /// The history has so many entries, its limit, and one more is expected.
    Full(u64),
    /// Memory ran out.
    Memory,
}
