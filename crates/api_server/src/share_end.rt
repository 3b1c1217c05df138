/// How the service of a share of the connections ended.
#[derive(Clone, Copy, Debug, PartialEq, Eq, Drop)]
pub enum ShareEnd {
    /// Each connection of the share was served.
    Served,
    /// The door failed.
    Door,
    /// The history has so many entries, its limit, and one more is expected.
    Full(u64),
    /// Memory ran out.
    Memory,
}
