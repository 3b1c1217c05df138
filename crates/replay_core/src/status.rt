/// Why what is at an offset isn't a command.
#[derive(Clone, Copy, Debug, PartialEq, Eq, Drop)]
pub enum Rejection {
    /// The input ends inside the document that begins there.
    Unclosed,
    /// The byte there is between documents, and is neither a blank nor the first byte of a document.
    Stray,
    /// The document that begins there has more than 2,097,152 bytes.
    TooLong,
    /// The document there isn't one JSON object in UTF-8.
    NotJson,
    /// The document there is a JSON object, but no command.
    NotACommand,
}

/// How a run ended.
#[derive(Clone, Copy, Debug, PartialEq, Eq, Drop)]
pub enum Status {
    /// All was done.
    Done,
    /// The arguments aren't a command.
    Usage,
    /// What is at this offset isn't a command, for this reason.
    Document(u64, Rejection),
    /// Memory ran out.
    Memory,
    /// The input failed.
    Read,
    /// The output failed.
    Write,
    /// The disk of the kubelet's checkpoint failed.
    Disk,
    /// The history has so many entries and one more is expected, or the input is longer than so many
    /// bytes.
    Limit(u64),
    /// The disk isn't empty, and its bytes are no checkpoint of a kubelet, from this offset on.
    Checkpoint(u64),
    /// The doors of a server failed.
    Door,
}
