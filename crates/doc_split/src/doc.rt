/// A document of an input.
#[derive(Debug, Drop)]
pub struct Doc {
    /// The offset of its first byte in the whole input, from 0.
    pub at: u64,
    /// Its bytes, from its first brace to the one that closes it.
    pub bytes: Vec<u8>,
}
