/// A device of the node, by its position, for a row of what is asked.
#[derive(Clone, Copy, Debug, PartialEq, Eq)]
pub struct Pick {
    pub row: usize,
    pub position: usize,
}
