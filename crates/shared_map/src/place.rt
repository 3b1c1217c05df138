/// Where an entry of a map lies. It stays there until an entry of another key is added or removed.
#[derive(Clone, Copy, Drop)]
pub struct Place {
    pub(crate) group: usize,
    pub(crate) chunk: usize,
    pub(crate) entry: usize,
}

impl Place {
    /// The first place of all.
    pub fn first() -> Place {
        Place {
            group: 0,
            chunk: 0,
            entry: 0,
        }
    }
}
