use std::alloc::{AllocError, Global};

/// What the client of a connection sends, by a name.
#[derive(Drop)]
struct Talk {
    name: String,
    bytes: Vec<u8>,
}

/// What the clients of connections send. Parts are appended to the last of them.
#[derive(Drop)]
pub struct Talks {
    all: Vec<Talk>,
}

impl Talks {
    pub fn new(alloc: Global) -> Self {
        Talks {
            all: Vec::new(alloc),
        }
    }

    /// Begins a talk, which is empty.
    pub fn begin(&mut self, alloc: Global, name: &str) -> Result<(), AllocError> {
        let name = String::from_str(alloc, name)?;
        self.all.push(Talk {
            name,
            bytes: Vec::new(alloc),
        })?;
        Ok(())
    }

    /// Appends bytes to the last talk. Returns false if there is none.
    pub fn append(&mut self, part: &[u8]) -> Result<bool, AllocError> {
        let Some(talk) = self.all.last_mut() else {
            return Ok(false);
        };
        talk.bytes.extend_from_slice(part)?;
        Ok(true)
    }

    /// The bytes of the last talk of this name.
    pub fn get(&self, name: &str) -> Option<&[u8]> {
        let mut found = None;
        for talk in &self.all {
            if talk.name.as_str() == name {
                found = Some(talk.bytes.as_slice());
            }
        }
        found
    }
}
