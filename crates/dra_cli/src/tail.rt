ghost use Rattle.std.specs.Prelude.{◌≡◌};

use crate::position::{Mark, Position};
use dra_ports::{PortError, Source};
use std::alloc::Global;
use std::mem;

/// How many of the last bytes of an input are kept at least: a document, and what is read ahead of it.
const KEPT: usize = 2_359_296;

/// The last bytes of an input. Nothing is known of it once memory has run out.
#[derive(Drop)]
pub struct Tail {
    alloc: Global,
    /// Where `older` begins.
    begin: Mark,
    older: Vec<u8>,
    newer: Vec<u8>,
    lost: bool,
}

impl Tail {
    pub fn new(alloc: Global) -> Tail {
        Tail {
            alloc,
            begin: Mark::begin(),
            older: Vec::new(alloc),
            newer: Vec::new(alloc),
            lost: false,
        }
    }

    /// Adds bytes at the end.
    fn push(&mut self, bytes: &[u8]) {
        if self.newer.len() >= KEPT {
            self.begin = self.begin.after(&self.older);
            self.older = mem::replace(&mut self.newer, Vec::new(self.alloc));
        }
        if self.newer.extend_from_slice(bytes).is_err() {
            self.lost = true;
        }
    }

    /// How many bytes precede an offset in what is kept, None if it isn't known.
    fn index_of(&self, offset: u64) -> Option<usize> {
        let index = usize::try_from(offset.checked_sub(self.begin.offset)?).ok()?;
        if self.lost { None } else { Some(index) }
    }

    /// The position of an offset, if it is known.
    pub fn position(&self, offset: u64) -> Option<Position> {
        let index = self.index_of(offset)?;
        let in_older = index.min(self.older.len());
        let in_newer = (index - in_older).min(self.newer.len());
        let mark = self
            .begin
            .after(&self.older[..in_older])
            .after(&self.newer[..in_newer]);
        if mark.offset == offset {
            Some(mark.position)
        } else {
            None
        }
    }

    /// The byte at an offset, if it is known.
    pub fn byte(&self, offset: u64) -> Option<u8> {
        let index = self.index_of(offset)?;
        match index.checked_sub(self.older.len()) {
            Some(index) => self.newer.get(index).copied(),
            None => self.older.get(index).copied(),
        }
    }

    /// A copy of the bytes from an offset on, if they are known and memory is left for it.
    pub fn bytes_from(&self, offset: u64) -> Option<Vec<u8>> {
        let index = self.index_of(offset)?;
        let in_older = index.min(self.older.len());
        let in_newer = (index - in_older).min(self.newer.len());
        let mut bytes = Vec::new(self.alloc);
        bytes.extend_from_slice(&self.older[in_older..]).ok()?;
        bytes.extend_from_slice(&self.newer[in_newer..]).ok()?;
        Some(bytes)
    }
}

/// A source that keeps the last bytes that were read from it.
#[derive(Drop)]
pub struct TailSource<S> {
    source: S,
    tail: Tail,
}

impl<S> TailSource<S> {
    pub fn new(source: S, alloc: Global) -> TailSource<S>
        ensures { result.source ≡ source }
    {
        TailSource {
            source,
            tail: Tail::new(alloc),
        }
    }

    /// The last bytes that were read.
    pub fn tail(&self) -> &Tail {
        &self.tail
    }
}

impl<S: Source> Source for TailSource<S> {
    ghost left = { λ s. S.left s.source };

    ghost faults = { λ s. S.faults s.source };

    fn read(&mut self, into: &mut [u8]) -> Result<usize, PortError> {
        match self.source.read(into) {
            Ok(count) => {
                self.tail.push(&into[..count]);
                Ok(count)
            }
            Err(error) => Err(error),
        }
    }
}
