ghost use Rattle.std.specs.Prelude.{◌≡◌, ◌<◌, IfSome, length};

use dra_ports::{PortError, Sink};
use memchr::memchr;
use std::alloc::Global;
use std::mem;

/// How many bytes of a line are kept at most.
const LINE_MOST: usize = 4096;

/// How many lines of a journal are denials, and the first of them.
#[derive(Drop)]
pub struct Denials {
    alloc: Global,
    /// What came of the present line.
    line: Vec<u8>,
    first: Vec<u8>,
    count: u64,
}

/// The first line, and what follows its end, if it has one.
fn first_line(bytes: &[u8]) -> Option<(&[u8], &[u8])>
    ensures { IfSome result (λ r. length r.1.now < length bytes.now) }
{
    match memchr(b'\n', bytes) {
        Some(end) => Some((&bytes[..end], &bytes[end + 1..])),
        None => None,
    }
}

/// What follows the first space, or nothing.
fn after_space(line: &[u8]) -> &[u8] {
    match memchr(b' ', line) {
        Some(index) => &line[index + 1..],
        None => &line[..0],
    }
}

/// Whether the third field of a line is `denied`.
fn is_denial(line: &[u8]) -> bool {
    after_space(after_space(line)).starts_with(b"denied ")
}

impl Denials {
    pub fn new(alloc: Global) -> Denials {
        Denials {
            alloc,
            line: Vec::new(alloc),
            first: Vec::new(alloc),
            count: 0,
        }
    }

    /// How many there were.
    pub fn count(&self) -> u64 {
        self.count
    }

    /// The line of the first, without its end, if there was one. It is cut behind 4096 bytes, or where
    /// memory ran out.
    pub fn first(&self) -> &[u8] {
        &self.first
    }

    fn end_line(&mut self) {
        if is_denial(&self.line) {
            self.count = self.count.saturating_add(1);
            if self.first.is_empty() {
                self.first = mem::replace(&mut self.line, Vec::new(self.alloc));
            }
        }
        self.line.clear();
    }

    /// Looks at a part of the present line.
    fn pass_part(&mut self, part: &[u8]) {
        let room = LINE_MOST.saturating_sub(self.line.len());
        // Where memory runs out, the line lacks bytes.
        let _ = self.line.extend_from_slice(&part[..part.len().min(room)]);
    }

    /// Looks at bytes that were written.
    fn pass_all(&mut self, bytes: &[u8]) {
        let mut rest = bytes;
        'lines: while let Some((line, behind)) = first_line(rest) {
            self.pass_part(line);
            self.end_line();
            rest = behind;
        }
        self.pass_part(rest);
    }
}

/// A sink that looks at the lines that are written to it.
#[derive(Drop)]
pub struct WatchedSink<K> {
    sink: K,
    denials: Denials,
}

impl<K> WatchedSink<K> {
    pub fn new(sink: K, alloc: Global) -> WatchedSink<K>
        ensures { result.sink ≡ sink }
    {
        WatchedSink {
            sink,
            denials: Denials::new(alloc),
        }
    }

    /// The denials among what was written.
    pub fn denials(&self) -> &Denials {
        &self.denials
    }
}

impl<K: Sink> Sink for WatchedSink<K> {
    ghost written = { λ s. K.written s.sink };

    ghost faults = { λ s. K.faults s.sink };

    fn write(&mut self, from: &[u8]) -> Result<usize, PortError> {
        match self.sink.write(from) {
            Ok(count) => {
                self.denials.pass_all(&from[..count]);
                Ok(count)
            }
            Err(error) => Err(error),
        }
    }
}
