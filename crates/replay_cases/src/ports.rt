ghost use Rattle.std.specs.Prelude.{◌<◌, Some};

use dra_ports::{MemSink, MemSource, PortError, Sink, Source};
use std::alloc::{AllocError, Global};

/// A script in memory, with the counts of the reads and of those that failed.
#[derive(Drop)]
pub struct Input {
    source: MemSource,
    pub reads: u64,
    pub faults: u64,
}

/// What is written, with the counts of the writes and of those that failed.
#[derive(Drop)]
pub struct Output {
    sink: MemSink,
    takes: usize,
    pub writes: u64,
    pub faults: u64,
    ghost moves: { 0 < takes },
}

/// The error count after a result; it rises by one if the result is `Failed`.
fn counted(faults: u64, answer: &Result<usize, PortError>) -> u64 {
    match answer {
        Err(PortError::Failed) => faults.saturating_add(1),
        _ => faults,
    }
}

impl Input {
    /// An input of these bytes. A read returns at most `piece` of them, and the read of the number
    /// `failing`, from 1, fails.
    pub fn new(alloc: Global, bytes: &[u8], piece: usize, failing: u64) -> Result<Input, AllocError>
        requires { 0 < piece }
    {
        let failing = vec![in alloc; failing]?;
        let bytes = Vec::from_slice(alloc, bytes)?;
        Ok(Input {
            source: MemSource::new(bytes, piece, failing),
            reads: 0,
            faults: 0,
        })
    }
}

impl Source for Input {
    ghost use Rattle.dra_ports.specs.Memory.{left_of, source_plan};

    ghost left = { λ s. Some (left_of s.source) };

    ghost faults = { λ s. (source_plan s.source).faults };

    fn read(&mut self, into: &mut [u8]) -> Result<usize, PortError> {
        let answer = self.source.read(into);
        self.reads = self.reads.saturating_add(1);
        self.faults = counted(self.faults, &answer);
        answer
    }
}

impl Output {
    /// An output that is empty. A write takes at most `takes` bytes, and the write of the number
    /// `failing`, from 1, fails.
    pub fn new(alloc: Global, takes: usize, failing: u64) -> Result<Output, PortError>
        requires { 0 < takes }
    {
        let failing = vec![in alloc; failing]?;
        Ok(Output {
            sink: MemSink::new(alloc, failing)?,
            takes,
            writes: 0,
            faults: 0,
        })
    }

    /// The bytes that were written.
    pub fn bytes(&self) -> &[u8] {
        self.sink.bytes()
    }
}

impl Sink for Output {
    ghost use Rattle.dra_ports.specs.Memory.{sink_plan, written_of};

    ghost written = { λ s. Some (written_of s.sink) };

    ghost faults = { λ s. (sink_plan s.sink).faults };

    fn write(&mut self, from: &[u8]) -> Result<usize, PortError> {
        let count = from.len().min(self.takes);
        let answer = self.sink.write(&from[..count]);
        self.writes = self.writes.saturating_add(1);
        self.faults = counted(self.faults, &answer);
        answer
    }
}
