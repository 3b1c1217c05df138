ghost use Rattle.std.specs.Prelude.{◌≡◌, ◌≤◌, [], IsErrOf, vec_len};
ghost use Rattle.dra_ports.specs.declared.error.PortError.TheVariants.{Failed};

use dra_ports::{PortError, Sink, Source};
use std::alloc::Global;

/// Bytes in memory, which are read to their end. No read fails.
#[derive(Drop)]
pub struct Script {
    bytes: Vec<u8>,
    next: usize,
    ghost within: { next ≤ vec_len bytes },
}

impl Script {
    ghost use Rattle.dra_cli.specs.Memory.{left_of};

    /// All of these are left.
    pub fn new(bytes: Vec<u8>) -> Script
        ensures { left_of result ≡ bytes.items }
    {
        Script { bytes, next: 0 }
    }
}

impl Source for Script {
    ghost use Rattle.std.specs.Prelude.{Some};
    ghost use Rattle.dra_cli.specs.Memory.{left_of};

    ghost left = { λ s. Some (left_of s) };

    ghost faults = { λ s. 0 };

    fn read(&mut self, into: &mut [u8]) -> Result<usize, PortError> {
        let count = into.len().min(self.bytes.len() - self.next);
        into[..count].copy_from_slice(&self.bytes[self.next..self.next + count]);
        self.next += count;
        Ok(count)
    }
}

/// Bytes that are kept in memory as they are written. No write fails, but memory may run out.
#[derive(Drop)]
pub struct Kept {
    bytes: Vec<u8>,
}

impl Kept {
    ghost use Rattle.dra_cli.specs.Memory.{kept_of};

    /// No bytes. Allocates nothing.
    pub fn new(alloc: Global) -> Kept
        ensures { kept_of result ≡ [] }
    {
        Kept {
            bytes: Vec::new(alloc),
        }
    }

    /// What was written.
    pub fn into_bytes(self) -> Vec<u8>
        ensures { result.items ≡ kept_of self }
    {
        self.bytes
    }
}

impl Sink for Kept {
    ghost use Rattle.std.specs.Prelude.{Some};
    ghost use Rattle.dra_cli.specs.Memory.{kept_of};

    ghost written = { λ s. Some (kept_of s) };

    ghost faults = { λ s. 0 };

    fn write(&mut self, from: &[u8]) -> Result<usize, PortError> {
        self.bytes.extend_from_slice(from)?;
        Ok(from.len())
    }
}
