ghost use Rattle.std.specs.Prelude.{◌≡◌, ◌<◌, ◌≤◌, None, IfOk, IsErrOf, OnOk, length};
ghost use Rattle.std.specs.Io.{ReadsAtMost, WritesAtMost};
ghost use Rattle.std.specs.Io.KnownBytes.{ReadConsumes, WriteAppends};
ghost use Rattle.dra_ports.specs.Causes.{HasCause, next_count};

use dra_ports::{PortError, Sink, Source};
use std::io::{self, ErrorKind, Read, Stdin, Stdout, Write};

/// Converts an I/O error, and counts it unless it is out of memory.
fn counted(faults: &mut u64, error: &io::Error) -> PortError
    ensures later { faults.old ≤ faults.new }
    ensures failed { result ≡ PortError.Failed → faults.new ≡ next_count faults.old }
    ensures memory { result ≡ PortError.Memory → faults.new ≡ faults.old }
{
    if error.kind() == ErrorKind::OutOfMemory {
        return PortError::Memory;
    }
    *faults = faults.saturating_add(1);
    PortError::Failed
}

/// The standard input, which doesn't expose the bytes that are left, and how often it has failed.
#[derive(Drop)]
pub struct StdSource {
    stdin: Stdin,
    faults: u64,
}

impl StdSource {
    /// The standard input, with no error so far.
    pub fn new(stdin: Stdin) -> StdSource
        ensures { result.faults ≡ 0 }
    {
        StdSource { stdin, faults: 0 }
    }
}

impl Source for StdSource {
    ghost left = { λ s. None };

    ghost faults = { λ s. s.faults };

    /// Reads what the operating system returns at once. Each `Failed` is counted, and nothing else.
    fn read(&mut self, into: &mut [u8]) -> Result<usize, PortError>
        ensures bound { ReadsAtMost result into.new }
        ensures bytes { ReadConsumes None None result into.new }
        ensures cause { HasCause self.old.faults self.new.faults result }
        ensures ok { OnOk result (self.new.faults ≡ self.old.faults) }
        ensures failed { IsErrOf result PortError.Failed → self.new.faults ≡ next_count self.old.faults }
        ensures memory { IsErrOf result PortError.Memory → self.new.faults ≡ self.old.faults }
    {
        match self.stdin.read(into) {
            Ok(count) => Ok(count),
            Err(error) => Err(counted(&mut self.faults, &error)),
        }
    }
}

/// The standard output, which doesn't expose the bytes written, and how often it has failed.
#[derive(Drop)]
pub struct StdSink {
    stdout: Stdout,
    faults: u64,
}

impl StdSink {
    /// The standard output, with no error so far.
    pub fn new(stdout: Stdout) -> StdSink
        ensures { result.faults ≡ 0 }
    {
        StdSink { stdout, faults: 0 }
    }
}

impl Sink for StdSink {
    ghost written = { λ s. None };

    ghost faults = { λ s. s.faults };

    /// Writes what the operating system takes at once; one that takes none of some bytes has
    /// failed. Each `Failed` is counted, and nothing else.
    fn write(&mut self, from: &[u8]) -> Result<usize, PortError>
        ensures bound { WritesAtMost result from.now }
        ensures moves { IfOk result (λ n. 0 < length from.now → 0 < n) }
        ensures bytes { WriteAppends None None result from.now }
        ensures cause { HasCause self.old.faults self.new.faults result }
        ensures ok { OnOk result (self.new.faults ≡ self.old.faults) }
        ensures failed { IsErrOf result PortError.Failed → self.new.faults ≡ next_count self.old.faults }
        ensures memory { IsErrOf result PortError.Memory → self.new.faults ≡ self.old.faults }
    {
        match self.stdout.write(from) {
            Ok(0) if !from.is_empty() => {
                self.faults = self.faults.saturating_add(1);
                Err(PortError::Failed)
            }
            Ok(count) => Ok(count),
            Err(error) => Err(counted(&mut self.faults, &error)),
        }
    }
}
