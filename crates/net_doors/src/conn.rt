ghost use Rattle.std.specs.Prelude.{◌≡◌, ◌<◌, ◌≤◌, None, IfOk, IsErrOf, OnOk, length};
ghost use Rattle.std.specs.Io.{ReadsAtMost, WritesAtMost};
ghost use Rattle.std.specs.Io.KnownBytes.{ReadConsumes, WriteAppends};
ghost use Rattle.dra_ports.specs.Causes.{HasCause, next_count};

use dra_ports::{Conn, PortError, Sink, Source};
use std::io::{self, ErrorKind, Read, Write};
use std::net::TcpStream;

/// Converts an I/O error, and counts it unless it is out of memory.
pub(crate) fn counted(faults: &mut u64, error: &io::Error) -> PortError
    ensures later { faults.old ≤ faults.new }
    ensures failed { result ≡ PortError.Failed → faults.new ≡ next_count faults.old }
    ensures memory { result ≡ PortError.Memory → faults.new ≡ faults.old }
{
    if error.kind() == ErrorKind::OutOfMemory {
        return PortError::Memory;
    }
    *faults = faults.saturating_add(1);
    PortError::Failed
}

/// A connection of TCP, which doesn't expose its bytes, and how often it has failed. It is closed where it is
/// dropped.
#[derive(Drop)]
pub struct NetConn {
    stream: TcpStream,
    faults: u64,
}

impl NetConn {
    /// A connection with no error so far.
    pub(crate) fn new(stream: TcpStream) -> NetConn
        ensures { result.faults ≡ 0 }
    {
        NetConn { stream, faults: 0 }
    }
}

impl Source for NetConn {
    ghost left = { λ c. None };

    ghost faults = { λ c. c.faults };

    /// Reads what has come, and waits if nothing has. Each `Failed` is counted, and nothing else.
    fn read(&mut self, into: &mut [u8]) -> Result<usize, PortError>
        ensures bound { ReadsAtMost result into.new }
        ensures bytes { ReadConsumes None None result into.new }
        ensures cause { HasCause self.old.faults self.new.faults result }
        ensures ok { OnOk result (self.new.faults ≡ self.old.faults) }
        ensures failed { IsErrOf result PortError.Failed → self.new.faults ≡ next_count self.old.faults }
        ensures memory { IsErrOf result PortError.Memory → self.new.faults ≡ self.old.faults }
    {
        match self.stream.read(into) {
            Ok(count) => Ok(count),
            Err(error) => Err(counted(&mut self.faults, &error)),
        }
    }
}

impl Sink for NetConn {
    ghost written = { λ c. None };

    ghost faults = { λ c. c.faults };

    /// Writes what the operating system takes at once; a write that takes none of some bytes has failed. Each
    /// `Failed` is counted, and nothing else.
    fn write(&mut self, from: &[u8]) -> Result<usize, PortError>
        ensures bound { WritesAtMost result from.now }
        ensures moves { IfOk result (λ n. 0 < length from.now → 0 < n) }
        ensures bytes { WriteAppends None None result from.now }
        ensures cause { HasCause self.old.faults self.new.faults result }
        ensures ok { OnOk result (self.new.faults ≡ self.old.faults) }
        ensures failed { IsErrOf result PortError.Failed → self.new.faults ≡ next_count self.old.faults }
        ensures memory { IsErrOf result PortError.Memory → self.new.faults ≡ self.old.faults }
    {
        match self.stream.write(from) {
            Ok(0) if !from.is_empty() => {
                self.faults = self.faults.saturating_add(1);
                Err(PortError::Failed)
            }
            Ok(count) => Ok(count),
            Err(error) => Err(counted(&mut self.faults, &error)),
        }
    }
}

impl Conn for NetConn {
    ghost use Rattle.std.specs.Prelude.{refl};

    ghost sent_is_written = { λ c. refl };

    ghost waiting_is_left = { λ c. refl };

    ghost one_count = { λ c. refl };
}
