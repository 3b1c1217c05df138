ghost use Rattle.std.specs.Prelude.{◌≡◌, []};
ghost use Rattle.dra_ports.specs.Memory.{sink_plan, source_plan};

use crate::{Conn, Failures, MemSink, MemSource, PortError, Sink, Source};
use std::alloc::Global;

/// A connection in memory: bytes that are read in pieces, and bytes that are kept as they are
/// written. It exposes both.
#[derive(Drop)]
pub struct MemConn {
    input: MemSource,
    output: MemSink,
    failures: Failures,
    ghost reads_work: { (source_plan input).failing ≡ [] },
    ghost writes_work: { (sink_plan output).failing ≡ [] },
}

impl MemConn {
    ghost use Rattle.std.specs.Prelude.{◌<◌, IfOk, IfErr};
    ghost use Rattle.dra_ports.specs.Conn.{conn_left, conn_piece, conn_plan, conn_written};
    ghost use Rattle.dra_ports.specs.Memory.{new_plan};
    ghost use Rattle.dra_ports.specs.declared.error.PortError.TheVariants.{Memory};

    /// A connection with these bytes to read, to which nothing was written. A read returns at most
    /// `piece` bytes, at least 1. The calls whose numbers, from 1, are in `failing` fail; reads and
    /// writes are counted together. `Memory` is the only error here, and is returned only if out of
    /// memory.
    pub fn new(
        alloc: Global,
        bytes: Vec<u8>,
        piece: usize,
        failing: Vec<u64>,
    ) -> Result<MemConn, PortError>
        requires { 0 < piece }
        ensures left { IfOk result (λ c. conn_left c ≡ bytes.items) }
        ensures written { IfOk result (λ c. conn_written c ≡ []) }
        ensures piece { IfOk result (λ c. conn_piece c ≡ piece) }
        ensures plan { IfOk result (λ c. conn_plan c ≡ new_plan failing.items) }
        ensures err { IfErr result (λ e. e ≡ Memory) }
    {
        let output = MemSink::new(alloc, Vec::new(alloc))?;
        Ok(MemConn {
            input: MemSource::new(bytes, piece, Vec::new(alloc)),
            output,
            failures: Failures::new(failing),
        })
    }

    /// The bytes that were written, in order.
    pub fn bytes(&self) -> &[u8]
        ensures { result.now ≡ conn_written self.now }
    {
        self.output.bytes()
    }
}

impl Source for MemConn {
    ghost use Rattle.std.specs.Prelude.{Some, IfOk, IsOk, OnErr, drop, length};
    ghost use Rattle.std.specs.Io.{ReadsAtMost};
    ghost use Rattle.std.specs.Io.KnownBytes.{ReadConsumes};
    ghost use Rattle.dra_ports.specs.Causes.{HasCause};
    ghost use Rattle.dra_ports.specs.Conn.{conn_answer, conn_left, conn_piece, conn_plan, conn_written};
    ghost use Rattle.dra_ports.specs.Memory.{after_call};

    ghost left = { λ c. Some (conn_left c) };

    ghost faults = { λ c. (conn_plan c).faults };

    ghost sent = { λ c. Some (conn_written c) };

    /// Fails if and only if the number of this call is in the list of those that fail, and otherwise
    /// reads as many bytes as are left, the piece and the room allow. With an empty list no read
    /// fails, and the count of errors is unchanged. What was written is unchanged.
    fn read(&mut self, into: &mut [u8]) -> Result<usize, PortError>
        ensures bound { ReadsAtMost result into.new }
        ensures bytes { ReadConsumes (Some (conn_left self.old)) (Some (conn_left self.new)) result into.new }
        ensures cause { HasCause (conn_plan self.old).faults (conn_plan self.new).faults result }
        ensures sent { conn_written self.new ≡ conn_written self.old }
        ensures answer { result ≡ conn_answer self.old (length into.old) }
        ensures plan { conn_plan self.new ≡ after_call (conn_plan self.old) }
        ensures piece { conn_piece self.new ≡ conn_piece self.old }
        ensures rest { IfOk result (λ n. drop n into.new ≡ drop n into.old) }
        ensures err { OnErr result (into.new ≡ into.old) }
        ensures never { (conn_plan self.old).failing ≡ [] → IsOk result }
        ensures faultless { (conn_plan self.old).failing ≡ [] → (conn_plan self.new).faults ≡ (conn_plan self.old).faults }
    {
        if self.failures.next_fails() {
            return Err(PortError::Failed);
        }
        self.input.read(into)
    }
}

impl Sink for MemConn {
    ghost use Rattle.std.specs.Bool.{IsTrue};
    ghost use Rattle.std.specs.Prelude.{◌↔◌, ◌<◌, Some, IfErr, IfOk, IsErrOf, length};
    ghost use Rattle.std.specs.Io.{WritesAtMost};
    ghost use Rattle.std.specs.Io.KnownBytes.{WriteAppends};
    ghost use Rattle.dra_ports.specs.declared.error.PortError.TheVariants.{Failed, Memory};
    ghost use Rattle.dra_ports.specs.Causes.{HasCause};
    ghost use Rattle.dra_ports.specs.Conn.{conn_left, conn_plan, conn_written};
    ghost use Rattle.dra_ports.specs.Memory.{after_call, fails_next};

    ghost written = { λ c. Some (conn_written c) };

    ghost faults = { λ c. (conn_plan c).faults };

    ghost waiting = { λ c. Some (conn_left c) };

    /// Returns `Failed` if and only if the number of this call is in the list of those that fail,
    /// and otherwise takes all bytes, or runs out of memory. With an empty list the count of errors
    /// is unchanged. What is left to read is unchanged.
    fn write(&mut self, from: &[u8]) -> Result<usize, PortError>
        ensures bound { WritesAtMost result from.now }
        ensures moves { IfOk result (λ n. 0 < length from.now → 0 < n) }
        ensures bytes { WriteAppends (Some (conn_written self.old)) (Some (conn_written self.new)) result from.now }
        ensures cause { HasCause (conn_plan self.old).faults (conn_plan self.new).faults result }
        ensures waiting { conn_left self.new ≡ conn_left self.old }
        ensures takes_all { IfOk result (λ n. n ≡ length from.now) }
        ensures fails { IsErrOf result Failed ↔ IsTrue (fails_next (conn_plan self.old)) }
        ensures plan { conn_plan self.new ≡ after_call (conn_plan self.old) }
        ensures never { (conn_plan self.old).failing ≡ [] → IfErr result (λ e. e ≡ Memory) }
        ensures faultless { (conn_plan self.old).failing ≡ [] → (conn_plan self.new).faults ≡ (conn_plan self.old).faults }
    {
        if self.failures.next_fails() {
            return Err(PortError::Failed);
        }
        self.output.write(from)
    }
}

impl Conn for MemConn {
    ghost use Rattle.std.specs.Prelude.{refl};

    ghost sent_is_written = { λ c. refl };

    ghost waiting_is_left = { λ c. refl };

    ghost one_count = { λ c. refl };
}
