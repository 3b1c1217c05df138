ghost use Rattle.std.specs.Prelude.{◌≡◌, ◌-◌, ◌<◌, [], IfErr, IfOk, nat_eq, option_copied, slice_get};
ghost use Rattle.std.specs.List.{list_any};
ghost use Rattle.dra_ports.specs.Conn.{conn_left, conn_piece, conn_plan, conn_written};
ghost use Rattle.dra_ports.specs.Memory.{new_plan};
ghost use Rattle.dra_ports.specs.declared.error.PortError.TheVariants.{Memory};

use dra_ports::{MemConn, PortError};
use std::alloc::Global;

/// What one connection in memory is: the bytes to read, in which pieces they come, and which of its calls
/// fail. See [`MemConn::new`].
#[derive(Drop)]
pub struct MemInput {
    /// The bytes to read.
    pub bytes: Vec<u8>,
    /// The most bytes that one read returns, at least 1.
    pub piece: usize,
    /// The numbers, from 1, of the calls that fail; reads and writes are counted together.
    pub failing: Vec<u64>,
    pub ghost moves: { 0 < piece },
}

impl MemInput {
    /// A new connection that has this input. `Memory` is the only error here, and is returned only if out
    /// of memory.
    pub fn connect(&self, alloc: Global) -> Result<MemConn, PortError>
        ensures left { IfOk result (λ c. conn_left c ≡ self.now.bytes.items) }
        ensures written { IfOk result (λ c. conn_written c ≡ []) }
        ensures piece { IfOk result (λ c. conn_piece c ≡ self.now.piece) }
        ensures plan { IfOk result (λ c. conn_plan c ≡ new_plan self.now.failing.items) }
        ensures err { IfErr result (λ e. e ≡ Memory) }
    {
        let bytes = self.bytes.to_vec(alloc)?;
        let failing = self.failing.to_vec(alloc)?;
        MemConn::new(alloc, bytes, self.piece, failing)
    }
}

/// The inputs of all connections, and the calls of doors that fail.
#[derive(Drop)]
pub struct Script {
    /// The input of connection i, from 1, at the index i - 1.
    pub inputs: Vec<MemInput>,
    /// 1 for the opening, and 1 + i for the acceptance of connection i.
    pub failing: Vec<u64>,
}

impl Script {
    /// Whether the call with this number is to fail.
    pub fn fails(&self, call: u64) -> bool
        ensures { result ≡ list_any (λ n. nat_eq n call) self.now.failing.items }
    {
        self.failing.contains(&call)
    }

    /// The input of the connection with this number, from 1, if there is one.
    pub fn input(&self, number: u64) -> Option<&MemInput>
        requires { 0 < number }
        ensures { option_copied result ≡ slice_get self.now.inputs.items (number - 1) }
    {
        match self.inputs.get(number as usize - 1) {
            Some(input) => Some(input),
            None => None,
        }
    }
}
