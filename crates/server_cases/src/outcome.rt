ghost use Rattle.std.specs.Prelude.{◌<◌};

use crate::options::Options;
use api_server::{ServeStatus, serve};
use default_engine::DefaultEngine;
use door_ports::{MemDoors, MemInput};
use dra_ports::{MemSink, PortError};
use std::alloc::{AllocError, Global};
use std::sync::Wait;
use std::thread::Threads;

/// How a server ended.
#[derive(Drop)]
pub struct Outcome {
    status: ServeStatus,
    gave_up: bool,
    pub doors: MemDoors,
    pub output: MemSink,
}

/// A connection whose client sends these bytes.
fn input_of(alloc: Global, bytes: &[u8], piece: usize, failing: u64) -> Result<MemInput, AllocError>
    requires { 0 < piece }
{
    let failing = vec![in alloc; failing]?;
    Ok(MemInput {
        bytes: Vec::from_slice(alloc, bytes)?,
        piece,
        failing,
    })
}

/// The connections. A call of the first of them may fail.
fn inputs_of(alloc: Global, sent: &[&[u8]], options: Options) -> Result<Vec<MemInput>, AllocError> {
    let piece = (options.piece as usize).max(1);
    let mut inputs = Vec::new(alloc);
    let mut failing = options.fail_call;
    for bytes in sent {
        inputs.push(input_of(alloc, bytes, piece, failing)?)?;
        failing = 0;
    }
    Ok(inputs)
}

/// An empty output, one of whose writes may fail.
fn output_of(alloc: Global, options: Options) -> Result<MemSink, AllocError> {
    match MemSink::new(alloc, vec![in alloc; options.fail_write]?) {
        Ok(sink) => Ok(sink),
        Err(PortError::Failed) => Err(AllocError),
        Err(PortError::Memory) => Err(AllocError),
    }
}

/// Serves connections whose clients send these bytes.
pub fn run_once<R: AllocGlobal + Threads + Wait + Sync>(
    rt: &R,
    sent: &[&[u8]],
    options: Options,
) -> Result<Outcome, AllocError> {
    let alloc = rt.alloc();
    let inputs = inputs_of(alloc, sent, options)?;
    let mut doors = MemDoors::new(alloc, inputs, vec![in alloc; options.fail_door]?)?;
    let mut output = output_of(alloc, options)?;
    let how = options.server(sent.len());
    let gates = options.gates();
    let status = serve::<DefaultEngine, _, _, _, _>(
        rt,
        "memory",
        how,
        &mut output,
        &mut doors,
        &gates,
    );
    Ok(Outcome {
        status,
        gave_up: gates.gave_up(),
        doors,
        output,
    })
}

impl Outcome {
    /// The exit status of the program `dra`, its name, and whether a job waited in vain.
    pub fn head(&self, alloc: Global) -> Result<String, AllocError> {
        let waited = if self.gave_up { ", waited in vain" } else { "" };
        match self.status {
            ServeStatus::Done => format!(in alloc; "0 done{waited}"),
            ServeStatus::Memory => format!(in alloc; "4 memory{waited}"),
            ServeStatus::Write => format!(in alloc; "6 write{waited}"),
            ServeStatus::Limit(count) => format!(in alloc; "8 limit {count}{waited}"),
            ServeStatus::Door => format!(in alloc; "9 door{waited}"),
        }
    }
}
