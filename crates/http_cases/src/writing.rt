use crate::reading::word;
use crate::spelling::to_text;
use dra_ports::{MemSink, PortError};
use http::StatusCode;
use http_wire::{Reply, write_reply};
use std::alloc::{AllocError, Global};

fn sink(alloc: Global, failing: Vec<u64>) -> Result<MemSink, AllocError> {
    match MemSink::new(alloc, failing) {
        Ok(sink) => Ok(sink),
        Err(PortError::Failed) => Err(AllocError),
        Err(PortError::Memory) => Err(AllocError),
    }
}

/// What a sink holds after a reply, or the name of the error.
fn written(alloc: Global, reply: &Reply, failing: Vec<u64>) -> Result<String, AllocError> {
    let mut to = sink(alloc, failing)?;
    match write_reply(alloc, &mut to, reply) {
        Ok(()) => to_text(alloc, to.bytes()),
        Err(error) => String::from_str(alloc, word(error)?),
    }
}

fn both(alloc: Global, reply: &Reply) -> Result<String, AllocError> {
    let mut text = written(alloc, reply, Vec::new(alloc))?;
    let failed = written(alloc, reply, vec![in alloc; 1]?)?;
    text.push_str("; ")?;
    text.push_str(failed.as_str())?;
    Ok(text)
}

/// What is written for a reply of this status and type with this body, and the result if the
/// write fails.
pub fn reply(alloc: Global, code: u16, json: bool, body: Vec<u8>) -> Result<String, AllocError> {
    match StatusCode::from_u16(code) {
        Ok(status) => both(alloc, &Reply { status, json, body }),
        Err(_) => String::from_str(alloc, "no status"),
    }
}
