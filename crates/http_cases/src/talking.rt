ghost use Rattle.std.specs.Prelude.{◌≡◌, ◌<◌};
ghost use Rattle.http_wire.specs.Reader.{HasReadCause};
ghost use Rattle.http_wire.specs.Replies.{HasWriteCause};

use crate::reading::{push_answer, word};
use crate::spelling::to_text;
use dra_ports::{Conn, MemConn, PortError};
use http::StatusCode;
use http_wire::{Reply, Request, RequestReader, WireError, write_reply};
use std::alloc::{AllocError, Global};

/// A connection with these bytes to read, in pieces, whose call of this number, from 1, fails.
fn conn_of(alloc: Global, bytes: &[u8], piece: usize, failing: u64) -> Result<MemConn, AllocError>
    requires { 0 < piece }
{
    let failing = vec![in alloc; failing]?;
    let bytes = Vec::from_slice(alloc, bytes)?;
    match MemConn::new(alloc, bytes, piece, failing) {
        Ok(conn) => Ok(conn),
        Err(PortError::Failed) => Err(AllocError),
        Err(PortError::Memory) => Err(AllocError),
    }
}

/// The next request of a connection. What was written to it is unchanged, and an error of a read is
/// counted as one of a write is.
fn hear<C: Conn>(
    alloc: Global,
    reader: &mut RequestReader,
    conn: &mut C,
) -> Result<Option<Request>, WireError>
    ensures written { C.written conn.new ≡ C.written conn.old }
    ensures cause { HasReadCause (C.Sink.faults conn.old) (C.Sink.faults conn.new) result }
{
    reader.read_request(alloc, conn)
}

/// Writes a reply to a connection. What is left to read from it is unchanged, and an error of a write
/// is counted as one of a read is.
fn tell<C: Conn>(alloc: Global, conn: &mut C, reply: &Reply) -> Result<(), WireError>
    ensures left { C.left conn.new ≡ C.left conn.old }
    ensures cause { HasWriteCause (C.Source.faults conn.old) (C.Source.faults conn.new) result }
{
    write_reply(alloc, conn, reply)
}

/// Replies with the target of a request, and prints the error if there is one.
fn push_told(
    alloc: Global,
    text: &mut String,
    conn: &mut MemConn,
    target: &[u8],
) -> Result<(), AllocError> {
    let Ok(status) = StatusCode::from_u16(200) else {
        return Ok(());
    };
    let body = Vec::from_slice(alloc, target)?;
    let reply = Reply {
        status,
        json: false,
        body,
    };
    match tell(alloc, conn, &reply) {
        Ok(()) => Ok(()),
        Err(error) => {
            text.push_str(word(error)?)?;
            text.push_str("; ")
        }
    }
}

/// The target of a request.
fn target_of(
    alloc: Global,
    answer: &Result<Option<Request>, WireError>,
) -> Result<Option<Vec<u8>>, AllocError> {
    match answer {
        Ok(Some(request)) => {
            let target = Vec::from_slice(alloc, request.target.as_str().as_bytes())?;
            Ok(Some(target))
        }
        Ok(None) => Ok(None),
        Err(_) => Ok(None),
    }
}

/// Reads a request and replies to it. Returns whether there may be more.
fn push_exchange(
    alloc: Global,
    text: &mut String,
    reader: &mut RequestReader,
    conn: &mut MemConn,
) -> Result<bool, AllocError> {
    let answer = hear(alloc, reader, conn);
    let target = target_of(alloc, &answer)?;
    let more = push_answer(alloc, text, answer)?;
    if let Some(target) = target {
        push_told(alloc, text, conn, &target)?;
    }
    Ok(more)
}

/// The requests of a connection whose call of this number, from 1, fails, each replied to with its
/// target, and then what was written.
fn talk_of(alloc: Global, bytes: &[u8], piece: usize, failing: u64) -> Result<String, AllocError>
    requires { 0 < piece }
{
    let mut conn = conn_of(alloc, bytes, piece, failing)?;
    let mut reader = RequestReader::new(alloc);
    let mut text = String::new(alloc);
    'exchanges: for _ in 0..=bytes.len() {
        if !push_exchange(alloc, &mut text, &mut reader, &mut conn)? {
            break 'exchanges;
        }
    }
    text.push_str(" | wrote ")?;
    text.push_str(to_text(alloc, conn.bytes())?.as_str())?;
    Ok(text)
}

/// The same in pieces of this size, at least 1.
pub fn talk(alloc: Global, bytes: &[u8], piece: usize, failing: u64) -> Result<String, AllocError> {
    if piece == 0 {
        return String::from_str(alloc, "no case");
    }
    talk_of(alloc, bytes, piece, failing)
}
