ghost use Rattle.std.specs.Prelude.{◌<◌};

use crate::spelling::to_text;
use dra_ports::MemSource;
use http_wire::{Request, RequestReader, WireError};
use std::alloc::{AllocError, Global};

/// The name of an error.
pub fn word(error: WireError) -> Result<&'static str, AllocError> {
    match error {
        WireError::BadHead => Ok("BadHead"),
        WireError::NoLength => Ok("NoLength"),
        WireError::TooLong => Ok("TooLong"),
        WireError::EndedEarly => Ok("EndedEarly"),
        WireError::ReadFault => Ok("ReadFault"),
        WireError::WriteFault => Ok("WriteFault"),
        WireError::Memory => Err(AllocError),
    }
}

/// Prints a request: its method, its target, its body in brackets, and `last` if it ends the
/// connection.
fn push_request(alloc: Global, text: &mut String, request: &Request) -> Result<(), AllocError> {
    let target = to_text(alloc, request.target.as_str().as_bytes())?;
    let body = to_text(alloc, &request.body)?;
    let end = if request.last { " last" } else { "" };
    let line = format!(in alloc; "{} {target} [{body}]{end}; ", request.method.as_str())?;
    text.push_str(line.as_str())
}

/// Prints what a call returned. Returns whether there may be more.
pub fn push_answer(
    alloc: Global,
    text: &mut String,
    answer: Result<Option<Request>, WireError>,
) -> Result<bool, AllocError> {
    match answer {
        Ok(Some(request)) => {
            push_request(alloc, text, &request)?;
            Ok(!request.last)
        }
        Ok(None) => {
            text.push_str("none")?;
            Ok(false)
        }
        Err(error) => {
            text.push_str(word(error)?)?;
            Ok(false)
        }
    }
}

/// A source of bytes that come in pieces, and whose read of this number, from 1, fails.
fn source_of(
    alloc: Global,
    bytes: &[u8],
    piece: usize,
    failing: u64,
) -> Result<MemSource, AllocError>
    requires { 0 < piece }
{
    let failing = vec![in alloc; failing]?;
    Ok(MemSource::new(Vec::from_slice(alloc, bytes)?, piece, failing))
}

/// The requests of bytes that come in pieces, up to the end, to one that ends the connection, or to an
/// error. The read of this number, from 1, fails.
fn requests(alloc: Global, bytes: &[u8], piece: usize, failing: u64) -> Result<String, AllocError>
    requires { 0 < piece }
{
    let mut source = source_of(alloc, bytes, piece, failing)?;
    let mut reader = RequestReader::new(alloc);
    let mut text = String::new(alloc);
    'requests: for _ in 0..=bytes.len() {
        let answer = reader.read_request(alloc, &mut source);
        if !push_answer(alloc, &mut text, answer)? {
            break 'requests;
        }
    }
    Ok(text)
}

/// The same in pieces of this size, if it differs from what is passed in.
fn push_other(
    alloc: Global,
    bytes: &[u8],
    piece: usize,
    text: &mut String,
) -> Result<(), AllocError>
    requires { 0 < piece }
{
    let other = requests(alloc, bytes, piece, 0)?;
    if other.as_str() != text.as_str() {
        text.push_str(format!(in alloc; " but {other} in pieces of {piece}")?.as_str())?;
    }
    Ok(())
}

/// The requests of bytes in one piece, and in pieces of 1, 2 and 7 bytes if that differs. More than
/// 100,000 bytes are read in one piece alone.
pub fn read(alloc: Global, bytes: &[u8]) -> Result<String, AllocError> {
    let mut text = requests(alloc, bytes, 65_536, 0)?;
    if bytes.len() > 100_000 {
        return Ok(text);
    }
    push_other(alloc, bytes, 1, &mut text)?;
    push_other(alloc, bytes, 2, &mut text)?;
    push_other(alloc, bytes, 7, &mut text)?;
    Ok(text)
}

/// How many requests come before the end, and how the last of them ends: `last` if it ends the connection.
fn count_requests(alloc: Global, bytes: Vec<u8>) -> Result<String, AllocError> {
    let most = bytes.len();
    let mut source = MemSource::new(bytes, 65_536, Vec::new(alloc));
    let mut reader = RequestReader::new(alloc);
    let mut count: u64 = 0;
    let mut text = String::new(alloc);
    'requests: for _ in 0..=most {
        text = String::new(alloc);
        let answer = reader.read_request(alloc, &mut source);
        if !push_answer(alloc, &mut text, answer)? {
            break 'requests;
        }
        count = count.saturating_add(1);
    }
    format!(in alloc; "{count} and then {text}")
}

/// The requests of bytes that stand there so many times.
pub fn many(alloc: Global, count: usize, bytes: &[u8]) -> Result<String, AllocError> {
    let mut all = Vec::new(alloc);
    for _ in 0..count {
        all.extend_from_slice(bytes)?;
    }
    count_requests(alloc, all)
}

/// Prints a number and what was found with it.
fn push_numbered(
    alloc: Global,
    text: &mut String,
    number: u64,
    found: &str,
) -> Result<(), AllocError> {
    text.push_str(format!(in alloc; "{number}: {found} ")?.as_str())
}

/// The same of bytes that are cut to each length, with a length where it changes.
pub fn cuts(alloc: Global, bytes: &[u8]) -> Result<String, AllocError> {
    let mut text = String::new(alloc);
    let mut before = String::new(alloc);
    for len in 0..=bytes.len() {
        let found = read(alloc, &bytes[..len])?;
        if found.as_str() != before.as_str() {
            push_numbered(alloc, &mut text, len as u64, found.as_str())?;
            before = found;
        }
    }
    Ok(text)
}

/// The requests of bytes in pieces of 7 bytes where the read of each number in turn fails, with a number
/// where it changes, up to the first that no read has.
pub fn faults(alloc: Global, bytes: &[u8]) -> Result<String, AllocError> {
    let whole = read(alloc, bytes)?;
    let mut text = String::new(alloc);
    let mut before = String::new(alloc);
    'reads: for number in 1..1000 {
        let found = requests(alloc, bytes, 7, number)?;
        if found.as_str() != before.as_str() {
            push_numbered(alloc, &mut text, number, found.as_str())?;
        }
        if found.as_str() == whole.as_str() {
            break 'reads;
        }
        before = found;
    }
    Ok(text)
}
