ghost use Rattle.std.specs.Prelude.{◌≡◌, ◌≤◌, map};
ghost use Rattle.httparse.specs.Borrowed.{header_parts};
ghost use Rattle.httparse.specs.Grammar.{RequestHead};
ghost use Rattle.http_wire.specs.Fields.{meaning_by, meaning_of};
ghost use Rattle.http_wire.specs.Heads.{line_count, lines_most};
ghost use Rattle.http_wire.specs.Meanings.{Gives, HoldsParts, Reads, is_whole};

use crate::WireError;
use crate::fields::{body_length, is_last};
use dra_values::Text;
use httparse::{EMPTY_HEADER, Header, Status};
use std::alloc::Global;

/// The most header lines of a head.
const LINES: usize = 64;

/// What a head states about its request.
#[derive(Drop)]
pub struct Head {
    pub method: Text,
    pub target: Text,
    pub last: bool,
    /// How many bytes the body has.
    pub length: usize,
}

/// What the lines of a head say.
pub fn read_head(alloc: Global, lines: &[u8]) -> Result<Head, WireError>
    requires few { line_count lines.now ≤ lines_most }
    ensures reads { Reads lines.now result }
{
    let mut headers = [EMPTY_HEADER; LINES];
    let mut request = httparse::Request::new(&mut headers);
    let parsed = request.parse(lines);
    if !is_whole(parsed, lines.len()) {
        return Err(WireError::BadHead);
    }
    say_parts(alloc, &request)
}

/// Whether a parse is complete, of `len` bytes.
fn is_whole(parsed: httparse::Result<usize>, len: usize) -> bool
    ensures { result ≡ is_whole parsed len }
{
    match parsed {
        Ok(Status::Complete(count)) => count == len,
        Ok(Status::Partial) => false,
        Err(_) => false,
    }
}

/// What a head says that `httparse` has read whole.
fn say_parts(alloc: Global, request: &httparse::Request<'_, '_>) -> Result<Head, WireError>
    ensures gives { (h : RequestHead) → HoldsParts request.now h → Gives result (meaning_of h) }
{
    let Some(method) = request.method else {
        return Err(WireError::BadHead);
    };
    let Some(target) = request.path else {
        return Err(WireError::BadHead);
    };
    let Some(minor) = request.version else {
        return Err(WireError::BadHead);
    };
    say(alloc, method, target, minor, request.headers)
}

/// What a head of this method, target, minor version and these headers says.
fn say(
    alloc: Global,
    method: &str,
    target: &str,
    minor: u8,
    headers: &[Header<'_>],
) -> Result<Head, WireError>
    ensures gives { Gives result (meaning_by method.now target.now minor (map header_parts headers.now)) }
{
    let length = body_length(method, headers)?;
    let last = is_last(minor, headers);
    let method = Text::from_str(alloc, method)?;
    let target = Text::from_str(alloc, target)?;
    Ok(Head {
        method,
        target,
        last,
        length,
    })
}
