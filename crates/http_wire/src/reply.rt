ghost use Rattle.std.specs.Prelude.{◌≡◌, ◌⊎◌, ◌++◌, IfOk, IfErr, OnOk, OnErr, codes, decimal, unwrap_or, length};
ghost use Rattle.std.specs.Io.KnownBytes.{Appends};
ghost use Rattle.dra_ports.specs.Prefixes.{AppendsPrefix};
ghost use Rattle.http_wire.specs.declared.error.WireError.TheVariants.{Memory, WriteFault};
ghost use Rattle.http_wire.specs.Replies.{HasWriteCause, content_type, digits_of, head_bytes, phrase_of, reply_bytes};

use crate::WireError;
use dra_ports::{PortError, Sink, write_all};
use http::StatusCode;
use std::alloc::{AllocError, Global};

/// A reply.
#[derive(Drop)]
pub struct Reply {
    /// The status, from 100 to 999.
    pub status: StatusCode,
    /// Whether the body is `application/json`; otherwise it is `text/plain`.
    pub json: bool,
    /// The body.
    pub body: Vec<u8>,
}

/// Writes a reply: the status line, with the phrase that `http` has for the status, the type and
/// the length of the body, an empty line, and the body.
///
/// `WriteFault` is returned only if the sink's error count rose in this call, or is at its last
/// value, and `Memory` only if memory runs out. There is no other error. After either, some of the
/// first bytes of the reply may be written. What is left to read from the same object is unchanged
/// with any result.
pub fn write_reply<K: Sink>(alloc: Global, to: &mut K, reply: &Reply) -> Result<(), WireError>
    ensures bytes { OnOk result (Appends (K.written to.old) (K.written to.new) (reply_bytes reply.now)) }
    ensures prefix { OnErr result (AppendsPrefix (K.written to.old) (K.written to.new) (reply_bytes reply.now)) }
    ensures errors { IfErr result (λ e. (e ≡ WriteFault) ⊎ (e ≡ Memory)) }
    ensures cause { HasWriteCause (K.faults to.old) (K.faults to.new) result }
    ensures waiting { K.waiting to.new ≡ K.waiting to.old }
{
    let bytes = reply_text(alloc, reply)?;
    match write_all(to, &bytes) {
        Ok(()) => Ok(()),
        Err(PortError::Failed) => Err(WireError::WriteFault),
        Err(PortError::Memory) => Err(WireError::Memory),
    }
}

/// The bytes of a reply.
#[tactic(auto, unfolding(crate::specs::Replies::reply_bytes))]
fn reply_text(alloc: Global, reply: &Reply) -> Result<Vec<u8>, AllocError>
    ensures { IfOk result (λ bytes. bytes.items ≡ reply_bytes reply.now) }
{
    let code = digits_of(reply.status);
    let phrase = phrase_of(reply.status);
    let kind = content_type(reply.json);
    let mut bytes = head_text(alloc, code, phrase, kind, reply.body.len())?;
    bytes.extend_from_slice(&reply.body)?;
    Ok(bytes)
}

/// The bytes of a reply up to its body, which has `long` bytes.
fn head_text(
    alloc: Global,
    code: &str,
    phrase: &str,
    kind: &str,
    long: usize,
) -> Result<Vec<u8>, AllocError>
    ensures { IfOk result (λ bytes. bytes.items ≡ head_bytes code.now phrase.now kind.now long) }
{
    let head = format!(in alloc;
        "HTTP/1.1 {code} {phrase}\r\nContent-Type: {kind}\r\nContent-Length: {long}\r\n\r\n"
    )?;
    Ok(head.into_bytes())
}

/// The digits of a status.
#[tactic(auto, unfolding(crate::specs::Replies::digits_of))]
fn digits_of(status: StatusCode) -> &'static str
    ensures { result.now ≡ digits_of status }
{
    status.as_str()
}

/// The phrase that `http` has for a status, or the empty text.
#[tactic(auto, unfolding(crate::specs::Replies::phrase_of))]
fn phrase_of(status: StatusCode) -> &'static str
    ensures { result.now ≡ phrase_of status }
{
    status.canonical_reason().unwrap_or("")
}

/// The type of a body.
fn content_type(json: bool) -> &'static str
    ensures { result.now ≡ content_type json }
{
    if json {
        "application/json"
    } else {
        "text/plain"
    }
}
