ghost use Rattle.std.specs.Prelude.{◌≡◌, ◌+◌, ◌||◌, [], IfOk, nat_le};
ghost use Rattle.http_wire.specs.Reader.{Answers, HasReadCause, Reading, count_after};
ghost use Rattle.http_wire.specs.Requests.{IsRequest, next_count, requests_most};

use crate::buffer::Buffer;
use crate::{Request, WireError};
use dra_ports::Source;
use std::alloc::Global;
use std::marker::Model;

/// The most requests of a connection.
const MOST: u16 = 65_535;

/// Reads the requests of a connection, one after another. What contracts see of it are the bytes that
/// it has taken from the source and that belong to no request so far, and how many requests it has
/// returned, counted up to 65,535.
#[derive(Drop)]
pub struct RequestReader {
    buffer: Buffer,
    taken: u16,
}

impl Model for RequestReader {
    ghost Value = { Reading };

    ghost view = { λ r. record { ahead = r.buffer; taken = r.taken } };
}

impl RequestReader {
    /// A reader that has taken nothing. Allocates nothing: the allocator is kept for its buffer.
    pub fn new(alloc: Global) -> RequestReader
        ensures { result ≡ record { ahead = []; taken = 0 } }
    {
        RequestReader {
            buffer: Buffer::new(alloc),
            taken: 0,
        }
    }

    /// The next request, or `None` if no byte is left and no request is begun.
    ///
    /// Lines end with LF, and a CR before the LF belongs to the end. Empty lines before a request are
    /// skipped. A head has at most 16,384 bytes, with the empty lines before it, and at most 64 lines
    /// between its first line and the empty one that ends it. A body has as many bytes as
    /// `Content-Length` says, at most 2,097,152, or none. A connection has at most 65,535 requests, so
    /// the 65,535th is the last, whatever its head says.
    ///
    /// If the source exposes its contents, a request is returned only if it is the first of what remains,
    /// `None` only if at most 16,384 bytes of empty lines remain, and `BadHead`, `NoLength`,
    /// `TooLong` and `EndedEarly` only if what remains begins with a request that is refused, or
    /// ends early, for the reason that the variant names. They are looked at in the order `TooLong`
    /// of the head, `BadHead`, `NoLength`, `TooLong` of the body.
    ///
    /// `ReadFault` is returned only if the source's error count rose in this call, or is at its last
    /// value, and only if what was read contains no whole request; with every other result the count
    /// does not change. `Memory` is returned only if memory runs out. What was written to the same
    /// object is unchanged with any result. Nothing is promised about a call after an error.
    pub fn read_request<S: Source>(
        &mut self,
        alloc: Global,
        from: &mut S,
    ) -> Result<Option<Request>, WireError>
        ensures answers { Answers (IsRequest self.old.taken) self.old.ahead self.new.ahead (S.left from.old) (S.left from.new) result }
        ensures counts { IfOk result (λ found. self.new.taken ≡ count_after self.old.taken found) }
        ensures cause { HasReadCause (S.faults from.old) (S.faults from.new) result }
        ensures sent { S.sent from.new ≡ S.sent from.old }
    {
        let Some(request) = self.buffer.take_request(alloc, from)? else {
            return Ok(None);
        };
        Ok(Some(self.count(request)))
    }

    /// Counts a request, which is the last if there may be no more.
    fn count(&mut self, request: Request) -> Request
        ensures ahead { self.new.ahead ≡ self.old.ahead }
        ensures counts { self.new.taken ≡ next_count self.old.taken }
        ensures request { result ≡ record request { last = request.last || nat_le requests_most (self.old.taken + 1) } }
    {
        self.taken = self.taken.saturating_add(1);
        Request {
            method: request.method,
            target: request.target,
            body: request.body,
            last: request.last || self.taken == MOST,
        }
    }
}
