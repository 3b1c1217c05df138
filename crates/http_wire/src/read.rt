ghost use Rattle.std.specs.Prelude.{◌≡◌, ◌<◌, ◌≤◌, ◌+◌, ◌-◌, ◌++◌, [], OnErr, OnOk, count_by, length, take, drop, min};
ghost use Rattle.http_wire.specs.Heads.{line_count};
ghost use Rattle.http_wire.specs.Meanings.{SaysOf};
ghost use Rattle.http_wire.specs.Reader.{Answers, HasReadCause};
ghost use Rattle.http_wire.specs.Requests.{IsSaid};
ghost use Rattle.http_wire.specs.Steps.{EndsAt, Finds, Found, TakesBody, TakesHead};

use crate::buffer::Buffer;
use crate::head::{Head, read_head};
use crate::scan::{HEAD, Place, Scan, is_before, is_done};
use crate::{Request, WireError};
use dra_ports::Source;
use std::alloc::{AllocError, Global};

/// The most lines of a head: its first, 64, and the empty one.
const LINES: usize = 66;

impl Buffer {
    /// Takes the next request, or returns `None` if no byte is left and no request is begun. Whether it
    /// is the last is what its head says.
    pub fn take_request<S: Source>(
        &mut self,
        alloc: Global,
        from: &mut S,
    ) -> Result<Option<Request>, WireError>
        ensures answers { Answers IsSaid self.old self.new (S.left from.old) (S.left from.new) result }
        ensures cause { HasReadCause (S.faults from.old) (S.faults from.new) result }
        ensures sent { S.sent from.new ≡ S.sent from.old }
    {
        let Some(head) = self.take_head(alloc, from)? else {
            return Ok(None);
        };
        let body = self.take_body(alloc, from, head.length)?;
        Ok(Some(Request {
            method: head.method,
            target: head.target,
            body,
            last: head.last,
        }))
    }

    /// Takes the head of the next request, with the empty lines before it.
    fn take_head<S: Source>(
        &mut self,
        alloc: Global,
        from: &mut S,
    ) -> Result<Option<Head>, WireError>
        ensures takes { TakesHead self.old self.new (S.left from.old) (S.left from.new) result }
        ensures cause { HasReadCause (S.faults from.old) (S.faults from.new) result }
        ensures sent { S.sent from.new ≡ S.sent from.old }
    {
        let Some(scan) = self.find_head(alloc, from)? else {
            let count = self.ahead().len();
            self.advance(count);
            return Ok(None);
        };
        let head = head_of(alloc, self.ahead(), scan)?;
        self.advance(scan.count);
        Ok(Some(head))
    }

    /// Finds the end of the next head. None if only empty lines are left, which are ahead then.
    fn find_head<S: Source>(
        &mut self,
        alloc: Global,
        from: &mut S,
    ) -> Result<Option<Scan>, WireError>
        ensures finds { Finds self.old self.new (S.left from.old) (S.left from.new) result }
        ensures cause { HasReadCause (S.faults from.old) (S.faults from.new) result }
        ensures sent { S.sent from.new ≡ S.sent from.old }
    {
        let mut scan = Scan::new();
        'pieces: loop {
            scan = scan.over(self.ahead());
            if is_done(scan.place) {
                return Ok(Some(scan));
            }
            if self.ahead().len() > HEAD {
                return Err(WireError::TooLong);
            }
            if !self.fill(alloc, from)? {
                return at_end(scan.place);
            }
        }
    }

    /// Takes a body of `length` bytes.
    fn take_body<S: Source>(
        &mut self,
        alloc: Global,
        from: &mut S,
        length: usize,
    ) -> Result<Vec<u8>, WireError>
        ensures takes { TakesBody self.old self.new (S.left from.old) (S.left from.new) length result }
        ensures cause { HasReadCause (S.faults from.old) (S.faults from.new) result }
        ensures sent { S.sent from.new ≡ S.sent from.old }
    {
        let mut body = Vec::new(alloc);
        'pieces: while body.len() < length {
            if !self.has_more(alloc, from)? {
                return Err(WireError::EndedEarly);
            }
            self.take_piece(&mut body, length)?;
        }
        Ok(body)
    }

    /// Takes bytes ahead into a body, up to `long` bytes in all.
    fn take_piece(&mut self, body: &mut Vec<u8>, long: usize) -> Result<(), AllocError>
        requires { length body.old.items ≤ long }
        ensures took { OnOk result (body.new.items ≡ body.old.items ++ take (long - length body.old.items) self.old) }
        ensures left { OnOk result (self.new ≡ drop (long - length body.old.items) self.old) }
        ensures err { OnErr result (self.new ≡ self.old) }
    {
        let ahead = self.ahead();
        let count = ahead.len().min(long - body.len());
        body.extend_from_slice(&ahead[..count])?;
        self.advance(count);
        Ok(())
    }
}

/// What is found if the input ends here.
fn at_end(place: Place) -> Result<Option<Scan>, WireError>
    ensures { EndsAt place result }
{
    if is_before(place) {
        return Ok(None);
    }
    Err(WireError::EndedEarly)
}

/// What the head that was found says, if it hasn't too many lines.
fn head_of(alloc: Global, ahead: &[u8], scan: Scan) -> Result<Head, WireError>
    requires found { Found ahead.now scan }
    ensures says { SaysOf (take scan.count ahead.now) result }
{
    let lines = &ahead[scan.blank..scan.count];
    if count_lines(lines) > LINES {
        return Err(WireError::TooLong);
    }
    read_head(alloc, lines)
}

/// How many lines end in the bytes.
fn count_lines(bytes: &[u8]) -> usize
    ensures { result ≡ line_count bytes.now }
{
    let mut count = 0;
    for byte in bytes {
        if *byte == b'\n' {
            count += 1;
        }
    }
    count
}
