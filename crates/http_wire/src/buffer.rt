ghost use Rattle.std.specs.Prelude.{◌≡◌, ◌≤◌, [], OnOk, OnErr, drop, length};
ghost use Rattle.dra_ports.specs.Causes.{HasCause};
ghost use Rattle.http_wire.specs.Filling.{Fills, HasMore, ReadsPiece};

use dra_ports::{PortError, Source};
use std::alloc::{AllocError, Global};
use std::marker::Model;

/// How many bytes are read at once.
const PIECE: usize = 4096;

/// Bytes of a source, as far as they were taken from it. What contracts see of it are those that belong
/// to no request so far.
#[derive(Drop)]
pub struct Buffer {
    bytes: Vec<u8>,
    next: usize,
}

impl Model for Buffer {
    ghost use Rattle.std.specs.Prelude.{ℕ, ◌≤◌, List, drop, vec_len};

    ghost Value = { List ℕ };

    ghost view = { λ s. drop s.next s.bytes.items };

    ghost invariant = { λ s. s.next ≤ vec_len s.bytes };
}

impl Buffer {
    /// A buffer that has taken nothing. Allocates nothing: the allocator is kept for its buffer.
    pub fn new(alloc: Global) -> Buffer
        ensures { result ≡ [] }
    {
        Buffer {
            bytes: Vec::new(alloc),
            next: 0,
        }
    }

    /// The bytes that belong to no request so far.
    pub(crate) fn ahead(&self) -> &[u8]
        ensures { result.now ≡ self.now }
    {
        &self.bytes[self.next..]
    }

    /// Skips the first `count` of the bytes ahead.
    pub(crate) fn advance(&mut self, count: usize)
        requires { count ≤ length self.old }
        ensures { self.new ≡ drop count self.old }
    {
        self.next += count;
    }

    /// Takes a piece of the source after the bytes ahead. Returns whether it has one.
    pub(crate) fn fill<S: Source>(&mut self, alloc: Global, from: &mut S) -> Result<bool, PortError>
        ensures fills { Fills self.old self.new (S.left from.old) (S.left from.new) result }
        ensures cause { HasCause (S.faults from.old) (S.faults from.new) result }
        ensures sent { S.sent from.new ≡ S.sent from.old }
    {
        self.move_to_prefix(alloc)?;
        let count = self.read_piece(from)?;
        Ok(count > 0)
    }

    /// Takes a piece of the source if nothing is ahead. Returns whether something is ahead then.
    pub(crate) fn has_more<S: Source>(
        &mut self,
        alloc: Global,
        from: &mut S,
    ) -> Result<bool, PortError>
        ensures more { HasMore self.old self.new (S.left from.old) (S.left from.new) result }
        ensures cause { HasCause (S.faults from.old) (S.faults from.new) result }
        ensures sent { S.sent from.new ≡ S.sent from.old }
    {
        if !self.ahead().is_empty() {
            return Ok(true);
        }
        self.fill(alloc, from)
    }

    /// Drops the bytes before those ahead.
    fn move_to_prefix(&mut self, alloc: Global) -> Result<(), AllocError>
        ensures same { self.new ≡ self.old }
    {
        if self.next == 0 {
            return Ok(());
        }
        let mut bytes = Vec::new(alloc);
        bytes.extend_from_slice(self.ahead())?;
        self.bytes = bytes;
        self.next = 0;
        Ok(())
    }

    /// Reads a piece of the source after the bytes ahead. Returns its length.
    fn read_piece<S: Source>(&mut self, from: &mut S) -> Result<usize, PortError>
        ensures reads { ReadsPiece self.old self.new (S.left from.old) (S.left from.new) result }
        ensures cause { HasCause (S.faults from.old) (S.faults from.new) result }
        ensures sent { S.sent from.new ≡ S.sent from.old }
    {
        let mut piece = [0u8; PIECE];
        let count = from.read(&mut piece)?;
        self.bytes.extend_from_slice(&piece[..count])?;
        Ok(count)
    }
}
