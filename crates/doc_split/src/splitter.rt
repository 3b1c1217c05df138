ghost use Rattle.std.specs.Prelude.{◌≡◌, ◌<◌, ◌≤◌, ◌+◌, ◌^◌, [], ◌∷◌, Bool, IfOk, IsErrOf, MatchBool, min, OnErr, OnOk, drop, take, length, vec_len};
ghost use Rattle.std.specs.Io.KnownBytes.{Consumes, IsAtEnd};
ghost use Rattle.dra_ports.specs.Causes.{HasCause};
ghost use Rattle.dra_ports.specs.declared.error.PortError.TheVariants.{Failed};
ghost use Rattle.doc_split.specs.Split.{remaining};

use dra_ports::{PortError, Source};
use std::alloc::{AllocError, Global};
use std::marker::Model;

/// How many bytes are requested at once: 64 KiB.
const PIECE: usize = 65_536;

/// Splits the bytes of a source into documents. What contracts see of it is how many bytes it has
/// consumed, and those after them that it has read from the source, never more than 64 KiB.
#[derive(Drop)]
pub struct Splitter {
    piece: Vec<u8>,
    next: usize,
    end: usize,
    at: u64,
}

impl Model for Splitter {
    ghost use Rattle.std.specs.Prelude.{ℕ, ◌<◌, ◌≤◌, List, drop, take, vec_len};
    ghost use Rattle.doc_split.specs.Split.{Split};

    ghost Value = { Split };

    ghost view = { λ s. record { at = s.at; ahead = drop s.next (take s.end s.piece.items) } };

    ghost invariant = { λ s. (s.next ≤ s.end) × (s.end ≤ vec_len s.piece) × (vec_len s.piece ≤ 65536) };
}

impl Splitter {
    /// A splitter that has read nothing. Allocates nothing: the allocator is kept for its buffer.
    pub fn new(alloc: Global) -> Splitter
        ensures { result ≡ record { at = 0; ahead = [] } }
    {
        Splitter {
            piece: Vec::new(alloc),
            next: 0,
            end: 0,
            at: 0,
        }
    }

    /// How many bytes it has consumed.
    pub fn at(&self) -> u64
        ensures { result ≡ self.now.at }
    {
        self.at
    }

    /// Reads a piece of the source if nothing is ahead. Returns whether something is ahead then.
    #[tactic(auto, using(crate::proofs::Known::kept_ahead, crate::proofs::Known::consumes_none))]
    pub(crate) fn fill<S: Source>(&mut self, alloc: Global, from: &mut S) -> Result<bool, PortError>
        ensures kept { Consumes (remaining self.old (S.left from.old)) (remaining self.new (S.left from.new)) [] }
        ensures at { self.new.at ≡ self.old.at }
        ensures more { IfOk result (λ more. MatchBool more (0 < length self.new.ahead) ((self.new.ahead ≡ []) × IsAtEnd (S.left from.new))) }
        ensures empty { IsErrOf result Failed → self.new.ahead ≡ [] }
        ensures cause { HasCause (S.faults from.old) (S.faults from.new) result }
    {
        if self.ahead() > 0 {
            return Ok(true);
        }
        self.refill(alloc, from)?;
        Ok(self.ahead() > 0)
    }

    /// How many bytes are ahead.
    pub(crate) fn ahead(&self) -> usize
        ensures count { result ≡ length self.now.ahead }
        ensures bound { length self.now.ahead ≤ 65536 }
    {
        self.end - self.next
    }

    /// Reads a piece of the source, which replaces what is ahead.
    fn refill<S: Source>(&mut self, alloc: Global, from: &mut S) -> Result<(), PortError>
        ensures taken { Consumes (S.left from.old) (S.left from.new) self.new.ahead }
        ensures at { self.new.at ≡ self.old.at }
        ensures end { OnOk result (self.new.ahead ≡ [] → IsAtEnd (S.left from.new)) }
        ensures empty { OnErr result (self.new.ahead ≡ []) }
        ensures cause { HasCause (S.faults from.old) (S.faults from.new) result }
    {
        self.next = 0;
        self.end = 0;
        self.end = read_piece(alloc, &mut self.piece, from)?;
        Ok(())
    }

    /// The bytes ahead, at most so many.
    pub(crate) fn window(&self, most: u64) -> &[u8]
        ensures bytes { result.now ≡ take most self.now.ahead }
        ensures within { length result.now ≤ min most (length self.now.ahead) }
    {
        let ahead = &self.piece[self.next..self.end];
        let count = (ahead.len() as u64).min(most) as usize;
        &ahead[..count]
    }

    /// Consumes so many of the bytes ahead.
    pub(crate) fn advance(&mut self, count: usize)
        requires within { count ≤ length self.old.ahead }
        requires room { self.old.at + count < 2 ^ 64 }
        ensures { self.new ≡ record { at = self.old.at + count; ahead = drop count self.old.ahead } }
    {
        self.next += count;
        self.at += count as u64;
    }
}

/// Reads a piece of the source into a buffer, which is allocated first if it is empty. Returns how
/// many bytes these are.
fn read_piece<S: Source>(
    alloc: Global,
    piece: &mut Vec<u8>,
    from: &mut S,
) -> Result<usize, PortError>
    requires { vec_len piece.old ≤ 65536 }
    ensures small { vec_len piece.new ≤ 65536 }
    ensures bound { IfOk result (λ n. n ≤ vec_len piece.new) }
    ensures taken { IfOk result (λ n. Consumes (S.left from.old) (S.left from.new) (take n piece.new.items)) }
    ensures end { IfOk result (λ n. n ≡ 0 → IsAtEnd (S.left from.new)) }
    ensures err { OnErr result (Consumes (S.left from.old) (S.left from.new) []) }
    ensures cause { HasCause (S.faults from.old) (S.faults from.new) result }
{
    make_room(alloc, piece)?;
    from.read(piece)
}

/// Allocates a buffer if it is empty.
fn make_room(alloc: Global, piece: &mut Vec<u8>) -> Result<(), AllocError>
    requires { vec_len piece.old ≤ 65536 }
    ensures some { OnOk result (0 < vec_len piece.new) }
    ensures small { vec_len piece.new ≤ 65536 }
{
    if piece.is_empty() {
        *piece = vec![in alloc; 0; PIECE]?;
    }
    Ok(())
}
