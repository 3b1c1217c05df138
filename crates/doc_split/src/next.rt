ghost use Rattle.std.specs.Prelude.{◌≡◌, ◌<◌, ◌≤◌, ◌+◌, ◌-◌, ◌++◌, ◌∷◌, ℕ, List, drop, take, length, OnOk, OnErr, nat_lt};
ghost use Rattle.std.specs.List.{prefix_len};
ghost use Rattle.doc_split.specs.Answers.{Answers, HasReadCause};
ghost use Rattle.doc_split.specs.Begun.{TakesDocument, TakesPiece};
ghost use Rattle.doc_split.specs.Documents.{is_blank};
ghost use Rattle.doc_split.specs.Limits.{the_limits};
ghost use Rattle.doc_split.specs.Passing.{Meets, Passes};

use crate::limits::{Limits, the_limits};
use crate::place::Place;
use crate::scan::{Scan, count_blanks, scan_piece};
use crate::{Doc, DocError, Splitter};
use dra_ports::Source;
use std::alloc::{AllocError, Global};

impl Splitter {
    /// The next document, or None if nothing but blanks is left, to the end.
    ///
    /// A document begins with `{` and ends at the brace that closes it. Braces in JSON strings don't
    /// count, and a backslash in a string escapes the next byte. Between documents there are only
    /// spaces, tabs, CR and LF. A document has at most 2,097,152 bytes, and an input at most 2^30. The
    /// bytes that were consumed before an error are lost, and no clause states what a call after an
    /// error returns.
    ///
    /// If the source exposes its contents, a document is returned only if it is the first of what remains,
    /// `None` only if nothing but blanks remains, and `Unclosed`, `Stray`, `TooLong` and `Input` only
    /// if what remains has no document for the reason that the variant names. For a source that
    /// doesn't expose them, such as the standard input, no clause states which bytes these were.
    ///
    /// `ReadFault` is returned only if the source's count of errors rose in this call, or is at its
    /// maximum; with every other result the count is unchanged. `Memory` is returned only if out of
    /// memory. The splitter holds at most 64 KiB of what follows the bytes that it has consumed.
    pub fn next_document<S: Source>(
        &mut self,
        alloc: Global,
        from: &mut S,
    ) -> Result<Option<Doc>, DocError>
        ensures answers { Answers the_limits self.old self.new (S.left from.old) (S.left from.new) result }
        ensures cause { HasReadCause (S.faults from.old) (S.faults from.new) result }
        ensures ahead { length self.new.ahead ≤ 65536 }
    {
        let answer = next_within(the_limits(), self, alloc, from);
        let _ahead = self.ahead();
        answer
    }
}

/// The next document of an input with these limits.
#[tactic(auto, using(crate::proofs::Joined::answers_none, crate::proofs::Joined::answers_stray, crate::proofs::Joined::blank_err, crate::proofs::Joined::answers_err, crate::proofs::Joined::answers_doc))]
pub fn next_within<S: Source>(
    limits: Limits,
    splitter: &mut Splitter,
    alloc: Global,
    from: &mut S,
) -> Result<Option<Doc>, DocError>
    requires { 0 < limits.document }
    ensures answers { Answers limits splitter.old splitter.new (S.left from.old) (S.left from.new) result }
    ensures cause { HasReadCause (S.faults from.old) (S.faults from.new) result }
{
    if !pass_blanks(limits, splitter, alloc, from)? {
        return Ok(None);
    }
    if splitter.window(1) != b"{".as_slice() {
        return Err(DocError::Stray(splitter.at()));
    }
    let doc = take_document(limits, splitter, alloc, from)?;
    Ok(Some(doc))
}

/// Consumes blanks. Returns whether another byte follows.
#[tactic(auto, using(crate::proofs::Passing::passes_none, crate::proofs::Passing::passes_kept, crate::proofs::Passing::passes_piece, crate::proofs::Passing::meets_byte))]
fn pass_blanks<S: Source>(
    limits: Limits,
    splitter: &mut Splitter,
    alloc: Global,
    from: &mut S,
) -> Result<bool, DocError>
    ensures passes { Passes limits splitter.old splitter.new (S.left from.old) (S.left from.new) }
    ensures meets { Meets limits splitter.new (S.left from.new) result }
    ensures cause { HasReadCause (S.faults from.old) (S.faults from.new) result }
{
    'pieces: while splitter.fill(alloc, from)? {
        if splitter.at() >= limits.input {
            return Err(DocError::Input);
        }
        if pass_piece(limits, splitter) {
            return Ok(true);
        }
    }
    Ok(false)
}

/// Consumes blanks ahead. Returns whether another byte follows.
fn pass_piece(limits: Limits, splitter: &mut Splitter) -> bool
    requires { splitter.old.at < limits.input }
    ensures meets { result ≡ nat_lt (prefix_len is_blank (take (limits.input - splitter.old.at) splitter.old.ahead)) (length (take (limits.input - splitter.old.at) splitter.old.ahead)) }
    ensures passes { let count = prefix_len is_blank (take (limits.input - splitter.old.at) splitter.old.ahead) in splitter.new ≡ record { at = splitter.old.at + count; ahead = drop count splitter.old.ahead } }
{
    let window = splitter.window(limits.input - splitter.at());
    let count = count_blanks(window);
    let meets = count < window.len();
    splitter.advance(count);
    meets
}

/// Takes the document that begins with the byte ahead.
#[tactic(auto, using(crate::proofs::Going::going_begins, crate::proofs::Going::going_kept, crate::proofs::Going::going_open, crate::proofs::Going::going_whole, crate::proofs::Going::going_more))]
fn take_document<S: Source>(
    limits: Limits,
    splitter: &mut Splitter,
    alloc: Global,
    from: &mut S,
) -> Result<Doc, DocError>
    requires begins { (rest : List ℕ) × (splitter.old.ahead ≡ 123 ∷ rest) }
    requires room { splitter.old.at < limits.input }
    requires some { 0 < limits.document }
    ensures takes { TakesDocument limits splitter.old splitter.new (S.left from.old) (S.left from.new) result }
    ensures cause { HasReadCause (S.faults from.old) (S.faults from.new) result }
{
    let at = splitter.at();
    let mut bytes = vec![in alloc; b'{']?;
    splitter.advance(1);
    let mut scan = Scan {
        place: Place::Outside,
        depth: 1,
    };
    'pieces: while scan.depth > 0 {
        if !splitter.fill(alloc, from)? {
            return Err(DocError::Unclosed(at));
        }
        if splitter.at() >= limits.input {
            return Err(DocError::Input);
        }
        if bytes.len() >= limits.document {
            return Err(DocError::TooLong(at));
        }
        take_piece(limits, splitter, &mut bytes, &mut scan)?;
    }
    Ok(Doc { at, bytes })
}

/// Moves bytes ahead into the document that has begun.
fn take_piece(
    limits: Limits,
    splitter: &mut Splitter,
    bytes: &mut Vec<u8>,
    scan: &mut Scan,
) -> Result<(), AllocError>
    requires room { splitter.old.at < limits.input }
    requires small { length bytes.old.items < limits.document }
    requires deep { scan.old.depth ≤ length bytes.old.items }
    ensures takes { OnOk result (TakesPiece limits splitter.old splitter.new bytes.old.items bytes.new.items scan.old scan.new) }
    ensures err { OnErr result (splitter.new ≡ splitter.old) }
{
    let room = (limits.input - splitter.at()).min((limits.document - bytes.len()) as u64);
    let window = splitter.window(room);
    let (count, behind) = scan_piece(*scan, window);
    bytes.extend_from_slice(&window[..count])?;
    splitter.advance(count);
    *scan = behind;
    Ok(())
}
