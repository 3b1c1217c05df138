ghost use Rattle.std.specs.Prelude.{◌≡◌, ◌++◌, IfOk, OnOk, codes, decimal, drop};
ghost use Rattle.journal_text.specs.Journal.{event_text, line_of, lines_from};

use crate::clean::clean_from;
use crate::worded::{Worded, push_after, push_text};
use cluster::Entry;
use std::alloc::{AllocError, Global};

/// The bytes that there is room for when a line begins. Lines without lists are shorter.
const ROOM: usize = 128;

/// Writes an entry at an index, without LF and with its control characters.
fn push_entry(out: &mut Vec<u8>, place: u64, entry: &Entry) -> Result<(), AllocError>
    ensures { OnOk result (out.new.items ≡ out.old.items ++ (decimal place ++ codes " " ++ decimal entry.now.job ++ codes " " ++ event_text entry.now.event)) }
{
    out.reserve(ROOM)?;
    place.push_to(out)?;
    push_after(out, " ", &entry.job)?;
    push_after(out, " ", &entry.event)
}

/// Writes the line of an entry at an index, from 1, after what is there: the index, the job, the kind of the
/// event and the rest, with one space between, ended by LF. Each byte below 0x20 and 0x7f before the LF is
/// printed as `?`. `AllocError` is returned only if memory runs out, and then a part of the line may be
/// written. The format is this project's own.
pub fn push_line(out: &mut Vec<u8>, place: u64, entry: &Entry) -> Result<(), AllocError>
    ensures { OnOk result (out.new.items ≡ out.old.items ++ line_of place entry.now) }
{
    let from = out.as_slice().len();
    push_entry(out, place, entry)?;
    clean_from(out, from);
    push_text(out, "\n")
}

/// Writes the lines of all entries of a history after the first `from`, in order, after what is there.
/// `AllocError` is returned only if memory runs out, and then a part of the lines may be written.
pub fn push_lines(out: &mut Vec<u8>, entries: &[Entry], from: u64) -> Result<(), AllocError>
    ensures { OnOk result (out.new.items ≡ out.old.items ++ lines_from from (drop from entries.now)) }
{
    for place in from..entries.len() as u64 {
        push_line(out, place + 1, &entries[place as usize])?;
    }
    Ok(())
}

/// The line of an entry at an index, from 1, as `push_line` writes it. `AllocError` is returned only if
/// memory runs out.
pub fn line(alloc: Global, place: u64, entry: &Entry) -> Result<Vec<u8>, AllocError>
    ensures { IfOk result (λ v. v.items ≡ line_of place entry.now) }
{
    let mut line = Vec::new(alloc);
    push_line(&mut line, place, entry)?;
    Ok(line)
}

/// The lines of all entries of a history after the first `from`, in order; empty if there are no
/// more. `AllocError` is returned only if memory runs out.
pub fn lines(alloc: Global, entries: &[Entry], from: u64) -> Result<Vec<u8>, AllocError>
    ensures { IfOk result (λ v. v.items ≡ lines_from from (drop from entries.now)) }
{
    let mut out = Vec::new(alloc);
    push_lines(&mut out, entries, from)?;
    Ok(out)
}
