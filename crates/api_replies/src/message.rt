ghost use Rattle.std.specs.Prelude.{◌≡◌, IfOk, drop};
ghost use Rattle.api_replies.specs.Messages as spec;

use cluster::{Command, Entry, Event, Refusal, Target};
use journal_text::line;
use std::alloc::{AllocError, Global};

/// The line of an entry at an index, without its LF.
pub fn line_text(alloc: Global, place: u64, entry: &Entry) -> Result<Vec<u8>, AllocError>
    ensures { IfOk result (λ v. v.items ≡ spec.line_text place entry.now) }
{
    let mut text = line(alloc, place, entry)?;
    let _ = text.pop();
    Ok(text)
}

/// The text of the refusal that an entry is.
pub fn refusal_text(alloc: Global, entry: &Entry) -> Result<Vec<u8>, AllocError>
    ensures { IfOk result (λ v. v.items ≡ spec.refusal_text entry.now.event) }
{
    let place = 0;
    let text = line_text(alloc, place, entry)?;
    let before = format!(in alloc; "{place} {} denied ", entry.job)?;
    behind(alloc, &text, before.len())
}

/// The bytes after the first `count`.
fn behind(alloc: Global, bytes: &[u8], count: usize) -> Result<Vec<u8>, AllocError>
    ensures { IfOk result (λ v. v.items ≡ drop count bytes.now) }
{
    let mut rest = Vec::new(alloc);
    if count < bytes.len() {
        rest.extend_from_slice(&bytes[count..])?;
    }
    Ok(rest)
}

/// The text of the refusal of a command on an object that doesn't exist.
pub fn absent_text(alloc: Global, target: &Target) -> Result<Vec<u8>, AllocError>
    ensures { IfOk result (λ v. v.items ≡ spec.absent_text target.now) }
{
    let entry = absent_entry(alloc, target)?;
    let text = refusal_text(alloc, &entry);
    drop(entry);
    text
}

fn absent_entry(alloc: Global, target: &Target) -> Result<Entry, AllocError>
    ensures { IfOk result (λ e. e ≡ spec.absent_entry target.now) }
{
    Ok(Entry {
        job: 0,
        event: Event::Denied {
            command: Command::Delete(target.copy(alloc)?),
            refusal: Refusal::NotFound,
        },
    })
}
