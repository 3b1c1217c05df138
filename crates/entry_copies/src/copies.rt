ghost use Rattle.std.specs.Prelude.{◌≡◌, IfOk};

use crate::event::copy_event;
use cluster::Entry;
use std::alloc::{AllocError, Global};

/// An equal entry. `AllocError` only if memory runs out, or the count of owners of a part is full.
pub fn copy_entry(alloc: Global, entry: &Entry) -> Result<Entry, AllocError>
    ensures { IfOk result (λ copy. copy ≡ entry.now) }
{
    Ok(Entry {
        job: entry.job,
        event: copy_event(alloc, &entry.event)?,
    })
}

/// Equal entries, in order. `AllocError` only if memory runs out, or the count of owners of a part is full.
pub fn copy_entries(alloc: Global, entries: &[Entry]) -> Result<Vec<Entry>, AllocError>
    ensures { IfOk result (λ copy. copy.items ≡ entries.now) }
{
    let mut copies = Vec::with_capacity(alloc, entries.len())?;
    for entry in entries {
        copies.push(copy_entry(alloc, entry)?)?;
    }
    Ok(copies)
}
