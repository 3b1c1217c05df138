use crate::files::word;
use crate::plain_disk::PlainDisk;
use crate::start::Half;
use ckpt_journal::{Journal, JournalError};
use std::alloc::{AllocError, Global};

/// The number of records of a file, or the name of the error, which is `NotAJournal(end)` if the offset is the
/// length.
fn found(alloc: Global, half: Half, bytes: Vec<u8>) -> Result<String, AllocError> {
    let len = bytes.len() as u64;
    match Journal::open(alloc, PlainDisk::new(bytes), half.bytes) {
        Ok((_journal, records)) => Ok(format!(in alloc; "{}", records.len())?),
        Err(unopened) => refused(alloc, unopened.why, len),
    }
}

/// The name of the error of a file of a length.
fn refused(alloc: Global, why: JournalError, len: u64) -> Result<String, AllocError> {
    if why == JournalError::NotAJournal(len) {
        String::from_str(alloc, "NotAJournal(end)")
    } else {
        word(alloc, why)
    }
}

/// What becomes of a file of each length, for runs of lengths of which the same does.
pub fn by_length(alloc: Global, half: Half, bytes: &[u8]) -> Result<String, AllocError> {
    let mut text = String::new(alloc);
    let mut before = String::new(alloc);
    for len in 0..=bytes.len() {
        let found = found(alloc, half, bytes[..len].to_vec(alloc)?)?;
        if found.as_str() != before.as_str() {
            text.push_str(format!(in alloc; "{len}:{found} ")?.as_str())?;
            before = found;
        }
    }
    Ok(text)
}

/// The bytes with another one at an offset, if they reach so far.
fn with_byte(alloc: Global, bytes: &[u8], at: usize, byte: u8) -> Result<Vec<u8>, AllocError> {
    let mut changed = bytes.to_vec(alloc)?;
    if at < changed.len() {
        changed[at] = byte;
    }
    Ok(changed)
}

/// What becomes of a file with each byte at an offset, for runs of bytes of which the same does.
fn at_offset(alloc: Global, half: Half, bytes: &[u8], at: usize) -> Result<String, AllocError> {
    let mut text = format!(in alloc; "{at}:")?;
    let mut before = String::new(alloc);
    for byte in 0..=255u8 {
        let found = found(alloc, half, with_byte(alloc, bytes, at, byte)?)?;
        if found.as_str() != before.as_str() {
            text.push_str(format!(in alloc; " {byte:02x}={found}")?.as_str())?;
            before = found;
        }
    }
    Ok(text)
}

/// The same for each offset from one up to another.
pub fn by_byte(
    alloc: Global,
    half: Half,
    bytes: &[u8],
    from: usize,
    to: usize,
) -> Result<String, AllocError> {
    let mut text = String::new(alloc);
    for at in from..to {
        text.push_str(at_offset(alloc, half, bytes, at)?.as_str())?;
        text.push_str("; ")?;
    }
    Ok(text)
}
