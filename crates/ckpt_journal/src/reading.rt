ghost use Rattle.std.specs.Prelude.{◌≡◌, ◌+◌, ◌<◌, ◌≤◌, ◌^◌, IfErr, IfOk, None, Ok, drop, length, take};
ghost use Rattle.std.specs.List.{AllByRecursion};
ghost use Rattle.ckpt_journal.specs.Format.{ReadsBack};
ghost use Rattle.ckpt_journal.specs.Layout.{IsWithin, differs_at, layout_of, live, magic, number_at as number_of, start_of, with_base as based, with_half as halved};
ghost use Rattle.ckpt_journal.specs.Reading.{Gives, block_at, body_at, from_start, gates, laid_out, records};
ghost use Rattle.ckpt_journal.specs.Standing.{EndsAt, IsOfBytes, Returns};
ghost use Rattle.ckpt_journal.specs.declared.layout.Layout.TheVariants.{Double, Single};

use crate::body::read_body;
use crate::error::Unread;
use crate::layout::{HALF_SIZES, Halves, Layout, SECOND};
use crate::spelling::OPEN;
use crate::{JournalError, Record};
use std::alloc::Global;

/// The first bytes of each file, `DRAKCKPT` and 00 00 00.
const MAGIC: [u8; 11] = *b"DRAKCKPT\0\0\0";

/// The offset from which on the closed gate of a file of version 1 is too far.
const MOST_BYTES: u64 = 67_108_864;

/// What a file has.
#[derive(Drop)]
pub struct FileRecords {
    /// How the file is laid out.
    pub layout: Layout,
    /// Its records, up to the first closed gate of its live part.
    pub records: Vec<Record>,
    /// The offset of that gate in the live part.
    pub end: u64,
}

/// The first offset at which the first bytes are wrong or missing.
#[tactic(auto, unfolding(crate::specs::Layout::magic))]
fn magic_fault(bytes: &[u8]) -> Option<u64>
    ensures { result ≡ differs_at 0 magic bytes.now }
{
    for at in 0..MAGIC.len() {
        if at >= bytes.len() {
            return Some(at as u64);
        }
        if bytes[at] != MAGIC[at] {
            return Some(at as u64);
        }
    }
    None
}

/// The number of 32 bits at an offset.
#[tactic(auto, unfolding(crate::specs::Layout::number_at))]
fn number_at(bytes: &[u8], at: usize) -> u32
    requires { at + 4 ≤ length bytes.now }
    ensures { result ≡ number_of at bytes.now }
{
    let (_before, rest) = bytes.split_at(at);
    let (number, _after) = rest.split_at(4);
    u32::from_be_bytes([number[0], number[1], number[2], number[3]])
}

/// How a file is laid out, or the offset at which it is no journal.
#[tactic(auto, unfolding(crate::specs::Layout::layout_of))]
fn layout(bytes: &[u8]) -> Result<Layout, u64>
    ensures { result ≡ layout_of bytes.now }
{
    if let Some(at) = magic_fault(bytes) {
        return Err(at);
    }
    if bytes.len() < 16 {
        return Err(bytes.len() as u64);
    }
    if bytes[11] == 2 {
        with_base(bytes, u64::from(number_at(bytes, 12)))
    } else {
        Ok(Layout::Single)
    }
}

/// The same of a file of version 2 with this base.
fn with_base(bytes: &[u8], base: u64) -> Result<Layout, u64>
    requires { base < 2 ^ 32 }
    ensures { result ≡ based base bytes.now }
{
    if base < 16 {
        return Err(12);
    }
    if (bytes.len() as u64) < base + 4 {
        return Err(bytes.len() as u64);
    }
    with_half(bytes, base, u64::from(number_at(bytes, base as usize)))
}

/// The same with halves of this size.
#[tactic(auto, unfolding(crate::specs::Layout::is_half))]
fn with_half(bytes: &[u8], base: u64, half: u64) -> Result<Layout, u64>
    requires small { base < 2 ^ 32 }
    requires short { half < 2 ^ 32 }
    ensures { result ≡ halved base half bytes.now }
{
    if !HALF_SIZES.contains(&half) {
        return Err(base);
    }
    if (bytes.len() as u64) < base + half + 6 {
        return Err(bytes.len() as u64);
    }
    Ok(Layout::Double(Halves {
        base,
        half,
        second: bytes[base as usize + 4] == SECOND,
    }))
}

/// The record of a body of `len` bytes at the start, and what follows it from the next gate on.
#[tactic(auto, unfolding(crate::specs::Reading::body_at))]
fn take_body(alloc: Global, len: usize, bytes: &[u8]) -> Result<(Record, &[u8]), Unread>
    ensures { Gives (λ x. (x.0, x.1.now)) result (body_at len bytes.now) }
{
    if bytes.len() <= len {
        return Err(Unread::NoRecord);
    }
    let (body, rest) = bytes.split_at(len);
    Ok((read_body(alloc, body)?, rest))
}

/// The record after a gate, and what follows it from the next gate on.
#[tactic(auto, unfolding(crate::specs::Reading::block_at))]
fn take_block(alloc: Global, bytes: &[u8]) -> Result<(Record, &[u8]), Unread>
    ensures { Gives (λ x. (x.0, x.1.now)) result (block_at bytes.now) }
{
    if bytes.len() < 4 {
        return Err(Unread::NoRecord);
    }
    let (prefix, rest) = bytes.split_at(4);
    let len = u32::from_be_bytes([prefix[0], prefix[1], prefix[2], prefix[3]]);
    take_body(alloc, len as usize, rest)
}

/// The records of bytes that begin with a gate, up to the first closed one, and the offset of that gate in
/// them. The bytes begin at the offset `start` of the file.
fn read_gates(alloc: Global, start: u64, bytes: &[u8]) -> Result<(u64, Vec<Record>), JournalError>
    requires { start + length bytes.now < 2 ^ 64 }
    ensures exact { Returns (λ x. x.1.items) result (from_start start (gates bytes.now)) }
    ensures ends { IfOk result (λ x. EndsAt x.1.items x.0 bytes.now) }
    ensures readable { IfOk result (λ x. AllByRecursion ReadsBack x.1.items) }
    ensures only { IfErr result IsOfBytes }
{
    if bytes.is_empty() {
        return Err(JournalError::NotAJournal(start));
    }
    let mut records = Vec::new(alloc);
    let mut rest = bytes;
    while rest[0] == OPEN {
        match take_block(alloc, &rest[1..]) {
            Ok((record, after)) => {
                records.push(record)?;
                rest = after;
            }
            Err(Unread::NoRecord) => {
                let at = (bytes.len() - rest.len()) as u64;
                return Err(JournalError::NotAJournal(start + at));
            }
            Err(Unread::Memory) => return Err(JournalError::Memory),
        }
    }
    Ok(((bytes.len() - rest.len()) as u64, records))
}

/// The records of a file of version 1, and the offset of the closed gate after the header.
fn read_single(alloc: Global, bytes: &[u8]) -> Result<(u64, Vec<Record>), JournalError>
    requires { 16 ≤ length bytes.now }
    ensures exact { Returns (λ x. x.1.items) result (laid_out bytes.now (Ok Single)) }
    ensures ends { IfOk result (λ x. EndsAt x.1.items x.0 (drop 16 bytes.now)) }
    ensures below { IfOk result (λ x. 16 + x.0 < 67108864) }
    ensures readable { IfOk result (λ x. AllByRecursion ReadsBack x.1.items) }
    ensures only { IfErr result IsOfBytes }
{
    let (_header, part) = bytes.split_at(16);
    let (end, records) = read_gates(alloc, 16, part)?;
    if 16 + end >= MOST_BYTES {
        return Err(JournalError::NotAJournal(MOST_BYTES));
    }
    Ok((end, records))
}

/// The records of the live half, and the offset of the closed gate in it.
fn read_double(
    alloc: Global,
    bytes: &[u8],
    halves: Halves,
) -> Result<(u64, Vec<Record>), JournalError>
    requires { IsWithin halves bytes.now }
    ensures exact { Returns (λ x. x.1.items) result (laid_out bytes.now (Ok (Double halves))) }
    ensures ends { IfOk result (λ x. EndsAt x.1.items x.0 (take halves.half (drop (start_of halves) bytes.now))) }
    ensures readable { IfOk result (λ x. AllByRecursion ReadsBack x.1.items) }
    ensures only { IfErr result IsOfBytes }
{
    let start = halves.start();
    let (_before, from) = bytes.split_at(start as usize);
    let part = first_bytes(from, halves.half);
    read_gates(alloc, start, part)
}

/// At most so many bytes of those at the start.
fn first_bytes(bytes: &[u8], most: u64) -> &[u8]
    ensures { result.now ≡ take most bytes.now }
{
    let (first, _rest) = bytes.split_at(bytes.len().min(most as usize));
    first
}

/// The records of a file.
///
/// The error is `NotAJournal` if the bytes are no journal, and `Memory` only if memory runs out.
#[tactic(auto, unfolding(crate::specs::Reading::records))]
pub fn read_records(alloc: Global, bytes: &[u8]) -> Result<FileRecords, JournalError>
    ensures exact { Returns (λ x. x.records.items) result (records bytes.now) }
    ensures laid { IfOk result (λ x. layout_of bytes.now ≡ Ok x.layout) }
    ensures ends { IfOk result (λ x. EndsAt x.records.items x.end (live x.layout bytes.now)) }
    ensures below { IfOk result (λ x. x.layout ≡ Single → 16 + x.end < 67108864) }
    ensures readable { IfOk result (λ x. AllByRecursion ReadsBack x.records.items) }
    ensures only { IfErr result IsOfBytes }
{
    match layout(bytes) {
        Ok(Layout::Single) => {
            let (end, records) = read_single(alloc, bytes)?;
            Ok(FileRecords {
                layout: Layout::Single,
                records,
                end,
            })
        }
        Ok(Layout::Double(halves)) => {
            let (end, records) = read_double(alloc, bytes, halves)?;
            Ok(FileRecords {
                layout: Layout::Double(halves),
                records,
                end,
            })
        }
        Err(at) => Err(JournalError::NotAJournal(at)),
    }
}
