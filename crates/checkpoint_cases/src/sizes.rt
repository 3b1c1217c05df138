ghost use Rattle.std.specs.List.{AllByRecursion};
ghost use Rattle.ckpt_journal.specs.Format.{ReadsBack};

use crate::files::{disk_of, word};
use crate::start::{Begun, Half, Start, begin, open};
use ckpt_journal::{Journal, JournalError, Record, Unopened};
use mem_disk::MemDisk;
use std::alloc::{AllocError, Global};

/// The moments until a disk is opened: as it is found, and after the sync.
const MOMENTS_BEFORE: usize = 2;

/// The bytes from an offset on.
fn bytes_from(bytes: &[u8], at: usize) -> &[u8] {
    if at < bytes.len() { &bytes[at..] } else { &[] }
}

/// The number of 32 bits at the start of bytes; 0 if they are fewer.
fn number(bytes: &[u8]) -> usize {
    if bytes.len() < 4 {
        return 0;
    }
    u32::from_be_bytes([bytes[0], bytes[1], bytes[2], bytes[3]]) as usize
}

/// Whether there are an open gate, a record and a gate from the start on.
fn has_record(bytes: &[u8]) -> bool {
    bytes.len() > 5 && bytes[0] == 0x5a && number(bytes_from(bytes, 1)) < bytes.len() - 5
}

/// How many bytes there are through the closed gate, if there are gates and records from the start on.
fn through_closed(bytes: &[u8]) -> usize {
    let mut rest = bytes;
    for _record in 0..bytes.len() {
        if has_record(rest) {
            rest = bytes_from(rest, number(bytes_from(rest, 1)).saturating_add(5));
        }
    }
    bytes.len().saturating_sub(rest.len()).saturating_add(1)
}

/// Which half of a file is live, 0 or 1, and how many bytes it has through its closed gate.
fn used(alloc: Global, bytes: &[u8]) -> Result<String, AllocError> {
    let halves = bytes_from(bytes, number(bytes_from(bytes, 12)));
    let first = bytes_from(halves, 5);
    if halves.len() > 4 && halves[4] == 0x5a {
        let used = through_closed(bytes_from(first, number(halves)));
        Ok(format!(in alloc; "1:{used}")?)
    } else {
        Ok(format!(in alloc; "0:{}", through_closed(first))?)
    }
}

/// A disk, and what the last append did to it.
#[derive(Drop)]
struct Step {
    disk: MemDisk,
    text: String,
}

/// Opens a disk and appends a record: the live half, its bytes through the closed gate, and how many writes, cuts
/// and syncs the append made; or the name of the error and this number.
fn append_one(alloc: Global, half: Half, disk: MemDisk, item: &Record) -> Result<Step, AllocError>
    requires { ReadsBack item.now }
{
    match open(alloc, half, disk) {
        Begun::Open(journal, _records) => append_to(alloc, journal, item),
        Begun::NotOpen(unopened) => refused(alloc, unopened),
        Begun::NotMade(_error) => Err(AllocError),
    }
}

/// The disk that wasn't opened, and why.
fn refused(alloc: Global, unopened: Unopened<MemDisk, JournalError>) -> Result<Step, AllocError> {
    let text = word(alloc, unopened.why)?;
    Ok(Step {
        disk: unopened.disk,
        text,
    })
}

/// The same for a journal.
fn append_to(
    alloc: Global,
    mut journal: Journal<MemDisk>,
    item: &Record,
) -> Result<Step, AllocError>
    requires { ReadsBack item.now }
{
    let result = journal.append(alloc, item);
    let disk = journal.close();
    let text = said(alloc, &disk, result)?;
    let disk = copy_of(alloc, &disk)?;
    Ok(Step { disk, text })
}

/// What an append did to a disk that was opened for it.
fn said(
    alloc: Global,
    disk: &MemDisk,
    appended: Result<(), JournalError>,
) -> Result<String, AllocError> {
    let changes = disk.moments().saturating_sub(MOMENTS_BEFORE);
    let said = match appended {
        Ok(()) => used(alloc, disk.bytes())?,
        Err(error) => word(alloc, error)?,
    };
    Ok(format!(in alloc; "{said}:{changes} ")?)
}

/// A disk of the same bytes.
fn copy_of(alloc: Global, disk: &MemDisk) -> Result<MemDisk, AllocError> {
    disk_of(alloc, disk.bytes().to_vec(alloc)?)
}

/// The same for each record in turn, and the length of the file at the end.
fn append_all(
    alloc: Global,
    half: Half,
    disk: MemDisk,
    items: &[Record],
) -> Result<String, AllocError>
    requires { AllByRecursion ReadsBack items.now }
{
    let mut text = String::new(alloc);
    let mut disk = copy_of(alloc, &disk)?;
    for item in items {
        let step = append_one(alloc, half, disk, item)?;
        text.push_str(step.text.as_str())?;
        disk = step.disk;
    }
    let len = disk.bytes().len();
    Ok(format!(in alloc; "{text}{len}")?)
}

/// What becomes of the file of a start while records are appended to it.
pub fn sizes(alloc: Global, start: &Start, items: &[Record]) -> Result<String, AllocError>
    requires { AllByRecursion ReadsBack items.now }
{
    match begin(alloc, start, Vec::new(alloc))? {
        Begun::Open(journal, _records) => append_all(alloc, start.half, journal.close(), items),
        Begun::NotOpen(unopened) => word(alloc, unopened.why),
        Begun::NotMade(error) => word(alloc, error),
    }
}
