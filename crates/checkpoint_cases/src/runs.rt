ghost use Rattle.std.specs.List.{AllByRecursion};
ghost use Rattle.ckpt_journal.specs.Format.{ReadsBack};

use crate::files::{listed_rows, word};
use crate::hex::to_hex;
use crate::start::{Begun, Half, Start, begin, open};
use ckpt_journal::{Journal, JournalError, Record};
use dra_ports::Disk;
use mem_disk::MemDisk;
use std::alloc::{AllocError, Global};

/// Appends records one after another, going on after Full, up to the first other error. Returns how many were
/// refused as Full, and that error.
pub fn append_each<D: Disk>(
    alloc: Global,
    journal: &mut Journal<D>,
    items: &[Record],
) -> (u64, Option<JournalError>)
    requires { AllByRecursion ReadsBack items.now }
{
    let mut full: u64 = 0;
    for item in items {
        match journal.append(alloc, item) {
            Ok(()) => {}
            Err(JournalError::Full) => full = full.saturating_add(1),
            Err(error) => return (full, Some(error)),
        }
    }
    (full, None)
}

/// The bytes of a file to whose journal records are appended, after the number of those that were refused as
/// Full if there are any; or the name of the first other error.
pub fn copied(alloc: Global, start: &Start, items: &[Record]) -> Result<String, AllocError>
    requires { AllByRecursion ReadsBack items.now }
{
    match begin(alloc, start, Vec::new(alloc))? {
        Begun::Open(journal, _records) => copied_on(alloc, journal, items),
        Begun::NotOpen(unopened) => word(alloc, unopened.why),
        Begun::NotMade(error) => word(alloc, error),
    }
}

/// The same for a journal.
fn copied_on(
    alloc: Global,
    mut journal: Journal<MemDisk>,
    items: &[Record],
) -> Result<String, AllocError>
    requires { AllByRecursion ReadsBack items.now }
{
    let (full, error) = append_each(alloc, &mut journal, items);
    let disk = journal.close();
    match error {
        None => spelled(alloc, full, &disk),
        Some(error) => word(alloc, error),
    }
}

/// The bytes of a disk, after the number of records that were refused if there are any.
fn spelled(alloc: Global, full: u64, disk: &MemDisk) -> Result<String, AllocError> {
    let bytes = to_hex(alloc, disk.bytes())?;
    if full == 0 {
        Ok(bytes)
    } else {
        Ok(format!(in alloc; "full={full} {bytes}")?)
    }
}

/// The rows of a journal to which records are appended, with a `?` if the file doesn't have the same.
pub fn tabled(alloc: Global, start: &Start, items: &[Record]) -> Result<String, AllocError>
    requires { AllByRecursion ReadsBack items.now }
{
    match begin(alloc, start, Vec::new(alloc))? {
        Begun::Open(journal, _records) => tabled_on(alloc, start.half, journal, items),
        Begun::NotOpen(unopened) => word(alloc, unopened.why),
        Begun::NotMade(error) => word(alloc, error),
    }
}

/// The same for a journal.
fn tabled_on(
    alloc: Global,
    half: Half,
    mut journal: Journal<MemDisk>,
    items: &[Record],
) -> Result<String, AllocError>
    requires { AllByRecursion ReadsBack items.now }
{
    let (_full, error) = append_each(alloc, &mut journal, items);
    match error {
        None => rows_twice(alloc, half, journal),
        Some(error) => word(alloc, error),
    }
}

/// The rows of a journal, with a `?` if its disk doesn't have the same.
fn rows_twice(alloc: Global, half: Half, journal: Journal<MemDisk>) -> Result<String, AllocError> {
    let rows = listed_rows(alloc, journal.rows())?;
    let again = rows_of(alloc, half, journal.close())?;
    marked(alloc, &rows, &again)
}

fn marked(alloc: Global, rows: &String, again: &String) -> Result<String, AllocError> {
    let mark = if rows.as_str() == again.as_str() {
        ""
    } else {
        "?"
    };
    Ok(format!(in alloc; "{rows}{mark}")?)
}

/// The rows of a disk, or the name of the error.
fn rows_of(alloc: Global, half: Half, disk: MemDisk) -> Result<String, AllocError> {
    match open(alloc, half, disk) {
        Begun::Open(journal, _records) => listed_rows(alloc, journal.rows()),
        Begun::NotOpen(unopened) => word(alloc, unopened.why),
        Begun::NotMade(error) => word(alloc, error),
    }
}
