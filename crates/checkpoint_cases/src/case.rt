ghost use Rattle.std.specs.Prelude.{IfOk};
ghost use Rattle.ckpt_journal.specs.Format.{ReadsBack};

use crate::changes::{by_byte, by_length};
use crate::crashes::crashes;
use crate::faults::faults;
use crate::files::{counted, disk_of, listed, records_of, word};
use crate::hex::{from_hex, to_hex};
use crate::runs::{append_each, copied, tabled};
use crate::sizes::sizes;
use crate::start::{Begun, Half, Start, begin};
use crate::turns::turns;
use ckpt_journal::{Journal, Record, format as format_disk};
use dra_values::Text;
use mem_disk::MemDisk;
use std::alloc::{AllocError, Global};

/// The first word of a text, and what follows the blank after it.
fn first_word(text: &str) -> (&str, &str) {
    text.split_once(' ').unwrap_or((text, ""))
}

/// The bytes that are left of a file when it is formatted.
fn formatted(alloc: Global, half: Half, bytes: Vec<u8>) -> Result<String, AllocError> {
    let mut disk = disk_of(alloc, bytes)?;
    match format_disk(alloc, &mut disk, half.bytes) {
        Ok(()) => to_hex(alloc, disk.bytes()),
        Err(error) => word(alloc, error),
    }
}

/// The record that a claim of a uid of `len` bytes is gone.
fn gone(alloc: Global, len: usize) -> Result<Record, AllocError>
    ensures { IfOk result ReadsBack }
{
    let mut chars = String::new(alloc);
    for _at in 0..len {
        chars.push('u')?;
    }
    Ok(Record::Gone(Text::new(alloc, chars)?))
}

/// The length of a disk, and the number of records read from it.
fn measured(alloc: Global, half: Half, disk: MemDisk) -> Result<String, AllocError> {
    let bytes = disk.bytes().len();
    let records = counted(alloc, half, disk)?;
    Ok(format!(in alloc; "{bytes} {records}")?)
}

/// The same of a journal to which the record is appended that a claim of a uid of `len` bytes is gone, or the name
/// of the error.
fn measured_with(
    alloc: Global,
    half: Half,
    mut journal: Journal<MemDisk>,
    len: usize,
) -> Result<String, AllocError> {
    let item = gone(alloc, len)?;
    let result = journal.append(alloc, &item);
    let disk = journal.close();
    match result {
        Ok(()) => measured(alloc, half, disk),
        Err(error) => word(alloc, error),
    }
}

/// The same of a new journal.
fn long_uid(alloc: Global, half: Half, len: usize) -> Result<String, AllocError> {
    let start = Start { half, file: None };
    match begin(alloc, &start, Vec::new(alloc))? {
        Begun::Open(journal, _records) => measured_with(alloc, half, journal, len),
        Begun::NotOpen(unopened) => word(alloc, unopened.why),
        Begun::NotMade(error) => word(alloc, error),
    }
}

/// The cases of a start and the records of a file that are appended to it.
fn of_appends(alloc: Global, half: Half, kind: &str, words: &str) -> Result<String, AllocError> {
    let (word, file) = first_word(words);
    let start = Start::of(alloc, half, word)?;
    match records_of(alloc, half, disk_of(alloc, from_hex(alloc, file)?)?)? {
        Ok(records) => match kind {
            "copy" => copied(alloc, &start, &records),
            "table" => tabled(alloc, &start, &records),
            "sizes" => sizes(alloc, &start, &records),
            "faults" => faults(alloc, &start, &records),
            "crashes" => crashes(alloc, &start, &records),
            _ => String::from_str(alloc, "no case"),
        },
        Err(word) => Ok(word),
    }
}

/// The cases of a number and a file.
fn of_number(alloc: Global, half: Half, kind: &str, words: &str) -> Result<String, AllocError> {
    let (word, rest) = first_word(words);
    let number = word.parse::<u32>().unwrap_or(0);
    if kind == "long" {
        return long_uid(alloc, half, number as usize);
    }
    if kind == "changed" {
        let (to, file) = first_word(rest);
        let to = to.parse::<u32>().unwrap_or(0);
        return by_byte(
            alloc,
            half,
            &from_hex(alloc, file)?,
            number as usize,
            to as usize,
        );
    }
    match records_of(alloc, half, disk_of(alloc, from_hex(alloc, rest)?)?)? {
        Ok(records) => turns(alloc, half, &records, number),
        Err(word) => Ok(word),
    }
}

fn of_kind(alloc: Global, half: Half, kind: &str, words: &str) -> Result<String, AllocError> {
    match kind {
        "open" => listed(alloc, half, from_hex(alloc, words)?),
        "format" => formatted(alloc, half, from_hex(alloc, words)?),
        "lengths" => by_length(alloc, half, &from_hex(alloc, words)?),
        "long" | "changed" | "turns" => of_number(alloc, half, kind, words),
        _ => of_appends(alloc, half, kind, words),
    }
}

/// The line of a case.
pub fn answer(alloc: Global, line: &str) -> Result<String, AllocError> {
    if line.is_empty() || line.starts_with('#') {
        return String::from_str(alloc, line);
    }
    let (kind, rest) = first_word(line);
    let (half, words) = first_word(rest);
    match Half::of(half) {
        Some(half) => of_kind(alloc, half, kind, words),
        None => String::from_str(alloc, "no case"),
    }
}
