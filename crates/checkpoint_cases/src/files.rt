ghost use Rattle.std.specs.Prelude.{IfOk};
ghost use Rattle.std.specs.List.{AllByRecursion};
ghost use Rattle.ckpt_journal.specs.Format.{ReadsBack};

use crate::start::{Begun, Half, open};
use ckpt_journal::{Claim, Journal, JournalError, Record, Row, RowState};
use mem_disk::MemDisk;
use std::alloc::{AllocError, Global};

/// The name of an error.
pub fn word(alloc: Global, error: JournalError) -> Result<String, AllocError> {
    match error {
        JournalError::DiskFault => String::from_str(alloc, "DiskFault"),
        JournalError::NotAJournal(at) => Ok(format!(in alloc; "NotAJournal({at})")?),
        JournalError::Full => String::from_str(alloc, "Full"),
        JournalError::Closed => String::from_str(alloc, "Closed"),
        JournalError::Memory => Err(AllocError),
    }
}

/// The disk of these bytes, none of whose calls is to fail.
pub fn disk_of(alloc: Global, bytes: Vec<u8>) -> Result<MemDisk, AllocError> {
    MemDisk::new(alloc, bytes, Vec::new(alloc))
}

/// The records of a disk, or the name of the error.
pub fn records_of(
    alloc: Global,
    half: Half,
    disk: MemDisk,
) -> Result<Result<Vec<Record>, String>, AllocError>
    ensures { IfOk result (λ read. IfOk read (λ rs. AllByRecursion ReadsBack rs.items)) }
{
    match Journal::open(alloc, disk, half.bytes) {
        Ok((_journal, records)) => Ok(Ok(records)),
        Err(unopened) => Ok(Err(word(alloc, unopened.why)?)),
    }
}

fn push_claim(alloc: Global, text: &mut String, claim: &Claim) -> Result<(), AllocError> {
    text.push_str(format!(in alloc; "{} {} pods=", claim.uid, claim.key)?.as_str())?;
    for pod in claim.pods.as_slice() {
        text.push_str(format!(in alloc; "{pod},")?.as_str())?;
    }
    text.push_str(" devices=")?;
    for device in claim.devices.as_slice() {
        text.push_str(format!(in alloc; "{device},")?.as_str())?;
    }
    Ok(())
}

fn push_record(alloc: Global, text: &mut String, record: &Record) -> Result<(), AllocError> {
    match record {
        Record::Begun(claim) => {
            text.push_str("begun ")?;
            push_claim(alloc, text, claim)
        }
        Record::Prepared(claim) => {
            text.push_str("prepared ")?;
            push_claim(alloc, text, claim)
        }
        Record::Leaving(uid) => Ok(text.push_str(format!(in alloc; "leaving {uid}")?.as_str())?),
        Record::Gone(uid) => Ok(text.push_str(format!(in alloc; "gone {uid}")?.as_str())?),
    }
}

/// The number of records, and each after a semicolon.
fn listed_records(alloc: Global, records: &[Record]) -> Result<String, AllocError> {
    let mut text = format!(in alloc; "{}", records.len())?;
    for record in records {
        text.push_str("; ")?;
        push_record(alloc, &mut text, record)?;
    }
    Ok(text)
}

/// The records of a file's bytes, or the name of the error.
pub fn listed(alloc: Global, half: Half, bytes: Vec<u8>) -> Result<String, AllocError> {
    match records_of(alloc, half, disk_of(alloc, bytes)?)? {
        Ok(records) => listed_records(alloc, &records),
        Err(word) => Ok(word),
    }
}

fn state_word(state: RowState) -> &'static str {
    match state {
        RowState::Begun => "begun ",
        RowState::Prepared => "prepared ",
        RowState::Leaving => "leaving ",
    }
}

/// The number of rows, and each after a semicolon.
pub fn listed_rows(alloc: Global, rows: &[Row]) -> Result<String, AllocError> {
    let mut text = format!(in alloc; "{}", rows.len())?;
    for row in rows {
        text.push_str("; ")?;
        text.push_str(state_word(row.state))?;
        push_claim(alloc, &mut text, &row.claim)?;
    }
    Ok(text)
}

/// The number of records of a disk, or the name of the error.
pub fn counted(alloc: Global, half: Half, disk: MemDisk) -> Result<String, AllocError> {
    match open(alloc, half, disk) {
        Begun::Open(_journal, records) => Ok(format!(in alloc; "{}", records.len())?),
        Begun::NotOpen(unopened) => word(alloc, unopened.why),
        Begun::NotMade(error) => word(alloc, error),
    }
}
