ghost use Rattle.std.specs.List.{AllByRecursion};
ghost use Rattle.ckpt_journal.specs.Format.{ReadsBack};

use crate::marks::Tables;
use crate::runs::append_each;
use crate::start::{Begun, Half, Start, begin};
use ckpt_journal::{Journal, JournalError, Record};
use mem_disk::MemDisk;
use std::alloc::{AllocError, Global};

/// Appends records to a journal, one of whose disk's calls may fail: `all` if none did, and otherwise what the
/// disk has, with a `?` if the next append was not refused as Closed.
fn run_on(
    alloc: Global,
    half: Half,
    tables: &Tables,
    mut journal: Journal<MemDisk>,
    items: &[Record],
) -> Result<String, AllocError>
    requires { AllByRecursion ReadsBack items.now }
{
    match append_each(alloc, &mut journal, items) {
        (_full, None) => String::from_str(alloc, "all"),
        (_full, Some(_error)) => {
            let (_more, next) = append_each(alloc, &mut journal, items);
            let found = tables.mark(alloc, half, journal.close())?;
            let is_closed = next == Some(JournalError::Closed);
            let mark = if is_closed { "" } else { "?" };
            Ok(format!(in alloc; "{found}{mark}")?)
        }
    }
}

/// What becomes of a list of appends in which the disk's call of this number fails: `start` if the journal was not
/// formatted, `all` if no call failed, and otherwise what the disk has on opening it again, with a `?` if it was
/// opened and the next append was not refused as Closed.
fn with_fault(
    alloc: Global,
    start: &Start,
    tables: &Tables,
    items: &[Record],
    number: u64,
) -> Result<String, AllocError>
    requires { AllByRecursion ReadsBack items.now }
{
    match begin(alloc, start, vec![in alloc; number]?)? {
        Begun::Open(journal, _records) => run_on(alloc, start.half, tables, journal, items),
        Begun::NotOpen(unopened) => tables.mark(alloc, start.half, unopened.disk),
        Begun::NotMade(_error) => String::from_str(alloc, "start"),
    }
}

/// The same for each call in turn, up to the first number that no call has.
pub fn faults(alloc: Global, start: &Start, items: &[Record]) -> Result<String, AllocError>
    requires { AllByRecursion ReadsBack items.now }
{
    let tables = Tables::of(alloc, start, items)?;
    let mut text = String::new(alloc);
    'calls: for number in 1..1000 {
        let found = with_fault(alloc, start, &tables, items, number)?;
        text.push_str(found.as_str())?;
        if found.as_str() == "all" {
            break 'calls;
        }
        text.push(' ')?;
    }
    Ok(text)
}
