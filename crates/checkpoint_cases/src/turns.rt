ghost use Rattle.std.specs.List.{AllByRecursion};
ghost use Rattle.ckpt_journal.specs.Format.{ReadsBack};

use crate::files::word;
use crate::plain_disk::PlainDisk;
use crate::runs::append_each;
use crate::start::Half;
use ckpt_journal::{Journal, Record, format as format_disk};
use std::alloc::{AllocError, Global};

/// Appends records so many times, one turn after another: the number of those that were refused, and of rows.
fn turn_on(
    alloc: Global,
    journal: &mut Journal<PlainDisk>,
    items: &[Record],
    turns: u32,
) -> Result<String, AllocError>
    requires { AllByRecursion ReadsBack items.now }
{
    let mut refused: u64 = 0;
    for _turn in 0..turns {
        match append_each(alloc, journal, items) {
            (full, None) => refused = refused.saturating_add(full),
            (_full, Some(error)) => return word(alloc, error),
        }
    }
    Ok(format!(in alloc; "{refused} {}", journal.rows().len())?)
}

/// The number of records refused, the number of rows and the length of the file when records are appended to a new
/// journal so many times, on a disk that nothing is known of.
pub fn turns(alloc: Global, half: Half, items: &[Record], turns: u32) -> Result<String, AllocError>
    requires { AllByRecursion ReadsBack items.now }
{
    let mut disk = PlainDisk::new(Vec::new(alloc));
    if let Err(error) = format_disk(alloc, &mut disk, half.bytes) {
        return word(alloc, error);
    }
    match Journal::open(alloc, disk, half.bytes) {
        Ok((mut journal, _records)) => {
            let text = turn_on(alloc, &mut journal, items, turns)?;
            let len = journal.close().bytes().len();
            Ok(format!(in alloc; "{text} {len}")?)
        }
        Err(unopened) => word(alloc, unopened.why),
    }
}
