ghost use Rattle.std.specs.Prelude.{◌<◌, length};
ghost use Rattle.std.specs.List.{AllByRecursion};
ghost use Rattle.ckpt_journal.specs.Format.{ReadsBack};
ghost use Rattle.mem_disk.specs.Told.{moments_of};

use crate::files::word;
use crate::marks::Tables;
use crate::runs::append_each;
use crate::start::{Begun, Half, Start, begin};
use ckpt_journal::{Journal, Record};
use mem_disk::MemDisk;
use std::alloc::{AllocError, Global};

/// How many images are tried at each moment.
const PICKS: u64 = 8;

/// The moments until a journal of no record is formatted: the disk as it is found, and after the write.
const MOMENTS_BEFORE: usize = 2;

/// The images of a moment: what each of them has, and the lengths of all in sum.
#[derive(Drop)]
struct Images {
    marks: String,
    bytes: u64,
    /// What each has, if all have the same.
    same: Option<String>,
}

/// Appends what an image has.
fn add_mark(alloc: Global, images: &mut Images, pick: u64, mark: String) -> Result<(), AllocError> {
    if pick > 0 {
        images.marks.push(',')?;
    }
    images.marks.push_str(mark.as_str())?;
    let is_same = match &images.same {
        Some(same) => same.as_str() == mark.as_str(),
        None => pick == 0,
    };
    images.same = if is_same { Some(mark) } else { None };
    Ok(())
}

/// What each of the images that a crash at a moment may leave has, and their lengths in sum.
fn at_moment(
    alloc: Global,
    half: Half,
    tables: &Tables,
    disk: &MemDisk,
    at: usize,
) -> Result<String, AllocError>
    requires { at < length (moments_of disk.now) }
{
    let mut images = Images {
        marks: String::new(alloc),
        bytes: 0,
        same: None,
    };
    for pick in 0..PICKS {
        let crashed = disk.crashed(alloc, at, pick)?;
        images.bytes = images.bytes.saturating_add(crashed.bytes().len() as u64);
        let mark = tables.mark(alloc, half, crashed)?;
        add_mark(alloc, &mut images, pick, mark)?;
    }
    let bytes = images.bytes;
    match &images.same {
        Some(mark) => Ok(format!(in alloc; "{mark}*{PICKS}/{bytes} ")?),
        None => Ok(format!(in alloc; "{}/{bytes} ", images.marks)?),
    }
}

/// The same for each moment from one on.
fn each_moment(
    alloc: Global,
    half: Half,
    tables: &Tables,
    disk: &MemDisk,
    first: usize,
) -> Result<String, AllocError> {
    let mut text = String::new(alloc);
    for at in first..disk.moments() {
        text.push_str(at_moment(alloc, half, tables, disk, at)?.as_str())?;
    }
    Ok(text)
}

/// The moment from which on a start has a table.
fn first_moment(start: &Start) -> usize {
    if start.file.is_none() {
        MOMENTS_BEFORE
    } else {
        0
    }
}

/// The same for each moment of a journal to which records are appended.
fn crashes_on(
    alloc: Global,
    start: &Start,
    tables: &Tables,
    mut journal: Journal<MemDisk>,
    items: &[Record],
) -> Result<String, AllocError>
    requires { AllByRecursion ReadsBack items.now }
{
    let (_full, error) = append_each(alloc, &mut journal, items);
    let disk = journal.close();
    match error {
        None => each_moment(alloc, start.half, tables, &disk, first_moment(start)),
        Some(error) => word(alloc, error),
    }
}

/// The same for each moment while a file is opened and records are appended; of a journal that is made anew,
/// since it was formatted.
pub fn crashes(alloc: Global, start: &Start, items: &[Record]) -> Result<String, AllocError>
    requires { AllByRecursion ReadsBack items.now }
{
    let tables = Tables::of(alloc, start, items)?;
    match begin(alloc, start, Vec::new(alloc))? {
        Begun::Open(journal, _records) => crashes_on(alloc, start, &tables, journal, items),
        Begun::NotOpen(unopened) => word(alloc, unopened.why),
        Begun::NotMade(error) => word(alloc, error),
    }
}
