ghost use Rattle.std.specs.Prelude.{◌≡◌, ◌⊎◌, ◌+◌, ◌<◌, ◌≤◌, ℕ, Err, IfErr, IfOk, IfSome, IsErrOf, Ok, OnErr, OnOk, false, length, true};
ghost use Rattle.std.specs.List.{AllByRecursion};
ghost use Rattle.std.specs.Option.{option_map};
ghost use Rattle.dra_ports.specs.Causes.{Rose};
ghost use Rattle.dra_ports.specs.DiskContent.{synced, written};
ghost use Rattle.dra_ports.specs.DiskImages.{AtEachMoment};
ghost use Rattle.ckpt_journal.specs.Format.{ReadsBack, blocks};
ghost use Rattle.ckpt_journal.specs.Layout.{IsSized, is_half, layout_of, live, start_of};
ghost use Rattle.ckpt_journal.specs.Opened.{AfterSync, HasNone, IsFound, IsKept, IsOld, IsOpened, IsTold, half_opened};
ghost use Rattle.ckpt_journal.specs.Plan.{new_file};
ghost use Rattle.ckpt_journal.specs.Reading.{records};
ghost use Rattle.ckpt_journal.specs.Standing.{EndsAt, HasHalves, HasTable, IsOfBytes, IsSettled, Keeps, Returns, recorded};
ghost use Rattle.ckpt_journal.specs.Table.{IsTable, compact, table};
ghost use Rattle.ckpt_journal.specs.Words.{disk_of, half_of, has_ended, rows_of};
ghost use Rattle.ckpt_journal.specs.declared.layout.Layout.TheVariants.{Double, Single};

use crate::layout::{Halves, Layout};
use crate::reading::{FileRecords, read_records};
use crate::rows::table_of;
use crate::spelling::{compacted, empty_file, half_for, halves_of};
use crate::writing::move_to;
use crate::{Journal, JournalError, Record, Row};
use dra_ports::Disk;
use stable_writes::put;
use std::alloc::Global;

/// Makes a journal of no record out of whatever the disk holds, and makes it stable: writes the 22 bytes and
/// one half of a new file at its start. Bytes after them stay. Before this has returned `Ok` a crash may leave
/// anything. `half` is the size of a half in bytes, a power of two from 4,096 to 134,217,728.
///
/// `DiskFault` is returned only if the disk's error count rose in this call or is at its last value, and
/// `Memory` only if memory runs out; then nothing was changed.
pub fn format<D: Disk>(alloc: Global, disk: &mut D, half: u32) -> Result<(), JournalError>
    requires { is_half half ≡ true }
    ensures content { OnOk result (D.content disk.new ≡ option_map (λ c. synced (written 0 (new_file half) c)) (D.content disk.old)) }
    ensures none { OnOk result (IfSome (D.content disk.new) HasNone) }
    ensures halves { OnOk result (IfSome (D.content disk.new) (HasHalves half)) }
    ensures no_fault { OnOk result (D.faults disk.new ≡ D.faults disk.old) }
    ensures fault { IsErrOf result JournalError.DiskFault → Rose (D.faults disk.old) (D.faults disk.new) }
    ensures memory { IsErrOf result JournalError.Memory → disk.new ≡ disk.old }
    ensures only { IfErr result (λ e. (e ≡ JournalError.DiskFault) ⊎ (e ≡ JournalError.Memory)) }
{
    let bytes = empty_file(alloc, half)?;
    put(disk, 0, &bytes)?;
    Ok(())
}

/// Why something over a disk did not open, and the disk, handed back.
#[derive(Drop)]
pub struct Unopened<D, E> {
    /// The disk.
    pub disk: D,
    /// Why.
    pub why: E,
}

/// Reads all of a disk.
fn read_bytes<D: Disk>(alloc: Global, disk: &mut D) -> Result<Vec<u8>, JournalError>
    ensures told { IfOk result (λ v. IfSome (D.content disk.old) (λ c. c.bytes ≡ v.items)) }
    ensures same { D.content disk.new ≡ D.content disk.old }
    ensures no_fault { (IsErrOf result JournalError.DiskFault → ⊥) → D.faults disk.new ≡ D.faults disk.old }
    ensures fault { IsErrOf result JournalError.DiskFault → Rose (D.faults disk.old) (D.faults disk.new) }
    ensures only { IfErr result (λ e. (e ≡ JournalError.DiskFault) ⊎ (e ≡ JournalError.Memory)) }
{
    let len = disk.len()?;
    let mut bytes = Vec::new(alloc);
    bytes.resize(len as usize, 0)?;
    disk.read_at(0, &mut bytes)?;
    Ok(bytes)
}

/// Syncs a disk and reads all of it.
fn read_all<D: Disk>(alloc: Global, disk: &mut D) -> Result<Vec<u8>, JournalError>
    ensures told { IfOk result (λ v. IfSome (D.content disk.old) (λ c. c.bytes ≡ v.items)) }
    ensures synced { OnOk result (D.content disk.new ≡ option_map synced (D.content disk.old)) }
    ensures handed { (D.content disk.new ≡ D.content disk.old) ⊎ (D.content disk.new ≡ option_map synced (D.content disk.old)) }
    ensures no_fault { (IsErrOf result JournalError.DiskFault → ⊥) → D.faults disk.new ≡ D.faults disk.old }
    ensures fault { IsErrOf result JournalError.DiskFault → Rose (D.faults disk.old) (D.faults disk.new) }
    ensures only { IfErr result (λ e. (e ≡ JournalError.DiskFault) ⊎ (e ≡ JournalError.Memory)) }
{
    disk.sync()?;
    read_bytes(alloc, disk)
}

/// The records of a file, and what is known of them whatever a disk tells.
fn read_file(alloc: Global, bytes: &[u8]) -> Result<FileRecords, JournalError>
    ensures found { IfOk result (λ x. IsFound x.layout x.records.items x.end) }
    ensures exact { Returns (λ x. x.records.items) result (records bytes.now) }
    ensures laid { IfOk result (λ x. layout_of bytes.now ≡ Ok x.layout) }
    ensures ends { IfOk result (λ x. EndsAt x.records.items x.end (live x.layout bytes.now)) }
    ensures readable { IfOk result (λ x. AllByRecursion ReadsBack x.records.items) }
    ensures only { IfErr result IsOfBytes }
{
    match read_records(alloc, bytes) {
        Ok(file) => Ok(file),
        Err(why) => Err(why),
    }
}

/// Syncs a disk and reads its records.
fn load<D: Disk>(alloc: Global, disk: &mut D) -> Result<FileRecords, JournalError>
    ensures found { IfOk result (λ x. IsFound x.layout x.records.items x.end) }
    ensures told { IfOk result (λ x. IfSome (D.content disk.new) (IsTold x.layout x.records.items x.end)) }
    ensures readable { IfOk result (λ x. AllByRecursion ReadsBack x.records.items) }
    ensures exact { IfSome (D.content disk.old) (λ c. Returns (λ x. x.records.items) result (records c.bytes)) }
    ensures synced { OnOk result (D.content disk.new ≡ option_map synced (D.content disk.old)) }
    ensures handed { (D.content disk.new ≡ D.content disk.old) ⊎ (D.content disk.new ≡ option_map synced (D.content disk.old)) }
    ensures no_fault { (IsErrOf result JournalError.DiskFault → ⊥) → D.faults disk.new ≡ D.faults disk.old }
    ensures fault { IsErrOf result JournalError.DiskFault → Rose (D.faults disk.old) (D.faults disk.new) }
    ensures only { IfErr result (λ e. (e ≡ JournalError.DiskFault) ⊎ IsOfBytes e) }
{
    let bytes = read_all(alloc, disk)?;
    match read_file(alloc, &bytes) {
        Ok(file) => Ok(file),
        Err(why) => Err(why),
    }
}

/// The parts of a journal that is open.
#[derive(Drop)]
struct Opened {
    halves: Halves,
    end: u64,
    rows: Vec<Row>,
}

/// Moves a file of version 1 over, whose closed gate has the offset `base` - 1.
fn move_over<D: Disk>(
    alloc: Global,
    disk: &mut D,
    base: u64,
    half: u32,
    rows: Vec<Row>,
) -> Result<Opened, JournalError>
    requires half { is_half half ≡ true }
    requires rows { IsTable rows.items }
    requires base { (17 ≤ base) × (base ≤ 67108864) }
    requires used { 17 + length (blocks (compact rows.items)) ≤ base }
    requires told { IfSome (D.content disk.old) (IsOld rows.items base) }
    ensures opened { IfOk result (λ x. IsKept rows.items x.halves x.end x.rows.items) }
    ensures half { IfOk result (λ x. x.halves.half ≡ half_opened half rows.items Single) }
    ensures settled { IfOk result (λ x. IfSome (D.content disk.new) (IsSettled (recorded (D.content disk.new)) x.rows.items x.halves x.end)) }
    ensures any_moment { AtEachMoment (HasTable rows.items) (D.content disk.old) (D.content disk.new) }
    ensures same { IsErrOf result JournalError.Memory → D.content disk.new ≡ D.content disk.old }
    ensures no_fault { (IsErrOf result JournalError.DiskFault → ⊥) → D.faults disk.new ≡ D.faults disk.old }
    ensures fault { IsErrOf result JournalError.DiskFault → Rose (D.faults disk.old) (D.faults disk.new) }
    ensures only { IfErr result (λ e. (e ≡ JournalError.DiskFault) ⊎ (e ≡ JournalError.Memory)) }
{
    let table = compacted(alloc, &rows)?;
    let half = half_for(u64::from(half), table.len() as u64);
    let bytes = halves_of(alloc, half as u32, &table)?;
    move_to(disk, base, &bytes)?;
    let halves = Halves {
        base,
        half,
        second: false,
    };
    let end = base + 5 + (table.len() as u64 - 1);
    Ok(Opened { halves, end, rows })
}

/// The parts of a journal with the records of a file.
fn start<D: Disk>(
    alloc: Global,
    disk: &mut D,
    file: &FileRecords,
    half: u32,
) -> Result<Opened, JournalError>
    requires half { is_half half ≡ true }
    requires found { IsFound file.now.layout file.now.records.items file.now.end }
    requires told { IfSome (D.content disk.old) (IsTold file.now.layout file.now.records.items file.now.end) }
    ensures opened { IfOk result (λ x. IsOpened file.now.records.items x.halves x.end x.rows.items) }
    ensures half { IfOk result (λ x. x.halves.half ≡ half_opened half (table file.now.records.items) file.now.layout) }
    ensures settled { IfOk result (λ x. IfSome (D.content disk.new) (IsSettled (recorded (D.content disk.new)) x.rows.items x.halves x.end)) }
    ensures any_moment { AtEachMoment (HasTable (table file.now.records.items)) (D.content disk.old) (D.content disk.new) }
    ensures same { IsErrOf result JournalError.Memory → D.content disk.new ≡ D.content disk.old }
    ensures no_fault { (IsErrOf result JournalError.DiskFault → ⊥) → D.faults disk.new ≡ D.faults disk.old }
    ensures fault { IsErrOf result JournalError.DiskFault → Rose (D.faults disk.old) (D.faults disk.new) }
    ensures only { IfErr result (λ e. (e ≡ JournalError.DiskFault) ⊎ (e ≡ JournalError.Memory)) }
{
    let rows = table_of(alloc, &file.records)?;
    match file.layout {
        Layout::Double(halves) => Ok(Opened {
            halves,
            end: halves.start() + file.end,
            rows,
        }),
        Layout::Single => move_over(alloc, disk, 17 + file.end, half, rows),
    }
}

impl<D: Disk> Journal<D> {
    /// Syncs the disk, so that what is read is stable, and reads its records, up to the first closed
    /// gate. A file of version 1 is moved over to version 2; the size of its halves is the least that is at least
    /// `half` and at least twice the compacted table's. `half` is a power of two from 4,096 to 134,217,728. A crash
    /// at any moment after the sync leaves the table of the records.
    ///
    /// `NotAJournal(offset)` is returned only if the bytes are no journal, and if so no call returns
    /// `Ok`. `Memory` is returned only if memory runs out, and `DiskFault` only if the disk's error count
    /// rose in this call or is at its last value. With every other result the count does not change. An
    /// error hands the disk back; all but `DiskFault` have written nothing to it.
    ///
    /// What was read may be appended again: its keys and device ids read back.
    pub fn open(
        alloc: Global,
        disk: D,
        half: u32,
    ) -> Result<(Journal<D>, Vec<Record>), Unopened<D, JournalError>>
        requires { is_half half ≡ true }
        ensures kept { IfOk result (λ x. IfSome (D.content (disk_of x.0)) (Keeps (rows_of x.0))) }
        ensures rows { IfOk result (λ x. rows_of x.0 ≡ table x.1.items) }
        ensures records { IfOk result (λ x. IfSome (D.content disk) (λ c. records c.bytes ≡ Ok x.1.items)) }
        ensures half { IfOk result (λ x. IfSome (D.content disk) (λ c. IfOk (layout_of c.bytes) (λ layout. half_of x.0 ≡ half_opened half (rows_of x.0) layout))) }
        ensures readable { IfOk result (λ x. AllByRecursion ReadsBack x.1.items) }
        ensures going { IfOk result (λ x. has_ended x.0 ≡ false) }
        ensures any_moment { IfOk result (λ x. AtEachMoment (HasTable (rows_of x.0)) (option_map synced (D.content disk)) (D.content (disk_of x.0))) }
        ensures no_fault { IfOk result (λ x. D.faults (disk_of x.0) ≡ D.faults disk) }
        ensures bytes { IfErr result (λ e. IfSome (D.content disk) (λ c. (at : ℕ) → e.why ≡ JournalError.NotAJournal at → records c.bytes ≡ Err at)) }
        ensures fault { IfErr result (λ e. e.why ≡ JournalError.DiskFault → Rose (D.faults disk) (D.faults e.disk)) }
        ensures other { IfErr result (λ e. (e.why ≡ JournalError.DiskFault → ⊥) → D.faults e.disk ≡ D.faults disk) }
        ensures only { IfErr result (λ e. (e.why ≡ JournalError.DiskFault) ⊎ IsOfBytes e.why) }
        ensures stopped { IfErr result (λ e. AfterSync (D.content disk) (D.content e.disk)) }
        ensures handed { IfErr result (λ e. (e.why ≡ JournalError.DiskFault → ⊥) → (D.content e.disk ≡ D.content disk) ⊎ (D.content e.disk ≡ option_map synced (D.content disk))) }
    {
        let mut disk = disk;
        let file = match load(alloc, &mut disk) {
            Ok(file) => file,
            Err(why) => return Err(Unopened { disk, why }),
        };
        match start(alloc, &mut disk, &file, half) {
            Ok(opened) => Ok((
                Journal {
                    disk,
                    halves: opened.halves,
                    end: opened.end,
                    rows: opened.rows,
                    ended: false,
                },
                file.records,
            )),
            Err(why) => Err(Unopened { disk, why }),
        }
    }
}
