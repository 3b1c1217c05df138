ghost use Rattle.std.specs.Prelude.{◌≡◌, ◌+◌, ◌<◌, ◌≤◌, [], Err, IfOk, IsErrOf, Ok, OnErr, OnOk, Some, drop, get_or, if◌then◌else◌, length, take};
ghost use Rattle.std.specs.Bool.{OnTrue};
ghost use Rattle.dra_ports.specs.Causes.{HasCause};
ghost use Rattle.dra_ports.specs.DiskContent.{IsImage, Partly, blurred, exactly, shortened, shorter, synced, written};
ghost use Rattle.dra_ports.specs.Memory.{after_call, after_fault, fails_next, new_plan};
ghost use Rattle.dra_ports.specs.declared.error.PortError.TheVariants.{Failed, Memory};
ghost use Rattle.mem_disk.specs.Told.{after_change, content_of, disk_plan, moments_of};

use crate::history::History;
use dra_ports::{Disk, Failures, PortError};
use std::alloc::{AllocError, Global};

/// A disk in memory: it keeps what its calls changed, so that a crash at each moment can be tried. It is
/// honest: a sync that returns `Ok` keeps what was written.
#[derive(Drop)]
pub struct MemDisk {
    alloc: Global,
    history: History,
    failures: Failures,
}

impl MemDisk {
    /// A disk with these bytes, all of them sure. The calls whose numbers, from 1, are in
    /// `failing` fail. Returns `AllocError` only if out of memory.
    pub fn new(alloc: Global, bytes: Vec<u8>, failing: Vec<u64>) -> Result<MemDisk, AllocError>
        ensures bytes { IfOk result (λ d. (content_of d).bytes ≡ bytes.items) }
        ensures sure { IfOk result (λ d. (content_of d).sure ≡ exactly bytes.items) }
        ensures earlier { IfOk result (λ d. (content_of d).earlier ≡ []) }
        ensures plan { IfOk result (λ d. disk_plan d ≡ new_plan failing.items) }
    {
        Ok(MemDisk {
            alloc,
            history: History::new(alloc, bytes)?,
            failures: Failures::new(failing),
        })
    }

    /// What a read returns.
    pub fn bytes(&self) -> &[u8]
        ensures { result.now ≡ (content_of self.now).bytes }
    {
        self.history.bytes()
    }

    /// The number of moments: the first, and one after each write, cut and sync that returned `Ok`.
    pub fn moments(&self) -> usize
        ensures { result ≡ length (moments_of self.now) }
    {
        self.history.moments()
    }

    /// The disk that a crash at the moment `at`, from 0, leaves: of the byte lists that it may leave
    /// the one that `pick` chooses, all bytes of it sure, on a disk whose calls don't fail.
    /// Returns `AllocError` only if out of memory.
    pub fn crashed(&self, alloc: Global, at: usize, pick: u64) -> Result<MemDisk, AllocError>
        requires { at < length (moments_of self.now) }
        ensures image { IfOk result (λ d. IsImage (get_or (moments_of self.now) at (content_of self.now).sure) (content_of d).bytes) }
        ensures sure { IfOk result (λ d. (content_of d).sure ≡ exactly (content_of d).bytes) }
        ensures earlier { IfOk result (λ d. (content_of d).earlier ≡ []) }
        ensures plan { IfOk result (λ d. disk_plan d ≡ new_plan []) }
    {
        let bytes = self.history.image(alloc, at, pick)?;
        MemDisk::new(alloc, bytes, Vec::new(alloc))
    }

    /// The result of a change, whose error of memory is counted as one of the disk.
    fn changed(&mut self, made: Result<(), AllocError>) -> Result<(), PortError>
        ensures ok { OnOk made (result ≡ Ok tt) }
        ensures err { OnErr made (result ≡ Err Failed) }
        ensures same { content_of self.new ≡ content_of self.old }
        ensures plan_ok { OnOk made (disk_plan self.new ≡ disk_plan self.old) }
        ensures plan_err { OnErr made (disk_plan self.new ≡ after_fault (disk_plan self.old)) }
        ensures cause { HasCause (disk_plan self.old).faults (disk_plan self.new).faults result }
    {
        match made {
            Ok(()) => Ok(()),
            Err(_) => Err(self.failures.fault()),
        }
    }
}

/// A call whose number is in the list of those that fail returns `Failed` and changes nothing
/// but the counts. Each other call succeeds, except for a write, a cut or a sync that is out of
/// memory: then too only the counts change.
impl Disk for MemDisk {
    ghost use Rattle.std.specs.Prelude.{Some};
    ghost use Rattle.mem_disk.specs.Told.{content_of, disk_plan};

    ghost content = { λ d. Some (content_of d) };

    ghost faults = { λ d. (disk_plan d).faults };

    fn len(&mut self) -> Result<u64, PortError>
        ensures value { IfOk result (λ n. n ≡ length (content_of self.old).bytes) }
        ensures same { content_of self.new ≡ content_of self.old }
        ensures cause { HasCause (disk_plan self.old).faults (disk_plan self.new).faults result }
        ensures no_memory { IsErrOf result Memory → ⊥ }
        ensures answer { result ≡ if fails_next (disk_plan self.old) then Err Failed else Ok (length (content_of self.old).bytes) }
        ensures plan { disk_plan self.new ≡ after_call (disk_plan self.old) }
    {
        if self.failures.next_fails() {
            return Err(PortError::Failed);
        }
        Ok(self.history.bytes().len() as u64)
    }

    fn read_at(&mut self, at: u64, into: &mut [u8]) -> Result<(), PortError>
        requires { at + length into.old ≤ length (content_of self.old).bytes }
        ensures value { OnOk result (into.new ≡ take (length into.old) (drop at (content_of self.old).bytes)) }
        ensures same { content_of self.new ≡ content_of self.old }
        ensures cause { HasCause (disk_plan self.old).faults (disk_plan self.new).faults result }
        ensures no_memory { IsErrOf result Memory → ⊥ }
        ensures answer { result ≡ if fails_next (disk_plan self.old) then Err Failed else Ok tt }
        ensures plan { disk_plan self.new ≡ after_call (disk_plan self.old) }
    {
        if self.failures.next_fails() {
            return Err(PortError::Failed);
        }
        let start = at as usize;
        into.copy_from_slice(&self.history.bytes()[start..start + into.len()]);
        Ok(())
    }

    fn write_at(&mut self, at: u64, from: &[u8]) -> Result<(), PortError>
        requires { at ≤ length (content_of self.old).bytes }
        ensures ok { OnOk result (content_of self.new ≡ written at from.now (content_of self.old)) }
        ensures err { OnErr result (Partly (blurred at (length from.now)) (Some (content_of self.old)) (Some (content_of self.new))) }
        ensures cause { HasCause (disk_plan self.old).faults (disk_plan self.new).faults result }
        ensures no_memory { IsErrOf result Memory → ⊥ }
        ensures same { OnErr result (content_of self.new ≡ content_of self.old) }
        ensures fails { OnTrue (fails_next (disk_plan self.old)) (result ≡ Err Failed) }
        ensures plan { disk_plan self.new ≡ after_change (disk_plan self.old) result }
    {
        if self.failures.next_fails() {
            return Err(PortError::Failed);
        }
        let made = self.history.write(self.alloc, at as usize, from);
        self.changed(made)
    }

    fn cut(&mut self, len: u64) -> Result<(), PortError>
        requires { len ≤ length (content_of self.old).bytes }
        ensures ok { OnOk result (content_of self.new ≡ shortened len (content_of self.old)) }
        ensures err { OnErr result (Partly (shorter len) (Some (content_of self.old)) (Some (content_of self.new))) }
        ensures cause { HasCause (disk_plan self.old).faults (disk_plan self.new).faults result }
        ensures no_memory { IsErrOf result Memory → ⊥ }
        ensures same { OnErr result (content_of self.new ≡ content_of self.old) }
        ensures fails { OnTrue (fails_next (disk_plan self.old)) (result ≡ Err Failed) }
        ensures plan { disk_plan self.new ≡ after_change (disk_plan self.old) result }
    {
        if self.failures.next_fails() {
            return Err(PortError::Failed);
        }
        let made = self.history.cut(len as usize);
        self.changed(made)
    }

    fn sync(&mut self) -> Result<(), PortError>
        ensures ok { OnOk result (content_of self.new ≡ synced (content_of self.old)) }
        ensures err { OnErr result (content_of self.new ≡ content_of self.old) }
        ensures cause { HasCause (disk_plan self.old).faults (disk_plan self.new).faults result }
        ensures no_memory { IsErrOf result Memory → ⊥ }
        ensures fails { OnTrue (fails_next (disk_plan self.old)) (result ≡ Err Failed) }
        ensures plan { disk_plan self.new ≡ after_change (disk_plan self.old) result }
    {
        if self.failures.next_fails() {
            return Err(PortError::Failed);
        }
        let made = self.history.sync();
        self.changed(made)
    }
}
