ghost use Rattle.std.specs.Prelude.{◌<◌, length};
ghost use Rattle.mem_disk.specs.Told.{moments_of};

use crate::options::Options;
use crate::outcome::run_on_disk;
use crate::report::Report;
use crate::tables::table_in;
use mem_disk::MemDisk;
use std::alloc::{AllocError, Global};
use std::sync::Wait;
use std::thread::Threads;

/// In how many ways it is chosen what a crash leaves.
const WAYS: u64 = 8;

/// Adds the tables that a crash at a moment leaves, by their numbers.
fn add_moment(
    alloc: Global,
    disk: &MemDisk,
    at: usize,
    report: &mut Report,
    out: &mut Vec<u8>,
) -> Result<(), AllocError>
    requires { at < length (moments_of disk.now) }
{
    for way in 0..WAYS {
        let left = disk.crashed(alloc, at, way)?;
        let said = table_in(alloc, left)?;
        let number = (at as u64).saturating_mul(WAYS).saturating_add(way);
        report.add(alloc, number, said, out)?;
    }
    Ok(())
}

/// Prints the tables that a crash leaves at each moment of a run.
pub fn run_crashes<R: AllocGlobal + Threads + Wait + Sync>(
    rt: &R,
    alloc: Global,
    script: &[u8],
    options: Options,
    out: &mut Vec<u8>,
) -> Result<(), AllocError> {
    let (_outcome, disk) = run_on_disk(rt, script, options)?;
    let mut report = Report::new(alloc);
    for at in 0..disk.moments() {
        add_moment(alloc, &disk, at, &mut report, out)?;
    }
    report.print(alloc, out)
}
