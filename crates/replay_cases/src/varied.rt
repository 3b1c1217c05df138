use crate::options::Options;
use crate::outcome::run_once;
use crate::reader::Reader;
use crate::report::Report;
use std::alloc::{AllocError, Global};
use std::sync::Wait;
use std::thread::Threads;

/// What is varied from run to run.
#[derive(Clone, Copy, Drop)]
pub enum Varied {
    /// Where the script is cut: at each of its lengths.
    Cut,
    /// The size of the pieces: each from 1 to that of the options.
    Pieces,
    /// The read that fails: each of those of a run, and one more.
    FailRead,
    /// The write that fails: each of those of a run, and one more.
    FailWrite,
    /// The disk's call that fails: each from 1 to that of the options.
    FailDisk,
    /// The most entries: each from 0 to that of the options.
    Entries,
}

/// The first and the last number of the runs.
fn numbers<R: AllocGlobal + Threads + Wait + Sync>(
    rt: &R,
    varied: Varied,
    script: &[u8],
    options: Options,
) -> Result<(u64, u64), AllocError> {
    match varied {
        Varied::Cut => Ok((0, script.len() as u64)),
        Varied::Pieces => Ok((1, options.pieces)),
        Varied::FailRead => {
            let reads = run_once(rt, script, options)?.reads;
            Ok((1, reads.saturating_add(1)))
        }
        Varied::FailWrite => {
            let writes = run_once(rt, script, options)?.output.writes;
            Ok((1, writes.saturating_add(1)))
        }
        Varied::FailDisk => Ok((1, options.fail_disk)),
        Varied::Entries => Ok((0, options.entries)),
    }
}

/// The options of the run of a number.
fn options_of(varied: Varied, options: Options, number: u64) -> Options {
    match varied {
        Varied::Cut => options,
        Varied::Pieces => Options {
            pieces: number,
            ..options
        },
        Varied::FailRead => Options {
            fail_read: number,
            ..options
        },
        Varied::FailWrite => Options {
            fail_write: number,
            ..options
        },
        Varied::FailDisk => Options {
            fail_disk: number,
            ..options
        },
        Varied::Entries => Options {
            entries: number,
            ..options
        },
    }
}

/// The options of the run that isn't varied, whose disk doesn't fail.
fn unfailing(varied: Varied, options: Options) -> Options {
    match varied {
        Varied::FailDisk => options_of(varied, options, 0),
        _ => options,
    }
}

/// The script of the run of a number.
fn script_of(varied: Varied, script: &[u8], number: u64) -> &[u8] {
    match varied {
        Varied::Cut => script.get(..number as usize).unwrap_or(&[]),
        _ => script,
    }
}

/// What a run prints.
fn text_of<R: AllocGlobal + Threads + Wait + Sync>(
    rt: &R,
    alloc: Global,
    script: &[u8],
    options: Options,
) -> Result<Vec<u8>, AllocError> {
    let outcome = run_once(rt, script, options)?;
    Vec::from_slice(alloc, outcome.output.bytes())
}

/// Runs a script once for each number, and prints the outcomes beside that of the unvaried run.
pub fn run_varied<R: AllocGlobal + Threads + Wait + Sync>(
    rt: &R,
    alloc: Global,
    varied: Varied,
    script: &[u8],
    options: Options,
    out: &mut Vec<u8>,
) -> Result<(), AllocError> {
    let whole = text_of(rt, alloc, script, unfailing(varied, options))?;
    let (first, last) = numbers(rt, varied, script, options)?;
    let mut report = Report::new(alloc);
    for number in first..=last {
        let options = options_of(varied, options, number);
        let outcome = run_once(rt, script_of(varied, script, number), options)?;
        let said = outcome.in_short(alloc, &whole)?;
        report.add(alloc, number, said, out)?;
    }
    report.print(alloc, out)
}

/// Runs each line of a script after a prefix, and prints the outcomes beside that of the prefix.
pub fn run_each<R: AllocGlobal + Threads + Wait + Sync>(
    rt: &R,
    alloc: Global,
    prefix: &[u8],
    lines: &[u8],
    options: Options,
    out: &mut Vec<u8>,
) -> Result<(), AllocError> {
    let whole = text_of(rt, alloc, prefix, options)?;
    let mut report = Report::new(alloc);
    let mut reader = Reader::new(lines);
    for number in 1..=lines.len() {
        let Some(line) = reader.next_line() else {
            break;
        };
        let said = said_behind(rt, alloc, prefix, line, options, &whole)?;
        report.add(alloc, number as u64, said, out)?;
    }
    report.print(alloc, out)
}

/// The outcome of a line after a prefix.
fn said_behind<R: AllocGlobal + Threads + Wait + Sync>(
    rt: &R,
    alloc: Global,
    prefix: &[u8],
    line: &[u8],
    options: Options,
    whole: &[u8],
) -> Result<Vec<u8>, AllocError> {
    let mut script = Vec::from_slice(alloc, prefix)?;
    script.extend_from_slice(line)?;
    let outcome = run_once(rt, &script, options)?;
    outcome.in_short(alloc, whole)
}
