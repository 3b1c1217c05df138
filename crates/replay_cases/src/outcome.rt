ghost use Rattle.std.specs.Prelude.{◌<◌, ◌≤◌, ◌^◌, IfOk};

use crate::options::Options;
use crate::ports::{Input, Output};
use default_engine::DefaultEngine;
use dra_ports::{HoldGate, Point, PortError, read_all};
use dra_values::Text;
use mem_disk::MemDisk;
use prepare_core::{CallKind, MemDriver};
use replay_core::{ReplayOptions, Status, replay};
use std::alloc::{AllocError, Global};
use std::sync::Wait;
use std::thread::Threads;

/// How a run ended.
#[derive(Drop)]
pub struct Outcome {
    status: Status,
    left: Left,
    pub reads: u64,
    read_faults: u64,
    gave_up: bool,
    pub output: Output,
    node: String,
}

/// How many bytes no read had returned, which are read at the end.
#[derive(Clone, Copy, Drop)]
enum Left {
    /// These were read.
    Read(usize),
    /// Reading them failed once, and these were read then.
    Behind(usize),
    /// Reading them failed twice.
    Unread,
}

/// Reads what is left in an input, and says how many bytes that are. None if a read fails.
fn read_on(alloc: Global, input: &mut Input) -> Result<Option<usize>, AllocError> {
    match read_all(alloc, input) {
        Ok(rest) => Ok(Some(rest.len())),
        Err(PortError::Failed) => Ok(None),
        Err(PortError::Memory) => Err(AllocError),
    }
}

/// Reads what is left in an input, once more if that fails.
fn left_in(alloc: Global, input: &mut Input) -> Result<Left, AllocError> {
    if let Some(count) = read_on(alloc, input)? {
        return Ok(Left::Read(count));
    }
    match read_on(alloc, input)? {
        Some(count) => Ok(Left::Behind(count)),
        None => Ok(Left::Unread),
    }
}

/// The text for what was left.
fn left_text(alloc: Global, left: Left) -> Result<String, AllocError> {
    match left {
        Left::Read(count) => format!(in alloc; ", left {count}\n"),
        Left::Behind(count) => format!(in alloc; ", left {count} behind a fault\n"),
        Left::Unread => format!(in alloc; ", left unread\n"),
    }
}

/// No history may have room for this many entries.
const ENTRIES_BOUND: u64 = 281_474_976_710_656;

/// The name of the kubelet's node, which is empty for the number 0.
fn node_name(alloc: Global, number: u64) -> Result<Text, AllocError> {
    if number == 0 {
        Text::from_str(alloc, "")
    } else {
        let name = format!(in alloc; "n{number}")?;
        Text::new(alloc, name)
    }
}

/// A checkpoint of version 1 that has begun the claim `default/c` for the pod `default/p`, whose uid ends with 5.
const OLD: &[u8] = b"DRAKCKPT\0\0\0\0\0\0\0\0Z\0\0\0[\x01\0\x2400000000-0000-4000-8000-000000000005\
    \0\x09default/c\0\x01\0\x09default/p\0\x01\0\x18gpu.example.com/n2/gpu-0\0";

/// One without records.
const OLD_EMPTY: &[u8] = b"DRAKCKPT\0\0\0\0\0\0\0\0\0";

/// The first bytes of another program's file.
const OTHER: &[u8] = b"SQLite format 3\0";

/// The bytes of the checkpoint as it is found.
fn found_bytes(found: u64) -> &'static [u8] {
    if found == 1 {
        return OLD_EMPTY;
    }
    OLD.get(..found as usize).unwrap_or(OTHER)
}

/// The size in bytes of the largest half.
const LARGEST_HALF: u64 = 134_217_728;

/// A checkpoint of version 2 without records, whose halves have so many bytes: 16 bytes, the size of a half, the byte that
/// makes the first half live, that half, and the first gate of the other.
fn new_checkpoint(alloc: Global, half: u64) -> Result<Vec<u8>, AllocError> {
    let half = half.min(LARGEST_HALF) as u32;
    let mut bytes = Vec::from_slice(alloc, b"DRAKCKPT\0\0\0\x02\0\0\0\x10")?;
    bytes.extend_from_slice(&half.to_be_bytes())?;
    bytes.resize(half as usize + 22, 0)?;
    Ok(bytes)
}

/// The disk as it is found.
fn disk_of(alloc: Global, options: Options) -> Result<MemDisk, AllocError> {
    let failing = vec![in alloc; options.fail_disk]?;
    let bytes = if options.half == 0 {
        Vec::from_slice(alloc, found_bytes(options.found))?
    } else {
        new_checkpoint(alloc, options.half)?
    };
    MemDisk::new(alloc, bytes, failing)
}

/// What the driver was asked and how many bytes the disk holds, if it wasn't left as it was found and didn't fail: a
/// letter for each call, P to prepare and U to take back, with `!` after one that failed.
fn node_text(
    alloc: Global,
    status: Status,
    disk: &MemDisk,
    driver: &MemDriver,
    found: usize,
) -> Result<String, AllocError> {
    let mut text = String::new(alloc);
    if status == Status::Disk || (disk.bytes().len() == found && driver.calls().is_empty()) {
        return Ok(text);
    }
    text.push_str(", driver ")?;
    for call in driver.calls() {
        let letter = match call.kind {
            CallKind::Prepare => "P",
            CallKind::Unprepare => "U",
        };
        text.push_str(letter)?;
        if !call.ok {
            text.push_str("!")?;
        }
    }
    if driver.calls().is_empty() {
        text.push_str("-")?;
    }
    let bytes = format!(in alloc; ", disk {}", disk.bytes().len())?;
    text.push_str(bytes.as_str())?;
    Ok(text)
}

/// How a script is replayed: by 1 to 64 workers.
fn replay_options(alloc: Global, options: Options) -> Result<ReplayOptions, AllocError>
    ensures workers { IfOk result (λ o. (0 < o.workers) × (o.workers ≤ 64)) }
    ensures entries { IfOk result (λ o. o.entries < 2 ^ 48) }
    ensures attempts { IfOk result (λ o. 0 < o.attempts) }
{
    let node = node_name(alloc, options.node)?;
    Ok(ReplayOptions {
        workers: options.workers.clamp(1, 64),
        budget: options.budget,
        attempts: options.attempts.max(1),
        entries: options.entries.min(ENTRIES_BOUND - 1),
        node,
    })
}

/// The gate that holds two jobs as the options say.
fn gate_of(options: Options) -> HoldGate {
    let point = if options.reserved == 0 {
        Point::Searched
    } else {
        Point::Reserved
    };
    HoldGate::new(options.held, point, options.until, options.turns)
}

/// Replays a script over a disk, and returns the disk, the status and what became of the disk and the driver.
fn replay_over<R: AllocGlobal + Threads + Wait + Sync>(
    rt: &R,
    how: &ReplayOptions,
    input: &mut Input,
    output: &mut Output,
    disk: MemDisk,
    driver: &mut MemDriver,
    gate: &HoldGate,
) -> (MemDisk, Status, Result<String, AllocError>)
    requires workers { (0 < how.now.workers) × (how.now.workers ≤ 64) }
    requires entries { how.now.entries < 2 ^ 48 }
    requires attempts { 0 < how.now.attempts }
{
    let found = disk.bytes().len();
    let (disk, status) = replay::<DefaultEngine, _, _, _, _, _, _>(
        rt, how, input, output, disk, driver, gate,
    );
    let node = node_text(rt.alloc(), status, &disk, driver, found);
    (disk, status, node)
}

/// Runs a script. A read returns at least one byte and a write takes at least one.
pub fn run_once<R: AllocGlobal + Threads + Wait + Sync>(
    rt: &R,
    script: &[u8],
    options: Options,
) -> Result<Outcome, AllocError> {
    let (outcome, _disk) = run_on_disk(rt, script, options)?;
    Ok(outcome)
}

/// Runs a script, and returns the disk too.
pub fn run_on_disk<R: AllocGlobal + Threads + Wait + Sync>(
    rt: &R,
    script: &[u8],
    options: Options,
) -> Result<(Outcome, MemDisk), AllocError> {
    let alloc = rt.alloc();
    let takes = (options.takes as usize).max(1);
    let pieces = (options.pieces as usize).max(1);
    let how = replay_options(alloc, options)?;
    let mut driver = MemDriver::new(alloc, vec![in alloc; options.fail_driver]?);
    let Ok(mut output) = Output::new(alloc, takes, options.fail_write) else {
        return Err(AllocError);
    };
    let mut input = Input::new(alloc, script, pieces, options.fail_read)?;
    let disk = disk_of(alloc, options)?;
    let gate = gate_of(options);
    let (disk, status, node) = replay_over(
        rt,
        &how,
        &mut input,
        &mut output,
        disk,
        &mut driver,
        &gate,
    );
    let node = node?;
    let reads = input.reads;
    let read_faults = input.faults;
    let left = left_in(alloc, &mut input)?;
    let outcome = Outcome {
        status,
        left,
        reads,
        read_faults,
        gave_up: gate.gave_up(),
        output,
        node,
    };
    Ok((outcome, disk))
}

/// The exit status of the program `dra` and its name, with the offset or the count.
fn status_text(alloc: Global, status: Status) -> Result<String, AllocError> {
    match status {
        Status::Done => format!(in alloc; "0 done"),
        Status::Usage => format!(in alloc; "2 usage"),
        Status::Document(at, _) => format!(in alloc; "3 document {at}"),
        Status::Memory => format!(in alloc; "4 memory"),
        Status::Read => format!(in alloc; "5 read"),
        Status::Write => format!(in alloc; "6 write"),
        Status::Disk => format!(in alloc; "7 disk"),
        Status::Limit(count) => format!(in alloc; "8 limit {count}"),
        Status::Checkpoint(at) => format!(in alloc; "10 checkpoint {at}"),
        Status::Door => format!(in alloc; "9 door"),
    }
}

impl Outcome {
    /// The status and the error counts of the input and of the output, and whether a job waited in vain.
    fn head(&self, alloc: Global) -> Result<String, AllocError> {
        let status = status_text(alloc, self.status)?;
        let read_faults = self.read_faults;
        let write_faults = self.output.faults;
        let waited = if self.gave_up { ", waited in vain" } else { "" };
        let node = &self.node;
        format!(in alloc; "{status}, faults {read_faults} {write_faults}{waited}{node}")
    }

    /// Prints the outcome with the whole output.
    pub fn print_whole(&self, alloc: Global, out: &mut Vec<u8>) -> Result<(), AllocError> {
        let head = self.head(alloc)?;
        out.extend_from_slice(head.as_bytes())?;
        let left = left_text(alloc, self.left)?;
        out.extend_from_slice(left.as_bytes())?;
        out.extend_from_slice(self.output.bytes())
    }

    /// The outcome on one line: how many leading lines the output shares with `whole`, and the rest
    /// with `;` for each line end.
    pub fn in_short(&self, alloc: Global, whole: &[u8]) -> Result<Vec<u8>, AllocError> {
        let head = self.head(alloc)?;
        let text = self.output.bytes();
        let (lines, end) = shared_lines(text, whole);
        let line = format!(in alloc; "{head}, lines {lines}")?;
        let mut said = Vec::from_slice(alloc, line.as_bytes())?;
        push_rest(&mut said, text.get(end..).unwrap_or(&[]))?;
        Ok(said)
    }
}

/// How many leading lines two texts share, and the offset where these end.
fn shared_lines(text: &[u8], whole: &[u8]) -> (usize, usize) {
    let mut lines = 0usize;
    let mut end = 0;
    let mut at = 0usize;
    for (byte, other) in text.iter().zip(whole) {
        if byte != other {
            break;
        }
        at = at.saturating_add(1);
        if *byte == b'\n' {
            lines = lines.saturating_add(1);
            end = at;
        }
    }
    (lines, end)
}

/// Appends the rest of a text, if there is one, with `;` for each line end.
fn push_rest(said: &mut Vec<u8>, rest: &[u8]) -> Result<(), AllocError> {
    if !rest.is_empty() {
        said.extend_from_slice(b" then ")?;
    }
    for byte in rest {
        said.push(if *byte == b'\n' { b';' } else { *byte })?;
    }
    Ok(())
}
