use crate::options::Options;
use crate::outcome::run_once;
use std::alloc::{AllocError, Global};
use std::sync::Wait;
use std::thread::Threads;

/// What fails from run to run.
#[derive(Clone, Copy, Drop)]
pub enum Failing {
    /// A call of the first connection.
    Call,
    /// A call of the doors.
    Door,
}

/// The options of a run whose call of this number fails.
fn options_of(failing: Failing, options: Options, number: u64) -> Options {
    match failing {
        Failing::Call => Options {
            fail_call: number,
            ..options
        },
        Failing::Door => Options {
            fail_door: number,
            ..options
        },
    }
}

/// Appends an outcome with its number.
fn push_numbered(
    alloc: Global,
    number: u64,
    said: &[u8],
    out: &mut Vec<u8>,
) -> Result<(), AllocError> {
    let number = format!(in alloc; "{number}: ")?;
    out.extend_from_slice(number.as_bytes())?;
    out.extend_from_slice(said)?;
    out.push(b'\n')?;
    Ok(())
}

/// Serves connections while the call of each number in turn fails, up to the first after which all is as if none did. Prints
/// an outcome with its number where it changes.
pub fn run_failing<R: AllocGlobal + Threads + Wait + Sync>(
    rt: &R,
    alloc: Global,
    failing: Failing,
    sent: &[&[u8]],
    options: Options,
    out: &mut Vec<u8>,
) -> Result<(), AllocError> {
    let whole = run_once(rt, sent, options)?.in_short(alloc)?;
    let mut before = Vec::new(alloc);
    'calls: for number in 1..10_000 {
        let said = run_once(rt, sent, options_of(failing, options, number))?.in_short(alloc)?;
        if said.as_slice() != before.as_slice() {
            push_numbered(alloc, number, &said, out)?;
        }
        if said.as_slice() == whole.as_slice() {
            break 'calls;
        }
        before = said;
    }
    Ok(())
}
