ghost use Rattle.std.specs.Prelude.{◌≡◌, ◌≤◌, IfErr, IfOk};
ghost use Rattle.dra_ports.specs.Causes.{Rose};
ghost use Rattle.dra_cli.specs.Exercise.{IsText, Prints, exercise_options};
ghost use Rattle.replay_core.specs.Lines.{output_status};

use crate::last_line::last_line;
use crate::laws::scripts_are_clean;
use crate::memory::{Kept, Script};
use crate::nowhere::{NoDisk, NoDriver};
use default_engine::DefaultEngine;
use dra_ports::{OpenGate, PortError, Sink, write_all};
use dra_values::Text;
use histories::legal_steps;
use journal_text::line_is_one_line;
use replay_core::{ReplayOptions, Status, replay, single_commands_are_undisturbed};
use script_gen::script;
use short_jobs::single_jobs_are_short;
use std::alloc::{AllocError, Global};
use std::sync::Wait;
use std::thread::Threads;

/// How many entries the history of a generated script has at most.
const MOST_ENTRIES: u64 = 2_000_000;

/// One worker, and else the options that a replay has if none is given.
fn options(alloc: Global) -> Result<ReplayOptions, AllocError>
    ensures { IfOk result (λ o. o ≡ exercise_options) }
{
    Ok(ReplayOptions {
        workers: 1,
        budget: 100_000,
        attempts: 32,
        entries: MOST_ENTRIES,
        node: Text::from_str(alloc, "")?,
    })
}

/// What a replay of the generated script writes, the summary at its end.
fn replayed<R: AllocGlobal + Threads + Wait + Sync>(
    rt: &R,
    from: u64,
    pods: u64,
) -> Result<Vec<u8>, Status>
    requires { pods ≤ 100000 }
    ensures ok { IfOk result (λ v. IsText from pods v.items) }
    ensures err { IfErr result (λ s. s ≡ Status.Memory) }
{
    scripts_are_clean();
    single_jobs_are_short();
    single_commands_are_undisturbed();
    legal_steps();
    line_is_one_line();
    let alloc = rt.alloc();
    let Ok(options) = options(alloc) else {
        return Err(Status::Memory);
    };
    let Ok(text) = script(alloc, from, pods) else {
        return Err(Status::Memory);
    };
    let mut input = Script::new(text);
    let mut output = Kept::new(alloc);
    let (_, status) = replay::<DefaultEngine, _, _, _, _, _, _>(
        rt,
        &options,
        &mut input,
        &mut output,
        NoDisk,
        &mut NoDriver,
        &OpenGate,
    );
    match status {
        Status::Done => Ok(output.into_bytes()),
        _ => Err(status),
    }
}

/// The status for an error of the output.
fn output_status(error: PortError) -> Status
    ensures { result ≡ output_status error }
{
    match error {
        PortError::Failed => Status::Write,
        PortError::Memory => Status::Memory,
    }
}

/// Replays the script of so many pods, at most 100,000, that is generated from a number, with one worker and the
/// options that a replay has if none is given, and prints the summary of its history alone.
///
/// With `Done` what was printed is the summary of a legal history that is the run of the script's commands. With `Memory`,
/// which is returned only if memory ran out, and with `Write`, which is returned only if the output's count of errors rose
/// or is at its maximum, it is a prefix of such a summary, or nothing. There are no other statuses: the script has
/// commands alone, none of which is the kubelet's, and never reaches its limit of 2,000,000 entries.
pub fn exercise<R: AllocGlobal + Threads + Wait + Sync, K: Sink>(
    rt: &R,
    from: u64,
    pods: u64,
    output: &mut K,
) -> Status
    requires { pods ≤ 100000 }
    ensures prints { Prints from pods (K.written output.old) (K.written output.new) result }
    ensures write { result ≡ Status.Write → Rose (K.faults output.old) (K.faults output.new) }
    ensures faultless { (result ≡ Status.Write → ⊥) → K.faults output.new ≡ K.faults output.old }
{
    match replayed(rt, from, pods) {
        Ok(text) => match write_all(output, last_line(&text)) {
            Ok(()) => Status::Done,
            Err(error) => output_status(error),
        },
        Err(status) => status,
    }
}
