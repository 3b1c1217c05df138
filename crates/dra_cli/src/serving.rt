ghost use Rattle.std.specs.Prelude.{◌≡◌, ◌⊎◌};
ghost use Rattle.dra_ports.specs.Causes.{Rose};
ghost use Rattle.dra_cli.specs.Serving.{ServesSo, seen_as, serve_options, serve_status};
ghost use Rattle.dra_cli.specs.Task.{AreServed};

use crate::headline::served_are_true;
use api_server::{ServeOptions, ServeStatus, serve};
use cli_words::ServeWords;
use default_engine::DefaultEngine;
use door_ports::Doors;
use dra_ports::{Gate, Sink};
use replay_core::Status;
use std::sync::Wait;
use std::thread::Threads;

/// How a server works that these words ask for.
fn options_of(words: &ServeWords) -> ServeOptions
    ensures { result ≡ serve_options words.now }
{
    ServeOptions {
        workers: words.options.workers,
        connections: words.connections,
        budget: words.options.budget,
        attempts: words.options.attempts,
        entries: words.options.entries,
    }
}

/// The status of the program for that of a server.
fn status_of(status: ServeStatus) -> Status
    ensures { result ≡ serve_status status }
{
    match status {
        ServeStatus::Done => Status::Done,
        ServeStatus::Memory => Status::Memory,
        ServeStatus::Write => Status::Write,
        ServeStatus::Door => Status::Door,
        ServeStatus::Limit(count) => Status::Limit(count),
    }
}

/// Serves connections to an address as the words ask for, over an empty history, and prints what came of it.
pub fn serve_words<R: AllocGlobal + Threads + Wait + Sync, K: Sink, O: Doors, G: Gate + Sync>(
    rt: &R,
    words: &ServeWords,
    output: &mut K,
    doors: &mut O,
    gate: &G,
) -> Status
    requires fit { AreServed words.now }
    ensures serves { ServesSo (serve_options words.now) (seen_as (O.served doors.old) (O.ended doors.old)) (seen_as (O.served doors.new) (O.ended doors.new)) (K.written output.old) (K.written output.new) result }
    ensures complete { (Rose (K.faults output.old) (K.faults output.new) → ⊥) → (Rose (O.faults doors.old) (O.faults doors.new) → ⊥) → ((result ≡ Status.Done) ⊎ (result ≡ Status.Limit words.now.options.entries)) ⊎ (result ≡ Status.Memory) }
    ensures write { result ≡ Status.Write → Rose (K.faults output.old) (K.faults output.new) }
    ensures faultless { (result ≡ Status.Write → ⊥) → K.faults output.new ≡ K.faults output.old }
    ensures door { result ≡ Status.Door → Rose (O.faults doors.old) (O.faults doors.new) }
    ensures faultless_doors { (result ≡ Status.Door → ⊥) → (result ≡ Status.Memory → ⊥) → O.faults doors.new ≡ O.faults doors.old }
{
    served_are_true();
    let options = options_of(words);
    status_of(serve::<DefaultEngine, _, _, _, _>(
        rt,
        words.address.as_str(),
        options,
        output,
        doors,
        gate,
    ))
}
