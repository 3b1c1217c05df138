//! The program `dra`: `dra replay [--workers n] [--budget B] [--attempts A] [--entries E] [--node name]
//! < script` replays a script of the Kubernetes API's objects and prints the journal of what was decided. The kubelet of
//! the node keeps its checkpoint in the file `checkpoint.dra` of the current folder. `dra serve --address a --connections k`
//! serves so many connections to an address, each of which speaks HTTP, and prints the journal of what was decided. `dra
//! exercise --from s --pods p` replays a script that is generated, and prints its summary alone.
#![tactic(auto)]

mod announced;
mod denials;
mod exercise;
mod headline;
mod last_line;
mod laws;
mod memory;
mod message;
mod nowhere;
mod position;
mod program;
mod serving;
mod stdio;
mod tail;
mod task;
mod yes_driver;

use announced::AnnouncedDoors;
use denials::{Denials, WatchedSink};
use dra_ports::OpenGate;
use file_disk::FileDisk;
use message::Message;
use net_doors::NetDoors;
use program::{exit_number, run};
use replay_core::Status;
use std::io::{self, ErrorKind};
use std::process::ExitCode;
use std::{env, str};
use stdio::{StdSink, StdSource};
use tail::TailSource;
use yes_driver::YesDriver;

/// The arguments of this call after the program's name.
fn words_of_call(rt: &HostRuntime) -> io::Result<Vec<String>> {
    let mut words: Vec<String> = env::args(rt)?.collect(rt.alloc())?;
    if !words.is_empty() {
        words.remove(0);
    }
    Ok(words)
}

/// The status if the arguments of this call can't be had.
fn status_without_words(error: &io::Error) -> Status {
    if error.kind() == ErrorKind::OutOfMemory {
        Status::Memory
    } else {
        Status::Usage
    }
}

/// Says on the standard error how many commands were denied, and the first of them, if there are any.
/// If the standard error fails, nothing is said.
fn report(rt: &HostRuntime, denials: &Denials) {
    let first = str::from_utf8(denials.first()).unwrap_or("");
    let count = denials.count();
    if count == 1 {
        let _ = eprintln!(rt; "dra: 1 command was denied: {first}");
    }
    if count > 1 {
        let _ = eprintln!(rt; "dra: {count} commands were denied, the first of them: {first}");
    }
}

fn main(rt: HostRuntime) -> ExitCode {
    let mut input = TailSource::new(StdSource::new(rt.stdin()), rt.alloc());
    let mut output = WatchedSink::new(StdSink::new(rt.stdout()), rt.alloc());
    let status = match words_of_call(&rt) {
        Ok(words) => {
            let disk = FileDisk::new(&rt);
            let mut driver = YesDriver::new();
            let mut doors = AnnouncedDoors::new(&rt, NetDoors::new(&rt, rt.alloc()));
            let (_disk, status) = run(
                &rt,
                &words,
                &mut input,
                &mut output,
                disk,
                &mut driver,
                &mut doors,
                &OpenGate,
            );
            status
        }
        Err(error) => status_without_words(&error),
    };
    report(&rt, output.denials());
    if status != Status::Done {
        // If the standard error fails, only the exit status reports the result.
        let _ = eprintln!(rt; "dra: {}", Message::new(status, input.tail()));
    }
    ExitCode::from(exit_number(status))
}
