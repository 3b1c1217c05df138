//! Runs cases of values, objects and the selector language: reads one a line from the standard input and
//! prints one line for each, so that the expected lines of the file `stdout` line up with those of `stdin`.
//!
//! A case is a kind (two words), a tab and the input, which is JSON but for documents of commands.
//! An empty line and a line that begins with `#` are printed as they are. In the line of a case each
//! character below U+0020, and U+007F, is printed as `?`.
#![tactic(auto)]

mod case;
mod cel;
mod claims;
mod documents;
mod fields;
mod input;
mod kinds;
mod lexis;
mod limited;
mod messages;
mod names;
mod nodes;
mod objects;
mod optional;
mod parts;
mod printing;
mod quantities;
mod selectors;
mod shown;
mod slices;
mod trees;
mod values;

use cel_eval::DeviceEnv;
use std::io;

/// Prints the line of a case.
fn print_answer(rt: &HostRuntime, devices: &mut Vec<DeviceEnv>, line: &str) -> io::Result<()> {
    let answer = case::answer(rt.alloc(), devices, line)?;
    rt.println(answer)
}

fn main(rt: HostRuntime) -> io::Result<()> {
    let mut devices = Vec::new(rt.alloc());
    for line in rt.lines(rt.alloc()) {
        print_answer(&rt, &mut devices, line?.as_str())?;
    }
    Ok(())
}
