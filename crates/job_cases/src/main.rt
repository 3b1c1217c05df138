//! Makes the steps of jobs in the order that each case of a container lists, and prints the lines of the
//! history that they append. Then makes states from documents, and prints for each case what a plan, a
//! status write or a command fails with at such a state. The `stdin` of the crate says what a container holds.
#![tactic(auto)]

mod checking;
mod container;
mod fresh;
mod input;
mod jobs;
mod lists;
mod looking;
mod options;
mod orders;
mod out;
mod planning;
mod remembering;
mod report;
mod setup;
mod spelling;
mod states;

use container::run_container;
use out::Out;
use std::io::{self, Read, Write};
use std::str;

fn main(rt: HostRuntime) -> io::Result<()> {
    let alloc = rt.alloc();
    let mut bytes = Vec::new(alloc);
    rt.stdin().read_to_end(&mut bytes)?;
    let mut out = Out::new(alloc);
    run_container(alloc, str::from_utf8(&bytes).unwrap_or(""), &mut out);
    rt.stdout().write_all(out.text()?.as_bytes())
}
