//! Replays the scripts of a container and prints how each ended, so that hundreds of cases cost the
//! proof of one small program. The head of the crate's `stdin` says what a container holds.
#![tactic(auto)]

mod container;
mod crashes;
mod options;
mod outcome;
mod ports;
mod reader;
mod report;
mod scripts;
mod tables;
mod varied;

use container::run_container;
use std::io::{self, Read, Write};

fn main(rt: HostRuntime) -> io::Result<()> {
    let alloc = rt.alloc();
    let mut bytes = Vec::new(alloc);
    rt.stdin().read_to_end(&mut bytes)?;
    let mut out = Vec::new(alloc);
    run_container(&rt, alloc, &bytes, &mut out)?;
    rt.stdout().write_all(&out)
}
