//! Serves connections in memory and prints how the server ended, what each connection got and what was printed. The head
//! of the crate's `stdin` says what a case is.
#![tactic(auto)]

mod case;
mod gates;
mod options;
mod outcome;
mod printing;
mod serving;
mod talks;

use case::run_cases;
use std::io::{self, Read, Write};

fn main(rt: HostRuntime) -> io::Result<()> {
    let alloc = rt.alloc();
    let mut bytes = Vec::new(alloc);
    rt.stdin().read_to_end(&mut bytes)?;
    let mut out = Vec::new(alloc);
    run_cases(&rt, alloc, &bytes, &mut out)?;
    rt.stdout().write_all(&out)
}
