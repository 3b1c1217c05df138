//! Runs cases of the checkpoint journal: reads one a line from the standard input and prints one line
//! for each, so that the expected lines of the file `stdout` line up with those of `stdin`, whose head
//! says what a case is. An empty line and a line that begins with `#` are printed as they are.
#![tactic(auto)]

mod case;
mod changes;
mod crashes;
mod faults;
mod files;
mod hex;
mod marks;
mod plain_disk;
mod runs;
mod sizes;
mod start;
mod turns;

use std::io;

fn print_answer(rt: &HostRuntime, line: &str) -> io::Result<()> {
    let answer = case::answer(rt.alloc(), line)?;
    rt.println(answer)
}

fn main(rt: HostRuntime) -> io::Result<()> {
    for line in rt.lines(rt.alloc()) {
        print_answer(&rt, line?.as_str())?;
    }
    Ok(())
}
