use crate::out::Out;
use cluster::JobState;
use journal_text::{lines, summary};
use sched_job::{Ledger, LedgerError, Work};
use std::alloc::Global;

/// Prints how many turns there were, or that the history was full.
fn print_turns(turns: Result<u64, LedgerError>, out: &mut Out) {
    match turns {
        Ok(turns) => out.show_after("turns ", &turns),
        Err(LedgerError::Full(count)) => out.show_after("full ", &count),
        Err(LedgerError::Memory) => out.fail(),
    }
}

/// Prints the index of the last entry of a job that has ended, and `-` for one that hasn't.
fn print_job_state(job_state: JobState, out: &mut Out) {
    match job_state {
        JobState::Ended(index) => out.show_after(" ", &index),
        JobState::Fresh | JobState::Reserved(_) | JobState::Conflicted(_) | JobState::Failed(_) => {
            out.say(" -");
        }
    }
}

/// Prints where each of these works has ended.
fn print_ends(ledger: &Ledger, works: &[Work], out: &mut Out) {
    out.say(", ended");
    for work in works {
        print_job_state(ledger.job_state(work.job), out);
    }
    out.say("\n");
}

/// Prints the lines of the entries after the first ones, how many turns were made, where each work has
/// ended, and the summary of the whole history.
pub fn print_case(
    alloc: Global,
    ledger: &Ledger,
    from: u64,
    turns: Result<u64, LedgerError>,
    works: &[Work],
    jobs: u64,
    out: &mut Out,
) {
    out.lines(lines(alloc, ledger.entries(), from));
    print_turns(turns, out);
    print_ends(ledger, works, out);
    out.lines(summary(alloc, ledger.len(), ledger.state(), jobs));
}
