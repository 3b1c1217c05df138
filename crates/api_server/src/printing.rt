ghost use Rattle.std.specs.Prelude.{◌≡◌, OnErr, OnOk};
ghost use Rattle.std.specs.Io.KnownBytes.{Appends};
ghost use Rattle.cluster.specs.Events.{job_state_after};
ghost use Rattle.cluster.specs.declared.entry.JobState.TheVariants.{Fresh};
ghost use Rattle.dra_ports.specs.Causes.{HasCause};
ghost use Rattle.dra_ports.specs.Prefixes.{AppendsPrefix};
ghost use Rattle.histories.specs.JobRuns.{is_ended};
ghost use Rattle.journal_text.specs.Journal.{lines_from, text_of};
ghost use Rattle.api_server.specs.Printing.{PrintsEnd, after_printing};
ghost use Rattle.api_server.specs.Serving.{jobs_ended};

use crate::options::ServeStatus;
use crate::serve_end::ServeEnd;
use cluster::{Entry, Event};
use dra_ports::{PortError, Sink, write_all};
use journal_text::{lines, summary};
use sched_job::Ledger;
use std::alloc::Global;

/// Prints what came of a service that ended so, and returns how all ended.
pub fn print<K: Sink>(alloc: Global, ledger: &Ledger, end: ServeEnd, output: &mut K) -> ServeStatus
    ensures prints { PrintsEnd ledger.now.entries (K.written output.old) (K.written output.new) (K.faults output.old) (K.faults output.new) end result }
{
    match end {
        ServeEnd::Served => after_printing(print_text(alloc, ledger, output), ServeStatus::Done),
        ServeEnd::Memory => ServeStatus::Memory,
        ServeEnd::Door => ServeStatus::Door,
        ServeEnd::Limit(count) => {
            after_printing(
                print_lines(alloc, ledger, output),
                ServeStatus::Limit(count),
            )
        }
    }
}

/// How all ends after printing, if this is how it ends if printing didn't fail.
fn after_printing(printed: Result<(), PortError>, status: ServeStatus) -> ServeStatus
    ensures { result ≡ after_printing printed status }
{
    match printed {
        Ok(()) => status,
        Err(PortError::Failed) => ServeStatus::Write,
        Err(PortError::Memory) => ServeStatus::Memory,
    }
}

/// Prints the lines of a history.
fn print_lines<K: Sink>(alloc: Global, ledger: &Ledger, output: &mut K) -> Result<(), PortError>
    ensures ok { OnOk result (Appends (K.written output.old) (K.written output.new) (lines_from 0 ledger.now.entries)) }
    ensures short { OnErr result (AppendsPrefix (K.written output.old) (K.written output.new) (lines_from 0 ledger.now.entries)) }
    ensures cause { HasCause (K.faults output.old) (K.faults output.new) result }
{
    let text = lines(alloc, ledger.entries(), 0)?;
    write_all(output, &text)
}

/// Prints the lines of a history, and then the summary.
fn print_text<K: Sink>(alloc: Global, ledger: &Ledger, output: &mut K) -> Result<(), PortError>
    ensures ok { OnOk result (Appends (K.written output.old) (K.written output.new) (text_of ledger.now.entries (jobs_ended ledger.now.entries))) }
    ensures short { OnErr result (AppendsPrefix (K.written output.old) (K.written output.new) (text_of ledger.now.entries (jobs_ended ledger.now.entries))) }
    ensures cause { HasCause (K.faults output.old) (K.faults output.new) result }
{
    let mut text = lines(alloc, ledger.entries(), 0)?;
    let jobs = jobs_ended(ledger.entries());
    let last = summary(alloc, ledger.len(), ledger.state(), jobs as u64)?;
    text.extend_from_slice(&last)?;
    write_all(output, &text)
}

/// How many jobs have ended.
fn jobs_ended(entries: &[Entry]) -> usize
    ensures { result ≡ jobs_ended entries.now }
{
    let mut count = 0;
    for entry in entries {
        if ends_job(&entry.event) {
            count += 1;
        }
    }
    count
}

/// Whether an entry ends its job.
fn ends_job(event: &Event) -> bool
    ensures { result ≡ is_ended (job_state_after Fresh 0 event.now) }
{
    match event {
        Event::Reserved { .. }
        | Event::Refused { .. }
        | Event::Wrote { .. }
        | Event::Conflict { .. }
        | Event::Unreserved(_) => false,
        Event::Applied { .. }
        | Event::Deleted(_)
        | Event::Bound { .. }
        | Event::VerdictGiven { .. }
        | Event::Contended { .. }
        | Event::Released(_)
        | Event::Adopted { .. }
        | Event::Denied { .. } => true,
    }
}
