use crate::checking::{push_plan, push_status};
use crate::input::{CaseError, cut_at, done, range, unless_done};
use crate::lists::copy_of;
use crate::looking::{push_refusal, push_usable};
use crate::orders::read_orders;
use crate::out::Out;
use crate::remembering::push_known;
use crate::setup::Setup;
use cluster::Event;
use commands::Command;
use journal_text::line;
use sched_job::{Ledger, LedgerError};
use std::alloc::{AllocError, Global};
use std::mem;

/// The most entries of a state's history.
const MOST_ENTRIES: u64 = 1_000_000;

/// The most items of a node's walk that a search looks at.
pub const BUDGET: u64 = 100_000;

/// Whether a job that ends with this event has done what it was to do.
fn is_done(event: &Event) -> bool {
    matches!(
        event,
        Event::Applied { .. } | Event::Deleted(_) | Event::Bound { .. } | Event::Released(_)
    )
}

/// Appends the last entry's line, if its job hasn't done what it was to do.
fn push_undone(alloc: Global, ledger: &Ledger, out: &mut Out) {
    let index = ledger.len();
    match ledger.entry(index) {
        Some(entry) if !is_done(&entry.event) => out.lines(line(alloc, index, entry)),
        _ => {}
    }
}

/// Does commands, each as the next job, and prints the line of the last entry of each that isn't done.
fn do_each(
    alloc: Global,
    setup: &mut Setup,
    orders: Vec<Command>,
    out: &mut Out,
) -> Result<(), LedgerError> {
    for order in orders {
        setup.run_next(alloc, order, BUDGET)?;
        push_undone(alloc, &setup.ledger, out);
    }
    Ok(())
}

/// Does the commands of a document, one after another. A Schedule makes one attempt.
fn do_document(
    alloc: Global,
    setup: &mut Setup,
    document: &str,
    out: &mut Out,
) -> Result<(), CaseError> {
    let orders = read_orders(alloc, document, 1)?;
    Ok(do_each(alloc, setup, orders, out)?)
}

/// Does a document such as that of `1 9 DOCUMENT`, once for each of these numbers.
fn do_copies(alloc: Global, setup: &mut Setup, text: &str, out: &mut Out) -> Result<(), CaseError> {
    let (first, last, pattern) = range(text)?;
    for at in first..=last {
        let document = copy_of(alloc, pattern, at)?;
        do_document(alloc, setup, document.as_str(), out)?;
    }
    Ok(())
}

/// Prints what is found by a case.
fn push_found(
    alloc: Global,
    setup: &mut Setup,
    verb: &str,
    text: &str,
    out: &mut Out,
) -> Result<(), CaseError> {
    match verb {
        "plan" => push_plan(alloc, &setup.ledger, text, out),
        "status" => push_status(alloc, &setup.ledger, text, out),
        "usable" => done(push_usable(alloc, setup.ledger.state(), out)),
        "refusal" => push_refusal(alloc, setup.ledger.state(), text, out),
        "known" => push_known(alloc, &mut setup.ledger, text, out),
        _ => Err(CaseError::BadCase),
    }
}

/// Prints the line of a case: its name, and what is found.
fn do_case(
    alloc: Global,
    setup: &mut Setup,
    verb: &str,
    text: &str,
    out: &mut Out,
) -> Result<(), CaseError> {
    let (name, rest) = cut_at(text, ' ');
    out.say(name);
    out.say(":");
    push_found(alloc, setup, verb, rest, out)?;
    out.say("\n");
    Ok(())
}

/// Begins a state of no objects.
fn begin(alloc: Global, setup: &mut Setup) -> Result<(), AllocError> {
    let before = mem::replace(setup, Setup::new(alloc, MOST_ENTRIES)?);
    drop(before);
    Ok(())
}

/// Does what a line asks for. An empty line and one that begins with `#` are printed as they are.
fn do_line(alloc: Global, setup: &mut Setup, line: &str, out: &mut Out) -> Result<(), CaseError> {
    if line.is_empty() || line.starts_with('#') {
        out.line("", line);
        return Ok(());
    }
    if line.starts_with('{') {
        return do_document(alloc, setup, line, out);
    }
    let (verb, text) = cut_at(line, ' ');
    match verb {
        "state" => done(begin(alloc, setup)),
        "copies" => do_copies(alloc, setup, text, out),
        _ => do_case(alloc, setup, verb, text, out),
    }
}

/// Does what each line asks for.
fn do_lines(alloc: Global, setup: &mut Setup, text: &str, out: &mut Out) {
    for line in text.lines() {
        let answer = do_line(alloc, setup, line, out);
        unless_done(out, line, answer);
    }
}

/// Runs the cases of states.
pub fn run_states(alloc: Global, text: &str, out: &mut Out) {
    out.line("== ", "states");
    match Setup::new(alloc, MOST_ENTRIES) {
        Ok(mut setup) => {
            do_lines(alloc, &mut setup, text, out);
            drop(setup);
        }
        Err(AllocError) => out.fail(),
    }
}
