use crate::input::{CaseError, both, cut_at, done, number, put, unless_done};
use crate::jobs::{run_case, run_case_each};
use crate::lists::Lists;
use crate::options::Options;
use crate::out::Out;
use crate::states::run_states;
use std::alloc::Global;

/// The line between the cases of jobs and those of states.
const BORDER: &str = "\nstates\n";

/// Appends the steps of a text such as `0 1 0`.
fn push_steps(text: &str, steps: &mut Vec<usize>) -> Result<(), CaseError> {
    for step in text.split(' ') {
        put(steps, number(step)? as usize)?;
    }
    Ok(())
}

/// Runs the case of a verb, the names of two lists, options and steps.
fn run_named(
    alloc: Global,
    head: &str,
    steps: &[usize],
    lists: &Lists,
    out: &mut Out,
) -> Result<(), CaseError> {
    let (verb, rest) = cut_at(head, ' ');
    let (documents, rest) = cut_at(rest, ' ');
    let (works, words) = cut_at(rest, ' ');
    let options = Options::read(words)?;
    let (documents, works) = both(lists.get(documents), lists.get(works))?;
    match verb {
        "steps" => run_case(alloc, documents, works, steps, options, out),
        "each" => run_case_each(alloc, documents, works, steps, options, out),
        _ => Err(CaseError::BadCase),
    }
}

/// Prints the line of a case, and runs it.
fn do_case(alloc: Global, line: &str, lists: &Lists, out: &mut Out) -> Result<(), CaseError> {
    let (head, numbers) = line.split_once(": ").ok_or(CaseError::BadCase)?;
    let mut steps = Vec::new(alloc);
    push_steps(numbers, &mut steps)?;
    out.line("== ", line);
    run_named(alloc, head, &steps, lists, out)
}

/// Does what a line asks, unless a list takes it.
fn do_line(alloc: Global, line: &str, lists: &mut Lists, out: &mut Out) -> Result<(), CaseError> {
    if lists.is_due() {
        return lists.append_line(line);
    }
    if line.is_empty() || line.starts_with('#') {
        return Ok(());
    }
    let (verb, text) = cut_at(line, ' ');
    match verb {
        "list" => done(lists.begin(alloc, text)),
        "lines" => lists.expect(text),
        "copies" => lists.append_copies(alloc, text),
        _ => do_case(alloc, line, lists, out),
    }
}

/// Runs the cases of jobs.
fn run_jobs(alloc: Global, text: &str, out: &mut Out) {
    let mut lists = Lists::new(alloc);
    for line in text.lines() {
        let answer = do_line(alloc, line, &mut lists, out);
        unless_done(out, line, answer);
    }
}

/// Runs the cases of a container.
pub fn run_container(alloc: Global, container: &str, out: &mut Out) {
    let (jobs, states) = container.split_once(BORDER).unwrap_or((container, ""));
    run_jobs(alloc, jobs, out);
    run_states(alloc, states, out);
}
