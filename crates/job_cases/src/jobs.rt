use crate::fresh::may_step;
use crate::input::{CaseError, both, done, put};
use crate::options::Options;
use crate::orders::read_orders;
use crate::out::Out;
use crate::report::print_case;
use crate::setup::Setup;
use commands::Command;
use default_engine::DefaultEngine;
use sched_job::{Ledger, LedgerError, Work, run_steps};
use std::alloc::{AllocError, Global};

/// Runs commands one after another.
fn run_each(
    alloc: Global,
    setup: &mut Setup,
    orders: Vec<Command>,
    budget: u64,
) -> Result<(), LedgerError> {
    for order in orders {
        setup.run_next(alloc, order, budget)?;
    }
    Ok(())
}

/// Appends the works of commands, of which the first is the job after this one.
fn push_works(orders: Vec<Command>, before: u64, works: &mut Vec<Work>) -> Result<(), CaseError> {
    let mut job = before;
    for order in orders {
        job = job.saturating_add(1);
        put(works, Work::new(job, order))?;
    }
    Ok(())
}

/// The works of the commands of these lines, of which the first is the job after this one.
fn works_of(
    alloc: Global,
    lines: &str,
    attempts: u64,
    before: u64,
) -> Result<Vec<Work>, CaseError> {
    let orders = read_orders(alloc, lines, attempts)?;
    let mut works = Vec::new(alloc);
    push_works(orders, before, &mut works)?;
    Ok(works)
}

/// Makes these steps of works whose jobs have no entry yet. Returns how many turns there were.
fn make_steps(
    alloc: Global,
    ledger: &mut Ledger,
    works: &mut [Work],
    steps: &[usize],
    budget: u64,
) -> Result<u64, LedgerError> {
    if may_step(ledger, works, steps) {
        run_steps::<DefaultEngine>(alloc, ledger, works, steps, budget)
    } else {
        Ok(0)
    }
}

/// Makes steps of works, if the commands before them were run, and prints what the steps append.
fn step_works(
    alloc: Global,
    setup: &mut Setup,
    ran: Result<(), LedgerError>,
    works: &mut [Work],
    steps: &[usize],
    budget: u64,
    out: &mut Out,
) {
    match ran {
        Ok(()) => {
            let from = setup.ledger.len();
            let turns = make_steps(alloc, &mut setup.ledger, works, steps, budget);
            let jobs = setup.jobs.saturating_add(works.len() as u64);
            print_case(alloc, &setup.ledger, from, turns, works, jobs, out);
        }
        Err(error) => print_case(alloc, &setup.ledger, 0, Err(error), &[], 0, out),
    }
}

/// Runs the commands of documents, and then makes steps of works.
fn run_orders(
    alloc: Global,
    documents: Vec<Command>,
    works: &mut [Work],
    steps: &[usize],
    options: Options,
    out: &mut Out,
) -> Result<(), AllocError> {
    let mut setup = Setup::new(alloc, options.entries)?;
    let ran = run_each(alloc, &mut setup, documents, options.budget);
    step_works(alloc, &mut setup, ran, works, steps, options.budget, out);
    drop(setup);
    Ok(())
}

/// Runs the commands of documents, and then makes steps of the works of other lines.
pub fn run_case(
    alloc: Global,
    documents: &str,
    works: &str,
    steps: &[usize],
    options: Options,
    out: &mut Out,
) -> Result<(), CaseError> {
    let attempts = options.attempts.max(1);
    let documents = read_orders(alloc, documents, attempts)?;
    let works = works_of(alloc, works, attempts, documents.len() as u64);
    let (documents, mut works) = both(Ok(documents), works)?;
    done(run_orders(alloc, documents, works.as_mut_slice(), steps, options, out))
}

/// Does the same for each of these lines alone.
pub fn run_case_each(
    alloc: Global,
    documents: &str,
    works: &str,
    steps: &[usize],
    options: Options,
    out: &mut Out,
) -> Result<(), CaseError> {
    let mut number: u64 = 0;
    for line in works.lines() {
        number = number.saturating_add(1);
        out.show_after("-- ", &number);
        out.say("\n");
        run_case(alloc, documents, line, steps, options, out)?;
    }
    Ok(())
}
