use crate::input::{CaseError, both, cut_at, done};
use crate::orders::json;
use crate::out::Out;
use crate::planning::{Planned, read_plan};
use crate::spelling::key;
use alloc_rules::{check, check_status};
use api_claim::ClaimStatus;
use cluster::{Command, Entry, Event, Failure, Refusal};
use dra_values::Shared;
use journal_text::line;
use object_fields::Key;
use sched_job::Ledger;
use std::alloc::{AllocError, Global};
use std::str;

/// Appends what a line has behind a text, up to its end.
fn push_behind(line: &[u8], mark: &str, out: &mut Out) {
    let text = str::from_utf8(line).unwrap_or("").trim_end();
    let (_, rest) = text.split_once(mark).unwrap_or(("", ""));
    out.say(" ");
    out.say(rest);
}

/// Appends what the line of an event has behind a text.
fn push_event(alloc: Global, event: Event, mark: &str, out: &mut Out) {
    let entry = Entry { job: 0, event };
    let line = line(alloc, 0, &entry);
    drop(entry);
    match line {
        Ok(line) => push_behind(&line, mark, out),
        Err(AllocError) => out.fail(),
    }
}

/// A failure behind a pointer, if there is one.
fn shared(
    alloc: Global,
    found: Result<Option<Failure>, AllocError>,
) -> Result<Option<Shared<Failure>>, AllocError> {
    match found? {
        None => Ok(None),
        Some(why) => Ok(Some(Shared::new(alloc, why)?)),
    }
}

/// The first failure of a plan.
fn failure_of_plan(
    alloc: Global,
    ledger: &Ledger,
    planned: &Planned,
) -> Result<Option<Shared<Failure>>, AllocError> {
    let state = ledger.state();
    let holders = ledger.holders();
    let totals = ledger.totals();
    let plan = planned.plan.value();
    shared(
        alloc,
        check(alloc, state, holders, totals, &planned.pod, plan),
    )
}

/// That a plan is refused.
fn refused(planned: Planned, why: Shared<Failure>) -> Event {
    Event::Refused {
        pod: planned.pod,
        plan: planned.plan,
        why,
    }
}

/// Appends the first failure of a plan, as the line of its refusal has it.
pub fn push_plan(
    alloc: Global,
    ledger: &Ledger,
    text: &str,
    out: &mut Out,
) -> Result<(), CaseError> {
    let planned = read_plan(alloc, text)?;
    let found = failure_of_plan(alloc, ledger, &planned);
    let (planned, found) = both(Ok(planned), found)?;
    match found {
        None => {
            drop(planned);
            out.say(" ok");
        }
        Some(why) => push_event(alloc, refused(planned, why), " why=", out),
    }
    Ok(())
}

/// The status write that the document of a claim is.
fn status_of(alloc: Global, document: &str) -> Result<Shared<ClaimStatus>, CaseError> {
    let value = json(alloc, document)?;
    let status = ClaimStatus::read(alloc, &value);
    drop(value);
    done(Shared::new(alloc, status?))
}

/// The first failure of a status write to a claim that exists.
fn failure_of_status(
    alloc: Global,
    ledger: &Ledger,
    claim: &Key,
    status: &ClaimStatus,
) -> Result<Option<Shared<Failure>>, CaseError> {
    let state = ledger.state();
    if state.claims.get(claim).is_none() {
        return Err(CaseError::BadCase);
    }
    let holders = ledger.holders();
    let totals = ledger.totals();
    let found = check_status(alloc, state, holders, totals, claim, status);
    done(shared(alloc, found))
}

/// That a status write is refused.
fn denied(command: Command, why: Shared<Failure>) -> Event {
    Event::Denied {
        command,
        refusal: Refusal::Failure(why),
    }
}

/// Appends the first failure of a status write to a claim, as the line of its denial has it.
pub fn push_status(
    alloc: Global,
    ledger: &Ledger,
    text: &str,
    out: &mut Out,
) -> Result<(), CaseError> {
    let (name, document) = cut_at(text, ' ');
    let (claim, status) = both(done(key(alloc, name)), status_of(alloc, document))?;
    let found = failure_of_status(alloc, ledger, &claim, status.value());
    let (command, found) = both(Ok(Command::Adopt { claim, status }), found)?;
    match found {
        None => {
            drop(command);
            out.say(" ok");
        }
        Some(why) => push_event(alloc, denied(command, why), " Failure ", out),
    }
    Ok(())
}
