ghost use Rattle.std.specs.Prelude.{◌≡◌, ◌<◌, ℕ, false, IfOk, IfErr};
ghost use Rattle.histories.specs.JobRuns.{is_schedule};
ghost use Rattle.turn_lock.specs.Known.{IsFree, IsOf};
ghost use Rattle.cluster.specs.declared.state.State.{State};
ghost use Rattle.api_print.specs.Parts.{part_json};
ghost use Rattle.api_replies.specs.Answers.{answer_of, ended, json_after};
ghost use Rattle.api_server.specs.Once.{RepliesBy, RepliesFound, needs_state, unreplied};
ghost use Rattle.api_server.specs.Served.{IsJob, IsPlaced, run_for};

use crate::look::look_at;
use crate::once::{Acted, Ended, take_turn};
use crate::task::Unreplied;
use api_print::Part;
use api_replies::ended;
use cluster::{Entry, Event};
use commands::Command;
use dra_ports::Gate;
use engine_ports::Engine;
use histories::histories_grow;
use http_wire::Reply;
use object_fields::Key;
use sched_job::{JobEnd, Ledger, LedgerError, Work, run_job, runs_go_past};
use std::alloc::Global;
use std::sync::Wait;
use turn_lock::{Pass, TurnLock};

/// Why a command isn't replied to whose turn failed.
fn unreplied(error: LedgerError) -> Unreplied
    ensures { result ≡ unreplied error }
{
    match error {
        LedgerError::Full(count) => Unreplied::Full(count),
        LedgerError::Memory => Unreplied::Memory,
    }
}

fn reply_to(alloc: Global, last: &Ended) -> Result<Reply, Unreplied>
    ensures reply { (s : State) → part_json last.now.part ≡ json_after s last.now.entry.event → IfOk result (λ r. answer_of r ≡ ended s last.now.place last.now.entry) }
    ensures err { IfErr result (λ e. e ≡ Unreplied.Memory) }
{
    match ended(alloc, last.place, &last.entry, &last.part) {
        Ok(reply) => Ok(reply),
        Err(_) => Err(Unreplied::Memory),
    }
}

/// The reply by what a turn did, or why there is none.
fn reply_by(alloc: Global, acted: &Acted) -> Result<Reply, Unreplied>
    ensures { RepliesBy acted.now result }
{
    match acted {
        Acted::Ended(last) => reply_to(alloc, last),
        Acted::Made => Err(Unreplied::Memory),
        Acted::Failed(error) => Err(unreplied(*error)),
    }
}

/// Carries out a command whose job has one entry.
pub fn run_once<E: Engine, R: Wait>(
    rt: &R,
    alloc: Global,
    lock: &TurnLock<Ledger>,
    pass: &mut Pass<Ledger>,
    job: u64,
    command: Command,
) -> Result<Reply, Unreplied>
    requires of { IsOf lock.now pass.old }
    requires free { IsFree pass.old }
    requires once { is_schedule command ≡ false }
    ensures of { IsOf lock.now pass.new }
    ensures free { IsFree pass.new }
    ensures job { (budget : ℕ) → IsJob (run_for job budget command pass.old) pass.old pass.new result }
{
    runs_go_past();
    histories_grow();
    let acted = take_turn::<E, _>(rt, alloc, lock, pass, job, command);
    let replied = reply_by(alloc, &acted);
    drop(acted);
    replied
}

/// Whether a reply by an event depends on the state.
fn needs_state(event: &Event) -> bool
    ensures { result ≡ needs_state event.now }
{
    match event {
        Event::Applied { .. } | Event::Adopted { .. } => true,
        Event::Deleted(_)
        | Event::Reserved { .. }
        | Event::Refused { .. }
        | Event::Wrote { .. }
        | Event::Conflict { .. }
        | Event::Unreserved(_)
        | Event::Bound { .. }
        | Event::VerdictGiven { .. }
        | Event::Contended { .. }
        | Event::Released(_)
        | Event::Denied { .. } => false,
    }
}

/// Carries out the command that schedules a pod.
pub fn run_schedule<E: Engine, R: Wait, G: Gate>(
    rt: &R,
    alloc: Global,
    lock: &TurnLock<Ledger>,
    pass: &mut Pass<Ledger>,
    gate: &G,
    job: u64,
    pod: Key,
    attempts: u64,
    budget: u64,
) -> Result<Reply, Unreplied>
    requires of { IsOf lock.now pass.old }
    requires free { IsFree pass.old }
    requires some { 0 < attempts }
    ensures of { IsOf lock.now pass.new }
    ensures free { IsFree pass.new }
    ensures job { IsJob (run_for job budget (Command.Schedule pod attempts) pass.old) pass.old pass.new result }
{
    histories_grow();
    let work = Work::new(job, Command::Schedule(pod, attempts));
    match run_job::<E, _, _>(rt, alloc, lock, pass, gate, work, budget) {
        JobEnd::Ended(place) => reply_at(rt, alloc, lock, pass, place),
        JobEnd::Full(count) => Err(Unreplied::Full(count)),
        JobEnd::Memory => Err(Unreplied::Memory),
    }
}

/// The reply by the entry at an index, if it doesn't depend on the state.
fn reply_at<R: Wait>(
    rt: &R,
    alloc: Global,
    lock: &TurnLock<Ledger>,
    pass: &mut Pass<Ledger>,
    place: u64,
) -> Result<Reply, Unreplied>
    requires of { IsOf lock.now pass.old }
    requires free { IsFree pass.old }
    ensures of { IsOf lock.now pass.new }
    ensures free { IsFree pass.new }
    ensures placed { IsPlaced pass.old pass.new place result }
{
    let found = look_at(rt, alloc, lock, pass, place);
    let replied = reply_found(alloc, &found, place);
    drop(found);
    replied
}

/// The reply by an entry that was looked up, if there is one and the reply doesn't depend on the state.
fn reply_found(alloc: Global, found: &Option<Entry>, place: u64) -> Result<Reply, Unreplied>
    ensures { RepliesFound found.now place result }
{
    match found {
        Some(entry) => reply_entry(alloc, entry, place),
        None => Err(Unreplied::Memory),
    }
}

fn reply_entry(alloc: Global, entry: &Entry, place: u64) -> Result<Reply, Unreplied>
    ensures reply { IfOk result (λ r. (s : State) → answer_of r ≡ ended s place entry.now) }
    ensures err { IfErr result (λ e. e ≡ Unreplied.Memory) }
{
    if needs_state(&entry.event) {
        return Err(Unreplied::Memory);
    }
    match ended(alloc, place, entry, &Part::Absent) {
        Ok(reply) => Ok(reply),
        Err(_) => Err(Unreplied::Memory),
    }
}
