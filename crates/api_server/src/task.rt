ghost use Rattle.std.specs.Prelude.{◌≡◌, ◌<◌};
ghost use Rattle.histories.specs.JobRuns.{attempts_of};
ghost use Rattle.turn_lock.specs.Known.{IsFree, IsOf};
ghost use Rattle.api_requests.specs.declared.task.Task.TheVariants as task_is;
ghost use Rattle.api_server.specs.Served.{HasAttempts, IsJob, IsShow, Serves, run_for};

use crate::job::{run_once, run_schedule};
use crate::look::{look, look_back, look_for};
use api_replies::{journal, listed, shown};
use api_requests::Task;
use api_routes::Kind;
use cluster::Target;
use commands::Command;
use dra_ports::Gate;
use dra_values::Text;
use engine_ports::Engine;
use http_wire::Reply;
use sched_job::Ledger;
use std::alloc::Global;
use std::sync::Wait;
use turn_lock::{Pass, TurnLock};

/// Why a request isn't replied to.
#[derive(Clone, Copy, Debug, PartialEq, Eq, Drop)]
pub enum Unreplied {
    /// The history has so many entries, its limit, and one more is expected.
    Full(u64),
    /// Memory ran out, or someone else makes entries of the job.
    Memory,
}

/// Does what a request is for, and replies to it.
///
/// A command is carried out as this job, which has no entry yet, and the reply is by the job's last entry and the
/// state after that. What is to be shown is the state in one turn of the lock. The lock is held neither while a
/// search runs nor while the reply is made.
pub fn serve_task<E: Engine, R: Wait, G: Gate>(
    rt: &R,
    alloc: Global,
    lock: &TurnLock<Ledger>,
    pass: &mut Pass<Ledger>,
    gate: &G,
    job: u64,
    budget: u64,
    task: Task,
) -> Result<Reply, Unreplied>
    requires of { IsOf lock.now pass.old }
    requires free { IsFree pass.old }
    requires some { HasAttempts task }
    ensures of { IsOf lock.now pass.new }
    ensures free { IsFree pass.new }
    ensures serves { Serves job budget task pass.old pass.new result }
{
    match task {
        Task::Run(command) => run::<E, _, _>(rt, alloc, lock, pass, gate, job, budget, command),
        Task::Show(target) => show(rt, alloc, lock, pass, &target),
        Task::List(kind, namespace) => list(rt, alloc, lock, pass, kind, &namespace),
        Task::History => history(rt, alloc, lock, pass),
    }
}

fn run<E: Engine, R: Wait, G: Gate>(
    rt: &R,
    alloc: Global,
    lock: &TurnLock<Ledger>,
    pass: &mut Pass<Ledger>,
    gate: &G,
    job: u64,
    budget: u64,
    command: Command,
) -> Result<Reply, Unreplied>
    requires of { IsOf lock.now pass.old }
    requires free { IsFree pass.old }
    requires some { 0 < attempts_of command }
    ensures of { IsOf lock.now pass.new }
    ensures free { IsFree pass.new }
    ensures job { IsJob (run_for job budget command pass.old) pass.old pass.new result }
{
    match command {
        Command::Schedule(pod, attempts) => {
            run_schedule::<E, _, _>(rt, alloc, lock, pass, gate, job, pod, attempts, budget)
        }
        other => run_once::<E, _>(rt, alloc, lock, pass, job, other),
    }
}

fn show<R: Wait>(
    rt: &R,
    alloc: Global,
    lock: &TurnLock<Ledger>,
    pass: &mut Pass<Ledger>,
    target: &Target,
) -> Result<Reply, Unreplied>
    requires of { IsOf lock.now pass.old }
    requires free { IsFree pass.old }
    ensures of { IsOf lock.now pass.new }
    ensures free { IsFree pass.new }
    ensures shows { IsShow (task_is.Show target.now) pass.old pass.new result }
{
    let Ok(part) = look_for(rt, alloc, lock, pass, target) else {
        return Err(Unreplied::Memory);
    };
    match shown(alloc, target, &part) {
        Ok(reply) => Ok(reply),
        Err(_) => Err(Unreplied::Memory),
    }
}

fn list<R: Wait>(
    rt: &R,
    alloc: Global,
    lock: &TurnLock<Ledger>,
    pass: &mut Pass<Ledger>,
    kind: Kind,
    namespace: &Text,
) -> Result<Reply, Unreplied>
    requires of { IsOf lock.now pass.old }
    requires free { IsFree pass.old }
    ensures of { IsOf lock.now pass.new }
    ensures free { IsFree pass.new }
    ensures shows { IsShow (task_is.List kind namespace.now) pass.old pass.new result }
{
    let Ok(seen) = look(rt, lock, pass) else {
        return Err(Unreplied::Memory);
    };
    match listed(alloc, kind, namespace, &seen.state, seen.place) {
        Ok(reply) => Ok(reply),
        Err(_) => Err(Unreplied::Memory),
    }
}

fn history<R: Wait>(
    rt: &R,
    alloc: Global,
    lock: &TurnLock<Ledger>,
    pass: &mut Pass<Ledger>,
) -> Result<Reply, Unreplied>
    requires of { IsOf lock.now pass.old }
    requires free { IsFree pass.old }
    ensures of { IsOf lock.now pass.new }
    ensures free { IsFree pass.new }
    ensures shows { IsShow task_is.History pass.old pass.new result }
{
    let Ok(entries) = look_back(rt, alloc, lock, pass) else {
        return Err(Unreplied::Memory);
    };
    match journal(alloc, &entries) {
        Ok(reply) => Ok(reply),
        Err(_) => Err(Unreplied::Memory),
    }
}
