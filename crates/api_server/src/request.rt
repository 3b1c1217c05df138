ghost use Rattle.std.specs.Prelude.{◌≡◌, ◌<◌};
ghost use Rattle.turn_lock.specs.Known.{IsFree, IsOf};
ghost use Rattle.api_requests.specs.Tasks as asked;
ghost use Rattle.api_server.specs.Requests.{IsRefused, ServesRequest};

use crate::task::{Unreplied, serve_task};
use api_replies::refused;
use api_requests::task_of;
use api_routes::Unserved;
use dra_ports::Gate;
use engine_ports::Engine;
use http_wire::{Reply, Request};
use sched_job::Ledger;
use std::alloc::Global;
use std::sync::Wait;
use turn_lock::{Pass, TurnLock};

/// Does what a request is for, and replies to it, where a Schedule makes at most so many attempts. A request that
/// is refused before it is a command takes no turn of the lock.
#[tactic(auto, using(crate::proofs::Attempts::task_has))]
pub fn serve_request<E: Engine, R: Wait, G: Gate>(
    rt: &R,
    alloc: Global,
    lock: &TurnLock<Ledger>,
    pass: &mut Pass<Ledger>,
    gate: &G,
    job: u64,
    budget: u64,
    attempts: u64,
    request: &Request,
) -> Result<Reply, Unreplied>
    requires of { IsOf lock.now pass.old }
    requires free { IsFree pass.old }
    requires some { 0 < attempts }
    ensures of { IsOf lock.now pass.new }
    ensures free { IsFree pass.new }
    ensures serves { ServesRequest job budget (asked.task_of attempts request.now.method request.now.target request.now.body.items) pass.old pass.new result }
{
    let method = request.method.as_str();
    let target = request.target.as_str();
    let Ok(asked) = task_of(alloc, method, target, &request.body, attempts) else {
        return Err(Unreplied::Memory);
    };
    match asked {
        Ok(task) => serve_task::<E, _, _>(rt, alloc, lock, pass, gate, job, budget, task),
        Err(why) => refuse(alloc, why),
    }
}

fn refuse(alloc: Global, why: Unserved) -> Result<Reply, Unreplied>
    ensures { IsRefused why result }
{
    match refused(alloc, why) {
        Ok(reply) => Ok(reply),
        Err(_) => Err(Unreplied::Memory),
    }
}
