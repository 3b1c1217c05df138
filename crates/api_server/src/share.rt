ghost use Rattle.std.specs.Prelude.{◌≡◌, ◌≤◌, ◌<◌, IfSome};
ghost use Rattle.turn_lock.specs.Known.{IsFree, IsOf};
ghost use Rattle.door_ports.specs.Shares.{IsLeft, share_of};
ghost use Rattle.api_server.specs.Talks.{NextDid, ShareDid, seen, stop_after, unaccepted};

use crate::share_end::ShareEnd;
use crate::{ConnEnd, serve_connection};
use door_ports::Door;
use dra_ports::{Gate, PortError};
use engine_ports::Engine;
use sched_job::Ledger;
use std::alloc::Global;
use std::sync::Wait;
use turn_lock::{Pass, TurnLock};

/// Serves the connections of a worker, one after another, each accepted at its door and given back to it after its
/// service: worker i of n, from 0, has the connections i + 1, i + 1 + n and so on up to `connections`.
///
/// A connection that can't be read or written any more is over, and the next one is served. The service ends early if
/// the door fails, if the history has its limit of entries and a request needs one more, or if memory runs out.
pub fn serve_share<E: Engine, R: Wait, D: Door, G: Gate>(
    rt: &R,
    alloc: Global,
    lock: &TurnLock<Ledger>,
    pass: &mut Pass<Ledger>,
    door: &mut D,
    worker: u64,
    workers: u64,
    connections: u64,
    gate: &G,
    budget: u64,
    attempts: u64,
) -> ShareEnd
    requires of { IsOf lock.now pass.old }
    requires free { IsFree pass.old }
    requires attempts { 0 < attempts }
    requires workers { (worker < workers) × (workers ≤ 64) }
    requires connections { connections ≤ 65535 }
    requires share { D.share door.old ≡ share_of worker workers connections }
    ensures of { IsOf lock.now pass.new }
    ensures free { IsFree pass.new }
    ensures did { ShareDid (record { budget = budget; attempts = attempts }) pass.old pass.new (seen D.share D.in_service D.served D.ended D.faults door.old) (seen D.share D.in_service D.served D.ended D.faults door.new) result }
{
    let mut number = worker + 1;
    'connections: while number <= connections {
        let end = serve_next::<E, _, _, _>(rt, alloc, lock, pass, door, gate, budget, attempts);
        if let Some(end) = end {
            return end;
        }
        number += workers;
    }
    ShareEnd::Served
}

/// Accepts the next connection, serves it and gives it back. Returns how the service of all ended, if it did.
fn serve_next<E: Engine, R: Wait, D: Door, G: Gate>(
    rt: &R,
    alloc: Global,
    lock: &TurnLock<Ledger>,
    pass: &mut Pass<Ledger>,
    door: &mut D,
    gate: &G,
    budget: u64,
    attempts: u64,
) -> Option<ShareEnd>
    requires of { IsOf lock.now pass.old }
    requires free { IsFree pass.old }
    requires attempts { 0 < attempts }
    requires left { IsLeft (D.share door.old) }
    requires numbers { (0 < (D.share door.old).next) × ((D.share door.old).last ≤ 65535) }
    ensures of { IsOf lock.now pass.new }
    ensures free { IsFree pass.new }
    ensures did { NextDid (record { budget = budget; attempts = attempts }) pass.old pass.new (seen D.share D.in_service D.served D.ended D.faults door.old) (seen D.share D.in_service D.served D.ended D.faults door.new) result }
{
    match door.accept() {
        Ok(accepted) => {
            let mut accepted = accepted;
            let number = accepted.number();
            let conn = accepted.conn();
            let end = serve_connection::<E, _, _, _>(
                rt, alloc, lock, pass, conn, number, gate, budget, attempts,
            );
            door.end(accepted);
            stop_after(end)
        }
        Err(error) => Some(unaccepted(error)),
    }
}

/// How the service of all connections ends after one of them ended so, if it does.
fn stop_after(end: ConnEnd) -> Option<ShareEnd>
    ensures { result ≡ stop_after end }
{
    match end {
        ConnEnd::Closed | ConnEnd::Wire(_) => None,
        ConnEnd::Full(count) => Some(ShareEnd::Full(count)),
        ConnEnd::Memory => Some(ShareEnd::Memory),
    }
}

/// How the service ends if no connection is accepted.
fn unaccepted(error: PortError) -> ShareEnd
    ensures { result ≡ unaccepted error }
{
    match error {
        PortError::Failed => ShareEnd::Door,
        PortError::Memory => ShareEnd::Memory,
    }
}
