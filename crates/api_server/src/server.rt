ghost use Rattle.std.specs.Prelude.{◌≡◌, ◌≤◌, ◌<◌, [], length, map};
ghost use mathlib.Core.List.{IsPrefix};
ghost use Rattle.turn_lock.specs.Known.{IsFree, IsOf};
ghost use Rattle.api_server.specs.Talks.{seen};
ghost use Rattle.api_server.specs.Serving.{terms_of};
ghost use Rattle.api_server.specs.Together.{AreOpened, DidAll, Ran, unopened};
ghost use Rattle.api_server.specs.Whole.{Serves};

use crate::hire::{doors_left, doors_of, hire, make_room};
use crate::laws::connections_make_entries;
use crate::options::ServeOptions;
use crate::serve_end::{ServeEnd, worst};
use crew::{Unrun, run_all};
use door_ports::{Door, Doors};
use dra_ports::{Gate, PortError};
use engine_ports::Engine;
use sched_job::{Ledger, join_all, split_all};
use std::alloc::Global;
use std::sync::Wait;
use std::thread::Threads;
use turn_lock::{Pass, Refused, TurnLock};

/// Serves the connections to an address over a ledger, and returns the ledger again. The doors are closed again,
/// whatever happens.
pub fn serve_all<E: Engine + Send, R: Threads + Wait + Sync, O: Doors, G: Gate + Sync>(
    rt: &R,
    alloc: Global,
    doors: &mut O,
    address: &str,
    ledger: Ledger,
    options: ServeOptions,
    gate: &G,
) -> (Ledger, ServeEnd)
    requires new { ledger.entries ≡ [] }
    requires workers { (0 < options.workers) × (options.workers ≤ 64) }
    requires connections { options.connections ≤ 65535 }
    requires attempts { 0 < options.attempts }
    ensures { Serves (terms_of options) options.connections ledger.limit result.0 (O.served doors.old) (O.served doors.new) (O.ended doors.old) (O.ended doors.new) (O.faults doors.old) (O.faults doors.new) result.1 }
{
    let _len = ledger.len();
    match doors.open(address, options.workers as usize, options.connections) {
        Ok(opened) => {
            let (ledger, opened, end) = serve_doors::<E, _, _, _>(
                rt, alloc, ledger, opened, options, gate,
            );
            doors.close(opened);
            (ledger, end)
        }
        Err(error) => (ledger, unopened(error)),
    }
}

/// How a server ends that has no doors.
fn unopened(error: PortError) -> ServeEnd
    ensures { result ≡ unopened error }
{
    match error {
        PortError::Failed => ServeEnd::Door,
        PortError::Memory => ServeEnd::Memory,
    }
}

/// Serves the connections of doors, one worker a door, and returns the ledger and the doors again.
fn serve_doors<E: Engine + Send, R: Threads + Wait + Sync, D: Door + Send, G: Gate + Sync>(
    rt: &R,
    alloc: Global,
    ledger: Ledger,
    doors: Vec<D>,
    options: ServeOptions,
    gate: &G,
) -> (Ledger, Vec<D>, ServeEnd)
where
    D::Conn: Send,
    requires empty { ledger.entries ≡ [] }
    requires workers { (0 < options.workers) × (options.workers ≤ 64) }
    requires connections { options.connections ≤ 65535 }
    requires attempts { 0 < options.attempts }
    requires count { length doors.items ≡ options.workers }
    requires new { AreOpened 0 options.workers options.connections (map (seen D.share D.in_service D.served D.ended D.faults) doors.items) }
    ensures { Ran (terms_of options) ledger.limit result.0 (map (seen D.share D.in_service D.served D.ended D.faults) doors.items) (map (seen D.share D.in_service D.served D.ended D.faults) result.1.items) result.2 }
{
    let (lock, first) = match TurnLock::new(alloc, ledger, options.workers) {
        Ok(made) => made,
        Err(Refused { state }) => {
            let _len = state.len();
            return (state, doors, ServeEnd::Memory);
        }
    };
    let (whole, doors, end) = serve_under::<E, _, _, _>(
        rt, alloc, &lock, first, doors, options, gate,
    );
    let ledger = lock.close(whole);
    let _len = ledger.len();
    (ledger, doors, end)
}

/// Splits the pass, runs a worker for each door, and joins the passes.
fn serve_under<E: Engine + Send, R: Threads + Wait + Sync, D: Door + Send, G: Gate + Sync>(
    rt: &R,
    alloc: Global,
    lock: &TurnLock<Ledger>,
    first: Pass<Ledger>,
    doors: Vec<D>,
    options: ServeOptions,
    gate: &G,
) -> (Pass<Ledger>, Vec<D>, ServeEnd)
where
    D::Conn: Send,
    requires of { IsOf lock.now first × IsFree first }
    requires opened { (first.front ≡ lock.now.opening) × (first.own ≡ []) }
    requires share { first.share ≡ options.workers }
    requires workers { (0 < options.workers) × (options.workers ≤ 64) }
    requires connections { options.connections ≤ 65535 }
    requires attempts { 0 < options.attempts }
    requires count { length doors.items ≡ options.workers }
    requires new { AreOpened 0 options.workers options.connections (map (seen D.share D.in_service D.served D.ended D.faults) doors.items) }
    ensures of { IsOf lock.now result.0 × IsFree result.0 }
    ensures share { result.0.share ≡ options.workers }
    ensures begins { IsPrefix lock.now.opening result.0.front }
    ensures did { DidAll (terms_of options) lock.now result.0 (map (seen D.share D.in_service D.served D.ended D.faults) doors.items) (map (seen D.share D.in_service D.served D.ended D.faults) result.1.items) result.2 }
{
    connections_make_entries();
    let Ok(room) = make_room::<E, _>(alloc, doors.len()) else {
        return (first, doors, ServeEnd::Memory);
    };
    match split_all(alloc, lock, first, options.workers) {
        Err(whole) => (whole, doors, ServeEnd::Memory),
        Ok(passes) => {
            let lists = hire(room.each, room.lists, doors, alloc, lock, options);
            let (passes, ends) = run_all(rt, alloc, gate, passes, lists);
            let whole = join_all(lock, passes);
            match ends {
                Ok(ends) => {
                    let end = worst(&ends);
                    (whole, doors_of(room.doors, ends), end)
                }
                Err(Unrun { jobs }) => (whole, doors_left(room.doors, jobs), ServeEnd::Memory),
            }
        }
    }
}
