ghost use Rattle.std.specs.Prelude.{◌≡◌, ◌∷◌, ◌≤◌, ◌<◌, [], All, IfOk, length, map, vec_capacity};
ghost use Rattle.api_server.specs.Talks.{seen};
ghost use Rattle.api_server.specs.Serving.{terms_of};
ghost use Rattle.api_server.specs.Workers.{hired_as, hired_lists};

use crate::options::ServeOptions;
use crate::worker::{Visited, Worker};
use door_ports::Door;
use engine_ports::Engine;
use sched_job::Ledger;
use std::alloc::{AllocError, Global};
use std::marker::PhantomData;
use turn_lock::TurnLock;

/// The memory for the lists of workers and for the doors that are given back.
#[derive(Drop)]
pub struct Room<'a, E: Engine, D: Door> {
    pub each: Vec<Vec<Worker<'a, E, D>>>,
    pub lists: Vec<Vec<Worker<'a, E, D>>>,
    pub doors: Vec<D>,
}

/// The memory for so many workers.
pub fn make_room<'a, E: Engine, D: Door>(
    alloc: Global,
    count: usize,
) -> Result<Room<'a, E, D>, AllocError>
    ensures each { IfOk result (λ r. All (λ e. e.items ≡ []) r.each.items × All (λ e. 1 ≤ vec_capacity e) r.each.items × (length r.each.items ≡ count)) }
    ensures lists { IfOk result (λ r. (r.lists.items ≡ []) × (vec_capacity r.lists ≡ count)) }
    ensures doors { IfOk result (λ r. (r.doors.items ≡ []) × (vec_capacity r.doors ≡ count)) }
{
    Ok(Room {
        each: room_for_each(alloc, count)?,
        lists: Vec::with_capacity(alloc, count)?,
        doors: Vec::with_capacity(alloc, count)?,
    })
}

/// So many empty lists, each with room for one worker.
fn room_for_each<'a, E: Engine, D: Door>(
    alloc: Global,
    count: usize,
) -> Result<Vec<Vec<Worker<'a, E, D>>>, AllocError>
    ensures empty { IfOk result (λ v. All (λ e. e.items ≡ []) v.items) }
    ensures room { IfOk result (λ v. All (λ e. 1 ≤ vec_capacity e) v.items) }
    ensures count { IfOk result (λ v. length v.items ≡ count) }
{
    let mut each = Vec::with_capacity(alloc, count)?;
    for _ in 0..count {
        each.push_reserved(Vec::with_capacity(alloc, 1)?);
    }
    Ok(each)
}

/// A list of one worker for each door.
pub fn hire<'a, E: Engine, D: Door>(
    each: Vec<Vec<Worker<'a, E, D>>>,
    lists: Vec<Vec<Worker<'a, E, D>>>,
    doors: Vec<D>,
    alloc: Global,
    lock: &'a TurnLock<Ledger>,
    options: ServeOptions,
) -> Vec<Vec<Worker<'a, E, D>>>
    requires lists { (lists.items ≡ []) × (length doors.items ≤ vec_capacity lists) }
    requires each { All (λ e. e.items ≡ []) each.items × All (λ e. 1 ≤ vec_capacity e) each.items × (length each.items ≡ length doors.items) }
    ensures { map (map (λ w. hired_as w.lock.now w.budget w.attempts w.worker w.workers w.connections (seen D.share D.in_service D.served D.ended D.faults w.door))) (map (λ v. v.items) result.items)
        ≡ hired_lists lock.now (terms_of options) options.workers options.connections 0 (map (seen D.share D.in_service D.served D.ended D.faults) doors.items) }
{
    let mut lists = lists;
    let mut each = each.into_iter();
    let mut next: usize = 0;
    for door in doors {
        let Some(list) = each.next() else {
            unreachable!()
        };
        let worker = Worker {
            lock,
            alloc,
            door,
            worker: next as u64,
            workers: options.workers,
            connections: options.connections,
            budget: options.budget,
            attempts: options.attempts,
            engine: PhantomData,
        };
        lists.push_reserved(list_of(list, worker));
        next += 1;
    }
    lists
}

/// An empty list with a worker added.
fn list_of<'a, E: Engine, D: Door>(
    list: Vec<Worker<'a, E, D>>,
    worker: Worker<'a, E, D>,
) -> Vec<Worker<'a, E, D>>
    requires { (list.items ≡ []) × (1 ≤ vec_capacity list) }
    ensures { result.items ≡ worker.entry ∷ [] }
{
    let mut list = list;
    list.push_reserved(worker);
    list
}

/// The doors of workers that have ended.
pub fn doors_of<D: Door>(doors: Vec<D>, ends: Vec<Visited<D>>) -> Vec<D>
    requires room { (doors.items ≡ []) × (length ends.items ≤ vec_capacity doors) }
    ensures { result.items ≡ map (λ v. v.door) ends.items }
{
    let mut doors = doors;
    for visited in ends {
        doors.push_reserved(visited.door);
    }
    doors
}

/// The doors of workers that weren't begun, one in each list.
pub fn doors_left<'a, E: Engine, D: Door>(
    doors: Vec<D>,
    lists: Vec<Vec<Worker<'a, E, D>>>,
) -> Vec<D>
    requires room { (doors.items ≡ []) × (length lists.items ≤ vec_capacity doors) }
    requires one { All (λ l. length l.items ≡ 1) lists.items }
    ensures { map (λ d. d ∷ []) result.items ≡ map (λ l. map (λ w. w.door) l.items) lists.entry.items }
{
    let mut doors = doors;
    for list in lists {
        doors.push_reserved(door_of(list));
    }
    doors
}

/// The door of the only worker of a list.
fn door_of<'a, E: Engine, D: Door>(list: Vec<Worker<'a, E, D>>) -> D
    requires { length list.items ≡ 1 }
    ensures { map (λ w. w.door) list.entry.items ≡ result ∷ [] }
{
    let mut list = list;
    let Some(worker) = list.pop() else {
        unreachable!()
    };
    worker.door
}
