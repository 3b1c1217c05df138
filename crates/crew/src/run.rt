ghost use Rattle.std.specs.Prelude.{◌≡◌, ◌+◌, ◌<◌, ◌≤◌, ℕ, List, [], All, IfOk, IfErr, length, map, sum, vec_len, vec_capacity, slice_index_or};
ghost use Rattle.std.specs.List.{flat_map};
ghost use Rattle.std.specs.Vec.Iter.{into_iter_items};
ghost use Rattle.crew.specs.Chains.{Ready, Ran, AllReady, AllRan};

use crate::job::Job;
use crate::lane::{Lane, run_lanes};
use crate::room::{room_for_all, room_for_each};
use dra_ports::Gate;
use std::alloc::{AllocError, Global};
use std::sync::Wait;
use std::thread::Threads;
use turn_lock::{Pass, Recorded};

/// Why no job was begun: out of memory. The lists are returned unchanged.
#[derive(Drop)]
pub struct Unrun<J> {
    pub jobs: Vec<Vec<J>>,
}

/// All the memory that a crew allocates.
#[derive(Drop)]
struct Room<T: Recorded, J: Job<T>> {
    passes: Vec<Pass<T>>,
    lanes: Vec<Lane<T, J>>,
    each: Vec<Vec<J::End>>,
    all: Vec<J::End>,
}

fn make_room<T: Recorded, J: Job<T>>(
    alloc: Global,
    jobs: &[Vec<J>],
) -> Result<Room<T, J>, AllocError>
    ensures passes { IfOk result (λ r. (r.passes.items ≡ []) × (vec_capacity r.passes ≡ length jobs.now)) }
    ensures lanes { IfOk result (λ r. (r.lanes.items ≡ []) × (vec_capacity r.lanes ≡ length jobs.now)) }
    ensures each { IfOk result (λ r. All (λ e. e.items ≡ []) r.each.items × (map (λ e. vec_capacity e) r.each.items ≡ map (λ l. length l.items) jobs.now)) }
    ensures all { IfOk result (λ r. (r.all.items ≡ []) × (vec_capacity r.all ≡ sum (map (λ l. length l.items) jobs.now))) }
{
    Ok(Room {
        passes: Vec::with_capacity(alloc, jobs.len())?,
        lanes: Vec::with_capacity(alloc, jobs.len())?,
        each: room_for_each(alloc, jobs)?,
        all: room_for_all(alloc, jobs)?,
    })
}

/// Adds a lane for each pass, its list and the vector for its ends.
fn fill_lanes<T: Recorded, J: Job<T>>(
    mut lanes: Vec<Lane<T, J>>,
    passes: Vec<Pass<T>>,
    jobs: Vec<Vec<J>>,
    each: Vec<Vec<J::End>>,
) -> Vec<Lane<T, J>>
    requires lanes { (lanes.items ≡ []) × (length jobs.items ≤ vec_capacity lanes) }
    requires passes { length passes.items ≡ length jobs.items }
    requires each { All (λ e. e.items ≡ []) each.items × (map (λ e. vec_capacity e) each.items ≡ map (λ l. length l.items) jobs.items) }
    ensures passes { map (λ l. l.pass) result.items ≡ passes.items }
    ensures jobs { map (λ l. into_iter_items l.jobs) result.items ≡ map (λ v. v.items) jobs.items }
    ensures fresh { All (λ l. l.ends.items ≡ []) result.items }
{
    let mut passes = passes.into_iter();
    let mut each = each.into_iter();
    for list in jobs {
        let Some(pass) = passes.next() else {
            unreachable!()
        };
        let Some(ends) = each.next() else {
            unreachable!()
        };
        lanes.push_reserved(Lane::new(pass, list, ends));
    }
    lanes
}

/// Takes the lanes apart: their passes, and their ends one list after the other.
fn gather<T: Recorded, J: Job<T>>(
    lanes: Vec<Lane<T, J>>,
    mut passes: Vec<Pass<T>>,
    mut all: Vec<J::End>,
) -> (Vec<Pass<T>>, Vec<J::End>)
    requires passes { (passes.items ≡ []) × (length lanes.items ≤ vec_capacity passes) }
    requires all { (all.items ≡ []) × (sum (map (λ l. length l.ends.items) lanes.items) ≤ vec_capacity all) }
    ensures passes { result.0.items ≡ map (λ l. l.pass) lanes.items }
    ensures all { result.1.items ≡ flat_map (λ l. l.ends.items) lanes.items }
{
    for lane in lanes {
        let Lane {
            pass,
            jobs: _,
            mut ends,
        } = lane;
        passes.push_reserved(pass);
        let Ok(()) = all.append(&mut ends) else {
            unreachable!()
        };
    }
    (passes, all)
}

/// Runs each list of jobs in order with the pass at the same index, each list in a thread of its
/// own, and joins the threads. If a thread can't be started, the thread that would have started
/// it runs the list itself.
///
/// There are as many passes as lists, and each job can run with the pass that the jobs before it
/// leave. Afterwards the ends are in the order of the lists, and the passes are in their old order. All
/// memory is allocated first: if out of memory, no job was begun, and the passes and the lists are
/// returned unchanged.
pub fn run_all<T: Recorded + Send, G: Gate + Sync, J: Job<T>, R: Threads + Wait + Sync>(
    rt: &R,
    alloc: Global,
    gate: &G,
    passes: Vec<Pass<T>>,
    jobs: Vec<Vec<J>>,
) -> (Vec<Pass<T>>, Result<Vec<J::End>, Unrun<J>>)
    requires ready { AllReady J.needs J.gives (map (λ v. v.items) jobs.items) passes.items }
    ensures ran { IfOk result.1 (λ ends. AllRan J.needs J.gives (map (λ v. v.items) jobs.items) ends.items passes.items result.0.items) }
    ensures unrun { IfErr result.1 (λ u. (u.jobs.items ≡ jobs.items) × (result.0.items ≡ passes.items)) }
{
    let Ok(room) = make_room::<T, J>(alloc, &jobs) else {
        return (passes, Err(Unrun { jobs }));
    };
    let mut lanes = fill_lanes(room.lanes, passes, jobs, room.each);
    run_lanes(rt, gate, lanes.as_mut_slice());
    let (passes, ends) = gather(lanes, room.passes, room.all);
    (passes, Ok(ends))
}
