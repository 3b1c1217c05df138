ghost use Rattle.std.specs.Prelude.{◌≡◌, ◌+◌, ◌<◌, ◌≤◌, ℕ, List, [], length, map, vec_len, vec_capacity, slice_index_or};
ghost use Rattle.std.specs.Vec.Iter.{into_iter_items, into_iter_len};
ghost use Rattle.crew.specs.Chains.{Ready, Ran, Stepped};

use crate::job::Job;
use dra_ports::Gate;
use std::alloc::Global;
use std::sync::Wait;
use std::thread::{Threads, for_each_mut};
use std::vec::IntoIter;
use turn_lock::{Pass, Recorded};

/// One list of jobs on its way: its pass, the jobs that are left, and the ends so far, with room for
/// those to come.
#[derive(Drop)]
pub struct Lane<T: Recorded, J: Job<T>> {
    pub pass: Pass<T>,
    pub jobs: IntoIter<J, Global>,
    pub ends: Vec<J::End>,
    pub ghost room: { vec_len ends + into_iter_len jobs ≤ vec_capacity ends },
}

impl<T: Recorded, J: Job<T>> Lane<T, J> {
    /// A lane whose jobs are all left, with an empty vector that has room for their ends.
    pub fn new(pass: Pass<T>, jobs: Vec<J>, ends: Vec<J::End>) -> Lane<T, J>
        requires room { vec_len jobs ≤ vec_capacity ends }
        requires fresh { ends.items ≡ [] }
        ensures pass { result.pass ≡ pass }
        ensures jobs { into_iter_items result.jobs ≡ jobs.items }
        ensures ends { result.ends.items ≡ [] }
    {
        let jobs = jobs.into_iter();
        Lane { pass, jobs, ends }
    }

    fn step<R: Wait, G: Gate>(&mut self, rt: &R, gate: &G)
        requires some { 0 < into_iter_len self.old.jobs }
        requires ready { Ready J.needs J.gives (into_iter_items self.old.jobs) self.old.pass }
        ensures left { into_iter_len self.new.jobs + 1 ≡ into_iter_len self.old.jobs }
        ensures ran { Stepped J.needs J.gives (into_iter_items self.old.jobs) (into_iter_items self.new.jobs) self.old.ends.items self.new.ends.items self.old.pass self.new.pass }
    {
        let Some(job) = self.jobs.next() else {
            unreachable!()
        };
        let end = job.run(rt, gate, &mut self.pass);
        self.ends.push_reserved(end);
    }

    /// Runs the jobs in order.
    fn run<R: Wait, G: Gate>(&mut self, rt: &R, gate: &G)
        requires ready { Ready J.needs J.gives (into_iter_items self.old.jobs) self.old.pass }
        requires fresh { self.old.ends.items ≡ [] }
        ensures { Ran J.needs J.gives (into_iter_items self.old.jobs) self.new.ends.items self.old.pass self.new.pass }
    {
        while self.jobs.len() > 0 {
            self.step(rt, gate);
        }
    }
}

/// Runs each lane in a thread of its own, or, if that can't be started, in the thread that would
/// have started it.
pub fn run_lanes<T: Recorded + Send, J: Job<T>, G: Gate + Sync, R: Threads + Wait + Sync>(
    rt: &R,
    gate: &G,
    lanes: &mut [Lane<T, J>],
)
    requires ready { (k : ℕ) (d : _) → k < length lanes.old → Ready J.needs J.gives (into_iter_items (slice_index_or lanes.old k d).jobs) (slice_index_or lanes.old k d).pass × ((slice_index_or lanes.old k d).ends.items ≡ []) }
    ensures len { length lanes.new ≡ length lanes.old }
    ensures ran { (k : ℕ) (d : _) → k < length lanes.old → Ran J.needs J.gives (into_iter_items (slice_index_or lanes.old k d).jobs) (slice_index_or lanes.new k d).ends.items (slice_index_or lanes.old k d).pass (slice_index_or lanes.new k d).pass }
{
    let threads = lanes.len();
    if threads > 0 {
        for_each_mut(
            rt,
            lanes,
            threads,
            &|_i: usize, lane: &mut Lane<T, J>|
                requires { Ready J.needs J.gives (into_iter_items lane.now.jobs) lane.now.pass × (lane.now.ends.items ≡ []) }
                ensures { Ran J.needs J.gives (into_iter_items lane.entry.now.jobs) lane.exit.now.ends.items lane.entry.now.pass lane.exit.now.pass }
            { lane.run(rt, gate) },
        );
    }
}
