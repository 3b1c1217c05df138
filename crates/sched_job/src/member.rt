use crate::run::{JobEnd, run_job};
use crate::work::Work;
use crew::Job;
use dra_ports::Gate;
use engine_ports::Engine;
use ledger_core::Ledger;
use std::alloc::Global;
use std::marker::PhantomData;
use std::sync::Wait;
use turn_lock::{Pass, TurnLock};

/// A job of several that share a ledger.
#[derive(Drop)]
pub struct Member<'a, E: Engine> {
    pub lock: &'a TurnLock<Ledger>,
    pub alloc: Global,
    pub work: Work,
    pub budget: u64,
    /// What decides and checks.
    pub engine: PhantomData<E>,
}

impl<'a, E: Engine + Send> Job<Ledger> for Member<'a, E> {
    ghost use Rattle.sched_job.specs.Members.{Gives, Needs};

    type End = JobEnd;

    ghost needs = { λ j p. Needs j.lock.now j.work p };

    ghost gives = { λ j p x q. Gives j.lock.now j.work j.budget p x q };

    fn run<R: Wait, G: Gate>(self, rt: &R, gate: &G, pass: &mut Pass<Ledger>) -> JobEnd {
        let Member {
            lock,
            alloc,
            work,
            budget,
            engine: _,
        } = self;
        run_job::<E, _, _>(rt, alloc, lock, pass, gate, work, budget)
    }
}
