use crate::share::serve_share;
use crate::share_end::ShareEnd;
use crew::Job;
use door_ports::Door;
use dra_ports::Gate;
use engine_ports::Engine;
use sched_job::Ledger;
use std::alloc::Global;
use std::marker::PhantomData;
use std::sync::Wait;
use turn_lock::{Pass, TurnLock};

/// A worker of several that share a ledger, with the door whose connections it serves.
#[derive(Drop)]
pub struct Worker<'a, E: Engine, D: Door> {
    pub lock: &'a TurnLock<Ledger>,
    pub alloc: Global,
    pub door: D,
    pub worker: u64,
    pub workers: u64,
    pub connections: u64,
    pub budget: u64,
    pub attempts: u64,
    /// What decides and checks.
    pub engine: PhantomData<E>,
}

/// A door whose connections were served, and how their service ended.
#[derive(Drop)]
pub struct Visited<D: Door> {
    pub door: D,
    pub end: ShareEnd,
}

impl<'a, E: Engine + Send, D: Door + Send> Job<Ledger> for Worker<'a, E, D>
where
    D::Conn: Send,
{
    ghost use Rattle.api_server.specs.Talks.{seen};
    ghost use Rattle.api_server.specs.Workers.{Gives, Needs, hired_as};

    type End = Visited<D>;

    ghost needs = { λ j p. Needs (hired_as j.lock.now j.budget j.attempts j.worker j.workers j.connections (seen D.share D.in_service D.served D.ended D.faults j.door)) p };

    ghost gives = { λ j p x q. Gives (hired_as j.lock.now j.budget j.attempts j.worker j.workers j.connections (seen D.share D.in_service D.served D.ended D.faults j.door)) p (seen D.share D.in_service D.served D.ended D.faults x.door) x.end q };

    fn run<R: Wait, G: Gate>(self, rt: &R, gate: &G, pass: &mut Pass<Ledger>) -> Visited<D> {
        let Worker {
            lock,
            alloc,
            door,
            worker,
            workers,
            connections,
            budget,
            attempts,
            engine: _,
        } = self;
        let mut door = door;
        let end = serve_share::<E, _, _, _>(
            rt,
            alloc,
            lock,
            pass,
            &mut door,
            worker,
            workers,
            connections,
            gate,
            budget,
            attempts,
        );
        Visited { door, end }
    }
}
