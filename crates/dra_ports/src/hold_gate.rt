use crate::{Gate, Point};
use std::sync::atomic::{AtomicBool, Ordering};
use std::thread;

/// A gate for tests, which shows that two jobs run beside each other: each of them waits until the
/// other has come to some point, so neither passes if they run one after another.
///
/// The job `until` waits when it is first at [`Point::Searched`], until the job `held` has come to
/// `point`. The job `held` waits there until the job `until` has ended. Each wait gives up after
/// some turns of its loop, and then the gate reports it. Every other job goes through.
#[derive(Drop)]
pub struct HoldGate {
    held: u64,
    point: Point,
    until: u64,
    turns: u64,
    held_arrived: AtomicBool,
    until_searched: AtomicBool,
    until_ended: AtomicBool,
    given_up: AtomicBool,
}

impl HoldGate {
    /// A gate for the jobs `held` and `until`, each of whose waits takes at most `turns` turns.
    pub fn new(held: u64, point: Point, until: u64, turns: u64) -> HoldGate {
        HoldGate {
            held,
            point,
            until,
            turns,
            held_arrived: AtomicBool::new(false),
            until_searched: AtomicBool::new(false),
            until_ended: AtomicBool::new(false),
            given_up: AtomicBool::new(false),
        }
    }

    /// Whether a wait so far ended by its number of turns.
    pub fn gave_up(&self) -> bool {
        self.given_up.load(Ordering::SeqCst)
    }

    fn wait_for(&self, flag: &AtomicBool) {
        for _ in 0..self.turns {
            if flag.load(Ordering::SeqCst) {
                return;
            }
            thread::yield_now();
        }
        self.given_up.store(true, Ordering::SeqCst);
    }

    fn held_reached(&self, point: Point) {
        if point == self.point {
            self.held_arrived.store(true, Ordering::SeqCst);
            self.wait_for(&self.until_ended);
        }
    }

    fn until_reached(&self, point: Point) {
        match point {
            Point::Searched => {
                if !self.until_searched.swap(true, Ordering::SeqCst) {
                    self.wait_for(&self.held_arrived);
                }
            }
            Point::Reserved => {}
            Point::Ended => self.until_ended.store(true, Ordering::SeqCst),
        }
    }
}

impl Gate for HoldGate {
    fn reached(&self, job: u64, point: Point) {
        if job == self.until {
            self.until_reached(point);
        } else if job == self.held {
            self.held_reached(point);
        }
    }
}
