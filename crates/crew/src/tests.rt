ghost use Rattle.std.specs.Prelude.{◌≡◌, ◌+◌, ◌<◌, ◌≤◌, ◌⊎◌, ℕ, IfOk, length, replicate, []};
ghost use Rattle.turn_lock.specs.Places.{times};
ghost use Rattle.turn_lock.specs.Known.{IsOf, IsFree};

use crate::{Job, Unrun, run_all};
use dra_ports::{Gate, HoldGate, OpenGate, Point};
use std::alloc::{AllocError, Global};
use std::sync::Wait;
use std::sync::atomic::{AtomicU64, Ordering};
use std::test::*;
use std::thread::{Threads, join};
use turn_lock::{Pass, Recorded, Refused, TurnLock};

/// A state with no history.
#[derive(Drop)]
struct Blank;

impl Recorded for Blank {
    type Entry = ();

    ghost history = { λ _. [] };

    ghost number = { λ _. 0 };
}

/// A job that only calls its gate, and ends with its number.
#[derive(Drop)]
struct Tell {
    number: u64,
}

impl Job<Blank> for Tell {
    type End = u64;

    ghost needs = { λ j p. Unit {0} };

    ghost gives = { λ j p x q. x ≡ j.number };

    fn run<R: Wait, G: Gate>(self, _rt: &R, gate: &G, _pass: &mut Pass<Blank>) -> u64 {
        gate.reached(self.number, Point::Searched);
        gate.reached(self.number, Point::Ended);
        self.number
    }
}

/// A gate that counts the calls of another.
#[derive(Drop)]
struct Counting {
    gate: HoldGate,
    calls: AtomicU64,
}

impl Counting {
    fn new(gate: HoldGate) -> Counting {
        Counting {
            gate,
            calls: AtomicU64::new(0),
        }
    }

    fn calls(&self) -> u64 {
        self.calls.load(Ordering::SeqCst)
    }
}

impl Gate for Counting {
    fn reached(&self, job: u64, point: Point) {
        self.calls.fetch_add(1, Ordering::SeqCst);
        self.gate.reached(job, point);
    }
}

/// A pass, split into so many.
fn split(
    alloc: Global,
    lock: &TurnLock<Blank>,
    mut first: Pass<Blank>,
    count: usize,
) -> Result<Vec<Pass<Blank>>, AllocError>
    requires { IsOf lock.now first × IsFree first × (first.share ≡ count) × (0 < count) }
    ensures { IfOk result (λ v. length v.items ≡ count) }
{
    let mut passes = Vec::with_capacity(alloc, count)?;
    for _ in 1..count {
        passes.push_reserved(lock.split(&mut first)?);
    }
    passes.push_reserved(first);
    Ok(passes)
}

fn passes(alloc: Global, count: usize) -> Result<Vec<Pass<Blank>>, AllocError>
    requires { (0 < count) × (count < 66) }
    ensures { IfOk result (λ v. length v.items ≡ count) }
{
    match TurnLock::new(alloc, Blank, count as u64) {
        Ok((lock, first)) => split(alloc, &lock, first, count),
        Err(Refused { state: _ }) => Err(AllocError),
    }
}

/// A list of so many jobs, numbered from `first`.
fn list(alloc: Global, first: u64, size: u8) -> Result<Vec<Tell>, AllocError> {
    let mut list = Vec::new(alloc);
    for k in 0..size {
        list.push(Tell {
            number: first.wrapping_add(u64::from(k)),
        })?;
    }
    Ok(list)
}

/// Lists of these sizes, whose jobs are numbered from 0.
fn lists(alloc: Global, sizes: &[u8]) -> Result<Vec<Vec<Tell>>, AllocError>
    ensures { IfOk result (λ v. length v.items ≡ length sizes.now) }
{
    let mut lists = Vec::with_capacity(alloc, sizes.len())?;
    let mut number = 0u64;
    for size in sizes {
        lists.push_reserved(list(alloc, number, *size)?);
        number = number.wrapping_add(u64::from(*size));
    }
    Ok(lists)
}

/// Whether the ends are 0, 1, 2 and so on.
fn are_counted(ends: &[u64]) -> bool {
    let mut next = 0u64;
    for end in ends {
        if *end != next {
            return false;
        }
        next = next.wrapping_add(1);
    }
    true
}

/// Runs lists of these sizes, and returns whether the ends are 0, 1, 2 and so on.
fn ends_in_order<G: Gate + Sync, R: Threads + Wait + Sync>(
    rt: &R,
    alloc: Global,
    gate: &G,
    sizes: &[u8],
    count: usize,
) -> Result<bool, AllocError>
    requires { (0 < length sizes.now) × (length sizes.now < 66) }
{
    let passes = passes(alloc, sizes.len())?;
    let lists = lists(alloc, sizes)?;
    let (_passes, ends) = run_all(rt, alloc, gate, passes, lists);
    match ends {
        Ok(ends) => Ok(ends.len() == count && are_counted(&ends)),
        Err(Unrun { jobs: _ }) => Err(AllocError),
    }
}

#[test]
fn ends_stand_list_by_list(rt: HostRuntime) -> Result<(), Fail> {
    let alloc = rt.alloc();
    assert!(rt; ends_in_order(&rt, alloc, &OpenGate, &[3], 3)?);
    assert!(rt; ends_in_order(&rt, alloc, &OpenGate, &[2, 3], 5)?);
    assert!(rt; ends_in_order(&rt, alloc, &OpenGate, &[2; 64], 128)?);
    assert!(rt; ends_in_order(&rt, alloc, &OpenGate, &[0, 2, 0, 1], 3)?);
    assert!(rt; ends_in_order(&rt, alloc, &OpenGate, &[0], 0)?);
    Ok(())
}

#[test]
fn two_lists_run_beside_each_other(rt: HostRuntime) -> Result<(), Fail> {
    for _ in 0..10 {
        let gate = Counting::new(HoldGate::new(0, Point::Searched, 1, 100_000_000));
        assert!(rt; ends_in_order(&rt, rt.alloc(), &gate, &[1, 1], 2)?);
        assert!(rt; gate.calls() == 4);
        assert!(rt; !gate.gate.gave_up());
    }
    Ok(())
}

#[test]
fn jobs_of_one_list_wait_in_vain(rt: HostRuntime) -> Result<(), Fail> {
    let gate = Counting::new(HoldGate::new(0, Point::Searched, 1, 1000));
    assert!(rt; ends_in_order(&rt, rt.alloc(), &gate, &[2], 2)?);
    assert!(rt; gate.calls() == 4);
    assert!(rt; gate.gate.gave_up());
    Ok(())
}

/// A count with a history of one empty entry for each that was counted.
#[derive(Drop)]
struct Count {
    value: u64,
    limit: u64,
}

impl Recorded for Count {
    type Entry = ();

    ghost history = { λ c. replicate c.value tt };

    ghost number = { λ c. c.limit };
}

impl Count {
    fn add(&mut self)
        ensures value { (self.new.value ≡ self.old.value) ⊎ (self.new.value ≡ self.old.value + 1) }
        ensures limit { self.new.limit ≡ self.old.limit }
    {
        if self.value < self.limit {
            self.value += 1;
        }
    }
}

fn take_turns<R: Wait>(
    rt: &R,
    lock: &TurnLock<Count>,
    mut pass: Pass<Count>,
    turns: u64,
) -> Pass<Count>
    requires { IsOf lock.now pass × IsFree pass }
    ensures { IsOf lock.now result × IsFree result × (result.share ≡ pass.share) }
{
    for _ in 0..turns {
        let mut turn = lock.enter(rt, &mut pass);
        turn.state().add();
        lock.leave(turn, &mut pass);
    }
    pass
}

/// Each entry was made with exactly one of the two passes.
fn close_both(lock: TurnLock<Count>, first: Pass<Count>, second: Pass<Count>) -> Count
    requires of { IsOf lock first × IsOf lock second }
    requires free { IsFree first × IsFree second }
    requires whole { first.share + second.share ≡ lock.passes }
    ensures { (p : ℕ) → length lock.opening < p → p ≤ result.value → times p first.own + times p second.own ≡ 1 }
{
    let whole = lock.join(first, second);
    lock.close(whole)
}

#[test]
fn two_threads_take_turns(rt: HostRuntime) -> Result<(), Fail> {
    let empty = Count {
        value: 0,
        limit: 1_000_000,
    };
    let (lock, mut first) = match TurnLock::new(rt.alloc(), empty, 2) {
        Ok(made) => made,
        Err(Refused { state: _ }) => panic!(rt; "out of memory"),
    };
    assert!(rt; first.share() == 2);
    let second = lock.split(&mut first)?;
    assert!(rt; first.share() == 1 && second.share() == 1);
    let (shared, handle) = (&lock, &rt);
    let (first, second) = join(
        handle,
        || -> Pass<Count>
            requires { IsOf shared.now first × IsFree first }
            ensures { IsOf shared.entry.now result × IsFree result × (result.share ≡ first.share) }
        { take_turns(handle, shared, first, 20_000) },
        || -> Pass<Count>
            requires { IsOf shared.now second × IsFree second }
            ensures { IsOf shared.entry.now result × IsFree result × (result.share ≡ second.share) }
        { take_turns(handle, shared, second, 20_000) },
    );
    let end = close_both(lock, first, second);
    assert!(rt; end.value == 40_000 && end.limit == 1_000_000);
    Ok(())
}
