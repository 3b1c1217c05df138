ghost use Rattle.std.specs.Prelude.{◌≡◌, ◌<◌, ◌≤◌, ℕ, List, [], IfOk, length, map, slice_index_or};
ghost use Rattle.sched_job.specs.Dealt.{AreMembers, AreReady, dealt, works_in};
ghost use Rattle.sched_job.specs.declared.member.Member.{Member};

use crate::member::Member;
use crate::work::Work;
use engine_ports::Engine;
use ledger_core::Ledger;
use std::alloc::{AllocError, Global};
use std::marker::PhantomData;
use turn_lock::TurnLock;

/// So many empty lists.
fn empty_lists<'a, E: Engine>(
    alloc: Global,
    count: u64,
) -> Result<Vec<Vec<Member<'a, E>>>, AllocError>
    ensures count { IfOk result (λ v. length v.items ≡ count) }
    ensures empty { IfOk result (λ v. (k : ℕ) (d : List (Member E)) → k < count → slice_index_or (map (λ l. l.items) v.items) k d ≡ []) }
{
    let mut lists = Vec::with_capacity(alloc, count as usize)?;
    for _ in 0..count {
        lists.push_reserved(Vec::new(alloc));
    }
    Ok(lists)
}

/// Deals the works to the workers, in order: the work at index i goes to worker i modulo the number of
/// workers.
pub fn deal<'a, E: Engine>(
    alloc: Global,
    lock: &'a TurnLock<Ledger>,
    works: Vec<Work>,
    workers: u64,
    budget: u64,
) -> Result<Vec<Vec<Member<'a, E>>>, AllocError>
    requires workers { 0 < workers }
    requires ready { AreReady works.items }
    ensures count { IfOk result (λ v. length v.items ≡ workers) }
    ensures dealt { IfOk result (λ v. (k : ℕ) (d : List (Member E)) → k < workers → works_in (slice_index_or (map (λ l. l.items) v.items) k d) ≡ dealt k workers 0 works.items) }
    ensures members { IfOk result (λ v. (k : ℕ) (d : List (Member E)) → k < workers → AreMembers lock.now budget (slice_index_or (map (λ l. l.items) v.items) k d)) }
{
    let mut lists = empty_lists::<E>(alloc, workers)?;
    let mut next: usize = 0;
    for work in works {
        let worker = next % (workers as usize);
        lists[worker].push(Member {
            lock,
            alloc,
            work,
            budget,
            engine: PhantomData,
        })?;
        next += 1;
    }
    Ok(lists)
}
