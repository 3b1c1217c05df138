ghost use Rattle.std.specs.Prelude.{◌≡◌, Some, IfOk, IfSome, length};
ghost use Rattle.cluster.specs.History.{entry_at, state_of};
ghost use Rattle.turn_lock.specs.Known.{IsFree, IsOf};
ghost use Rattle.api_print.specs.Objects.{json_of};
ghost use Rattle.api_print.specs.Parts.{part_json};
ghost use Rattle.api_server.specs.Served.{Looked};

use api_print::{Part, part_of};
use cluster::{Entry, State, Target};
use entry_copies::{copy_entries, copy_entry};
use sched_job::Ledger;
use std::alloc::{AllocError, Global};
use std::sync::Wait;
use turn_lock::{Pass, TurnLock};

/// A state, and how many entries the history had.
#[derive(Drop)]
pub struct Seen {
    pub state: State,
    pub place: u64,
}

fn see(ledger: &Ledger) -> Result<Seen, AllocError>
    ensures state { IfOk result (λ s. s.state ≡ state_of ledger.now.entries) }
    ensures place { IfOk result (λ s. s.place ≡ length ledger.now.entries) }
{
    let place = ledger.len();
    Ok(Seen {
        state: ledger.state().share()?,
        place,
    })
}

/// The state in one turn of the lock.
pub fn look<R: Wait>(
    rt: &R,
    lock: &TurnLock<Ledger>,
    pass: &mut Pass<Ledger>,
) -> Result<Seen, AllocError>
    requires of { IsOf lock.now pass.old }
    requires free { IsFree pass.old }
    ensures of { IsOf lock.now pass.new }
    ensures free { IsFree pass.new }
    ensures looked { Looked pass.old pass.new }
    ensures state { IfOk result (λ s. s.state ≡ state_of pass.new.front) }
    ensures place { IfOk result (λ s. s.place ≡ length pass.new.front) }
{
    let mut turn = lock.enter(rt, pass);
    let seen = see(turn.state());
    lock.leave(turn, pass);
    seen
}

/// All entries in one turn of the lock.
pub fn look_back<R: Wait>(
    rt: &R,
    alloc: Global,
    lock: &TurnLock<Ledger>,
    pass: &mut Pass<Ledger>,
) -> Result<Vec<Entry>, AllocError>
    requires of { IsOf lock.now pass.old }
    requires free { IsFree pass.old }
    ensures of { IsOf lock.now pass.new }
    ensures free { IsFree pass.new }
    ensures looked { Looked pass.old pass.new }
    ensures entries { IfOk result (λ es. es.items ≡ pass.new.front) }
{
    let mut turn = lock.enter(rt, pass);
    let entries = copy_entries(alloc, turn.state().entries());
    lock.leave(turn, pass);
    entries
}

/// The part of the state that is printed of an object, in one turn of the lock.
pub fn look_for<R: Wait>(
    rt: &R,
    alloc: Global,
    lock: &TurnLock<Ledger>,
    pass: &mut Pass<Ledger>,
    target: &Target,
) -> Result<Part, AllocError>
    requires of { IsOf lock.now pass.old }
    requires free { IsFree pass.old }
    ensures of { IsOf lock.now pass.new }
    ensures free { IsFree pass.new }
    ensures looked { Looked pass.old pass.new }
    ensures part { IfOk result (λ p. part_json p ≡ json_of (state_of pass.new.front) target.now) }
{
    let mut turn = lock.enter(rt, pass);
    let part = see_object(alloc, turn.state(), target);
    lock.leave(turn, pass);
    part
}

fn see_object(alloc: Global, ledger: &Ledger, target: &Target) -> Result<Part, AllocError>
    ensures { IfOk result (λ p. part_json p ≡ json_of (state_of ledger.now.entries) target.now) }
{
    part_of(alloc, target, ledger.state())
}

/// The entry at an index, if there is one, in one turn of the lock. `None` also if memory runs out.
pub fn look_at<R: Wait>(
    rt: &R,
    alloc: Global,
    lock: &TurnLock<Ledger>,
    pass: &mut Pass<Ledger>,
    place: u64,
) -> Option<Entry>
    requires of { IsOf lock.now pass.old }
    requires free { IsFree pass.old }
    ensures of { IsOf lock.now pass.new }
    ensures free { IsFree pass.new }
    ensures looked { Looked pass.old pass.new }
    ensures entry { IfSome result (λ e. entry_at pass.new.front place ≡ Some e) }
{
    let mut turn = lock.enter(rt, pass);
    let found = find(alloc, turn.state(), place);
    lock.leave(turn, pass);
    found
}

fn find(alloc: Global, ledger: &Ledger, place: u64) -> Option<Entry>
    ensures { IfSome result (λ e. entry_at ledger.now.entries place ≡ Some e) }
{
    let entry = ledger.entry(place)?;
    match copy_entry(alloc, entry) {
        Ok(copy) => Some(copy),
        Err(_) => None,
    }
}
