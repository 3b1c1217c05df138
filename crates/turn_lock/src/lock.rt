ghost use Rattle.std.specs.Prelude.{◌≡◌, ◌+◌, ℕ, ◌%◌, ◌<◌, List, [], ◌∷◌, IfOk, IfErr, OnErr, Some};
ghost use mathlib.Core.List.{IsPrefix};
ghost use Rattle.turn_lock.specs.declared.view.Stage.TheVariants.{Waiting, InTurn};
ghost use Rattle.turn_lock.specs.Places.{Grown, OwnsAll};
ghost use Rattle.turn_lock.specs.Known.{IsOf, IsFree, HasTurn, OwnIsSeen, first_pass, entered, left, lessened, split_off, joined};
ghost use Rattle.turn_lock.specs.Stages.{with_stage};

use crate::recorded::Recorded;
use crate::steps::{InTurns, JoinViews, Leave, Look, Meet, SlotIn, SlotOut, SplitShare, Take};
use crate::turn::Turn;
use crate::view::{Start, View};
use atomic_table::{Seat, Table};
use std::alloc::{AllocError, AllocFailed, Allocator, Global};
use std::marker::Model;
use std::snapshot::Snapshot;
use std::sync::Wait;

/// The word that counts the tickets given.
const GIVEN: usize = 0;

/// The word with the ticket that is served.
const SERVED: usize = 1;

/// A lock over a state with a history. Threads share it by reference, each with a [`Pass`].
#[derive(Drop)]
pub struct TurnLock<T: Recorded, A: Allocator = Global> {
    table: Table<Option<T>, View<T::Entry>, Start<T>, InTurns, A>,
}

impl<T: Recorded, A: Allocator> Model for TurnLock<T, A> {
    ghost use Rattle.std.specs.Prelude.{◌≡◌};
    ghost use Rattle.turn_lock.specs.Known.{Opened};

    ghost Value = { Opened T.Entry };

    ghost view = { λ l. record { table = l.table.shared.table_id; passes = l.table.shared.key.passes; opening = T.history l.table.shared.key.state.value; number = T.number l.table.shared.key.state.value } };

    ghost invariant = { λ l. (l.table.shared.table_id.words ≡ 2) × (l.table.shared.table_id.slots ≡ 1) };
}

/// What one thread enters a lock with. Contracts see what it knows: the history that it saw last,
/// the indices of the entries that were made with it, its share, the state's number, and while it has
/// a turn the history that the turn began with.
#[derive(Drop)]
pub struct Pass<T: Recorded> {
    seat: Seat<Option<T>, View<T::Entry>>,
    share: u64,
}

impl<T: Recorded> Model for Pass<T> {
    ghost use Rattle.std.specs.Prelude.{◌≡◌, ◌<◌, true};
    ghost use Rattle.turn_lock.specs.Known.{Known, OwnIsSeen, BeginsLater};
    ghost use Rattle.turn_lock.specs.Stages.{known_of, rests, carried};

    ghost Value = { Known T.Entry };

    ghost view = { λ p. known_of p.seat.table_id p.seat.me.0 };

    ghost invariant = { λ p. (p.share ≡ p.seat.me.0.share) × (0 < p.share) × (rests p.seat.me.0.stage ≡ true) × (p.seat.me.1 ≡ carried p.seat.me.0.stage) × OwnIsSeen (known_of p.seat.table_id p.seat.me.0) × BeginsLater (known_of p.seat.table_id p.seat.me.0) };
}

/// Why a lock wasn't made: out of memory. The state is returned.
#[derive(Drop)]
pub struct Refused<T> {
    pub state: T,
}

fn one_slot<T, A: Allocator>(alloc: A, state: T) -> Result<Vec<Option<T>, A>, Refused<T>>
    ensures ok { IfOk result (λ v. v.items ≡ Some state ∷ []) }
    ensures err { IfErr result (λ r. r.state ≡ state) }
{
    let mut slots = Vec::new(alloc);
    match slots.push(Some(state)) {
        Ok(()) => Ok(slots),
        Err(AllocFailed { value }) => {
            slots.destroy_empty();
            let Some(state) = value else { unreachable!() };
            Err(Refused { state })
        }
    }
}

fn taken_back<T, A: Allocator>(mut slots: Vec<Option<T>, A>) -> Refused<T>
    requires { (x : T) × (slots.items ≡ Some x ∷ []) }
    ensures { slots.items ≡ Some result.state ∷ [] }
{
    let Some(Some(state)) = slots.pop() else {
        unreachable!()
    };
    slots.destroy_empty();
    Refused { state }
}

impl<T: Recorded, A: Allocator> TurnLock<T, A> {
    /// A lock over a state, and its first pass, which has a share of `passes`.
    ///
    /// `passes` is how many passes there can be at once, 1 to 65. If out of memory, the state
    /// is returned.
    pub fn new(alloc: A, state: T, passes: u64) -> Result<(TurnLock<T, A>, Pass<T>), Refused<T>>
    where
        A: Clone,
        requires passes { (0 < passes) × (passes < 66) }
        ensures lock { IfOk result (λ r. (r.0.passes ≡ passes) × (r.0.opening ≡ T.history state) × (r.0.number ≡ T.number state)) }
        ensures pass { IfOk result (λ r. r.1 ≡ first_pass r.0) }
        ensures of { IfOk result (λ r. IsOf r.0 r.1) }
        ensures err { IfErr result (λ r. r.state ≡ state) }
    {
        let Ok(other) = alloc.clone() else {
            return Err(Refused { state });
        };
        let about = Start {
            state: Snapshot::of(&state),
            passes,
        };
        let slots = one_slot(other, state)?;
        match Table::new(alloc, &[0, 0], slots, &about) {
            Ok((table, seat)) => Ok((
                TurnLock { table },
                Pass {
                    seat,
                    share: passes,
                },
            )),
            Err(refused) => Err(taken_back(refused.slots)),
        }
    }

    /// Waits until the ticket of the seat is served.
    fn wait_turn<R: Wait>(&self, rt: &R, seat: &mut Seat<Option<T>, View<T::Entry>>, ticket: u64)
        requires { (seat.old.table_id ≡ self.now.table) × ((t : ℕ) × (seat.old.me.0.stage ≡ Waiting t) × (ticket ≡ t % 18446744073709551616)) }
        ensures { (seat.new.table_id ≡ seat.old.table_id) × (seat.new.id ≡ seat.old.id) × ((t : ℕ) × (seat.new.me ≡ (with_stage seat.old.me.0 (InTurn t), seat.old.me.1))) }
    {
        for _ in rt.forever() {
            let served = self.table.shared.load::<Look>(seat, SERVED);
            if served == ticket {
                return;
            }
            self.table
                .shared
                .park(rt, SERVED, (served % (1 << 32)) as u32);
        }
        unreachable!()
    }

    /// Waits for a turn, and returns the state. Allocates nothing.
    ///
    /// The state's history begins with the pass's front, the history that the pass saw last, and its
    /// number is the one at `new`. The state is moved out of the lock, so nobody else has it until the
    /// turn is left.
    pub fn enter<R: Wait>(&self, rt: &R, pass: &mut Pass<T>) -> Turn<T>
        requires of { IsOf self.now pass.old }
        requires free { IsFree pass.old }
        ensures pass { pass.new ≡ entered pass.old (T.history result) }
        ensures begins { IsPrefix pass.old.front (T.history result) }
        ensures number { T.number result ≡ self.now.number }
        ensures of { IsOf self.now pass.new }
    {
        let ticket = self
            .table
            .shared
            .fetch_add::<Take>(&mut pass.seat, GIVEN, 1);
        self.wait_turn(rt, &mut pass.seat, ticket);
        self.table.shared.load::<SlotOut>(&mut pass.seat, SERVED);
        let Some(state) = self.table.shared.exchange(&mut pass.seat, 0, None) else {
            unreachable!()
        };
        Turn::new(state)
    }

    /// Ends the turn of a pass, and puts the state back. Allocates nothing.
    ///
    /// The state's history is the one at `enter`, or that one with one entry more, and its number is
    /// unchanged. The history becomes the pass's front, and the index of the new entry one of its own.
    pub fn leave(&self, turn: Turn<T>, pass: &mut Pass<T>)
        requires of { IsOf self.now pass.old }
        requires turn { (began : List T.Entry) × HasTurn pass.old began × Grown began (T.history turn) }
        requires number { T.number turn ≡ self.now.number }
        ensures pass { pass.new ≡ left pass.old (T.history turn) }
        ensures of { IsOf self.now pass.new }
    {
        let state = turn.into_state();
        let empty = self.table.shared.exchange(&mut pass.seat, 0, Some(state));
        let None = empty else { unreachable!() };
        self.table.shared.load::<SlotIn>(&mut pass.seat, SERVED);
        self.table
            .shared
            .fetch_add::<Leave>(&mut pass.seat, SERVED, 1);
        self.table.shared.wake_all(SERVED);
    }

    /// A pass for another thread, which knows the same history and takes a share of 1 from this one.
    ///
    /// An error means out of memory, and changes nothing.
    pub fn split(&self, pass: &mut Pass<T>) -> Result<Pass<T>, AllocError>
        requires of { IsOf self.now pass.old }
        requires free { IsFree pass.old }
        requires room { 1 < pass.old.share }
        ensures ok { IfOk result (λ r. (pass.new ≡ lessened pass.old) × (r ≡ split_off pass.old)) }
        ensures other { IfOk result (λ r. IsOf self.now r) }
        ensures err { OnErr result (pass.new ≡ pass.old) }
        ensures of { IsOf self.now pass.new }
    {
        let seat = self.table.shared.split_seat::<SplitShare>(&mut pass.seat);
        pass.share -= 1;
        Ok(Pass { seat, share: 1 })
    }

    /// One pass of two, with the entries and the shares of both. Allocates nothing.
    ///
    /// Of the two fronts the shorter is a prefix of the longer, which becomes the front.
    pub fn join(&self, pass: Pass<T>, other: Pass<T>) -> Pass<T>
        requires of { IsOf self.now pass × IsOf self.now other }
        requires free { IsFree pass × IsFree other }
        ensures joined { result ≡ joined pass other }
        ensures begins { IsPrefix pass.front result.front × IsPrefix other.front result.front }
        ensures of { IsOf self.now result }
    {
        let Pass { mut seat, share } = pass;
        let Pass {
            seat: given,
            share: more,
        } = other;
        self.table.shared.join_seat::<JoinViews>(&mut seat, given);
        self.table.shared.load::<Meet>(&mut seat, SERVED);
        Pass {
            seat,
            share: share + more,
        }
    }

    /// Returns the state, once every other pass was joined into this one. Allocates nothing.
    ///
    /// The state's history begins with the pass's front, and its indices past the history at `new` are
    /// the pass's own, each once.
    pub fn close(self, pass: Pass<T>) -> T
        requires of { IsOf self pass }
        requires free { IsFree pass }
        requires whole { pass.share ≡ self.passes }
        ensures begins { IsPrefix pass.front (T.history result) }
        ensures number { T.number result ≡ self.number }
        ensures own { OwnsAll self.opening (T.history result) pass.own }
    {
        let TurnLock { table } = self;
        let Pass { seat, share: _ } = pass;
        let mut closed = table.close_with(seat);
        let Some(state) = closed.take(0) else {
            unreachable!()
        };
        closed.free();
        state
    }
}

impl<T: Recorded> Pass<T> {
    /// How many passes this one represents: it can be split until it represents 1. Allocates nothing.
    pub fn share(&self) -> u64
        ensures { result ≡ self.now.share }
    {
        self.share
    }

    /// States that the pass has seen its own entries: each of its own indices is at most the length of
    /// its front.
    pub fn own_is_seen(&self)
        ensures { OwnIsSeen self.now }
    {
        let _ = &self.seat;
    }
}
