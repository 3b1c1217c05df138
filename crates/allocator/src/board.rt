ghost use Rattle.request_rows.specs.Wanted.{input_of};
ghost use Rattle.std.specs.Prelude.{◌≡◌, ◌<◌, ◌≤◌, ℕ, List, [], ◌∷◌, ◌++◌, false, Some, option_map, map, length, slice_get, IfOk};
ghost use Rattle.request_rules.specs.Draws.{CounterId};
ghost use Rattle.counter_sets.specs.Totals.{drawn_in, value_of};
ghost use Rattle.request_rules.specs.Input.{SearchInput};
ghost use Rattle.request_rules.specs.Rules as rules;
ghost use Rattle.request_rules.specs.Asked.{rules_of};
ghost use Rattle.request_rules.specs.Rules.{least_after};
ghost use Rattle.request_rows.specs.Seen.{slot_seen};
ghost use Rattle.allocator.specs.Agreeing.{AreAgreed};
ghost use Rattle.allocator.specs.Input.{with_counters};
ghost use Rattle.request_rules.specs.Apart.{AreApart};
ghost use Rattle.allocator.specs.Kept.{board_setting};
ghost use Rattle.allocator.specs.Placing.{next_by};
ghost use Rattle.allocator.specs.Answered.{grants_at, selector_fault};
ghost use Rattle.request_rules.specs.Faults.{fault_of};
ghost use Rattle.request_rules.specs.Problem.{shape_of};
ghost use Rattle.walk.specs.Walk.{Faulty, Open};

use crate::agreements::ClaimAgreement;
use crate::faults::fault_at;
use crate::grants::grants_of;
use crate::held::HeldDevices;
use crate::run::{Run, clear, join, leave, slot_at, start};
use crate::standing::last_of;
use cluster::{Grant, SelectorFault};
use counter_sets::Totals;
use deep_search::{Begun, Board};
use dra_values::Seq;
use request_rows::{Rows, Seat, Slot, WantedClaim};
use request_rules::prefixes_are_good;
use std::alloc::{AllocError, Global};
use std::marker::Model;

/// A choice for the claims, and the devices that are placed in its first slots.
#[derive(Drop)]
pub struct RequestBoard<'a> {
    rows: &'a Rows<'a>,
    held: &'a HeldDevices<'a>,
    run: Run<'a>,
}

impl<'a> Model for RequestBoard<'a> {
    ghost use Rattle.request_rows.specs.Wanted.{input_of};
    ghost use Rattle.allocator.specs.Kept.{IsBoard, Placed};
    ghost use Rattle.allocator.specs.Placing.{placed};

    ghost Value = { Placed };

    ghost view = { λ b. record { rows = b.rows.now; held = b.held.now.held; totals = b.run.totals; taken = placed (input_of b.rows.now) b.run.slots.items b.run.positions.items; choice = b.run.chosen.items; positions = b.run.positions.items } };

    ghost invariant = { λ b. IsBoard (input_of b.rows.now) b.held.now b.run };
}

impl<'a> RequestBoard<'a> {
    /// A board at no choice.
    pub fn new(
        alloc: Global,
        rows: &'a Rows<'a>,
        held: &'a HeldDevices<'a>,
        totals: Totals,
        agreements: Vec<ClaimAgreement<'a>>,
    ) -> RequestBoard<'a>
        requires devices { held.now.devices ≡ (input_of rows.now).devices }
        requires apart { AreApart (input_of rows.now).devices }
        requires agreed { AreAgreed (input_of rows.now) [] (rules_of (input_of rows.now)) agreements.items }
        ensures { board_setting result ≡ with_counters (input_of rows.now) held.now.held (value_of totals) (drawn_in totals) }
    {
        RequestBoard {
            rows,
            held,
            run: Run {
                chosen: Vec::new(alloc),
                slots: Vec::new(alloc),
                positions: Vec::new(alloc),
                totals,
                agreements,
            },
        }
    }

    /// The grants of the claims, if the devices that are placed are an allocation.
    pub fn grants(&self, alloc: Global, claims: &[WantedClaim]) -> Result<Seq<Grant>, AllocError>
        requires whole { shape_of (board_setting self.now) self.now.choice ≡ Open (length self.now.positions) }
        requires claims { claims.now ≡ (board_setting self.now).claims }
        ensures { IfOk result (λ gs. gs ≡ grants_at (board_setting self.now) self.now.choice self.now.positions) }
    {
        grants_of(
            alloc,
            self.rows,
            &self.run.slots,
            &self.run.positions,
            claims,
        )
    }

    /// The selector error of the choice, which has one.
    pub fn fault(&self, alloc: Global) -> Result<SelectorFault, AllocError>
        requires { shape_of (board_setting self.now) self.now.choice ≡ Faulty }
        ensures { IfOk result (λ fault. option_map selector_fault (fault_of (board_setting self.now) self.now.choice) ≡ Some fault) }
    {
        fault_at(alloc, self.rows, &self.run.chosen)
    }

    /// The totals, with all devices taken back.
    pub fn into_totals(self) -> Totals
        ensures value { (k : CounterId) → value_of result k ≡ (board_setting self.entry).value k }
        ensures drawn { (k : CounterId) → drawn_in result k ≡ (board_setting self.entry).drawn k }
    {
        let mut run = self.run;
        clear(self.rows, &mut run);
        run.totals
    }
}

/// Below which positions none is good, and from which on none is.
fn window_of(slots: &[Slot], positions: &[usize], devices: usize) -> (usize, usize)
    ensures order { result.0 ≤ result.1 }
    ensures known { result.1 ≤ devices }
    ensures below { (v w : SearchInput) (ps : List rules.Pick) (x : ℕ) → x < result.0 → next_by w ps (least_after 0 positions.now) x (slice_get (map (slot_seen v) slots.now) (length positions.now)) ≡ false }
    ensures above { (v w : SearchInput) (ps : List rules.Pick) (x : ℕ) → result.1 ≤ x → x < devices → next_by w ps (least_after 0 positions.now) x (slice_get (map (slot_seen v) slots.now) (length positions.now)) ≡ false }
{
    match slot_at(slots, positions.len()) {
        None => (0, 0),
        Some(slot) => match slot.seat {
            Seat::First => (0, devices),
            Seat::Next => match last_of(positions) {
                None => (0, devices),
                Some(last) => (last.saturating_add(1).min(devices), devices),
            },
            Seat::Due(due) => (due.min(devices), due.saturating_add(1).min(devices)),
        },
    }
}

impl<'a> Board for RequestBoard<'a> {
    ghost use Rattle.allocator.specs.Kept as kept;
    ghost use Rattle.request_rules.specs.Prefixes.{good-nil, good-prefix};
    ghost use Rattle.request_rules.specs.Input.{SearchInput};
    ghost use Rattle.request_rules.specs.Problem.{open_slots, problem_of};

    ghost Setting = { SearchInput };

    ghost setting = { λ b. kept.board_setting b };

    ghost problem = { λ g. problem_of g };

    ghost chosen = { λ b. b.choice };

    ghost placed = { λ b. b.positions };

    fn window(&self) -> (usize, usize) {
        prefixes_are_good();
        window_of(
            &self.run.slots,
            &self.run.positions,
            self.rows.devices().len(),
        )
    }

    fn begin(&mut self, alloc: Global, choice: &[usize]) -> Result<Begun, AllocError> {
        start(alloc, self.rows, &mut self.run, choice)
    }

    fn try_push(&mut self, _alloc: Global, position: usize) -> Result<bool, AllocError> {
        join(self.rows, self.held, &mut self.run, position)
    }

    fn pop(&mut self) {
        leave(self.rows, &mut self.run);
    }

    ghost empty = { λ g c. good-nil g (open_slots g c) };

    ghost closed = { λ g c l x. good-prefix g (open_slots g c) l (x ∷ []) };
}
