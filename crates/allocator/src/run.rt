ghost use Rattle.request_rows.specs.Wanted.{input_of};
ghost use Rattle.std.specs.Prelude.{◌≡◌, ◌≢◌, ◌<◌, ◌≤◌, ◌+◌, ℕ, List, [], ◌∷◌, ◌++◌, Bool, true, All, Option, None, Some, is_some, option_map, map, length, slice_get, IfOk, OnOk, IfSome, if◌then◌else◌};
ghost use Rattle.std.specs.List.{list_all};
ghost use Rattle.object_fields.specs.declared.key.DeviceId.{DeviceId};
ghost use Rattle.object_fields.specs.declared.key.Key.{Key};
ghost use Rattle.deep_search.specs.Parts as parts;
ghost use Rattle.counter_sets.specs.Totals.{drawn_in, value_of};
ghost use Rattle.request_rules.specs.Asked.{rules_of};
ghost use Rattle.request_rules.specs.Lists.{Each};
ghost use Rattle.request_rules.specs.Rules as rules;
ghost use Rattle.request_rules.specs.Draws.{CounterId};
ghost use Rattle.request_rows.specs.Seen.{shape_seen};
ghost use Rattle.request_rules.specs.Rules.{agrees, least_after, may_join};
ghost use Rattle.request_rules.specs.Problem.{good, shape_of};
ghost use Rattle.request_rows.specs.Seen.{slot_seen};
ghost use Rattle.request_rules.specs.Ways.{all_asked};
ghost use Rattle.allocator.specs.Agreeing.{AreAgreed};
ghost use Rattle.request_rules.specs.Apart.{AreApart};
ghost use Rattle.allocator.specs.Kept.{IsRun, setting_of};
ghost use Rattle.allocator.specs.Placing.{IsNext, IsPick, IsPlacing, covered_by, input_at, next_by, pick_seen, placed, placed_draws};

use crate::agreements::{ClaimAgreement, all_fit, leave_all, take_all};
use crate::held::HeldDevices;
use crate::pick::Pick;
use crate::standing::{all_apart, covers, draw, fills, give_back, is_free, last_of, picked_of};
use counter_sets::Totals;
use deep_search::Begun;
use request_rows::{Rows, Shape, Slot};
use request_rules::{joining_is_by_device, prefixes_are_good};
use std::alloc::{AllocError, Global};

/// A choice, the positions of the devices that are placed in its first slots, and what they leave.
#[derive(Drop)]
pub struct Run<'a> {
    pub chosen: Vec<usize>,
    pub slots: Vec<Slot>,
    pub positions: Vec<usize>,
    /// What is drawn from counters, by held devices and by those that are placed.
    pub totals: Totals,
    /// The constraints of all claims, over the devices that are placed.
    pub agreements: Vec<ClaimAgreement<'a>>,
}

/// Whether the device agrees with those that are placed, constraint by constraint.
fn agrees<'a>(rows: &'a Rows<'a>, agreements: &[ClaimAgreement], pick: Pick) -> bool
    requires { IsPick (input_of rows.now) pick }
    ensures { (ps : List rules.Pick) → AreAgreed (input_of rows.now) ps (rules_of (input_of rows.now)) agreements.now → Each (λ q. q.position < length (input_of rows.now).devices) ps →
        result ≡ list_all (λ r. agrees (input_of rows.now) r ps (pick_seen (input_of rows.now) pick)) (rules_of (input_of rows.now)) }
{
    let picked = picked_of(rows, pick);
    all_fit(agreements, rows.row(pick.row).claim, &picked)
}

/// Whether one device more may be placed with those that are placed.
fn may_join<'a>(
    rows: &'a Rows<'a>,
    held: &HeldDevices,
    slots: &[Slot],
    positions: &[usize],
    totals: &Totals,
    agreements: &[ClaimAgreement],
    pick: Pick,
) -> bool
    requires placing { IsPlacing (input_of rows.now) slots.now positions.now }
    requires pick { IsPick (input_of rows.now) pick }
    requires apart { AreApart (input_of rows.now).devices }
    requires devices { held.now.devices ≡ (input_of rows.now).devices }
    requires agreed { AreAgreed (input_of rows.now) (placed (input_of rows.now) slots.now positions.now) (rules_of (input_of rows.now)) agreements.now }
    requires drawn { (k : CounterId) → placed_draws (input_of rows.now) (placed (input_of rows.now) slots.now positions.now) k ≤ drawn_in totals.now k }
    ensures exact { result ≡ may_join (input_at (input_of rows.now) held.now.held totals.now (placed (input_of rows.now) slots.now positions.now)) (placed (input_of rows.now) slots.now positions.now) (pick_seen (input_of rows.now) pick) }
    ensures covered { result ≡ true → covered_by (input_of rows.now) (value_of totals.now) (drawn_in totals.now) (pick_seen (input_of rows.now) pick) ≡ true }
    ensures agreed { result ≡ true → list_all (λ r. agrees (input_of rows.now) r (placed (input_of rows.now) slots.now positions.now) (pick_seen (input_of rows.now) pick)) (rules_of (input_of rows.now)) ≡ true }
{
    joining_is_by_device();
    if !all_apart(rows, slots, positions, pick) {
        return false;
    }
    if !is_free(rows, held, pick) {
        return false;
    }
    if !covers(rows, totals, pick) {
        return false;
    }
    agrees(rows, agreements, pick)
}

/// The slot behind those that are filled, if there is one.
pub fn slot_at(slots: &[Slot], at: usize) -> Option<Slot>
    ensures { result ≡ slice_get slots.now at }
{
    match slots.get(at) {
        Some(slot) => Some(*slot),
        None => None,
    }
}

/// The device for the next slot, if it may be placed there.
fn next_pick<'a>(
    rows: &'a Rows<'a>,
    held: &HeldDevices,
    slots: &[Slot],
    positions: &[usize],
    totals: &Totals,
    agreements: &[ClaimAgreement],
    position: usize,
) -> Option<Pick>
    requires placing { IsPlacing (input_of rows.now) slots.now positions.now }
    requires known { position < length (input_of rows.now).devices }
    requires apart { AreApart (input_of rows.now).devices }
    requires devices { held.now.devices ≡ (input_of rows.now).devices }
    requires agreed { AreAgreed (input_of rows.now) (placed (input_of rows.now) slots.now positions.now) (rules_of (input_of rows.now)) agreements.now }
    requires drawn { (k : CounterId) → placed_draws (input_of rows.now) (placed (input_of rows.now) slots.now positions.now) k ≤ drawn_in totals.now k }
    ensures good { is_some result ≡ next_by (input_at (input_of rows.now) held.now.held totals.now (placed (input_of rows.now) slots.now positions.now)) (placed (input_of rows.now) slots.now positions.now)
        (least_after 0 positions.now) position (slice_get (map (slot_seen (input_of rows.now)) slots.now) (length positions.now)) }
    ensures pick { IfSome result (λ p. IsNext slots.now (length positions.now) position p) }
    ensures covered { IfSome result (λ p. covered_by (input_of rows.now) (value_of totals.now) (drawn_in totals.now) (pick_seen (input_of rows.now) p) ≡ true) }
    ensures agreed { IfSome result (λ p. list_all (λ r. agrees (input_of rows.now) r (placed (input_of rows.now) slots.now positions.now) (pick_seen (input_of rows.now) p)) (rules_of (input_of rows.now)) ≡ true) }
{
    match slot_at(slots, positions.len()) {
        None => None,
        Some(slot) => {
            let row = slot.row;
            let pick = Pick { row, position };
            if !fills(rows, slot, last_of(positions), position) {
                return None;
            }
            if !may_join(rows, held, slots, positions, totals, agreements, pick) {
                return None;
            }
            Some(pick)
        }
    }
}

/// Takes the device for the next slot.
fn take<'a>(rows: &'a Rows<'a>, run: &mut Run<'a>, pick: Pick) -> Result<(), AllocError>
    requires kept { IsRun (input_of rows.now) run.old }
    requires next { IsNext run.old.slots.items (length run.old.positions.items) pick.position pick }
    requires known { pick.position < length (input_of rows.now).devices }
    requires covered { covered_by (input_of rows.now) (value_of run.old.totals) (drawn_in run.old.totals) (pick_seen (input_of rows.now) pick) ≡ true }
    requires agreed { list_all (λ r. agrees (input_of rows.now) r (placed (input_of rows.now) run.old.slots.items run.old.positions.items) (pick_seen (input_of rows.now) pick)) (rules_of (input_of rows.now)) ≡ true }
    ensures kept { IsRun (input_of rows.now) run.new }
    ensures chosen { run.new.chosen.items ≡ run.old.chosen.items }
    ensures positions { OnOk result (run.new.positions.items ≡ run.old.positions.items ++ pick.position ∷ []) }
    ensures setting { (held : List (DeviceId × Key)) → setting_of (input_of rows.now) held run.new ≡ setting_of (input_of rows.now) held run.old }
{
    run.positions.push(pick.position)?;
    draw(rows, &mut run.totals, pick);
    let picked = picked_of(rows, pick);
    take_all(&mut run.agreements, rows.row(pick.row).claim, &picked);
    Ok(())
}

/// Takes the device at the position for the next slot, if that is good.
pub fn join<'a>(
    rows: &'a Rows<'a>,
    held: &HeldDevices,
    run: &mut Run<'a>,
    position: usize,
) -> Result<bool, AllocError>
    requires kept { IsRun (input_of rows.now) run.old }
    requires apart { AreApart (input_of rows.now).devices }
    requires devices { held.now.devices ≡ (input_of rows.now).devices }
    requires known { position < length (input_of rows.now).devices }
    requires good { good (setting_of (input_of rows.now) held.now.held run.old) run.old.chosen.items run.old.positions.items ≡ true }
    ensures kept { IsRun (input_of rows.now) run.new }
    ensures chosen { run.new.chosen.items ≡ run.old.chosen.items }
    ensures setting { setting_of (input_of rows.now) held.now.held run.new ≡ setting_of (input_of rows.now) held.now.held run.old }
    ensures positions { IfOk result (λ b. run.new.positions.items ≡ (if b then run.old.positions.items ++ position ∷ [] else run.old.positions.items)) }
    ensures good { IfOk result (λ b. b ≡ good (setting_of (input_of rows.now) held.now.held run.old) run.old.chosen.items (run.old.positions.items ++ position ∷ [])) }
{
    prefixes_are_good();
    match next_pick(
        rows,
        held,
        &run.slots,
        &run.positions,
        &run.totals,
        &run.agreements,
        position,
    ) {
        None => Ok(false),
        Some(pick) => {
            take(rows, run, pick)?;
            Ok(true)
        }
    }
}

/// Takes the last device back.
pub fn leave<'a>(rows: &'a Rows<'a>, run: &mut Run<'a>)
    requires kept { IsRun (input_of rows.now) run.old }
    ensures kept { IsRun (input_of rows.now) run.new }
    ensures chosen { run.new.chosen.items ≡ run.old.chosen.items }
    ensures setting { (held : List (DeviceId × Key)) → setting_of (input_of rows.now) held run.new ≡ setting_of (input_of rows.now) held run.old }
    ensures positions { (l : List ℕ) (x : ℕ) → run.old.positions.items ≡ l ++ x ∷ [] → run.new.positions.items ≡ l }
{
    if let Some(position) = run.positions.pop() {
        let row = run.slots[run.positions.len()].row;
        let pick = Pick { row, position };
        give_back(rows, &mut run.totals, pick);
        let picked = picked_of(rows, pick);
        leave_all(&mut run.agreements, rows.row(row).claim, &picked);
    }
}

/// Takes all devices back.
pub fn clear<'a>(rows: &'a Rows<'a>, run: &mut Run<'a>)
    requires kept { IsRun (input_of rows.now) run.old }
    ensures kept { IsRun (input_of rows.now) run.new }
    ensures setting { (held : List (DeviceId × Key)) → setting_of (input_of rows.now) held run.new ≡ setting_of (input_of rows.now) held run.old }
    ensures positions { run.new.positions.items ≡ [] }
{
    while !run.positions.is_empty() {
        leave(rows, run);
    }
}

fn begun_of(shape: Shape) -> Begun
    ensures { parts.shape_of result ≡ shape_seen shape }
{
    match shape {
        Shape::Faulty => Begun::Faulty,
        Shape::Hopeless => Begun::Hopeless,
        Shape::Open(slots) => Begun::Open(slots),
    }
}

/// Takes up a choice, with nothing placed.
pub fn start<'a>(
    alloc: Global,
    rows: &'a Rows<'a>,
    run: &mut Run<'a>,
    choice: &[usize],
) -> Result<Begun, AllocError>
    requires kept { IsRun (input_of rows.now) run.old }
    ensures kept { IsRun (input_of rows.now) run.new }
    ensures chosen { OnOk result (run.new.chosen.items ≡ choice.now) }
    ensures positions { OnOk result (run.new.positions.items ≡ []) }
    ensures setting { (held : List (DeviceId × Key)) → setting_of (input_of rows.now) held run.new ≡ setting_of (input_of rows.now) held run.old }
    ensures shape { IfOk result (λ begun. parts.shape_of begun ≡ shape_of (input_of rows.now) choice.now) }
{
    clear(rows, run);
    let begun = rows.begin(alloc, choice)?;
    let chosen = Vec::from_slice(alloc, choice)?;
    run.chosen = chosen;
    run.slots = begun.slots;
    Ok(begun_of(begun.shape))
}
