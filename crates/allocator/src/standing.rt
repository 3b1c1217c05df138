ghost use Rattle.request_rows.specs.Wanted.{input_of};
ghost use Rattle.std.specs.Prelude.{◌≡◌, ◌==◌, ◌&&◌, ◌+◌, ◌-◌, ◌≤◌, ◌<◌, ◌∷◌, [], ℕ, true, All, not, ◌||◌, length};
ghost use Rattle.std.specs.List.{list_all};
ghost use Rattle.request_rules.specs.Draws.{CounterId};
ghost use Rattle.counter_sets.specs.Totals.{drawn_in, value_of};
ghost use Rattle.request_rules.specs.Rules as rules;
ghost use Rattle.request_rules.specs.Rules.{amount, draws, least_after};
ghost use Rattle.request_rows.specs.Seen.{seat_seen, slot_seen};
ghost use Rattle.request_rules.specs.Ways.{all_asked, asked_at};
ghost use Rattle.allocator.specs.Agreeing.{result_at};
ghost use Rattle.allocator.specs.Holding.{held_at};
ghost use Rattle.request_rules.specs.Apart.{AreApart};
ghost use Rattle.allocator.specs.Placing.{IsPick, IsPlacing, covered_by, least_by, pick_seen, placed};

use crate::held::HeldDevices;
use crate::pick::Pick;
use constraints::{Picked, excludes};
use counter_sets::Totals;
use pool_view::DeviceRef;
use request_rows::{Row, Rows, Seat, Slot};

/// Whether the seat allows the position after the last one.
fn seated(seat: Seat, last: Option<usize>, position: usize) -> bool
    ensures { result ≡ rules.seated (seat_seen seat) (least_by last) position }
{
    match seat {
        Seat::First => true,
        Seat::Next => match last {
            Some(last) => last < position,
            None => true,
        },
        Seat::Due(due) => due == position,
    }
}

/// Whether the device at the position satisfies the request of the slot, which tolerates its taints, and is
/// allowed by the slot's seat.
pub fn fills(rows: &Rows, slot: Slot, last: Option<usize>, position: usize) -> bool
    requires { slot.row < length (all_asked (input_of rows.now)) }
    ensures { result ≡ rules.fills (input_of rows.now) (slot_seen (input_of rows.now) slot) (least_by last) position }
{
    rows.meets(slot.row, position)
        && rows.tolerates(slot.row, position)
        && seated(slot.seat, last, position)
}

/// The position that was taken last.
pub fn last_of(positions: &[usize]) -> Option<usize>
    ensures { least_by result ≡ least_after 0 positions.now }
{
    let count = positions.len();
    if count == 0 {
        return None;
    }
    Some(positions[count - 1])
}

/// Whether the two results may be placed together. Devices of a node are the same only at one position.
fn apart(rows: &Rows, other: Pick, pick: Pick) -> bool
    requires other { IsPick (input_of rows.now) other }
    requires pick { IsPick (input_of rows.now) pick }
    requires apart { AreApart (input_of rows.now).devices }
    ensures { result ≡ rules.apart (input_of rows.now) (pick_seen (input_of rows.now) other) (pick_seen (input_of rows.now) pick) }
{
    if other.position != pick.position {
        return true;
    }
    let one = rows.row(other.row);
    let two = rows.row(pick.row);
    !excludes(one.claim, one.admin, two.claim, two.admin)
}

/// Whether the device may be placed with each of those that are placed.
pub fn all_apart(rows: &Rows, slots: &[Slot], positions: &[usize], pick: Pick) -> bool
    requires placing { IsPlacing (input_of rows.now) slots.now positions.now }
    requires pick { IsPick (input_of rows.now) pick }
    requires apart { AreApart (input_of rows.now).devices }
    ensures { result ≡ list_all (λ q. rules.apart (input_of rows.now) q (pick_seen (input_of rows.now) pick)) (placed (input_of rows.now) slots.now positions.now) }
{
    for at in 0..positions.len() {
        let other = Pick {
            row: slots[at].row,
            position: positions[at],
        };
        if !apart(rows, other, pick) {
            return false;
        }
    }
    true
}

/// Whether no claim holds the device, or the result has admin access.
pub fn is_free(rows: &Rows, held: &HeldDevices, pick: Pick) -> bool
    requires pick { IsPick (input_of rows.now) pick }
    requires devices { held.now.devices ≡ (input_of rows.now).devices }
    ensures { result ≡ (pick_seen (input_of rows.now) pick).label.admin || not (held_at held.now pick.position) }
{
    rows.row(pick.row).admin || !held.is_held(pick.position)
}

/// Whether the device's counters have enough for it, or the result has admin access.
pub fn covers(rows: &Rows, totals: &Totals, pick: Pick) -> bool
    requires { IsPick (input_of rows.now) pick }
    ensures { result ≡ covered_by (input_of rows.now) (value_of totals.now) (drawn_in totals.now) (pick_seen (input_of rows.now) pick) }
{
    if rows.row(pick.row).admin {
        return true;
    }
    let device = &rows.devices()[pick.position];
    totals.covers(device)
}

/// Draws what the device draws for the result, which its counters have.
pub fn draw(rows: &Rows, totals: &mut Totals, pick: Pick)
    requires pick { IsPick (input_of rows.now) pick }
    requires covered { covered_by (input_of rows.now) (value_of totals.old) (drawn_in totals.old) (pick_seen (input_of rows.now) pick) ≡ true }
    ensures drawn { (k : CounterId) → drawn_in totals.new k ≡ drawn_in totals.old k + amount k (draws (input_of rows.now) (pick_seen (input_of rows.now) pick)) }
    ensures value { (k : CounterId) → value_of totals.new k ≡ value_of totals.old k }
{
    if rows.row(pick.row).admin {
        return;
    }
    let device = &rows.devices()[pick.position];
    totals.draw(device);
}

/// Returns to the counters what the device draws for the result.
pub fn give_back(rows: &Rows, totals: &mut Totals, pick: Pick)
    requires { IsPick (input_of rows.now) pick }
    ensures drawn { (k : CounterId) → drawn_in totals.new k ≡ drawn_in totals.old k - amount k (draws (input_of rows.now) (pick_seen (input_of rows.now) pick)) }
    ensures value { (k : CounterId) → value_of totals.new k ≡ value_of totals.old k }
{
    if rows.row(pick.row).admin {
        return;
    }
    let device = &rows.devices()[pick.position];
    totals.give_back(device);
}

/// The device as a result that constraints look at.
pub fn picked_of<'a>(rows: &'a Rows<'a>, pick: Pick) -> Picked<'a>
    requires { IsPick (input_of rows.now) pick }
    ensures { result_at (input_of rows.now) (pick_seen (input_of rows.now) pick) ≡ result ∷ [] }
{
    let row: &'a Row = rows.row(pick.row);
    let device = &rows.devices()[pick.position];
    Picked::of(
        &row.name,
        DeviceRef::of(device.slice(), device.device()),
        row.admin,
    )
}
