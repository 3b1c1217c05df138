ghost use Rattle.std.specs.Prelude.{◌≡◌, List, [], Some, length, IfOk};
ghost use Rattle.object_fields.specs.declared.key.DeviceId.{DeviceId};
ghost use Rattle.object_fields.specs.declared.key.Key.{Key};
ghost use Rattle.counter_sets.specs.Holding.{AreHeld};
ghost use Rattle.walk.specs.Walk.{Faulty, Open};
ghost use Rattle.request_rules.specs.Draws.{CounterId};
ghost use Rattle.counter_sets.specs.Totals.{drawn_in, value_of};
ghost use Rattle.deep_search.specs.Progress.{told};
ghost use Rattle.deep_search.specs.declared.answer.Answer.TheVariants as ended;
ghost use Rattle.request_rules.specs.Problem.{shape_of};
ghost use Rattle.request_rules.specs.Asked.{options, rules_of};
ghost use Rattle.request_rows.specs.Wanted.{asking, input_of};
ghost use Rattle.allocator.specs.Agreeing.{AreAgreed};
ghost use Rattle.allocator.specs.Answered.{answer_by, answer_of};
ghost use Rattle.allocator.specs.Kept.{board_setting};
ghost use Rattle.allocator.specs.Input.{with_counters};
ghost use Rattle.request_rules.specs.Apart.{AreApart};

use crate::agreements::{ClaimAgreement, agreements_of};
use crate::board::RequestBoard;
use crate::held::HeldDevices;
use crate::outcome::Outcome;
use counter_sets::{Held, Totals};
use deep_search::Answer;
use device_match::Verdicts;
use pool_view::DeviceRef;
use request_rows::{Rows, Wants};
use std::alloc::{AllocError, Global};
use std::mem;
use walk::{outcome_is_exact, walk_has_each_item};

/// What the search of a board came to.
fn outcome_of(
    alloc: Global,
    wants: &Wants,
    board: &RequestBoard,
    answer: Answer,
) -> Result<Outcome, AllocError>
    requires claims { wants.now.claims ≡ (board_setting board.now).claims }
    requires full { answer ≡ ended.Full → shape_of (board_setting board.now) board.now.choice ≡ Open (length board.now.positions) }
    requires fault { answer ≡ ended.Fault → shape_of (board_setting board.now) board.now.choice ≡ Faulty }
    ensures { IfOk result (λ found. answer_by (board_setting board.now) (told answer board.now.choice board.now.positions) ≡ Some found) }
{
    match answer {
        Answer::Full => Ok(Outcome::Found(board.grants(alloc, &wants.claims)?)),
        Answer::Fault => Ok(Outcome::Fault(board.fault(alloc)?)),
        Answer::Unsat => Ok(Outcome::Unsat),
        Answer::Budget => Ok(Outcome::Budget),
    }
}

/// Searches the walk of a board within a budget, and leaves the board about what it was.
fn answer_on(
    alloc: Global,
    wants: &Wants,
    counts: &[usize],
    board: &mut RequestBoard,
    budget: u64,
) -> Result<Outcome, AllocError>
    requires options { counts.now ≡ options (board_setting board.old) }
    requires claims { wants.now.claims ≡ (board_setting board.old).claims }
    ensures setting { board_setting board.new ≡ board_setting board.old }
    ensures answer { IfOk result (λ found. answer_of (board_setting board.old) budget ≡ Some found) }
{
    outcome_is_exact();
    walk_has_each_item();
    let answer = deep_search::search(alloc, board, counts, budget)?;
    outcome_of(alloc, wants, board, answer)
}

/// Searches the rows with these totals, and returns them as they were.
fn search_totals<'a>(
    alloc: Global,
    rows: &'a Rows<'a>,
    held: &'a HeldDevices<'a>,
    wants: &Wants,
    totals: Totals,
    agreements: Vec<ClaimAgreement<'a>>,
    budget: u64,
) -> (Result<Outcome, AllocError>, Totals)
    requires devices { held.now.devices ≡ (input_of rows.now).devices }
    requires apart { AreApart (input_of rows.now).devices }
    requires agreed { AreAgreed (input_of rows.now) [] (rules_of (input_of rows.now)) agreements.items }
    requires claims { wants.now.claims ≡ (input_of rows.now).claims }
    ensures answer { IfOk result.0 (λ found. answer_of (with_counters (input_of rows.now) held.now.held (value_of totals) (drawn_in totals)) budget ≡ Some found) }
    ensures value { (k : CounterId) → value_of result.1 k ≡ value_of totals k }
    ensures drawn { (k : CounterId) → drawn_in result.1 k ≡ drawn_in totals k }
{
    let mut board = RequestBoard::new(alloc, rows, held, totals, agreements);
    let outcome = answer_on(alloc, wants, rows.options(), &mut board, budget);
    (outcome, board.into_totals())
}

/// Searches the rows, where it is known which devices are held.
fn search_held<'a>(
    alloc: Global,
    rows: &'a Rows<'a>,
    held: &'a HeldDevices<'a>,
    wants: &'a Wants<'a>,
    totals: &mut Totals,
    budget: u64,
) -> Result<Outcome, AllocError>
    requires devices { held.now.devices ≡ (input_of rows.now).devices }
    requires apart { AreApart (input_of rows.now).devices }
    requires claims { wants.now.claims ≡ (input_of rows.now).claims }
    ensures answer { IfOk result (λ found. answer_of (with_counters (input_of rows.now) held.now.held (value_of totals.old) (drawn_in totals.old)) budget ≡ Some found) }
    ensures value { (k : CounterId) → value_of totals.new k ≡ value_of totals.old k }
    ensures drawn { (k : CounterId) → drawn_in totals.new k ≡ drawn_in totals.old k }
{
    let agreements = agreements_of(alloc, &wants.claims)?;
    let own = mem::replace(totals, Totals::new(alloc));
    let (outcome, given) = search_totals(alloc, rows, held, wants, own, agreements, budget);
    *totals = given;
    outcome
}

/// Searches the rows of what is wanted.
fn search_rows<'a>(
    alloc: Global,
    rows: &'a Rows<'a>,
    wants: &'a Wants<'a>,
    holders: &'a Held,
    totals: &mut Totals,
    budget: u64,
) -> Result<Outcome, AllocError>
    requires apart { AreApart (input_of rows.now).devices }
    requires claims { wants.now.claims ≡ (input_of rows.now).claims }
    ensures answer { IfOk result (λ found. (pairs : List (DeviceId × Key)) → AreHeld holders.now pairs → answer_of (with_counters (input_of rows.now) pairs (value_of totals.old) (drawn_in totals.old)) budget ≡ Some found) }
    ensures value { (k : CounterId) → value_of totals.new k ≡ value_of totals.old k }
    ensures drawn { (k : CounterId) → drawn_in totals.new k ≡ drawn_in totals.old k }
{
    let held = HeldDevices::of(alloc, rows.devices(), holders)?;
    search_held(alloc, rows, &held, wants, totals, budget)
}

/// Searches the devices of a node for the least allocation of the claims, within a budget of so many
/// items of the walk.
///
/// The result is exactly the outcome of the walk of these devices and claims within the budget: the
/// least allocation as a grant for each claim, a selector error that comes before each allocation, that there
/// is neither, or that the budget is spent before one of these is known. `holders` are the devices
/// that claims hold; `totals` has the counters of the devices' pools, with what the held devices draw,
/// and has the same after the search, whatever the result. `verdicts` remember what selectors evaluate to on devices.
/// `AllocError` only if memory runs out.
pub fn search_devices(
    alloc: Global,
    devices: &[DeviceRef],
    broken: bool,
    wants: &Wants,
    holders: &Held,
    totals: &mut Totals,
    budget: u64,
    verdicts: &mut Verdicts,
) -> Result<Outcome, AllocError>
    requires apart { AreApart devices.now }
    ensures answer { IfOk result (λ found. (pairs : List (DeviceId × Key)) → AreHeld holders.now pairs → answer_of (with_counters (asking wants.now devices.now broken) pairs (value_of totals.old) (drawn_in totals.old)) budget ≡ Some found) }
    ensures value { (k : CounterId) → value_of totals.new k ≡ value_of totals.old k }
    ensures drawn { (k : CounterId) → drawn_in totals.new k ≡ drawn_in totals.old k }
{
    let rows = Rows::with(alloc, wants, devices, broken, verdicts)?;
    search_rows(alloc, &rows, wants, holders, totals, budget)
}
