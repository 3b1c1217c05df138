ghost use Rattle.std.specs.Prelude.{◌≡◌, ℕ, ◌<◌, IfOk};
ghost use Rattle.walk.specs.Walk.{IsChoice, items, walk};
ghost use Rattle.walk.specs.Outcome.{outcome};
ghost use Rattle.deep_search.specs.Progress.{progress, report, told};
ghost use Rattle.deep_search.specs.Choices.{walk_from};

use crate::answer::Status;
use crate::choosing::{first_choice, next_choice};
use crate::filling::fill;
use crate::{Answer, Begun, Board};
use std::alloc::{AllocError, Global};

/// Goes through the items of one choice.
fn visit<B: Board>(
    alloc: Global,
    board: &mut B,
    choice: &[usize],
    budget: &mut u64,
) -> Result<Status, AllocError>
    requires { IsChoice (B.problem (B.setting board.old)).options choice.now }
    ensures setting { B.setting board.new ≡ B.setting board.old }
    ensures used { IfOk result (λ r. r ≡ Status.Searching → budget.new < budget.old) }
    ensures swept { IfOk result (λ r.
        progress budget.old (items (B.problem (B.setting board.old)) choice.now)
        ≡ report r budget.new (B.chosen board.new) (B.placed board.new)) }
{
    match board.begin(alloc, choice)? {
        Begun::Open(slots) => {
            let status = fill(alloc, board, slots, budget)?;
            Ok(status)
        }
        Begun::Faulty => {
            if *budget == 0 {
                return Ok(Status::Spent);
            }
            *budget -= 1;
            Ok(Status::Fault)
        }
        Begun::Hopeless => {
            if *budget == 0 {
                return Ok(Status::Spent);
            }
            *budget -= 1;
            Ok(Status::Searching)
        }
    }
}

/// Goes through the items of a choice and of all that follow it.
fn visit_from<B: Board>(
    alloc: Global,
    board: &mut B,
    options: &[usize],
    choice: &mut Vec<usize>,
    budget: &mut u64,
) -> Result<Status, AllocError>
    requires options { options.now ≡ (B.problem (B.setting board.old)).options }
    requires choice { IsChoice options.now choice.old.items }
    ensures setting { B.setting board.new ≡ B.setting board.old }
    ensures swept { IfOk result (λ r.
        progress budget.old (walk_from (B.problem (B.setting board.old)) choice.old.items)
        ≡ report r budget.new (B.chosen board.new) (B.placed board.new)) }
{
    'visits: loop {
        match visit(alloc, board, choice, budget)? {
            Status::Searching => {}
            ended => return Ok(ended),
        }
        if !next_choice(options, choice)? {
            return Ok(Status::Searching);
        }
    }
}

/// Searches the walk of a board's problem for its first `Full` or `Fault` item, within a budget of
/// so many items, and leaves the board at it.
///
/// The options are those of the problem: from how many each request has to choose. The result is
/// the outcome of the walk, exactly: `Full` or `Fault` if such an item is among the first `budget`,
/// and the board's choice and positions are then those of the first one (a `Fault` item
/// has no positions). If it is `Unsat`, `Budget` or an error, only the setting of the board is known.
/// Each item costs a move of the board and no memory but that of the deepest list so far. The only
/// error is out of memory.
pub fn search<B: Board>(
    alloc: Global,
    board: &mut B,
    options: &[usize],
    budget: u64,
) -> Result<Answer, AllocError>
    requires { options.now ≡ (B.problem (B.setting board.old)).options }
    ensures setting { B.setting board.new ≡ B.setting board.old }
    ensures exact { IfOk result (λ answer.
        outcome budget (walk (B.problem (B.setting board.old)))
        ≡ told answer (B.chosen board.new) (B.placed board.new)) }
{
    let Some(mut choice) = first_choice(alloc, options)? else {
        return Ok(Answer::Unsat);
    };
    let mut left = budget;
    match visit_from(alloc, board, options, &mut choice, &mut left)? {
        Status::Searching => Ok(Answer::Unsat),
        Status::Full => Ok(Answer::Full),
        Status::Fault => Ok(Answer::Fault),
        Status::Spent => Ok(Answer::Budget),
    }
}
