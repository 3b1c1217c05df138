ghost use Rattle.std.specs.Prelude.{◌≡◌, ℕ, ◌+◌, ◌-◌, ◌*◌, ◌<◌, ◌≤◌, List, [], ◌∷◌, ◌++◌, length, vec_len, true, IfOk, OnOk, IfSome, IfNone, IsOk};
ghost use Rattle.walk.specs.Walk.{Item, Open};
ghost use Rattle.deep_search.specs.Progress.{progress, report, onward};
ghost use Rattle.deep_search.specs.Parts.{items_under, pending, Passed, Placed, Opened, Standing};

use crate::Board;
use crate::answer::{Status, Window};
use std::alloc::{AllocError, Global};

/// Places the next good position of a window, and returns what is left of the window behind it.
/// Returns none, with nothing placed, if no position of the window is good.
fn place_next<B: Board>(
    alloc: Global,
    board: &mut B,
    window: Window,
) -> Result<Option<Window>, AllocError>
    requires known { window.end ≤ (B.problem (B.setting board.old)).devices }
    requires good { (B.problem (B.setting board.old)).good (B.chosen board.old) (B.placed board.old) ≡ true }
    ensures setting { B.setting board.new ≡ B.setting board.old }
    ensures chosen { OnOk result (B.chosen board.new ≡ B.chosen board.old) }
    ensures none { IfOk result (λ r. IfNone r
        (Passed (B.problem (B.setting board.old)) (B.chosen board.old) (B.placed board.old) (B.placed board.new) window)) }
    ensures some { IfOk result (λ r. IfSome r
        (λ rest. Placed (B.problem (B.setting board.old)) (B.chosen board.old) (B.placed board.old) (B.placed board.new) window rest)) }
{
    let mut position = window.next;
    while position < window.end {
        if board.try_push(alloc, position)? {
            return Ok(Some(Window {
                next: position + 1,
                end: window.end,
            }));
        }
        position += 1;
    }
    Ok(None)
}

/// Counts the item at which the board is, and opens the window of the next slot if there is one.
fn enter<B: Board>(
    board: &B,
    slots: usize,
    windows: &mut Vec<Window>,
    budget: &mut u64,
) -> Result<Status, AllocError>
    requires good { (B.problem (B.setting board.now)).good (B.chosen board.now) (B.placed board.now) ≡ true }
    requires shape { (B.problem (B.setting board.now)).shape (B.chosen board.now) ≡ Open slots }
    requires depth { length (B.placed board.now) ≡ vec_len windows.old }
    requires fits { vec_len windows.old ≤ slots }
    ensures opened { IfOk result (λ r. r ≡ Status.Searching →
        Opened (B.problem (B.setting board.now)) windows.old.items windows.new.items slots) }
    ensures used { IfOk result (λ r. r ≡ Status.Searching → budget.new < budget.old) }
    ensures swept { IfOk result (λ r.
        let p = B.problem (B.setting board.now) in let c = B.chosen board.now in let l = B.placed board.now in
        progress budget.old (items_under p c l (slots - length l) ++ pending p c [] (slots - 1) windows.old.items l)
        ≡ onward r budget.new c l (pending p c [] (slots - 1) windows.new.items l)) }
{
    if *budget == 0 {
        return Ok(Status::Spent);
    }
    *budget -= 1;
    if windows.len() == slots {
        return Ok(Status::Full);
    }
    let (next, end) = board.window();
    windows.push(Window { next, end })?;
    Ok(Status::Searching)
}

/// Goes on from the innermost window: to the next good position in it, or back to the window before.
fn turn<B: Board>(
    alloc: Global,
    board: &mut B,
    slots: usize,
    windows: &mut Vec<Window>,
    budget: &mut u64,
) -> Result<Status, AllocError>
    requires more { 0 < vec_len windows.old }
    requires standing { Standing (B.problem (B.setting board.old)) (B.chosen board.old) (B.placed board.old) slots windows.old.items }
    ensures setting { B.setting board.new ≡ B.setting board.old }
    ensures chosen { OnOk result (B.chosen board.new ≡ B.chosen board.old) }
    ensures standing { IfOk result (λ r. r ≡ Status.Searching →
        Standing (B.problem (B.setting board.old)) (B.chosen board.old) (B.placed board.new) slots windows.new.items) }
    ensures used { IfOk result (λ r. r ≡ Status.Searching → budget.new ≤ budget.old) }
    ensures less { IfOk result (λ r. r ≡ Status.Searching →
        2 * budget.new + vec_len windows.new < 2 * budget.old + vec_len windows.old) }
    ensures swept { IfOk result (λ r.
        let p = B.problem (B.setting board.old) in let c = B.chosen board.old in
        progress budget.old (pending p c [] (slots - 1) windows.old.items (B.placed board.old))
        ≡ onward r budget.new c (B.placed board.new) (pending p c [] (slots - 1) windows.new.items (B.placed board.new))) }
{
    let Some(window) = windows.pop() else {
        return Ok(Status::Searching);
    };
    match place_next(alloc, board, window)? {
        Some(rest) => {
            windows.push(rest)?;
            let status = enter(board, slots, windows, budget)?;
            Ok(status)
        }
        None => {
            if !windows.is_empty() {
                board.pop();
            }
            Ok(Status::Searching)
        }
    }
}

/// Goes through the items of a choice that was taken up, depth first.
///
/// The windows of the slots that are filled, and of the next one, are in a list, the first slot's
/// first.
pub fn fill<B: Board>(
    alloc: Global,
    board: &mut B,
    slots: usize,
    budget: &mut u64,
) -> Result<Status, AllocError>
    requires shape { (B.problem (B.setting board.old)).shape (B.chosen board.old) ≡ Open slots }
    requires placed { B.placed board.old ≡ [] }
    ensures setting { B.setting board.new ≡ B.setting board.old }
    ensures chosen { OnOk result (B.chosen board.new ≡ B.chosen board.old) }
    ensures used { IfOk result (λ r. r ≡ Status.Searching → budget.new < budget.old) }
    ensures swept { IfOk result (λ r.
        let p = B.problem (B.setting board.old) in let c = B.chosen board.old in
        progress budget.old (items_under p c [] slots) ≡ report r budget.new c (B.placed board.new)) }
{
    let mut windows = Vec::new(alloc);
    match enter(board, slots, &mut windows, budget)? {
        Status::Searching => {}
        ended => return Ok(ended),
    }
    'turns: while !windows.is_empty() {
        match turn(alloc, board, slots, &mut windows, budget)? {
            Status::Searching => {}
            ended => return Ok(ended),
        }
    }
    Ok(Status::Searching)
}
