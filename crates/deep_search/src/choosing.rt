ghost use Rattle.std.specs.Prelude.{◌≡◌, ℕ, ◌+◌, ◌<◌, List, [], ◌∷◌, ◌++◌, drop, length, get_or, true, false, vec_len, ◌-◌, IfOk, OnOk, IfSome, IfNone};
ghost use Rattle.walk.specs.Lists.{choices};
ghost use Rattle.walk.specs.Walk.{IsChoice};
ghost use Rattle.deep_search.specs.Choices.{IsFirst, IsLast, IsNext, Turns, zeros};

use std::alloc::{AllocError, Global};

/// The first choice: the first option of each request. None if a request has no options.
pub fn first_choice(alloc: Global, options: &[usize]) -> Result<Option<Vec<usize>>, AllocError>
    ensures none { IfOk result (λ r. IfNone r (choices options.now ≡ [])) }
    ensures some { IfOk result (λ r. IfSome r (λ c. IsFirst options.now c.items)) }
{
    let mut choice = Vec::new(alloc);
    for count in options {
        if *count == 0 {
            return Ok(None);
        }
        choice.push(0)?;
    }
    Ok(Some(choice))
}

/// The last request for which there is a further option. None if the choice is the last one.
fn turning_place(options: &[usize], choice: &[usize]) -> Option<usize>
    requires { IsChoice options.now choice.now }
    ensures none { IfNone result (IsLast options.now choice.now) }
    ensures some { IfSome result (λ place. Turns options.now choice.now place) }
{
    let mut place = options.len();
    while place > 0 {
        place -= 1;
        if choice[place] + 1 < options[place] {
            return Some(place);
        }
    }
    None
}

/// Appends the first option of each remaining request to a choice for the first ones.
fn fill_up(count: usize, choice: &mut Vec<usize>) -> Result<(), AllocError>
    ensures { OnOk result (choice.new.items ≡ choice.old.items ++ zeros (count - vec_len choice.old)) }
{
    while choice.len() < count {
        choice.push(0)?;
    }
    Ok(())
}

/// Goes on to the next choice, if there is one, and returns whether there is.
pub fn next_choice(options: &[usize], choice: &mut Vec<usize>) -> Result<bool, AllocError>
    requires { IsChoice options.now choice.old.items }
    ensures last { IfOk result (λ r. r ≡ false → IsLast options.now choice.old.items) }
    ensures next { IfOk result (λ r. r ≡ true → IsNext options.now choice.old.items choice.new.items) }
{
    let Some(place) = turning_place(options, choice) else {
        return Ok(false);
    };
    let next = choice[place] + 1;
    choice.truncate(place);
    choice.push(next)?;
    fill_up(options.len(), choice)?;
    Ok(true)
}
