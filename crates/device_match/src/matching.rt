ghost use Rattle.std.specs.Prelude.{◌≡◌, ◌≢◌, ◌++◌, ℕ, IfOk};
ghost use Rattle.cel_value.specs.declared.error.EvalError.TheVariants.{Memory};
ghost use Rattle.pool_view.specs.declared.matching.Match.TheVariants.{Fault};
ghost use Rattle.pool_view.specs.declared.verdict.Cause.TheVariants.{Error};
ghost use Rattle.pool_view.specs.Match.{match_from};

use crate::verdict::matches;
use cel_value::DeviceEnv;
use device_selector::DeviceSelector;
use pool_view::{Match, Verdict};
use std::alloc::{AllocError, Global};

/// What a class's selectors and then a request's evaluate to on a device: the first that isn't true decides.
/// The only error is out of memory, and no Fault has it.
#[tactic(auto, using(crate::proofs::Matched::match_append))]
pub fn match_both(
    alloc: Global,
    class: &[DeviceSelector],
    own: &[DeviceSelector],
    device: &DeviceEnv,
) -> Result<Match, AllocError>
    ensures matched { IfOk result (λ m. m ≡ match_from device.now 0 (class.now ++ own.now)) }
    ensures no_memory { IfOk result (λ m. (place : ℕ) → m ≢ Fault place (Error Memory)) }
{
    match match_list(alloc, class, device, 0)? {
        Match::Yes => match_list(alloc, own, device, class.len()),
        Match::No => Ok(Match::No),
        Match::Fault { place, cause } => Ok(Match::Fault { place, cause }),
    }
}

/// The same of one list, with `before` selectors ahead of it.
fn match_list(
    alloc: Global,
    selectors: &[DeviceSelector],
    device: &DeviceEnv,
    before: usize,
) -> Result<Match, AllocError>
    ensures matched { IfOk result (λ m. m ≡ match_from device.now before selectors.now) }
    ensures no_memory { IfOk result (λ m. (place : ℕ) → m ≢ Fault place (Error Memory)) }
{
    for i in 0..selectors.len() {
        // Lists of more than 2^64 selectors together don't fit in memory.
        let place = before.checked_add(i).ok_or(AllocError)?;
        match matches(alloc, &selectors[i], device)? {
            Verdict::Yes => {}
            Verdict::No => return Ok(Match::No),
            Verdict::Fault(cause) => return Ok(Match::Fault { place, cause }),
        }
    }
    Ok(Match::Yes)
}
