ghost use Rattle.std.specs.Prelude.{◌≡◌, ◌↔◌, ℕ, List};
ghost use Rattle.cel_value.specs.Device.{Device};
ghost use Rattle.pool_view.specs.declared.matching.Match.TheVariants.{Yes, No, Fault};
ghost use Rattle.pool_view.specs.declared.verdict.Cause.{Cause};
ghost use Rattle.pool_view.specs.declared.verdict.Verdict.TheVariants as verdict;
ghost use Rattle.pool_view.specs.Match.{AreTrue, SaysBehindTrue, match_from};

use crate::Cause;

/// What selectors, one after another, evaluate to on a device.
#[derive(Clone, Copy, Debug, PartialEq, Eq, Drop)]
pub enum Match {
    /// Each is true of the device.
    Yes,
    /// The first that isn't true is false.
    No,
    /// The first that isn't true is neither true nor false; `place` is its index.
    Fault { place: usize, cause: Cause },
}

/// The first selector that isn't true of a device decides: the result is Yes if all are true, No
/// if the first that isn't true is false, and else Fault, with its index and its cause.
pub fn first_that_is_not_true_decides()
    ensures yes { (d : Device) (texts : List (List ℕ)) → match_from d 0 texts ≡ Yes ↔ AreTrue d texts }
    ensures no { (d : Device) (texts : List (List ℕ)) →
        match_from d 0 texts ≡ No ↔ ((place : ℕ) × SaysBehindTrue d texts place verdict.No) }
    ensures fault { (d : Device) (texts : List (List ℕ)) (place : ℕ) (cause : Cause) →
        match_from d 0 texts ≡ Fault place cause ↔ SaysBehindTrue d texts place (verdict.Fault cause) }
{}
