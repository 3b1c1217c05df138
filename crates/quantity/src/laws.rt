//! Laws of the notation.

ghost use Rattle.std.specs.Prelude.{◌≡◌, ◌<◌, ◌≤◌, ℕ, List, length, Ok, Err};
ghost use Rattle.quantity.specs.Value.{quantity_value, with_sign, magnitude_times};
ghost use Rattle.quantity.specs.Printed.{printed};
ghost use Rattle.quantity.specs.Grammar.{Sign, Number, Suffix, is_minus, IsNumber, IsSuffix, whole, fraction, factor, spelled, IsSpelled};
ghost use Rattle.quantity.specs.declared.error.QuantityError.TheVariants.{BadText};

use crate::Quantity;

/// The text that a quantity prints has that quantity as its value.
pub fn quantity_reads_back(quantity: &Quantity)
    ensures { quantity_value (printed quantity.now) ≡ Ok quantity.now }
{
    let _nanos = quantity.nanos();
}

/// What the grammar of quantities spells in 64 bytes or fewer has as its value the sum of its
/// digits by their positions times the suffix's factor, and any other text is `BadText`.
pub fn values_follow_the_grammar()
    ensures spelled { (s : Sign) (n : Number) (x : Suffix) → IsNumber n → IsSuffix x → length (spelled s n x) ≤ 64
        → quantity_value (spelled s n x) ≡ with_sign (is_minus s) (magnitude_times (whole n) (fraction n) (factor x)) }
    ensures long { (text : List ℕ) → 64 < length text → quantity_value text ≡ Err BadText }
    ensures other { (text : List ℕ) → ¬ IsSpelled text → quantity_value text ≡ Err BadText }
{}
