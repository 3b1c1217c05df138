//! The number that digits, a point and a factor make.

ghost use Rattle.std.specs.Prelude.{◌≡◌, ◌+◌, ◌*◌, ◌^◌, ◌≤◌, ◌++◌, length};
ghost use Rattle.quantity.specs.Cells.{value_of, AreCells};
ghost use Rattle.quantity.specs.Value.{digits_value, magnitude_of, AreDigits};

use crate::QuantityError;
use crate::cells::{are_zero, number, push_digits, scale};
use crate::few::magnitude_of_few;

/// Room for 64 digits times the greatest factor, which has 28.
const CELLS: usize = 92;

/// Of so many digits and the greatest factor, the product is below 2^128.
const FEW: usize = 10;

/// Digits with a point, times a factor in 10^-9, as a number of 10^-9.
pub fn magnitude(whole: &[u8], fraction: &[u8], factor: u128) -> Result<u128, QuantityError>
    requires whole { AreDigits whole.now }
    requires fraction { AreDigits fraction.now }
    requires short { length whole.now + length fraction.now ≤ 64 }
    requires factor { factor ≤ 2 ^ 60 * 10 ^ 9 }
    ensures { result ≡ magnitude_of (digits_value (whole.now ++ fraction.now) * factor) (length fraction.now) }
{
    if whole.len() + fraction.len() <= FEW {
        return magnitude_of_few(whole, fraction, factor);
    }
    let cells = product(whole, fraction, factor);
    let (below, above) = cells.split_at(fraction.len());
    if !are_zero(below) {
        return Err(QuantityError::TooPrecise);
    }
    number(above)
}

/// The number that the digits write, times the factor.
fn product(whole: &[u8], fraction: &[u8], factor: u128) -> [u8; CELLS]
    requires whole { AreDigits whole.now }
    requires fraction { AreDigits fraction.now }
    requires short { length whole.now + length fraction.now ≤ 64 }
    requires factor { factor ≤ 2 ^ 60 * 10 ^ 9 }
    ensures value { value_of result ≡ digits_value (whole.now ++ fraction.now) * factor }
    ensures cells { AreCells result }
{
    let mut cells = [0; CELLS];
    push_digits(&mut cells, whole);
    push_digits(&mut cells, fraction);
    scale(&mut cells, factor, 0);
    cells
}
