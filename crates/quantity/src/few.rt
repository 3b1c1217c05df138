//! The number that few digits, a point and a factor make, by the machine's own arithmetic.

ghost use Rattle.std.specs.Prelude.{◌≡◌, ◌+◌, ◌*◌, ◌^◌, ◌≤◌, ◌++◌, length};
ghost use Rattle.quantity.specs.Value.{digits_value, magnitude_of, up_to_most, AreDigits};

use crate::QuantityError;
use crate::cells::MOST;

/// Digits with a point, of which there are at most 10, times a factor in 10^-9, as a number of 10^-9.
pub fn magnitude_of_few(whole: &[u8], fraction: &[u8], factor: u128) -> Result<u128, QuantityError>
    requires whole { AreDigits whole.now }
    requires fraction { AreDigits fraction.now }
    requires few { length whole.now + length fraction.now ≤ 10 }
    requires factor { factor ≤ 2 ^ 60 * 10 ^ 9 }
    ensures { result ≡ magnitude_of (digits_value (whole.now ++ fraction.now) * factor) (length fraction.now) }
{
    let number = appended(appended(0, whole), fraction) * factor;
    if fraction.is_empty() {
        return up_to_most(number);
    }
    let unit = 10u128.pow(fraction.len() as u32);
    if number % unit != 0 {
        return Err(QuantityError::TooPrecise);
    }
    up_to_most(number / unit)
}

/// The number that digits write behind those of a number, 10 of them at most.
fn appended(number: u128, digits: &[u8]) -> u128
    requires digits { AreDigits digits.now }
    requires fits { (number + 1) * 10 ^ length digits.now ≤ 10 ^ 10 }
    ensures { result ≡ number * 10 ^ length digits.now + digits_value digits.now }
{
    let mut number = number;
    for digit in digits {
        number = number * 10 + u128::from(*digit - b'0');
    }
    number
}

/// The number, if it is at most the greatest magnitude.
fn up_to_most(number: u128) -> Result<u128, QuantityError>
    ensures { result ≡ up_to_most number }
{
    if number > MOST {
        Err(QuantityError::OutOfRange)
    } else {
        Ok(number)
    }
}
