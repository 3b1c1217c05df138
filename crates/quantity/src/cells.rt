//! Decimal numbers of many digits: one cell for each digit, the last digit first.

ghost use Rattle.std.specs.Prelude.{◌≡◌, ◌+◌, ◌*◌, ◌^◌, ◌<◌, ◌≤◌, ◌==◌, length};
ghost use Rattle.std.specs.List.{list_all};
ghost use Rattle.quantity.specs.Cells.{value_of, AreCells};
ghost use Rattle.quantity.specs.Value.{digits_value, up_to_most, AreDigits};

use crate::QuantityError;

/// The greatest magnitude of a quantity, in 10^-9.
pub const MOST: u128 = 9_223_372_036_854_775_807_000_000_000;

/// Multiplies by the factor and adds, carrying digit by digit.
pub fn scale(cells: &mut [u8], factor: u128, add: u128)
    requires cells { AreCells cells.old }
    requires factor { factor < 2 ^ 100 }
    requires add { add ≤ factor }
    requires fits { value_of cells.old * factor + add < 10 ^ length cells.old }
    ensures value { value_of cells.new ≡ value_of cells.old * factor + add }
    ensures cells { AreCells cells.new }
{
    let mut carry = add;
    for cell in cells.iter_mut() {
        let sum = u128::from(*cell) * factor + carry;
        *cell = (sum % 10) as u8;
        carry = sum / 10;
    }
}

/// Appends digits to those that are there.
pub fn push_digits(cells: &mut [u8], digits: &[u8])
    requires cells { AreCells cells.old }
    requires digits { AreDigits digits.now }
    requires fits { (value_of cells.old + 1) * 10 ^ length digits.now ≤ 10 ^ length cells.old }
    ensures value { value_of cells.new ≡ value_of cells.old * 10 ^ length digits.now + digits_value digits.now }
    ensures cells { AreCells cells.new }
{
    for digit in digits {
        scale(cells, 10, u128::from(*digit - b'0'));
    }
}

/// Whether each of them is 0.
pub fn are_zero(cells: &[u8]) -> bool
    ensures { result ≡ list_all (λ c. c == 0) cells.now }
{
    cells.iter().all(|cell| *cell == 0)
}

/// The number, if it is at most the greatest magnitude.
pub fn number(cells: &[u8]) -> Result<u128, QuantityError>
    requires { AreCells cells.now }
    ensures { result ≡ up_to_most (value_of cells.now) }
{
    let mut at = cells.len();
    let mut number = 0;
    while 0 < at {
        at -= 1;
        number = number * 10 + u128::from(cells[at]);
        if number > MOST {
            return Err(QuantityError::OutOfRange);
        }
    }
    Ok(number)
}
