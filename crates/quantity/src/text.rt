//! The parts of a quantity's text.

ghost use Rattle.std.specs.Prelude.{◌≡◌, ◌*◌, ◌^◌, ◌≤◌, length, IfOk, Some, None, if◌then◌else◌, nat_le};
ghost use Rattle.std.specs.List.{prefix_len, list_all};
ghost use Rattle.std.specs.Char.{is_ascii_digit};
ghost use Rattle.quantity.specs.Value.{digits_value, sign_of, digits_of, fraction_of, factor_in, decimal_factors, binary_factors, power_factor, exponent_factor, scientific_factor, suffix_factor, is_numeral, AreDigits};

use crate::QuantityError;

/// One, in 10^-9.
const ONE: u128 = 1_000_000_000;

/// Whether the text begins with a minus, and what follows the sign.
pub fn sign(text: &[u8]) -> (bool, &[u8])
    ensures { (result.0, result.1.now) ≡ sign_of text.now }
{
    match text {
        [b'-', rest @ ..] => (true, rest),
        [b'+', rest @ ..] => (false, rest),
        _ => (false, text),
    }
}

/// The leading digits, and what follows them.
pub fn digits(text: &[u8]) -> (&[u8], &[u8])
    ensures parts { (result.0.now, result.1.now) ≡ digits_of text.now }
    ensures digits { AreDigits result.0.now }
{
    text.split_at(digit_count(text))
}

fn digit_count(text: &[u8]) -> usize
    ensures count { result ≡ prefix_len is_ascii_digit text.now }
    ensures within { result ≤ length text.now }
{
    text.iter().take_while(|b| b.is_ascii_digit()).count()
}

/// The digits behind a point, and what follows them.
pub fn fraction(text: &[u8]) -> (&[u8], &[u8])
    ensures parts { (result.0.now, result.1.now) ≡ fraction_of text.now }
    ensures digits { AreDigits result.0.now }
{
    match text {
        [b'.', rest @ ..] => digits(rest),
        _ => text.split_at(0),
    }
}

/// What the suffix multiplies by, in 10^-9.
pub fn suffix(text: &[u8]) -> Result<u128, QuantityError>
    ensures value { result ≡ suffix_factor text.now }
    ensures bounded { IfOk result (λ factor. factor ≤ 2 ^ 60 * 10 ^ 9) }
{
    match text {
        [] => Ok(ONE),
        [letter] => decimal(*letter),
        [letter, b'i'] => binary(*letter),
        [letter, exponent @ ..] => scientific(*letter, exponent),
    }
}

fn decimal(letter: u8) -> Result<u128, QuantityError>
    ensures value { result ≡ factor_in decimal_factors letter }
    ensures bounded { IfOk result (λ factor. factor ≤ 2 ^ 60 * 10 ^ 9) }
{
    match letter {
        b'n' => Ok(1),
        b'u' => Ok(1_000),
        b'm' => Ok(1_000_000),
        b'k' => Ok(1_000_000_000_000),
        b'M' => Ok(1_000_000_000_000_000),
        b'G' => Ok(1_000_000_000_000_000_000),
        b'T' => Ok(1_000_000_000_000_000_000_000),
        b'P' => Ok(1_000_000_000_000_000_000_000_000),
        b'E' => Ok(1_000_000_000_000_000_000_000_000_000),
        _ => Err(QuantityError::BadText),
    }
}

fn binary(letter: u8) -> Result<u128, QuantityError>
    ensures value { result ≡ factor_in binary_factors letter }
    ensures bounded { IfOk result (λ factor. factor ≤ 2 ^ 60 * 10 ^ 9) }
{
    match letter {
        b'K' => Ok(1_024 * ONE),
        b'M' => Ok(1_048_576 * ONE),
        b'G' => Ok(1_073_741_824 * ONE),
        b'T' => Ok(1_099_511_627_776 * ONE),
        b'P' => Ok(1_125_899_906_842_624 * ONE),
        b'E' => Ok(1_152_921_504_606_846_976 * ONE),
        _ => Err(QuantityError::BadText),
    }
}

fn scientific(letter: u8, exponent: &[u8]) -> Result<u128, QuantityError>
    ensures value { result ≡ scientific_factor letter exponent.now }
    ensures bounded { IfOk result (λ factor. factor ≤ 2 ^ 60 * 10 ^ 9) }
{
    match letter {
        b'e' | b'E' => power(exponent),
        _ => Err(QuantityError::BadText),
    }
}

/// Ten to the exponent that follows an `e`, in 10^-9.
fn power(text: &[u8]) -> Result<u128, QuantityError>
    ensures value { result ≡ exponent_factor text.now }
    ensures bounded { IfOk result (λ factor. factor ≤ 2 ^ 60 * 10 ^ 9) }
{
    let (negative, digits) = sign(text);
    if !is_numeral(digits) {
        return Err(QuantityError::BadText);
    }
    match small_number(digits) {
        Some(size) => ten_to(negative, size),
        None => Err(QuantityError::OutOfRange),
    }
}

fn is_numeral(text: &[u8]) -> bool
    ensures { result ≡ is_numeral text.now }
{
    !text.is_empty() && are_digits(text)
}

fn are_digits(text: &[u8]) -> bool
    ensures { result ≡ list_all is_ascii_digit text.now }
{
    text.iter().all(|b| b.is_ascii_digit())
}

/// Ten to the power of that size, in 10^-9.
fn ten_to(negative: bool, size: u32) -> Result<u128, QuantityError>
    requires { size ≤ 18 }
    ensures value { result ≡ power_factor negative size }
    ensures bounded { IfOk result (λ factor. factor ≤ 2 ^ 60 * 10 ^ 9) }
{
    if !negative {
        return Ok(10u128.pow(9 + size));
    }
    if size > 9 {
        return Err(QuantityError::OutOfRange);
    }
    Ok(10u128.pow(9 - size))
}

/// The number that the digits write, if it is at most 18.
fn small_number(digits: &[u8]) -> Option<u32>
    requires { AreDigits digits.now }
    ensures { result ≡ (if nat_le (digits_value digits.now) 18 then Some (digits_value digits.now) else None) }
{
    let mut number = 0;
    for digit in digits {
        number = number * 10 + u32::from(*digit - b'0');
        if number > 18 {
            return None;
        }
    }
    Some(number)
}
