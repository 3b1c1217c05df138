ghost use Rattle.std.specs.Prelude.{◌≡◌, ◌≤◌, ◌<◌, ◌+◌, ◌^◌, length, drop, Option, None};
ghost use Rattle.std.specs.List.{prefix_len};
ghost use Rattle.std.specs.Char.{is_ascii_digit, is_ascii_hexdigit};
ghost use Rattle.cel_lex.specs.Numbers.{number_of, number_form, begins_hex, whole_form, whole_of, int_of, negative, fraction_len, sign_len, exponent_len, exponent_digits, behind_point};

use crate::bytes::{begins_digit, begins_with};
use crate::token::TokenKind;

/// What kind of token is at the start of a text, and how many bytes it has.
#[derive(Clone, Copy)]
pub struct Form {
    pub kind: TokenKind,
    pub len: usize,
}

/// The value of a whole number of 64 bits: decimal digits, or `0x` and hexadecimal digits, after
/// at most one `-`. None where the text is no such number, or its value is below -2^63 or above
/// 2^63 - 1.
pub fn int_value(text: &str) -> Option<i64>
    ensures { result ≡ int_of text.now }
{
    int_value_of(text.as_bytes())
}

pub fn int_value_of(text: &[u8]) -> Option<i64>
    ensures { result ≡ int_of text.now }
{
    match text {
        [b'-', digits @ ..] => negative(whole_value(digits)?),
        _ => i64::try_from(whole_value(text)?).ok(),
    }
}

/// The negative of a value, down to -2^63.
fn negative(value: u64) -> Option<i64>
    ensures { result ≡ negative (Some value) }
{
    if value == 1 << 63 {
        return Some(i64::MIN);
    }
    match i64::try_from(value) {
        Ok(value) => Some(-value),
        Err(_) => None,
    }
}

/// The value of a whole number with no sign, below 2^64.
pub fn whole_value(text: &[u8]) -> Option<u64>
    ensures { result ≡ whole_of text.now }
{
    if text.is_empty() {
        None
    } else if begins_hex(text) {
        number(16, &text[2..])
    } else {
        number(10, text)
    }
}

#[tactic(auto, using(crate::proofs::NumberLaws::number_laws))]
/// The number that the digits write, below 2^64.
pub fn number(radix: u32, digits: &[u8]) -> Option<u64>
    requires low { 2 ≤ radix }
    requires high { radix ≤ 16 }
    ensures { result ≡ number_of radix digits.now }
{
    let mut value: u64 = 0;
    for byte in digits {
        let digit = (*byte as char).to_digit(radix)?;
        value = value
            .checked_mul(u64::from(radix))?
            .checked_add(u64::from(digit))?;
    }
    Some(value)
}

fn begins_hex(text: &[u8]) -> bool
    ensures { result ≡ begins_hex text.now }
{
    match text {
        [b'0', b'x', digit, ..] => digit.is_ascii_hexdigit(),
        _ => false,
    }
}

/// What kind of number is at the start of the text, and how many bytes it has.
#[tactic(auto, unfolding(crate::specs::Numbers::number_form))]
pub fn number_form(text: &[u8]) -> Form
    ensures exact { result ≡ number_form text.now }
    ensures within { result.len ≤ length text.now }
{
    if begins_hex(text) {
        let len = 2 + hex_len(&text[2..]);
        return whole_form(len, &text[len..]);
    }
    let len = digit_len(text);
    let after = &text[len..];
    match behind_point(after) {
        0 => whole_form(len, after),
        more => Form {
            kind: TokenKind::Double,
            len: len + more,
        },
    }
}

/// A whole number of so many bytes, unless a `u` follows.
fn whole_form(len: usize, after: &[u8]) -> Form
    requires { len + length after.now < 2 ^ 64 }
    ensures exact { result ≡ whole_form len after.now }
    ensures within { result.len ≤ len + length after.now }
{
    match after {
        [b'u' | b'U', ..] => Form {
            kind: TokenKind::Uint,
            len: len + 1,
        },
        _ => Form {
            kind: TokenKind::Int,
            len,
        },
    }
}

/// How many bytes a fraction and an exponent have.
fn behind_point(text: &[u8]) -> usize
    ensures count { result ≡ behind_point text.now }
    ensures within { result ≤ length text.now }
{
    let fraction = fraction_len(text);
    fraction + exponent_len(&text[fraction..])
}

fn fraction_len(text: &[u8]) -> usize
    ensures count { result ≡ fraction_len text.now }
    ensures within { result ≤ length text.now }
{
    match text {
        [b'.', digits @ ..] if begins_digit(digits) => 1 + digit_len(digits),
        _ => 0,
    }
}

fn exponent_len(text: &[u8]) -> usize
    ensures count { result ≡ exponent_len text.now }
    ensures within { result ≤ length text.now }
{
    match text {
        [b'e' | b'E', rest @ ..] => {
            let sign = sign_len(rest);
            exponent_digits(1 + sign, &rest[sign..])
        }
        _ => 0,
    }
}

fn sign_len(text: &[u8]) -> usize
    ensures count { result ≡ sign_len text.now }
    ensures within { result ≤ length text.now }
{
    match text {
        [b'+' | b'-', ..] => 1,
        _ => 0,
    }
}

fn exponent_digits(before: usize, text: &[u8]) -> usize
    requires { before + length text.now < 2 ^ 64 }
    ensures count { result ≡ exponent_digits before text.now }
    ensures within { result ≤ before + length text.now }
{
    if begins_digit(text) {
        before + digit_len(text)
    } else {
        0
    }
}

fn digit_len(text: &[u8]) -> usize
    ensures count { result ≡ prefix_len is_ascii_digit text.now }
    ensures within { result ≤ length text.now }
{
    text.iter().take_while(|byte| byte.is_ascii_digit()).count()
}

fn hex_len(text: &[u8]) -> usize
    ensures count { result ≡ prefix_len is_ascii_hexdigit text.now }
    ensures within { result ≤ length text.now }
{
    text.iter()
        .take_while(|byte| byte.is_ascii_hexdigit())
        .count()
}
