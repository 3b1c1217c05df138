ghost use Rattle.std.specs.Prelude.{◌<◌};

use std::alloc::{AllocError, Global};

/// How many zeros one after another are printed by their number.
const MANY: usize = 16;

/// The number of a hexadecimal digit; 0 if it is none.
fn digit(byte: u8) -> u8
    ensures { result < 16 }
{
    match byte {
        b'0'..=b'9' => byte - b'0',
        b'a'..=b'f' => byte - b'a' + 10,
        _ => 0,
    }
}

/// Appends the bytes of a text of two digits each.
fn push_digits(bytes: &mut Vec<u8>, text: &str) -> Result<(), AllocError> {
    let digits = text.as_bytes();
    for at in 0..digits.len() / 2 {
        bytes.push(digit(digits[2 * at]) * 16 + digit(digits[2 * at + 1]))?;
    }
    Ok(())
}

/// Appends the bytes of a part: digits, or digits, `*` and how often they are repeated.
fn push_part(bytes: &mut Vec<u8>, part: &str) -> Result<(), AllocError> {
    match part.split_once('*') {
        None => push_digits(bytes, part),
        Some((digits, times)) => {
            for _time in 0..times.parse::<u32>().unwrap_or(0) {
                push_digits(bytes, digits)?;
            }
            Ok(())
        }
    }
}

/// The bytes of parts that are joined by commas; none of `-`.
pub fn from_hex(alloc: Global, text: &str) -> Result<Vec<u8>, AllocError> {
    let mut bytes = Vec::new(alloc);
    for part in text.split(',') {
        push_part(&mut bytes, part)?;
    }
    Ok(bytes)
}

/// Appends so many zeros, by their number if they are many.
fn push_zeros(text: &mut String, count: usize, alloc: Global) -> Result<(), AllocError> {
    if count >= MANY {
        return text.push_str(format!(in alloc; ",00*{count},")?.as_str());
    }
    for _at in 0..count {
        text.push_str("00")?;
    }
    Ok(())
}

/// Two digits for each byte, but `,00*N,` for N zeros if they are 16 or more.
pub fn to_hex(alloc: Global, bytes: &[u8]) -> Result<String, AllocError> {
    let mut text = String::new(alloc);
    let mut zeros: usize = 0;
    for byte in bytes {
        if *byte == 0 {
            zeros = zeros.saturating_add(1);
        } else {
            push_zeros(&mut text, zeros, alloc)?;
            zeros = 0;
            text.push_str(format!(in alloc; "{:02x}", *byte)?.as_str())?;
        }
    }
    push_zeros(&mut text, zeros, alloc)?;
    Ok(text)
}
