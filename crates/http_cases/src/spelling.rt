use std::alloc::{AllocError, Global};

/// The number of a hexadecimal digit; 0 if it is none.
fn digit(byte: u8) -> u8 {
    match byte {
        b'0'..=b'9' => byte.saturating_sub(b'0'),
        b'a'..=b'f' => byte.saturating_sub(b'a').saturating_add(10),
        _ => 0,
    }
}

/// The byte of two hexadecimal digits.
fn byte_of(high: u8, low: u8) -> u8 {
    digit(high).wrapping_mul(16).wrapping_add(digit(low))
}

/// What is left of a text, and how many bytes of which value it begins with.
#[derive(Clone, Copy, Drop)]
struct Run<'a> {
    count: usize,
    byte: u8,
    rest: &'a [u8],
}

fn one(byte: u8, rest: &[u8]) -> Run<'_> {
    Run {
        count: 1,
        byte,
        rest,
    }
}

/// A byte as often as the decimal digits before a `*` say.
fn repeated(text: &[u8]) -> Run<'_> {
    let mut count: usize = 0;
    let mut rest = text;
    'digits: for _ in 0..text.len() {
        let Some((first, behind)) = rest.split_first() else {
            return one(b'?', rest);
        };
        rest = behind;
        if *first == b'*' {
            break 'digits;
        }
        count = count
            .saturating_mul(10)
            .saturating_add(usize::from(digit(*first)));
    }
    match rest.split_first() {
        Some((first, behind)) => Run {
            count: count.min(4_000_000),
            ..next_one(*first, behind)
        },
        None => one(b'?', rest),
    }
}

/// What follows a backslash.
fn escaped(kind: u8, rest: &[u8]) -> Run<'_> {
    match kind {
        b'r' => one(b'\r', rest),
        b'n' => one(b'\n', rest),
        b't' => one(b'\t', rest),
        b'x' => {
            if let [high, low, rest @ ..] = rest {
                one(byte_of(*high, *low), rest)
            } else {
                one(b'?', rest)
            }
        }
        other => one(other, rest),
    }
}

/// The byte that a text begins with.
fn next_one(first: u8, behind: &[u8]) -> Run<'_> {
    if first != b'\\' {
        return one(first, behind);
    }
    match behind.split_first() {
        Some((kind, rest)) => escaped(*kind, rest),
        None => one(first, behind),
    }
}

/// What a text begins with.
fn next_run(first: u8, behind: &[u8]) -> Run<'_> {
    match behind.split_first() {
        Some((b'{', rest)) if first == b'\\' => repeated(rest),
        _ => next_one(first, behind),
    }
}

/// The bytes that a text spells.
pub fn from_text(alloc: Global, text: &str) -> Result<Vec<u8>, AllocError> {
    let mut bytes = Vec::new(alloc);
    let mut rest = text.as_bytes();
    'bytes: for _ in 0..text.len() {
        let Some((first, behind)) = rest.split_first() else {
            break 'bytes;
        };
        let run = next_run(*first, behind);
        bytes.resize(bytes.len().saturating_add(run.count), run.byte)?;
        rest = run.rest;
    }
    Ok(bytes)
}

fn push_byte(alloc: Global, text: &mut String, byte: u8) -> Result<(), AllocError> {
    match byte {
        b'\r' => text.push_str("\\r"),
        b'\n' => text.push_str("\\n"),
        b'\\' => text.push_str("\\\\"),
        b' '..=b'~' => text.push(char::from(byte)),
        _ => text.push_str(format!(in alloc; "\\x{:02x}", byte)?.as_str()),
    }
}

/// The text that spells bytes; the number of them if they are more than 200.
pub fn to_text(alloc: Global, bytes: &[u8]) -> Result<String, AllocError> {
    if bytes.len() > 200 {
        return format!(in alloc; "{} bytes", bytes.len());
    }
    let mut text = String::new(alloc);
    for byte in bytes {
        push_byte(alloc, &mut text, *byte)?;
    }
    Ok(text)
}
