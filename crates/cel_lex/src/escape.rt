ghost use Rattle.std.specs.Prelude.{◌≡◌, ◌≤◌, ◌<◌, ◌+◌, length, IfSome};
ghost use Rattle.cel_lex.specs.Strings.{named, coded, coded_escape, escape_of};

use crate::number::number;

/// An escape: its character, and how many bytes it has with its backslash.
#[derive(Clone, Copy)]
pub struct Escape {
    pub character: char,
    pub len: usize,
}

/// The escape that a backslash and these bytes begin with.
#[tactic(auto, unfolding(crate::specs::Strings::escape_of))]
pub fn read_escape(text: &[u8]) -> Option<Escape>
    ensures exact { result ≡ escape_of text.now }
    ensures some { IfSome result (λ e. 1 < e.len) }
    ensures within { IfSome result (λ e. e.len ≤ 1 + length text.now) }
{
    let first = *text.first()?;
    if let Some(character) = named(first) {
        return Some(Escape { character, len: 2 });
    }
    match first {
        b'x' | b'X' => coded(16, 2, 2, &text[1..]),
        b'u' => coded(16, 4, 2, &text[1..]),
        b'U' => coded(16, 8, 2, &text[1..]),
        b'0'..=b'3' => coded(8, 3, 1, text),
        _ => None,
    }
}

/// The character that one letter or mark means after a backslash.
fn named(byte: u8) -> Option<char>
    ensures { result ≡ named byte }
{
    match byte {
        b'a' => Some('\x07'),
        b'b' => Some('\x08'),
        b'f' => Some('\x0c'),
        b'n' => Some('\n'),
        b'r' => Some('\r'),
        b't' => Some('\t'),
        b'v' => Some('\x0b'),
        b'\\' | b'?' | b'"' | b'\'' | b'`' => Some(byte as char),
        _ => None,
    }
}

/// The escape of a number in `count` digits, which follow `before` bytes.
fn coded(radix: u32, count: usize, before: usize, text: &[u8]) -> Option<Escape>
    requires low { 2 ≤ radix }
    requires high { radix ≤ 16 }
    requires few { count ≤ 8 }
    requires near { before ≤ 2 }
    ensures exact { result ≡ coded radix count before text.now }
    ensures len { IfSome result (λ e. e.len ≡ before + count) }
    ensures within { IfSome result (λ e. count ≤ length text.now) }
{
    if text.len() < count {
        return None;
    }
    let code = number(radix, &text[..count])?;
    let character = char::from_u32(u32::try_from(code).ok()?)?;
    Some(Escape {
        character,
        len: before + count,
    })
}
