ghost use Rattle.std.specs.Prelude.{◌≡◌, ◌≤◌, length, drop};
ghost use Rattle.cel_lex.specs.Strings.{closes, part_of, size_of, string_end};

use crate::bytes::{begins_with, is_line_end};
use crate::escape::{Escape, read_escape};
use crate::quotes::{Quotes, count};
use crate::token::LexError;

/// What is at an offset in the content of a string.
#[derive(Clone, Copy)]
pub enum Part {
    /// The closing quotes.
    Close,
    /// A literal byte.
    Plain,
    Escaped(Escape),
    /// A backslash that begins no escape.
    Wrong,
    /// A line end where none is allowed, or the end of the text.
    Cut,
}

/// What the content of a string goes on with.
#[tactic(auto, using(crate::proofs::StringLaws::part_laws), unfolding(crate::specs::Strings::part_of))]
pub fn part_at(quotes: Quotes, text: &[u8]) -> Part
    ensures exact { result ≡ part_of quotes text.now }
    ensures within { size_of quotes result ≤ length text.now }
{
    match text {
        [] => Part::Cut,
        _ if closes(quotes, text) => Part::Close,
        [first, ..] if !quotes.triple && is_line_end(*first) => Part::Cut,
        [b'\\', rest @ ..] if !quotes.raw => match read_escape(rest) {
            Some(escape) => Part::Escaped(escape),
            None => Part::Wrong,
        },
        _ => Part::Plain,
    }
}

fn closes(quotes: Quotes, text: &[u8]) -> bool
    ensures { result ≡ closes quotes text.now }
{
    match text {
        [first, ..] if !quotes.triple => *first == quotes.mark,
        [first, second, third, ..] => {
            *first == quotes.mark && *second == quotes.mark && *third == quotes.mark
        }
        _ => false,
    }
}

/// Where the string ends that begins at `from` and whose content begins at `inside`.
#[tactic(auto, using(crate::proofs::StringLaws::end_laws))]
pub fn string_end(
    source: &[u8],
    from: usize,
    inside: usize,
    quotes: Quotes,
) -> Result<usize, LexError>
    requires { inside ≤ length source.now }
    ensures { result ≡ string_end quotes from inside 0 (drop inside source.now) }
{
    let mut at = inside;
    loop {
        match part_at(quotes, &source[at..]) {
            Part::Close => return Ok(at + count(quotes)),
            Part::Plain => at += 1,
            Part::Escaped(escape) => at += escape.len,
            Part::Wrong => return Err(LexError::BadEscape(at)),
            Part::Cut => return Err(LexError::Unclosed(from)),
        }
    }
}
