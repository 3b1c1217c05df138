ghost use Rattle.std.specs.Prelude.{◌≡◌, ◌≤◌, ◌<◌, ◌++◌, [], length, not, ◌==◌, ◌||◌, IfSome, OnSome, IfNone};
ghost use Rattle.std.specs.List.{prefix_len};
ghost use Rattle.cel_lex.specs.Bytes.{is_line_end};
ghost use Rattle.cel_lex.specs.Spelling.{piece_bytes};
ghost use Rattle.cel_lex.specs.Strings.{content_of, is_special};

use crate::bytes::is_line_end;
use crate::part::{Part, part_at};
use crate::quotes::{Quotes, opening};
use std::marker::Model;

/// A piece of what a string spells: literal text, or the character of an escape.
#[derive(Clone, Copy, Debug)]
pub enum Piece<'a> {
    Plain(&'a str),
    Escaped(char),
}

/// Reads what the text of a string token spells, from the left, and allocates nothing.
#[derive(Drop)]
pub struct Spelling<'a> {
    rest: &'a str,
    quotes: Quotes,
}

impl<'a> Model for Spelling<'a> {
    ghost use Rattle.std.specs.Prelude.{ℕ, List, ◌<◌};
    ghost use Rattle.cel_lex.specs.Strings.{spells};

    ghost Value = { List ℕ };

    ghost view = { λ s. spells s.quotes 0 s.rest.now };

    ghost invariant = { λ s. s.quotes.mark < 128 };
}

impl<'a> Spelling<'a> {
    /// Starts at the beginning of what a string spells. A text that does not begin as a string spells
    /// nothing, and one that has an error spells what is before the error.
    pub fn of(text: &'a str) -> Spelling<'a>
        ensures { result ≡ content_of text.now }
    {
        match opening(text.as_bytes()) {
            Some(quotes) => Spelling {
                rest: &text[quotes.len..],
                quotes,
            },
            None => Spelling {
                rest: "",
                quotes: Quotes {
                    mark: b'"',
                    triple: false,
                    bytes: false,
                    raw: true,
                    len: 0,
                },
            },
        }
    }

    /// The next piece, which is never empty; None at the end.
    pub fn next(&mut self) -> Option<Piece<'a>>
        ensures some { IfSome result (λ p. self.old ≡ piece_bytes p ++ self.new) }
        ensures shorter { OnSome result (length self.new < length self.old) }
        ensures none { IfNone result (self.old ≡ []) }
        ensures ended { IfNone result (self.new ≡ []) }
    {
        let rest = self.rest;
        let bytes = rest.as_bytes();
        let plain = plain_len(self.quotes.mark, bytes);
        if plain > 0 {
            self.rest = &rest[plain..];
            return Some(Piece::Plain(&rest[..plain]));
        }
        match part_at(self.quotes, bytes) {
            Part::Plain => {
                self.rest = &rest[1..];
                Some(Piece::Plain(&rest[..1]))
            }
            Part::Escaped(escape) => {
                let character = escape.character;
                self.rest = &rest[escape.len..];
                Some(Piece::Escaped(character))
            }
            Part::Close | Part::Wrong | Part::Cut => None,
        }
    }
}

/// How many bytes at the start of the text are literal in any string with this quote.
fn plain_len(mark: u8, text: &[u8]) -> usize
    ensures count { result ≡ prefix_len (λ c. not (is_special mark c)) text.now }
    ensures within { result ≤ length text.now }
{
    text.iter()
        .take_while(|byte| !is_special(mark, **byte))
        .count()
}

#[tactic(auto, unfolding(crate::specs::Strings::is_special))]
fn is_special(mark: u8, byte: u8) -> bool
    ensures { result ≡ is_special mark byte }
{
    byte == mark || byte == b'\\' || is_line_end(byte)
}
