ghost use Rattle.std.specs.Prelude.{◌≡◌, ◌≤◌, true, false};
ghost use Rattle.cel_lex.specs.Tokens.{seen, next_of, after, rest_of, first_of, lex_of, IfRead, IsBorrowed};

use crate::cut::{cut_at, due_after};
use crate::gap::gap_len;
use crate::token::{LexError, Span, Token};
use std::marker::Model;

/// Reads the tokens of a text from the left.
#[derive(Drop)]
pub struct Tokens<'a> {
    source: &'a str,
    at: usize,
    due: bool,
    failed: bool,
}

impl<'a> Model for Tokens<'a> {
    ghost use Rattle.std.specs.Prelude.{◌≤◌, length};
    ghost use Rattle.cel_lex.specs.Place.{Place};

    ghost Value = { Place };

    ghost view = { λ t. record { source = t.source.now; at = t.at; due = t.due; failed = t.failed } };

    ghost invariant = { λ t. t.at ≤ length t.source.now };
}

impl<'a> Tokens<'a> {
    /// Starts at the beginning of a text.
    pub fn of(text: &'a str) -> Tokens<'a>
        ensures start { result ≡ record { source = text.now; at = 0; due = true; failed = false } }
        ensures whole { rest_of result ≡ lex_of text.now }
    {
        Tokens {
            source: text,
            at: 0,
            due: true,
            failed: false,
        }
    }

    /// The next token, or why none can be read: the first error from the left. None at
    /// the end of the text, and after an error. A minus directly before a whole number belongs to
    /// it where an operand is expected.
    pub fn next(&mut self) -> Option<Result<Token<'a>, LexError>>
        ensures exact { seen result ≡ next_of self.old }
        ensures moves { self.new ≡ after self.old (next_of self.old) }
        ensures borrowed { IfRead (seen result) (IsBorrowed self.old) }
        ensures rest { rest_of self.old ≡ first_of (seen result) (rest_of self.new) }
    {
        if self.failed {
            return None;
        }
        let source = self.source;
        let bytes = source.as_bytes();
        let start = self.at + gap_len(&bytes[self.at..]);
        if start == bytes.len() {
            return None;
        }
        match cut_at(bytes, start, self.due) {
            Ok(cut) => {
                self.at = cut.end;
                self.due = due_after(cut.kind);
                Some(Ok(Token {
                    kind: cut.kind,
                    text: &source[start..cut.end],
                    span: Span {
                        start,
                        end: cut.end,
                    },
                }))
            }
            Err(error) => {
                self.failed = true;
                Some(Err(error))
            }
        }
    }
}
