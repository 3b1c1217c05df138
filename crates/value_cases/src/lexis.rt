use crate::input::{CaseError, text};
use crate::shown::Out;
use cel_lex::{LexError, Piece, Spelling, Token, Tokens, int_value};
use serde_json::Value;
use std::alloc::{AllocError, Global};

pub fn answer(alloc: Global, out: &mut Out, kind: &str, input: &Value) -> Result<(), CaseError> {
    let text = text(input)?;
    match kind {
        "list" => push_tokens(alloc, out, text),
        "message" => out.show_or_none(first_fault(text)),
        "int" => out.show_or_none(int_value(text)),
        "spelling" => return spelling(alloc, out, text),
        _ => return Err(CaseError::BadCase),
    }
    Ok(())
}

/// Appends the tokens of a text with their kinds and spans, and the error that follows them.
fn push_tokens(alloc: Global, out: &mut Out, text: &str) {
    let mut tokens = Tokens::of(text);
    for _ in 0..=text.len() {
        let Some(next) = tokens.next() else {
            break;
        };
        if !out.is_empty() {
            out.say(" | ");
        }
        push_next(alloc, out, next);
    }
}

fn push_next(alloc: Global, out: &mut Out, next: Result<Token<'_>, LexError>) {
    match next {
        Ok(token) => push_token(alloc, out, &token),
        Err(error) => push_fault(out, error),
    }
}

fn push_token(alloc: Global, out: &mut Out, token: &Token) {
    out.debug(&token.kind);
    out.say(" ");
    out.quoted(alloc, token.text);
    out.say(" ");
    push_span(out, token.span.start, token.span.end);
}

/// Appends a span such as `0-3`.
pub fn push_span(out: &mut Out, start: usize, end: usize) {
    out.show(&start);
    out.show_after("-", &end);
}

/// Appends the name of the error with its offset.
pub fn push_fault(out: &mut Out, error: LexError) {
    let (word, at) = parts_of(error);
    out.say(word);
    out.show_after(" ", &at);
}

/// The name of an error, and its offset.
pub fn parts_of(error: LexError) -> (&'static str, usize) {
    match error {
        LexError::BadChar(at) => ("BadChar", at),
        LexError::BadEscape(at) => ("BadEscape", at),
        LexError::Unclosed(at) => ("Unclosed", at),
        LexError::BadNumber(at) => ("BadNumber", at),
    }
}

/// The tokens' first error.
fn first_fault(text: &str) -> Option<LexError> {
    let mut tokens = Tokens::of(text);
    for _ in 0..=text.len() {
        match tokens.next() {
            Some(Ok(_)) => {}
            Some(Err(error)) => return Some(error),
            None => break,
        }
    }
    None
}

/// Appends what a string spells, in quotes.
fn spelling(alloc: Global, out: &mut Out, text: &str) -> Result<(), CaseError> {
    let mut spelled = String::new(alloc);
    push_spelled(&mut spelled, text)?;
    out.quoted(alloc, spelled.as_str());
    Ok(())
}

fn push_spelled(spelled: &mut String, text: &str) -> Result<(), AllocError> {
    let mut pieces = Spelling::of(text);
    for _ in 0..=text.len() {
        match pieces.next() {
            Some(Piece::Plain(part)) => spelled.push_str(part)?,
            Some(Piece::Escaped(letter)) => spelled.push(letter)?,
            None => break,
        }
    }
    Ok(())
}
