ghost use Rattle.std.specs.Prelude.{◌≡◌, ◌≤◌, ◌<◌, ◌+◌, ◌^◌, length, drop, IfSome};
ghost use Rattle.std.specs.List.{prefix_len, list_any};
ghost use Rattle.std.specs.Str.{bytes_eq};
ghost use Rattle.cel_lex.specs.Bytes.{is_word, is_word_start, begins};
ghost use Rattle.cel_lex.specs.Lexis.{cut_of, cut_plain, word_kind, keyword_of, is_reserved, short_words, middle_words, long_words, word_form, fits, fitting, signed_form, begins_number, begins_signed, mark_of, pair_of, single_of, bracket_of, string_kind, due_after};

use crate::bytes::{begins_digit, begins_with, is_word, is_word_start};
use crate::number::{Form, int_value_of, number_form, whole_value};
use crate::part::string_end;
use crate::quotes::{Quotes, opening};
use crate::token::{LexError, TokenKind};

/// A token at an offset: what it is, and the offset of the byte after its last.
#[derive(Clone, Copy)]
pub struct Cut {
    pub kind: TokenKind,
    pub end: usize,
}

/// The token that begins at `from`; `due` says whether an operand is expected there.
#[tactic(auto, unfolding(crate::specs::Lexis::cut_of))]
pub fn cut_at(source: &[u8], from: usize, due: bool) -> Result<Cut, LexError>
    requires { from < length source.now }
    ensures { result ≡ cut_of due from (drop from source.now) }
{
    match opening(&source[from..]) {
        Some(quotes) => {
            let end = string_end(source, from, from + quotes.len, quotes)?;
            Ok(Cut {
                kind: string_kind(quotes),
                end,
            })
        }
        None => cut_plain(&source[from..], from, due),
    }
}

fn string_kind(quotes: Quotes) -> TokenKind
    ensures { result ≡ string_kind quotes }
{
    if quotes.bytes {
        TokenKind::Bytes
    } else {
        TokenKind::Str
    }
}

/// The token at the start of a text that begins at `from` and with no string.
#[tactic(auto, unfolding(crate::specs::Lexis::cut_plain))]
fn cut_plain(text: &[u8], from: usize, due: bool) -> Result<Cut, LexError>
    requires { from + length text.now < 2 ^ 64 }
    ensures { result ≡ cut_plain due from text.now }
{
    if begins_word(text) {
        Ok(cut_as(from, word_form(text)))
    } else if begins_number(text) {
        fitting(text, from, number_form(text))
    } else if due && begins_signed(text) {
        fitting(text, from, signed_form(number_form(&text[1..])))
    } else {
        match mark(text) {
            Some(form) => Ok(cut_as(from, form)),
            None => Err(LexError::BadChar(from)),
        }
    }
}

fn cut_as(from: usize, form: Form) -> Cut
    requires { from + form.len < 2 ^ 64 }
    ensures { result ≡ record { kind = form.kind; end = from + form.len } }
{
    Cut {
        kind: form.kind,
        end: from + form.len,
    }
}

fn begins_word(text: &[u8]) -> bool
    ensures { result ≡ begins is_word_start text.now }
{
    match text {
        [first, ..] => is_word_start(*first),
        [] => false,
    }
}

/// Whether the text begins with a minus and a digit.
fn begins_signed(text: &[u8]) -> bool
    ensures { result ≡ begins_signed text.now }
{
    match text {
        [b'-', digits @ ..] => begins_digit(digits),
        _ => false,
    }
}

/// The token, unless it is a whole number whose value does not fit in 64 bits.
fn fitting(text: &[u8], from: usize, form: Form) -> Result<Cut, LexError>
    requires within { form.len ≤ length text.now }
    requires room { from + length text.now < 2 ^ 64 }
    ensures { result ≡ fitting from text.now form }
{
    if fits(text, form) {
        Ok(cut_as(from, form))
    } else {
        Err(LexError::BadNumber(from))
    }
}

#[tactic(auto, unfolding(crate::specs::Lexis::fits))]
fn fits(text: &[u8], form: Form) -> bool
    requires { form.len ≤ length text.now }
    ensures { result ≡ fits form.kind form.len text.now }
{
    match form.kind {
        TokenKind::Int => int_value_of(&text[..form.len]).is_some(),
        TokenKind::Uint => whole_value(&text[..form.len.saturating_sub(1)]).is_some(),
        _ => true,
    }
}

/// A number of this form after a minus: the minus belongs to a whole number alone.
fn signed_form(form: Form) -> Form
    requires { form.len + 1 < 2 ^ 64 }
    ensures { result ≡ signed_form form }
{
    if form.kind == TokenKind::Int {
        Form {
            kind: TokenKind::Int,
            len: 1 + form.len,
        }
    } else {
        Form {
            kind: TokenKind::Minus,
            len: 1,
        }
    }
}

fn begins_number(text: &[u8]) -> bool
    ensures { result ≡ begins_number text.now }
{
    match text {
        [b'.', digits @ ..] => begins_digit(digits),
        _ => begins_digit(text),
    }
}

#[tactic(auto, unfolding(crate::specs::Lexis::word_form))]
fn word_form(text: &[u8]) -> Form
    ensures exact { result ≡ word_form text.now }
    ensures within { result.len ≤ length text.now }
{
    let len = word_len(text);
    Form {
        kind: word_kind(&text[..len]),
        len,
    }
}

fn word_len(text: &[u8]) -> usize
    ensures count { result ≡ prefix_len is_word text.now }
    ensures within { result ≤ length text.now }
{
    text.iter().take_while(|byte| is_word(**byte)).count()
}

fn word_kind(word: &[u8]) -> TokenKind
    ensures { result ≡ word_kind word.now }
{
    match keyword(word) {
        Some(kind) => kind,
        None if is_reserved(word) => TokenKind::Reserved,
        None => TokenKind::Ident,
    }
}

fn keyword(word: &[u8]) -> Option<TokenKind>
    ensures { result ≡ keyword_of word.now }
{
    match word {
        b"false" => Some(TokenKind::False),
        b"in" => Some(TokenKind::In),
        b"null" => Some(TokenKind::Null),
        b"true" => Some(TokenKind::True),
        _ => None,
    }
}

fn is_reserved(word: &[u8]) -> bool
    ensures { result ≡ is_reserved word.now }
{
    is_short_word(word) || is_middle_word(word) || is_long_word(word)
}

/// A reserved word of two or three letters.
fn is_short_word(word: &[u8]) -> bool
    ensures { result ≡ list_any (bytes_eq word.now) short_words }
{
    matches!(word, b"as" | b"if" | b"for" | b"let" | b"var")
}

/// A reserved word of four or five letters.
fn is_middle_word(word: &[u8]) -> bool
    ensures { result ≡ list_any (bytes_eq word.now) middle_words }
{
    matches!(
        word,
        b"else" | b"loop" | b"void" | b"break" | b"const" | b"while"
    )
}

/// A reserved word of six letters or more.
fn is_long_word(word: &[u8]) -> bool
    ensures { result ≡ list_any (bytes_eq word.now) long_words }
{
    word == b"import".as_slice()
        || word == b"return".as_slice()
        || word == b"package".as_slice()
        || word == b"continue".as_slice()
        || word == b"function".as_slice()
        || word == b"namespace".as_slice()
}

/// The operator or bracket at the start of the text, the longer first.
#[tactic(auto, unfolding(crate::specs::Lexis::mark_of))]
fn mark(text: &[u8]) -> Option<Form>
    ensures exact { result ≡ mark_of text.now }
    ensures within { IfSome result (λ f. f.len ≤ length text.now) }
{
    let first = *text.first()?;
    if let [_, second, ..] = text {
        if let Some(kind) = pair(first, *second) {
            return Some(Form { kind, len: 2 });
        }
    }
    Some(Form {
        kind: single(first)?,
        len: 1,
    })
}

fn pair(first: u8, second: u8) -> Option<TokenKind>
    ensures { result ≡ pair_of first second }
{
    match (first, second) {
        (b'|', b'|') => Some(TokenKind::OrOr),
        (b'&', b'&') => Some(TokenKind::AndAnd),
        (b'=', b'=') => Some(TokenKind::EqEq),
        (b'!', b'=') => Some(TokenKind::NotEq),
        (b'<', b'=') => Some(TokenKind::Le),
        (b'>', b'=') => Some(TokenKind::Ge),
        _ => None,
    }
}

fn single(byte: u8) -> Option<TokenKind>
    ensures { result ≡ single_of byte }
{
    match byte {
        b'!' => Some(TokenKind::Not),
        b'<' => Some(TokenKind::Lt),
        b'>' => Some(TokenKind::Gt),
        b'+' => Some(TokenKind::Plus),
        b'-' => Some(TokenKind::Minus),
        b'*' => Some(TokenKind::Star),
        b'/' => Some(TokenKind::Slash),
        b'%' => Some(TokenKind::Percent),
        _ => bracket(byte),
    }
}

/// A bracket, or what separates.
fn bracket(byte: u8) -> Option<TokenKind>
    ensures { result ≡ bracket_of byte }
{
    match byte {
        b'(' => Some(TokenKind::LeftParen),
        b')' => Some(TokenKind::RightParen),
        b'[' => Some(TokenKind::LeftBracket),
        b']' => Some(TokenKind::RightBracket),
        b'{' => Some(TokenKind::LeftBrace),
        b'}' => Some(TokenKind::RightBrace),
        b',' => Some(TokenKind::Comma),
        b'.' => Some(TokenKind::Dot),
        b':' => Some(TokenKind::Colon),
        b'?' => Some(TokenKind::Question),
        _ => None,
    }
}

/// Whether an operand is expected after a token: an operator, `in`, an opening bracket, `,`, `?`
/// or `:`.
pub fn due_after(kind: TokenKind) -> bool
    ensures { result ≡ due_after kind }
{
    use TokenKind::*;
    match kind {
        OrOr | AndAnd | Lt | Le | Ge | Gt | EqEq | NotEq | In => true,
        Plus | Minus | Star | Slash | Percent | Not => true,
        LeftParen | LeftBracket | LeftBrace | Comma | Question | Colon => true,
        Ident | False | Null | True | Reserved | Dot => false,
        Int | Double | Uint | Str | Bytes => false,
        RightParen | RightBracket | RightBrace => false,
    }
}
