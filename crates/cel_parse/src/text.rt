ghost use Rattle.std.specs.Prelude.{◌≡◌, ◌≤◌, map, length, option_map, None};
ghost use Rattle.cel_lex.specs.Tokens.{lexeme, lex_of};
ghost use Rattle.cel_parse.specs.Text.{Parses, Lexes, Scanned, is_optional, is_leading, is_name, is_left_out, left_out, open_at, is_crowded};
ghost use Rattle.cel_parse.specs.Trees.{Tells, tree_in, tree_of};

use crate::run::{ParseError, parse_tokens};
use crate::step::span_of;
use cel_lex::{Token, TokenKind, Tokens};
use cel_tree::{Span, Tree};
use std::alloc::Global;

/// The greatest length of a text, in bytes.
pub const MOST_BYTES: usize = 10240;

/// The most brackets that are open at one token.
const MOST_OPEN: usize = 64;

/// The tree of an expression of the selector language, this project's profile of the CEL language
/// definition. The errors come in this order: Long, if the text has more than 10,240 bytes; Lex,
/// with the first offset where no token can be read; NotSupported, at the first token that the
/// profile leaves out; Deep, if more than 64 brackets of any kind are open at one token;
/// Unexpected, at the first token such that no expression begins with the tokens up to and with it,
/// or at the end of the text; Deep, if the tree is more than 64 levels deep.
#[tactic(auto, unfolding(crate::specs::Trees::tree_of))]
pub fn parse(alloc: Global, text: &str) -> Result<Tree, ParseError>
    ensures answer { Parses text.now result }
    ensures trees { Tells (tree_of text.now) result }
{
    if text.len() > MOST_BYTES {
        return Err(ParseError::Long);
    }
    let tokens = lex(alloc, text)?;
    parse_read(alloc, &tokens, text.len())
}

fn parse_read(alloc: Global, tokens: &[Token], end: usize) -> Result<Tree, ParseError>
    ensures answer { Scanned (record { start = end; end = end }) (map lexeme tokens.now) result }
    ensures trees { Tells (tree_in (record { start = end; end = end }) (map lexeme tokens.now)) result }
{
    if let Some(span) = find_left_out(tokens) {
        return Err(ParseError::NotSupported(span));
    }
    if has_crowd(tokens) {
        return Err(ParseError::Deep);
    }
    parse_tokens(alloc, tokens, end)
}

/// The tokens of a text.
#[tactic(auto, using(crate::proofs::Lexing::lexing))]
fn lex<'a>(alloc: Global, text: &'a str) -> Result<Vec<Token<'a>>, ParseError>
    ensures { Lexes (lex_of text.now) result }
{
    let mut read = Vec::new(alloc);
    let mut tokens = Tokens::of(text);
    'tokens: while let Some(next) = tokens.next() {
        match next {
            Ok(token) => match read.push(token) {
                Ok(()) => {}
                Err(_) => return Err(ParseError::Memory),
            },
            Err(error) => return Err(ParseError::Lex(error)),
        }
    }
    Ok(read)
}

/// The first token that the profile leaves out of the language.
fn find_left_out(tokens: &[Token]) -> Option<Span>
    ensures { result ≡ left_out None (map lexeme tokens.now) }
{
    let mut before = None;
    for token in tokens {
        if is_left_out(before, token.kind) {
            return Some(span_of(token));
        }
        before = Some(token.kind);
    }
    None
}

fn is_left_out(before: Option<TokenKind>, kind: TokenKind) -> bool
    ensures { result ≡ is_left_out before kind }
{
    match kind {
        TokenKind::Double | TokenKind::Uint | TokenKind::Bytes => true,
        TokenKind::Question => matches!(before, Some(TokenKind::Dot | TokenKind::LeftBracket)),
        TokenKind::Dot => is_leading(before),
        TokenKind::LeftBrace => matches!(before, Some(TokenKind::Ident)),
        _ => false,
    }
}

/// Whether a token is where an operand is expected.
fn is_leading(before: Option<TokenKind>) -> bool
    ensures { result ≡ is_leading before }
{
    let Some(kind) = before else {
        return true;
    };
    match kind {
        TokenKind::Ident
        | TokenKind::False
        | TokenKind::Null
        | TokenKind::True
        | TokenKind::Reserved
        | TokenKind::Int
        | TokenKind::Double
        | TokenKind::Uint
        | TokenKind::Str
        | TokenKind::Bytes
        | TokenKind::Dot
        | TokenKind::RightParen
        | TokenKind::RightBracket
        | TokenKind::RightBrace => false,
        _ => true,
    }
}

/// Whether more than 64 brackets are open at one token.
fn has_crowd(tokens: &[Token]) -> bool
    ensures { result ≡ is_crowded 0 (map lexeme tokens.now) }
{
    let mut count: usize = 0;
    for token in tokens {
        count = open_at(count, token.kind);
        if count > MOST_OPEN {
            return true;
        }
    }
    false
}

fn open_at(before: usize, kind: TokenKind) -> usize
    requires { before ≤ 64 }
    ensures { result ≡ open_at before kind }
{
    match kind {
        TokenKind::LeftParen | TokenKind::LeftBracket | TokenKind::LeftBrace => before + 1,
        TokenKind::RightParen | TokenKind::RightBracket | TokenKind::RightBrace => {
            before.saturating_sub(1)
        }
        _ => before,
    }
}
