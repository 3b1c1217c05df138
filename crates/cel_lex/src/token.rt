use thiserror::Error;

/// A range of bytes of the source: `start` is the offset of the first byte and `end` that after
/// the last.
#[derive(Clone, Copy, Debug, PartialEq, Eq)]
pub struct Span {
    pub start: usize,
    pub end: usize,
}

/// What a token is (Common Expression Language definition, "Syntax").
#[derive(Clone, Copy, Debug, PartialEq, Eq)]
pub enum TokenKind {
    /// A letter or `_`, and letters, digits and `_`, that is no keyword and not reserved.
    Ident,
    False,
    In,
    Null,
    True,
    /// A word that no variable and no function may have as its name.
    Reserved,
    /// A whole number of 64 bits with its sign, decimal or after `0x` hexadecimal.
    Int,
    /// A number with a fraction or an exponent.
    Double,
    /// A whole number with a `u` after it.
    Uint,
    /// A string in one of four kinds of quotes, raw or not.
    Str,
    /// The same with a `b` before it.
    Bytes,
    Question,
    Colon,
    OrOr,
    AndAnd,
    Lt,
    Le,
    Ge,
    Gt,
    EqEq,
    NotEq,
    Plus,
    Minus,
    Star,
    Slash,
    Percent,
    Not,
    Dot,
    Comma,
    LeftParen,
    RightParen,
    LeftBracket,
    RightBracket,
    LeftBrace,
    RightBrace,
}

/// A piece of the source between blanks and comments. `text` is the slice of the source at `span`.
#[derive(Clone, Copy, Debug)]
pub struct Token<'a> {
    pub kind: TokenKind,
    pub text: &'a str,
    pub span: Span,
}

/// Why no token can be read, with an offset into the source in bytes.
#[derive(Clone, Copy, Debug, PartialEq, Eq, Drop, Error)]
pub enum LexError {
    /// The byte at this offset begins no token.
    #[error("no token begins at byte {0}")]
    BadChar(usize),
    /// The backslash at this offset begins no escape, or one that names no Unicode scalar value.
    #[error("the backslash at byte {0} begins no escape")]
    BadEscape(usize),
    /// The string that begins at this offset has no closing quotes, or a line end before them
    /// where none is allowed.
    #[error("the string that begins at byte {0} is not closed")]
    Unclosed(usize),
    /// The whole number that begins at this offset is past 64 bits.
    #[error("the whole number that begins at byte {0} is past 64 bits")]
    BadNumber(usize),
}
