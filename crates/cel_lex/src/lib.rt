//! The tokens of an expression in the Common Expression Language, which borrow its text.
//!
//! The lexis is this project's profile of the language definition's section "Syntax".
#![tactic(auto)]

mod bytes;
mod cut;
mod escape;
mod gap;
mod number;
mod part;
mod quotes;
mod spelling;
mod token;
mod tokens;

pub use number::int_value;
pub use spelling::{Piece, Spelling};
pub use token::{LexError, Span, Token, TokenKind};
pub use tokens::Tokens;
