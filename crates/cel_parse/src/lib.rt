//! The parser of the selector language, this project's profile of the CEL language definition.
//!
//! The grammar is a relation between lists of tokens and trees; the parser reads the tokens once
//! from the left and keeps what was begun on a stack, without recursion.
#![tactic(auto)]

mod part;
mod run;
mod shown;
mod state;
mod step;
mod text;
mod value;

pub use run::{ParseError, has_one_tree, parse_tokens, trees_are_of_the_grammar};
pub use text::{MOST_BYTES, parse};
