ghost use Rattle.std.specs.Prelude.{◌≡◌, ◌≤◌, ℕ, nat_lt, false, List, length, None, Some, IfOk, map};
ghost use Rattle.cel_lex.specs.Tokens.{Lexeme, lexeme, lex_of};
ghost use Rattle.cel_tree.specs.Ast.{Ast, depth};
ghost use Rattle.cel_parse.specs.Steps.{reading, begun, reading_of};
ghost use Rattle.cel_parse.specs.Grammar.{Has};
ghost use Rattle.cel_parse.specs.Answer.{Parsed};
ghost use Rattle.cel_parse.specs.Text.{left_out, is_crowded};
ghost use Rattle.cel_parse.specs.Trees.{Tells, tree_of, tree_read};

use crate::part::Part;
use crate::state::{Due, Mode, Stack};
use crate::step::{finish, span_of, step};
use cel_lex::{LexError, Token};
use cel_tree::{Span, Tree};
use std::alloc::{AllocError, Global};
use thiserror::Error;

/// Why a text is no expression of the selector language. Its offsets are into the text, in
/// bytes.
#[derive(Clone, Copy, Debug, PartialEq, Eq, Drop, Error)]
pub enum ParseError {
    /// The first offset where no token can be read.
    #[error(transparent)]
    Lex(LexError),
    /// The span of the first token such that no expression begins with the tokens up to and with
    /// it. The end of the text counts as a token of empty span.
    #[error("unexpected token at bytes {} to {}", .0.start, .0.end)]
    Unexpected(Span),
    /// More than 64 brackets are open, or the tree is more than 64 levels deep.
    #[error("more than 64 levels deep")]
    Deep,
    /// More than 10,240 bytes.
    #[error("more than 10240 bytes long")]
    Long,
    /// Out of memory.
    #[error("out of memory")]
    Memory,
    /// The span of the first token that the profile leaves out of the language.
    #[error("the selector language does not support what is at bytes {} to {}", .0.start, .0.end)]
    NotSupported(Span),
}

/// The tree of the tokens, or the span of the first that isn't allowed there; `end` is the span of
/// the end of the text.
fn read(alloc: Global, tokens: &[Token], end: Span) -> Result<Result<Part, Span>, AllocError>
    ensures { IfOk result (λ r. reading_of r ≡ reading 64 end (map lexeme tokens.now) begun) }
{
    let mut stack = Stack::new(alloc);
    let mut mode = Mode::Want(Due::Expr);
    for token in tokens {
        match step(alloc, &mut stack, mode, token)? {
            Some(next) => mode = next,
            None => return Ok(Err(span_of(token))),
        }
    }
    match finish(alloc, &mut stack, mode)? {
        Some(part) => Ok(Ok(part)),
        None => Ok(Err(end)),
    }
}

/// The tree that the grammar assigns to the tokens of a text, which ends at the offset. Deep if the
/// tree is more than 64 levels deep, Unexpected if the tokens have none: at the first token such
/// that no expression begins with the tokens up to and with it, or at the end of the text.
#[tactic(auto, using(crate::proofs::Exact::parses))]
pub fn parse_tokens(alloc: Global, tokens: &[Token], end: usize) -> Result<Tree, ParseError>
    ensures answer { Parsed (record { start = end; end = end }) (map lexeme tokens.now) result }
    ensures trees { Tells (tree_read (reading 64 (record { start = end; end = end }) (map lexeme tokens.now) begun)) result }
{
    let end = Span { start: end, end };
    match read(alloc, tokens, end) {
        Ok(Ok(Part::Shallow(tree, _))) => Ok(tree.into_tree()),
        Ok(Ok(Part::Deep)) => Err(ParseError::Deep),
        Ok(Err(span)) => Err(ParseError::Unexpected(span)),
        Err(_) => Err(ParseError::Memory),
    }
}

/// The tree of a text is the one that the grammar assigns to its tokens, and a text that is short, of whose
/// tokens none is left out and at most 64 brackets are open, and whose tokens have a tree of at most
/// 64 levels, has that tree.
pub fn trees_are_of_the_grammar()
    ensures tree { (text : List ℕ) (t : Ast) → tree_of text ≡ Some t → Has 0 (lex_of text).tokens t }
    ensures every { (text : List ℕ) (t : Ast) → nat_lt 10240 (length text) ≡ false → (lex_of text).error ≡ None →
        left_out None (lex_of text).tokens ≡ None → is_crowded 0 (lex_of text).tokens ≡ false →
        Has 0 (lex_of text).tokens t → depth t ≤ 64 → tree_of text ≡ Some t }
{}

/// A list of tokens has at most one tree.
pub fn has_one_tree()
    ensures { (ts : List Lexeme) (t u : Ast) → Has 0 ts t → Has 0 ts u → t ≡ u }
{}
