ghost use Rattle.std.specs.Prelude.{◌≡◌, ◌++◌, IfOk, option_map};
ghost use Rattle.cel_lex.specs.Tokens.{lexeme};
ghost use Rattle.cel_lex.specs.Strings.{content_of};
ghost use Rattle.cel_parse.specs.Operands.{operand_of};

use crate::part;
use crate::state::Hand;
use crate::step::span_of;
use cel_lex::{Piece, Spelling, Token, TokenKind, int_value};
use cel_tree::{Kind, Literal};
use dra_values::Text;
use std::alloc::{AllocError, Global};

/// The operand that is this token alone: a name or a literal.
pub fn operand(alloc: Global, token: &Token) -> Result<Option<Hand>, AllocError>
    ensures { IfOk result (λ o. o ≡ operand_of 64 (lexeme token.now)) }
{
    let literal = match token.kind {
        TokenKind::Ident => {
            let name = Text::from_str(alloc, token.text)?;
            return Ok(Some(Hand::Name(span_of(token), name)));
        }
        TokenKind::Null => Literal::Null,
        TokenKind::True => Literal::Bool(true),
        TokenKind::False => Literal::Bool(false),
        TokenKind::Int => match int_value(token.text) {
            Some(value) => Literal::Int(value),
            None => return Ok(None),
        },
        TokenKind::Str => Literal::Text(spelled(alloc, token.text)?),
        _ => return Ok(None),
    };
    Ok(Some(Hand::Whole(part::leaf(span_of(token), Kind::Literal(literal)))))
}

/// What the text of a string spells.
fn spelled(alloc: Global, text: &str) -> Result<Text, AllocError>
    ensures { IfOk result (λ t. t ≡ content_of text.now) }
{
    let mut content = String::new(alloc);
    let mut spelling = Spelling::of(text);
    while let Some(piece) = spelling.next() {
        match piece {
            Piece::Plain(text) => content.push_str(text)?,
            Piece::Escaped(character) => content.push(character)?,
        }
    }
    Text::new(alloc, content)
}
