ghost use Rattle.std.specs.Prelude.{◌≡◌, IfOk};
ghost use Rattle.cel_parse.specs.Steps.{Gives, completed, reduced, part_of, may_begin, may_end, may_prefix, opened, prefixed, ended, ended_frame, passed, want_at, step_of, asked, parted, next_of, grown, closed, closed_frame, called, infixed, have_at, named_at, finished};
ghost use Rattle.cel_parse.specs.Grammar.{place, level, binary_op};
ghost use Rattle.cel_lex.specs.Tokens.{lexeme};

use crate::part::{self, Entries, Part, Parts};
use crate::state::{Due, Frame, Hand, Mode, Stack, level_of};
use crate::value;
use cel_lex::{Token, TokenKind};
use cel_tree::{BinaryOp, Kind, Span, UnaryOp};
use dra_values::Text;
use std::alloc::{AllocError, Global};

/// What comes after a token; None if the token isn't allowed there.
pub fn step(
    alloc: Global,
    stack: &mut Stack,
    mode: Mode,
    token: &Token,
) -> Result<Option<Mode>, AllocError>
    ensures { Gives result stack.new (step_of 64 mode stack.old (lexeme token.now)) }
{
    match mode {
        Mode::Want(due) => want(alloc, stack, due, token),
        Mode::Have(hand) => go_on(alloc, stack, hand, token),
        Mode::Dot(object) => name_member(alloc, stack, object, token),
    }
}

/// The tree of the tokens; None if more tokens are expected.
pub fn finish(alloc: Global, stack: &mut Stack, mode: Mode) -> Result<Option<Part>, AllocError>
    ensures { IfOk result (λ o. o ≡ finished 64 mode stack.old) }
{
    let Mode::Have(hand) = mode else {
        return Ok(None);
    };
    let part = whole(alloc, hand)?;
    let part = reduce(alloc, stack, 0, part)?;
    match stack.pop() {
        None => Ok(Some(part)),
        Some(_) => Ok(None),
    }
}

pub fn span_of(token: &Token) -> Span
    ensures { result ≡ place (lexeme token.now) }
{
    Span {
        start: token.span.start,
        end: token.span.end,
    }
}

fn want(
    alloc: Global,
    stack: &mut Stack,
    due: Due,
    token: &Token,
) -> Result<Option<Mode>, AllocError>
    ensures { Gives result stack.new (want_at 64 token.now.kind due stack.old (lexeme token.now)) }
{
    match token.kind {
        TokenKind::LeftParen => open(stack, due, Frame::Round, Due::Expr),
        TokenKind::LeftBracket => {
            let frame = Frame::Square(span_of(token), Parts::new(alloc));
            open(stack, due, frame, Due::First)
        }
        TokenKind::LeftBrace => {
            let frame = Frame::Braces(span_of(token), Entries::new(alloc));
            open(stack, due, frame, Due::First)
        }
        TokenKind::Not => prefix(stack, due, UnaryOp::Not, span_of(token)),
        TokenKind::Minus => prefix(stack, due, UnaryOp::Negate, span_of(token)),
        TokenKind::RightParen | TokenKind::RightBracket | TokenKind::RightBrace => {
            if due.may_end() {
                end(alloc, stack, token)
            } else {
                Ok(None)
            }
        }
        TokenKind::Comma => pass(stack, due),
        _ => {
            if !due.may_begin() {
                return Ok(None);
            }
            match value::operand(alloc, token)? {
                Some(hand) => Ok(Some(Mode::Have(hand))),
                None => Ok(None),
            }
        }
    }
}

impl Due {
    fn may_begin(self) -> bool
        ensures { result ≡ may_begin self }
    {
        match self {
            Due::Closing => false,
            _ => true,
        }
    }

    fn may_end(self) -> bool
        ensures { result ≡ may_end self }
    {
        match self {
            Due::First | Due::Next | Due::Closing => true,
            _ => false,
        }
    }

    fn may_prefix(self, op: UnaryOp) -> bool
        ensures { result ≡ may_prefix self op }
    {
        match (self, op) {
            (Due::Closing, _) => false,
            (Due::Prefixed(UnaryOp::Not), UnaryOp::Negate) => false,
            (Due::Prefixed(UnaryOp::Negate), UnaryOp::Not) => false,
            _ => true,
        }
    }
}

fn open(stack: &mut Stack, due: Due, frame: Frame, next: Due) -> Result<Option<Mode>, AllocError>
    ensures { Gives result stack.new (opened due frame next stack.old) }
{
    if !due.may_begin() {
        return Ok(None);
    }
    stack.push(frame)?;
    Ok(Some(Mode::Want(next)))
}

fn prefix(stack: &mut Stack, due: Due, op: UnaryOp, span: Span) -> Result<Option<Mode>, AllocError>
    ensures { Gives result stack.new (prefixed due op span stack.old) }
{
    if !due.may_prefix(op) {
        return Ok(None);
    }
    stack.push(Frame::Prefix(op, span))?;
    Ok(Some(Mode::Want(Due::Prefixed(op))))
}

/// A comma alone in a list or a map.
fn pass(stack: &mut Stack, due: Due) -> Result<Option<Mode>, AllocError>
    ensures { Gives result stack.new (passed due stack.old) }
{
    let Due::First = due else {
        return Ok(None);
    };
    match stack.pop() {
        Some(Frame::Square(span, items)) => {
            stack.push(Frame::Square(span, items))?;
            Ok(Some(Mode::Want(Due::Closing)))
        }
        Some(Frame::Braces(span, entries)) => {
            stack.push(Frame::Braces(span, entries))?;
            Ok(Some(Mode::Want(Due::Closing)))
        }
        _ => Ok(None),
    }
}

/// A closing bracket where no item is read.
fn end(alloc: Global, stack: &mut Stack, token: &Token) -> Result<Option<Mode>, AllocError>
    ensures { Gives result stack.new (ended 64 stack.old (lexeme token.now)) }
{
    let Some(frame) = stack.pop() else {
        return Ok(None);
    };
    match end_frame(alloc, frame, token.kind, span_of(token))? {
        Some(part) => Ok(Some(Mode::Have(Hand::Whole(part)))),
        None => Ok(None),
    }
}

fn end_frame(
    alloc: Global,
    frame: Frame,
    kind: TokenKind,
    last: Span,
) -> Result<Option<Part>, AllocError>
    ensures { IfOk result (λ o. o ≡ ended_frame 64 frame kind last) }
{
    match (frame, kind) {
        (Frame::Square(span, items), TokenKind::RightBracket) => {
            Ok(Some(part::list(part::joined(span, last), items)))
        }
        (Frame::Function(span, name, arguments), TokenKind::RightParen) => {
            Ok(Some(part::call(part::joined(span, last), name, arguments)))
        }
        (Frame::Method(object, name, arguments), TokenKind::RightParen) => {
            Ok(Some(part::method(alloc, object, name, arguments, last)?))
        }
        (Frame::Braces(span, entries), TokenKind::RightBrace) => {
            Ok(Some(part::map(part::joined(span, last), entries)))
        }
        _ => Ok(None),
    }
}

/// What was read last as a tree.
fn whole(alloc: Global, hand: Hand) -> Result<Part, AllocError>
    ensures { IfOk result (λ p. p ≡ part_of 64 hand) }
{
    match hand {
        Hand::Whole(part) => Ok(part),
        Hand::Name(span, name) => Ok(part::leaf(span, Kind::Ident(name))),
        Hand::Field(object, span, name) => part::member(alloc, object, span, name),
    }
}

/// Completes what waits for an operand that ends before an operator of this level.
fn reduce(alloc: Global, stack: &mut Stack, level: u8, part: Part) -> Result<Part, AllocError>
    ensures { IfOk result (λ p. (p, stack.new) ≡ reduced 64 level part stack.old) }
{
    let mut part = part;
    'bound: while stack.binds(level) {
        let Some(frame) = stack.pop() else {
            return Ok(part);
        };
        part = complete(alloc, frame, part)?;
    }
    Ok(part)
}

fn complete(alloc: Global, frame: Frame, part: Part) -> Result<Part, AllocError>
    ensures { IfOk result (λ p. p ≡ completed 64 frame part) }
{
    match frame {
        Frame::Prefix(op, span) => part::unary(alloc, op, span, part),
        Frame::Infix(op, left) => part::binary(alloc, op, left, part),
        Frame::Branch(test, then) => part::conditional(alloc, test, then, part),
        _ => Ok(part),
    }
}

fn go_on(
    alloc: Global,
    stack: &mut Stack,
    hand: Hand,
    token: &Token,
) -> Result<Option<Mode>, AllocError>
    ensures { Gives result stack.new (have_at 64 token.now.kind hand stack.old (lexeme token.now)) }
{
    match token.kind {
        TokenKind::Dot => Ok(Some(Mode::Dot(whole(alloc, hand)?))),
        TokenKind::LeftBracket => {
            let object = whole(alloc, hand)?;
            stack.push(Frame::Subscript(object))?;
            Ok(Some(Mode::Want(Due::Expr)))
        }
        TokenKind::LeftParen => call(alloc, stack, hand),
        TokenKind::Question => {
            let part = whole(alloc, hand)?;
            let part = reduce(alloc, stack, 1, part)?;
            ask(stack, part)
        }
        TokenKind::Colon => {
            let part = whole(alloc, hand)?;
            let part = reduce(alloc, stack, 0, part)?;
            divide(stack, part)
        }
        TokenKind::Comma => {
            let part = whole(alloc, hand)?;
            let part = reduce(alloc, stack, 0, part)?;
            separate(stack, part)
        }
        TokenKind::RightParen | TokenKind::RightBracket | TokenKind::RightBrace => {
            let part = whole(alloc, hand)?;
            let part = reduce(alloc, stack, 0, part)?;
            close(alloc, stack, part, token)
        }
        kind => {
            let Some(op) = infix(kind) else {
                return Ok(None);
            };
            let part = whole(alloc, hand)?;
            let part = reduce(alloc, stack, level_of(op), part)?;
            stack.push(Frame::Infix(op, part))?;
            Ok(Some(Mode::Want(Due::Expr)))
        }
    }
}

/// An opening round bracket after a name or a member.
fn call(alloc: Global, stack: &mut Stack, hand: Hand) -> Result<Option<Mode>, AllocError>
    ensures { Gives result stack.new (called hand stack.old) }
{
    let frame = match hand {
        Hand::Name(span, name) => Frame::Function(span, name, Parts::new(alloc)),
        Hand::Field(object, _, name) => Frame::Method(object, name, Parts::new(alloc)),
        Hand::Whole(_) => return Ok(None),
    };
    stack.push(frame)?;
    Ok(Some(Mode::Want(Due::First)))
}

/// A `?` after a test.
fn ask(stack: &mut Stack, test: Part) -> Result<Option<Mode>, AllocError>
    ensures { Gives result stack.new (asked test stack.old) }
{
    match stack.pop() {
        None => {}
        Some(Frame::Test(_)) => return Ok(None),
        Some(frame) => stack.push(frame)?,
    }
    stack.push(Frame::Test(test))?;
    Ok(Some(Mode::Want(Due::Expr)))
}

/// A `:` after a branch or a key.
fn divide(stack: &mut Stack, part: Part) -> Result<Option<Mode>, AllocError>
    ensures { Gives result stack.new (parted part stack.old) }
{
    match stack.pop() {
        Some(Frame::Test(test)) => {
            stack.push(Frame::Branch(test, part))?;
            Ok(Some(Mode::Want(Due::Expr)))
        }
        Some(Frame::Braces(span, entries)) => {
            stack.push(Frame::Value(span, entries, part))?;
            Ok(Some(Mode::Want(Due::Expr)))
        }
        _ => Ok(None),
    }
}

/// A comma after an item.
fn separate(stack: &mut Stack, part: Part) -> Result<Option<Mode>, AllocError>
    ensures { Gives result stack.new (next_of part stack.old) }
{
    let Some(frame) = stack.pop() else {
        return Ok(None);
    };
    let Some((frame, next)) = grow(frame, part)? else {
        return Ok(None);
    };
    stack.push(frame)?;
    Ok(Some(Mode::Want(next)))
}

/// The frame with another item, and what is expected after the comma that follows it.
fn grow(frame: Frame, part: Part) -> Result<Option<(Frame, Due)>, AllocError>
    ensures { IfOk result (λ o. o ≡ grown frame part) }
{
    match frame {
        Frame::Square(span, items) => {
            Ok(Some((Frame::Square(span, items.with(part)?), Due::Next)))
        }
        Frame::Function(span, name, arguments) => Ok(Some((
            Frame::Function(span, name, arguments.with(part)?),
            Due::Expr,
        ))),
        Frame::Method(object, name, arguments) => Ok(Some((
            Frame::Method(object, name, arguments.with(part)?),
            Due::Expr,
        ))),
        Frame::Value(span, entries, key) => {
            Ok(Some((Frame::Braces(span, entries.with(key, part)?), Due::Next)))
        }
        _ => Ok(None),
    }
}

/// A closing bracket after an expression.
fn close(
    alloc: Global,
    stack: &mut Stack,
    part: Part,
    token: &Token,
) -> Result<Option<Mode>, AllocError>
    ensures { Gives result stack.new (closed 64 part stack.old (lexeme token.now)) }
{
    let Some(frame) = stack.pop() else {
        return Ok(None);
    };
    match close_frame(alloc, frame, part, token.kind, span_of(token))? {
        Some(part) => Ok(Some(Mode::Have(Hand::Whole(part)))),
        None => Ok(None),
    }
}

fn close_frame(
    alloc: Global,
    frame: Frame,
    part: Part,
    kind: TokenKind,
    last: Span,
) -> Result<Option<Part>, AllocError>
    ensures { IfOk result (λ o. o ≡ closed_frame 64 frame part kind last) }
{
    match frame {
        Frame::Round => match kind {
            TokenKind::RightParen => Ok(Some(part)),
            _ => Ok(None),
        },
        Frame::Subscript(object) => match kind {
            TokenKind::RightBracket => Ok(Some(part::index(alloc, object, part, last)?)),
            _ => Ok(None),
        },
        frame => match grow(frame, part)? {
            Some((frame, _)) => end_frame(alloc, frame, kind, last),
            None => Ok(None),
        },
    }
}

fn name_member(
    alloc: Global,
    stack: &mut Stack,
    object: Part,
    token: &Token,
) -> Result<Option<Mode>, AllocError>
    ensures { Gives result stack.new (named_at token.now.kind object stack.old (lexeme token.now)) }
{
    match token.kind {
        TokenKind::Ident | TokenKind::Reserved => {
            let name = Text::from_str(alloc, token.text)?;
            Ok(Some(Mode::Have(Hand::Field(object, span_of(token), name))))
        }
        _ => Ok(None),
    }
}

/// The operator with two operands that a token is.
fn infix(kind: TokenKind) -> Option<BinaryOp>
    ensures { result ≡ binary_op kind }
{
    match kind {
        TokenKind::OrOr => Some(BinaryOp::Or),
        TokenKind::AndAnd => Some(BinaryOp::And),
        TokenKind::Lt => Some(BinaryOp::Less),
        TokenKind::Le => Some(BinaryOp::LessEq),
        TokenKind::Ge => Some(BinaryOp::GreaterEq),
        TokenKind::Gt => Some(BinaryOp::Greater),
        TokenKind::EqEq => Some(BinaryOp::Equal),
        TokenKind::NotEq => Some(BinaryOp::NotEqual),
        TokenKind::In => Some(BinaryOp::In),
        TokenKind::Plus => Some(BinaryOp::Add),
        TokenKind::Minus => Some(BinaryOp::Subtract),
        TokenKind::Star => Some(BinaryOp::Multiply),
        TokenKind::Slash => Some(BinaryOp::Divide),
        TokenKind::Percent => Some(BinaryOp::Remainder),
        _ => None,
    }
}
