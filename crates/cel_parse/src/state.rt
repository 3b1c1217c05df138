ghost use Rattle.std.specs.Prelude.{◌≡◌, [], ◌∷◌, OnOk};
ghost use Rattle.cel_parse.specs.Steps.{binds, binds_top, Popped};
ghost use Rattle.cel_parse.specs.Grammar.{level};

use crate::part::{Entries, Part, Parts};
use cel_tree::{BinaryOp, Span, UnaryOp};
use dra_values::Text;
use std::alloc::{AllocError, Global};
use std::marker::Model;

/// What may appear where an operand is expected.
#[derive(Clone, Copy, Debug, PartialEq, Eq)]
pub enum Due {
    /// An expression.
    Expr,
    /// After unary operators: the same operator again, or a member.
    Prefixed(UnaryOp),
    /// After a bracket that may be closed at once: an expression or the closing bracket.
    First,
    /// After the comma that follows an item: another item or the closing bracket.
    Next,
    /// After a comma that no item precedes: the closing bracket.
    Closing,
}

/// What was read last.
#[derive(Drop)]
pub enum Hand {
    Whole(Part),
    /// A name, which a bracket makes a function.
    Name(Span, Text),
    /// A member of an object, which a bracket makes a method.
    Field(Part, Span, Text),
}

/// What comes next.
#[derive(Drop)]
pub enum Mode {
    Want(Due),
    Have(Hand),
    /// The name of a member of the object.
    Dot(Part),
}

/// What was begun and waits for what is read after it.
#[derive(Drop)]
pub enum Frame {
    Prefix(UnaryOp, Span),
    Infix(BinaryOp, Part),
    /// `test ?`
    Test(Part),
    /// `test ? then :`
    Branch(Part, Part),
    /// `(`
    Round,
    /// `object [`
    Subscript(Part),
    /// `[` and the items so far
    Square(Span, Parts),
    /// `function (` and the arguments so far
    Function(Span, Text, Parts),
    /// `object . function (` and the arguments so far
    Method(Part, Text, Parts),
    /// `{` and the entries so far
    Braces(Span, Entries),
    /// `{`, the entries so far, a key and `:`
    Value(Span, Entries, Part),
}

/// What was begun, the innermost first.
pub struct Stack {
    frames: Vec<Frame>,
}

impl Model for Stack {
    ghost use Rattle.std.specs.Prelude.{List, reverse};
    ghost use Rattle.std.specs.Coded.{coded_list};
    ghost use Rattle.cel_parse.specs.declared.state.Frame.{Frame};
    ghost use Rattle.cel_parse.specs.contracts.state.Frame as frame;

    ghost Value = { List Frame };

    ghost coded = { coded_list frame.the_row.coded };

    ghost view = { λ s. reverse s.frames.items };
}

impl Drop for Stack {
    fn drop(self) {
        let Stack { frames } = self;
        drop(frames);
    }
}

impl Stack {
    pub fn new(alloc: Global) -> Stack
        ensures { result ≡ [] }
    {
        Stack {
            frames: Vec::new(alloc),
        }
    }

    pub fn push(&mut self, frame: Frame) -> Result<(), AllocError>
        ensures { OnOk result (self.new ≡ frame ∷ self.old) }
    {
        Ok(self.frames.push(frame)?)
    }

    pub fn pop(&mut self) -> Option<Frame>
        ensures { Popped result self.old self.new }
    {
        self.frames.pop()
    }

    /// Whether the innermost waits for an operand that ends before an operator of this level.
    pub fn binds(&self, level: u8) -> bool
        ensures { result ≡ binds_top level self.now }
    {
        match self.frames.last() {
            None => false,
            Some(frame) => frame.binds(level),
        }
    }
}

impl Frame {
    pub fn binds(&self, level: u8) -> bool
        ensures { result ≡ binds level self.now }
    {
        match self {
            Frame::Prefix(..) => true,
            Frame::Infix(op, _) => level <= level_of(*op),
            Frame::Branch(..) => level == 0,
            _ => false,
        }
    }
}

/// How tightly an operator binds; `?:` is at 0 and the unary operators at 6.
pub fn level_of(op: BinaryOp) -> u8
    ensures { result ≡ level op }
{
    match op {
        BinaryOp::Or => 1,
        BinaryOp::And => 2,
        BinaryOp::Less
        | BinaryOp::LessEq
        | BinaryOp::GreaterEq
        | BinaryOp::Greater
        | BinaryOp::Equal
        | BinaryOp::NotEqual
        | BinaryOp::In => 3,
        BinaryOp::Add | BinaryOp::Subtract => 4,
        BinaryOp::Multiply | BinaryOp::Divide | BinaryOp::Remainder => 5,
    }
}
