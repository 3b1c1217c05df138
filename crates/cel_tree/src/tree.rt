use dra_values::Text;

/// A range of bytes of the source: from `start` up to but not with `end`.
#[derive(Clone, Copy, Debug, PartialEq, Eq)]
pub struct Span {
    pub start: usize,
    pub end: usize,
}

/// The operators with one operand.
#[derive(Clone, Copy, Debug, PartialEq, Eq)]
pub enum UnaryOp {
    Not,
    Negate,
}

/// The operators with two operands, from those that bind least. `?:` has a node of its own.
#[derive(Clone, Copy, Debug, PartialEq, Eq)]
pub enum BinaryOp {
    Or,
    And,
    Less,
    LessEq,
    GreaterEq,
    Greater,
    Equal,
    NotEqual,
    In,
    Add,
    Subtract,
    Multiply,
    Divide,
    Remainder,
}

/// The value of a literal. A text holds its bytes after escapes.
#[derive(Drop)]
pub enum Literal {
    Null,
    Bool(bool),
    Int(i64),
    Text(Text),
}

/// An expression: a node with its span in the source. Brackets around an expression aren't in the
/// span of its tree.
#[derive(Drop)]
#[cycle(tree)]
pub struct Tree {
    pub span: Span,
    pub kind: Kind,
}

/// What a node is. The macros of the CEL language definition (`has`, `all`, `exists` and the like)
/// are calls here, as the grammar has them.
#[derive(Drop)]
#[cycle(tree)]
pub enum Kind {
    Literal(Literal),
    Ident(Text),
    Unary(UnaryOp, Box<Tree>),
    Binary(BinaryOp, Box<Tree>, Box<Tree>),
    /// `test ? then : otherwise`, in this order.
    Conditional(Box<Tree>, Box<Tree>, Box<Tree>),
    /// `object.name`
    Member(Box<Tree>, Text),
    /// `object[index]`
    Index(Box<Tree>, Box<Tree>),
    /// `function(arguments)`
    Call(Text, Vec<Tree>),
    /// `object.function(arguments)`
    Method(Box<Tree>, Text, Vec<Tree>),
    List(Vec<Tree>),
    Map(Vec<Entry>),
}

/// An entry of a map literal.
#[derive(Drop)]
#[cycle(tree)]
pub struct Entry {
    pub key: Tree,
    pub value: Tree,
}
