ghost use Rattle.std.specs.Prelude.{◌≡◌, IfOk, map};
ghost use Rattle.cel_tree.specs.Ast.{Node, Unary, Binary, Conditional, Member, Index, Call, Method, ListOf, MapOf, tree_view, kind_view, asts_of, entries_of, entry_view};

use crate::{BinaryOp, Entry, Kind, Span, Tree, UnaryOp};
use dra_values::Text;
use std::alloc::{AllocError, Global};

/// The calls that make a node of the trees below it. Each fails only when out of memory, and those
/// that return a `Tree` allocate nothing.
impl Tree {
    pub fn new(span: Span, kind: Kind) -> Tree
        ensures { tree_view result ≡ Node span (kind_view kind) }
    {
        Tree { span, kind }
    }

    pub fn unary(alloc: Global, span: Span, op: UnaryOp, operand: Tree) -> Result<Tree, AllocError>
        ensures { IfOk result (λ t. tree_view t ≡ Node span (Unary op (tree_view operand))) }
    {
        Ok(Tree::new(span, Kind::Unary(op, Box::new(alloc, operand)?)))
    }

    pub fn binary(
        alloc: Global,
        span: Span,
        op: BinaryOp,
        left: Tree,
        right: Tree,
    ) -> Result<Tree, AllocError>
        ensures { IfOk result
            (λ t. tree_view t ≡ Node span (Binary op (tree_view left) (tree_view right))) }
    {
        let left = Box::new(alloc, left)?;
        Ok(Tree::new(span, Kind::Binary(op, left, Box::new(alloc, right)?)))
    }

    /// `test ? then : otherwise`
    pub fn conditional(
        alloc: Global,
        span: Span,
        test: Tree,
        then: Tree,
        otherwise: Tree,
    ) -> Result<Tree, AllocError>
        ensures { IfOk result (λ t. tree_view t
            ≡ Node span (Conditional (tree_view test) (tree_view then) (tree_view otherwise))) }
    {
        let test = Box::new(alloc, test)?;
        let then = Box::new(alloc, then)?;
        let otherwise = Box::new(alloc, otherwise)?;
        Ok(Tree::new(span, Kind::Conditional(test, then, otherwise)))
    }

    /// `object.name`
    pub fn member(alloc: Global, span: Span, object: Tree, name: Text) -> Result<Tree, AllocError>
        ensures { IfOk result (λ t. tree_view t ≡ Node span (Member (tree_view object) name)) }
    {
        Ok(Tree::new(span, Kind::Member(Box::new(alloc, object)?, name)))
    }

    /// `object[index]`
    pub fn index(alloc: Global, span: Span, object: Tree, index: Tree) -> Result<Tree, AllocError>
        ensures { IfOk result
            (λ t. tree_view t ≡ Node span (Index (tree_view object) (tree_view index))) }
    {
        let object = Box::new(alloc, object)?;
        Ok(Tree::new(span, Kind::Index(object, Box::new(alloc, index)?)))
    }

    /// `function(arguments)`
    #[tactic(auto, using(crate::proofs::Rows::rows))]
    pub fn call(span: Span, function: Text, arguments: Vec<Tree>) -> Tree
        ensures { tree_view result ≡ Node span (Call function (asts_of (map tree_view arguments.items))) }
    {
        Tree::new(span, Kind::Call(function, arguments))
    }

    /// `object.function(arguments)`
    #[tactic(auto, using(crate::proofs::Rows::rows))]
    pub fn method(
        alloc: Global,
        span: Span,
        object: Tree,
        function: Text,
        arguments: Vec<Tree>,
    ) -> Result<Tree, AllocError>
        ensures { IfOk result (λ t. tree_view t
            ≡ Node span (Method (tree_view object) function (asts_of (map tree_view arguments.items)))) }
    {
        let object = Box::new(alloc, object)?;
        Ok(Tree::new(span, Kind::Method(object, function, arguments)))
    }

    #[tactic(auto, using(crate::proofs::Rows::rows))]
    pub fn list(span: Span, items: Vec<Tree>) -> Tree
        ensures { tree_view result ≡ Node span (ListOf (asts_of (map tree_view items.items))) }
    {
        Tree::new(span, Kind::List(items))
    }

    #[tactic(auto, using(crate::proofs::Rows::rows))]
    pub fn map(span: Span, entries: Vec<Entry>) -> Tree
        ensures { tree_view result ≡ Node span (MapOf (entries_of (map entry_view entries.items))) }
    {
        Tree::new(span, Kind::Map(entries))
    }
}
