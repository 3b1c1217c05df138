ghost use Rattle.std.specs.Prelude.{◌≡◌, ◌++◌, [], ◌∷◌, ◌<◌, IfOk};
ghost use Rattle.cel_tree.specs.Ast.{Ident, Literal', kind_view, constant_view};
ghost use Rattle.cel_parse.specs.Parts.{joined, leaf_part, unary_part, binary_part, conditional_part, member_part, index_part, call_part, method_part, list_part, map_part, added_item, added_pair};

use crate::shown::{Pairs, Shown, Trees};
use cel_tree::{BinaryOp, Kind, Literal, Span, Tree, UnaryOp};
use dra_values::Text;
use std::alloc::{AllocError, Global};

/// The greatest depth of a tree.
pub const MOST_DEEP: u32 = 64;

/// A tree that was read with its depth, unless that is over the limit.
#[derive(Drop)]
pub enum Part {
    Shallow(Shown, u32),
    Deep,
}

/// Items that were read with the greatest of their depths, unless that is over the limit.
#[derive(Drop)]
pub enum Parts {
    Shallow(Trees, u32),
    Deep,
}

/// The same of the entries of a map literal.
#[derive(Drop)]
pub enum Entries {
    Shallow(Pairs, u32),
    Deep,
}

/// From the start of the first to the end of the last.
pub fn joined(first: Span, last: Span) -> Span
    ensures { result ≡ joined first last }
{
    Span {
        start: first.start,
        end: last.end,
    }
}

/// A literal or a name.
pub fn leaf(span: Span, kind: Kind) -> Part
    ensures { result ≡ leaf_part 64 span (kind_view kind) }
{
    Part::Shallow(Shown::new(Tree::new(span, kind)), 1)
}

pub fn unary(alloc: Global, op: UnaryOp, span: Span, operand: Part) -> Result<Part, AllocError>
    ensures { IfOk result (λ p. p ≡ unary_part 64 op span operand) }
{
    match operand {
        Part::Shallow(operand, depth) => {
            if depth >= MOST_DEEP {
                return Ok(Part::Deep);
            }
            let span = joined(span, operand.span());
            let tree = Tree::unary(alloc, span, op, operand.into_tree())?;
            Ok(Part::Shallow(Shown::new(tree), depth + 1))
        }
        Part::Deep => Ok(Part::Deep),
    }
}

pub fn binary(alloc: Global, op: BinaryOp, left: Part, right: Part) -> Result<Part, AllocError>
    ensures { IfOk result (λ p. p ≡ binary_part 64 op left right) }
{
    let Part::Shallow(left, a) = left else {
        return Ok(Part::Deep);
    };
    let Part::Shallow(right, b) = right else {
        return Ok(Part::Deep);
    };
    let depth = a.max(b);
    if depth >= MOST_DEEP {
        return Ok(Part::Deep);
    }
    let span = joined(left.span(), right.span());
    let tree = Tree::binary(alloc, span, op, left.into_tree(), right.into_tree())?;
    Ok(Part::Shallow(Shown::new(tree), depth + 1))
}

/// `test ? then : otherwise`
pub fn conditional(
    alloc: Global,
    test: Part,
    then: Part,
    otherwise: Part,
) -> Result<Part, AllocError>
    ensures { IfOk result (λ p. p ≡ conditional_part 64 test then otherwise) }
{
    let Part::Shallow(test, a) = test else {
        return Ok(Part::Deep);
    };
    let Part::Shallow(then, b) = then else {
        return Ok(Part::Deep);
    };
    let Part::Shallow(otherwise, c) = otherwise else {
        return Ok(Part::Deep);
    };
    let depth = a.max(b.max(c));
    if depth >= MOST_DEEP {
        return Ok(Part::Deep);
    }
    let span = joined(test.span(), otherwise.span());
    let test = test.into_tree();
    let then = then.into_tree();
    let tree = Tree::conditional(alloc, span, test, then, otherwise.into_tree())?;
    Ok(Part::Shallow(Shown::new(tree), depth + 1))
}

/// `object.name`, where the name is at the span.
pub fn member(alloc: Global, object: Part, span: Span, name: Text) -> Result<Part, AllocError>
    ensures { IfOk result (λ p. p ≡ member_part 64 object span name) }
{
    match object {
        Part::Shallow(object, depth) => {
            if depth >= MOST_DEEP {
                return Ok(Part::Deep);
            }
            let span = joined(object.span(), span);
            let tree = Tree::member(alloc, span, object.into_tree(), name)?;
            Ok(Part::Shallow(Shown::new(tree), depth + 1))
        }
        Part::Deep => Ok(Part::Deep),
    }
}

/// `object[index]`, where the bracket that closes it is at the span.
pub fn index(alloc: Global, object: Part, index: Part, span: Span) -> Result<Part, AllocError>
    ensures { IfOk result (λ p. p ≡ index_part 64 object index span) }
{
    let Part::Shallow(object, a) = object else {
        return Ok(Part::Deep);
    };
    let Part::Shallow(index, b) = index else {
        return Ok(Part::Deep);
    };
    let depth = a.max(b);
    if depth >= MOST_DEEP {
        return Ok(Part::Deep);
    }
    let span = joined(object.span(), span);
    let tree = Tree::index(alloc, span, object.into_tree(), index.into_tree())?;
    Ok(Part::Shallow(Shown::new(tree), depth + 1))
}

/// `function(arguments)`
pub fn call(span: Span, function: Text, arguments: Parts) -> Part
    ensures { result ≡ call_part 64 span function arguments }
{
    match arguments {
        Parts::Shallow(arguments, depth) => {
            if depth >= MOST_DEEP {
                return Part::Deep;
            }
            let tree = Tree::call(span, function, arguments.into_vec());
            Part::Shallow(Shown::new(tree), depth + 1)
        }
        Parts::Deep => Part::Deep,
    }
}

/// `object.function(arguments)`, where the bracket that closes it is at the span.
pub fn method(
    alloc: Global,
    object: Part,
    function: Text,
    arguments: Parts,
    span: Span,
) -> Result<Part, AllocError>
    ensures { IfOk result (λ p. p ≡ method_part 64 object function arguments span) }
{
    let Part::Shallow(object, a) = object else {
        return Ok(Part::Deep);
    };
    let Parts::Shallow(arguments, b) = arguments else {
        return Ok(Part::Deep);
    };
    let depth = a.max(b);
    if depth >= MOST_DEEP {
        return Ok(Part::Deep);
    }
    let span = joined(object.span(), span);
    let object = object.into_tree();
    let tree = Tree::method(alloc, span, object, function, arguments.into_vec())?;
    Ok(Part::Shallow(Shown::new(tree), depth + 1))
}

pub fn list(span: Span, items: Parts) -> Part
    ensures { result ≡ list_part 64 span items }
{
    match items {
        Parts::Shallow(items, depth) => {
            if depth >= MOST_DEEP {
                return Part::Deep;
            }
            let tree = Tree::list(span, items.into_vec());
            Part::Shallow(Shown::new(tree), depth + 1)
        }
        Parts::Deep => Part::Deep,
    }
}

pub fn map(span: Span, entries: Entries) -> Part
    ensures { result ≡ map_part 64 span entries }
{
    match entries {
        Entries::Shallow(entries, depth) => {
            if depth >= MOST_DEEP {
                return Part::Deep;
            }
            let tree = Tree::map(span, entries.into_vec());
            Part::Shallow(Shown::new(tree), depth + 1)
        }
        Entries::Deep => Part::Deep,
    }
}

impl Parts {
    pub fn new(alloc: Global) -> Parts
        ensures { result ≡ Parts.Shallow [] 0 }
    {
        Parts::Shallow(Trees::new(alloc), 0)
    }

    /// With the item at the end.
    pub fn with(self, item: Part) -> Result<Parts, AllocError>
        ensures { IfOk result (λ p. p ≡ added_item self item) }
    {
        let Parts::Shallow(items, a) = self else {
            return Ok(Parts::Deep);
        };
        let Part::Shallow(item, b) = item else {
            return Ok(Parts::Deep);
        };
        let mut items = items;
        items.push(item)?;
        Ok(Parts::Shallow(items, a.max(b)))
    }
}

impl Entries {
    pub fn new(alloc: Global) -> Entries
        ensures { result ≡ Entries.Shallow [] 0 }
    {
        Entries::Shallow(Pairs::new(alloc), 0)
    }

    /// With the entry at the end.
    pub fn with(self, key: Part, value: Part) -> Result<Entries, AllocError>
        ensures { IfOk result (λ p. p ≡ added_pair self key value) }
    {
        let Entries::Shallow(entries, a) = self else {
            return Ok(Entries::Deep);
        };
        let Part::Shallow(key, b) = key else {
            return Ok(Entries::Deep);
        };
        let Part::Shallow(value, c) = value else {
            return Ok(Entries::Deep);
        };
        let mut entries = entries;
        entries.push(key, value)?;
        Ok(Entries::Shallow(entries, a.max(b.max(c))))
    }
}
