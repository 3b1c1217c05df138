ghost use Rattle.std.specs.Prelude.{◌≡◌, drop, map, unwrap_or, option_and_then};
ghost use Rattle.cel_tree.specs.Ast.{Call, Member, tree_view, entry_view, asts_of, entries_of};
ghost use Rattle.cel_tree.specs.Typing.{keys_type, key_type, literal_of};
ghost use Rattle.cel_tree.specs.declared.types.KeyType.TheVariants as key_kind;
ghost use Rattle.cel_tree.specs.Estimate.{Bounds as Estimated, Names, bounds_of, form_bounds, bind_of, Estimate, variable_in};
ghost use Rattle.cel_cost.specs.Capped.{capped, capped_names, seen, names, parts_of, method_of, listed, keys, values};

use crate::bounds::{
    Bounds, binary_bounds, conditional_bounds, device_bounds, element_bounds, index_bounds,
    literal_bounds, member_bounds, name_bounds, unary_bounds,
};
use crate::parts::{
    Parts, bind_bounds, call_bounds, comprehension_bounds, list_bounds, map_bounds, method_bounds,
};
use cel_tree::{
    Called, Checked, Entry, KeyType, Kind, Literal, Scope, Span, Tree, called_of, is_bind,
    nodes_have_their_lists,
};

/// The most steps that the evaluation of the tree takes, or the greatest number of 64 bits where they
/// are more. Allocates nothing.
pub fn estimate(tree: &Checked) -> u64
    ensures { result ≡ Estimate tree.now.tree }
{
    bounds_of(tree.tree(), &Scope::Top).steps
}

/// The variable of a macro: the name that its first argument is.
fn variable_in<'x>(arguments: &'x Vec<Tree>) -> &'x str
    ensures { result.now ≡ variable_in (asts_of (map tree_view arguments.now.items)) }
{
    match arguments.first() {
        Some(first) => match &first.kind {
            Kind::Ident(name) => name.as_str(),
            _ => "",
        },
        None => "",
    }
}

/// The type of a map literal's keys, by the first of them.
fn keys_type(entries: &Vec<Entry>) -> KeyType
    ensures { result ≡ keys_type (entries_of (map entry_view entries.now.items)) }
{
    match entries.first() {
        Some(entry) => key_type(&entry.key),
        None => KeyType::Text,
    }
}

fn key_type(key: &Tree) -> KeyType
    ensures { result ≡ unwrap_or (option_and_then key_type (literal_of (tree_view key.now))) key_kind.Text }
{
    match &key.kind {
        Kind::Literal(Literal::Int(_)) => KeyType::Int,
        Kind::Literal(Literal::Bool(_)) => KeyType::Bool,
        _ => KeyType::Text,
    }
}

/// The bounds of a tree under the names in scope.
#[cycle(bounds)]
#[tactic(auto, using(crate::proofs::Scopes::scopes))]
pub fn bounds_of<'x>(tree: &'x Tree, scope: &'x Scope<'x, Bounds>) -> Bounds
    ensures { (env : Names) → names scope.now ≡ capped_names env
        → seen result ≡ capped (bounds_of env (tree_view tree.now)) }
{
    nodes_have_their_lists();
    let span = tree.span;
    match &tree.kind {
        Kind::Literal(literal) => literal_bounds(literal),
        Kind::Ident(name) => name_bounds(scope.find(name.as_str())),
        Kind::Unary(op, operand) => unary_bounds(span, *op, bounds_of(operand, scope)),
        Kind::Binary(op, left, right) => {
            binary_bounds(span, *op, bounds_of(left, scope), bounds_of(right, scope))
        }
        Kind::Conditional(test, then, otherwise) => conditional_bounds(
            span,
            bounds_of(test, scope),
            bounds_of(then, scope),
            bounds_of(otherwise, scope),
        ),
        Kind::Member(object, name) => member(span, object, name.as_str(), scope),
        Kind::Index(object, index) => {
            index_bounds(span, bounds_of(object, scope), bounds_of(index, scope))
        }
        Kind::Call(function, arguments) => call(span, function.as_str(), arguments, scope),
        Kind::Method(object, function, arguments) => {
            if is_bind(object, function.as_str()) {
                return bind_of(arguments, scope);
            }
            let object = bounds_of(object, scope);
            method(span, function.as_str(), object, arguments, scope)
        }
        Kind::List(items) => list_bounds(parts_of(items, 0, scope)),
        Kind::Map(entries) => map_bounds(
            keys_type(entries),
            keys_of(entries, scope),
            values_of(entries, scope),
        ),
    }
}

/// `object.name`
#[cycle(bounds)]
fn member<'x>(span: Span, object: &'x Tree, name: &'x str, scope: &'x Scope<'x, Bounds>) -> Bounds
    ensures { (env : Names) → names scope.now ≡ capped_names env
        → seen result ≡ capped (form_bounds env span (Member (tree_view object.now) name.now)) }
{
    if scope.is_device(object) {
        device_bounds(span, name)
    } else {
        member_bounds(span, bounds_of(object, scope))
    }
}

/// `function(arguments)`
#[cycle(bounds)]
fn call<'x>(
    span: Span,
    function: &'x str,
    arguments: &'x Vec<Tree>,
    scope: &'x Scope<'x, Bounds>,
) -> Bounds
    ensures { (env : Names) → names scope.now ≡ capped_names env
        → seen result ≡ capped (form_bounds env span
        (Call function.now (asts_of (map tree_view arguments.now.items)))) }
{
    let called = called_of(function);
    call_bounds(span, called, parts_of(arguments, 0, scope))
}

/// `object.function(arguments)`, where it isn't `cel.bind`, after its object.
#[cycle(bounds)]
#[tactic(auto, using(crate::proofs::Scopes::scopes))]
fn method<'x>(
    span: Span,
    function: &'x str,
    object: Bounds,
    arguments: &'x Vec<Tree>,
    scope: &'x Scope<'x, Bounds>,
) -> Bounds
    ensures { (env : Names) → (x : Estimated) → names scope.now ≡ capped_names env → seen object ≡ capped x
        → seen result ≡ capped
        (method_of env span function.now x (asts_of (map tree_view arguments.now.items))) }
{
    match called_of(function) {
        Some(Called::Comprehension(comprehension)) => {
            let variable = element_bounds(object);
            let inner = Scope::Bound(variable_in(arguments), variable, scope);
            let bodies = parts_of(arguments, 1, &inner);
            comprehension_bounds(span, comprehension, object, bodies)
        }
        called => method_bounds(span, called, object, parts_of(arguments, 0, scope)),
    }
}

/// `cel.bind(x, value, body)`
#[cycle(bounds)]
fn bind_of<'x>(arguments: &'x Vec<Tree>, scope: &'x Scope<'x, Bounds>) -> Bounds
    ensures { (env : Names) → names scope.now ≡ capped_names env
        → let ts = asts_of (map tree_view arguments.now.items) in
        seen result ≡ capped (bind_of env (variable_in ts) ts) }
{
    if arguments.len() < 3 {
        return Bounds::nothing();
    }
    let value = bounds_of(&arguments[1], scope);
    let inner = Scope::Bound(variable_in(arguments), value, scope);
    bind_bounds(value, bounds_of(&arguments[2], &inner))
}

/// The parts of the trees after the first few.
#[cycle(bounds)]
fn parts_of<'x>(trees: &'x Vec<Tree>, first: usize, scope: &'x Scope<'x, Bounds>) -> Parts
    ensures { (env : Names) → names scope.now ≡ capped_names env
        → result ≡ parts_of (listed env (drop first trees.now.items)) }
{
    let mut parts = Parts::none();
    let mut i = trees.len();
    while i > first {
        i -= 1;
        parts = parts.behind(bounds_of(&trees[i], scope));
    }
    parts
}

/// The parts of the keys of a map literal.
#[cycle(bounds)]
fn keys_of<'x>(entries: &'x Vec<Entry>, scope: &'x Scope<'x, Bounds>) -> Parts
    ensures { (env : Names) → names scope.now ≡ capped_names env
        → result ≡ parts_of (keys env entries.now.items) }
{
    let mut parts = Parts::none();
    let mut i = entries.len();
    while i > 0 {
        i -= 1;
        parts = parts.behind(bounds_of(&entries[i].key, scope));
    }
    parts
}

/// The parts of the values of a map literal.
#[cycle(bounds)]
fn values_of<'x>(entries: &'x Vec<Entry>, scope: &'x Scope<'x, Bounds>) -> Parts
    ensures { (env : Names) → names scope.now ≡ capped_names env
        → result ≡ parts_of (values env entries.now.items) }
{
    let mut parts = Parts::none();
    let mut i = entries.len();
    while i > 0 {
        i -= 1;
        parts = parts.behind(bounds_of(&entries[i].value, scope));
    }
    parts
}
