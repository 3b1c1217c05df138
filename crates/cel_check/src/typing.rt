ghost use Rattle.std.specs.Prelude.{◌≡◌, ◌≤◌, length, drop, map};
ghost use Rattle.cel_tree.specs.Ast.{Call, Member, tree_view, entry_view, asts_of, entries_of};
ghost use Rattle.cel_tree.specs.Scopes.{bound};
ghost use Rattle.cel_tree.specs.Typing.{over, type_of, form_type, has_of, comprehension_of, bind_of, types_of};
ghost use Rattle.cel_check.specs.Fronts.{with_last, also};
ghost use Rattle.cel_check.specs.Parts.{method_of, list_of, map_of};

use crate::keys::{is_key, keys_type};
use crate::leaf::{constant_type, device_type, name_type};
use cel_tree::{
    Arguments, Called, CelType, Comprehension, Entry, Fault, Kind, Scalar, Scope, Span, Tree,
    binary_type, called_of, called_type, comprehension_type, conditional_type, element_type,
    index_type, is_bind, item_type, joined, member_type, method_called_type,
    nodes_have_their_lists, row, unary_type, variable_of,
};

/// The type of a tree under the names that are bound, or its first fault.
#[cycle(typing)]
pub fn type_of<'x>(tree: &'x Tree, scope: &'x Scope<'x, CelType>) -> Result<CelType, Fault>
    ensures { result ≡ type_of (bound scope.now) (tree_view tree.now) }
{
    nodes_have_their_lists();
    let span = tree.span;
    match &tree.kind {
        Kind::Literal(literal) => Ok(constant_type(literal)),
        Kind::Ident(name) => name_type(span, name.as_str(), scope),
        Kind::Unary(op, operand) => {
            let operand = type_of(operand, scope)?;
            row(span, unary_type(*op, operand))
        }
        Kind::Binary(op, left, right) => {
            let left = type_of(left, scope)?;
            let right = type_of(right, scope)?;
            row(span, binary_type(*op, left, right))
        }
        Kind::Conditional(test, then, otherwise) => {
            let test = type_of(test, scope)?;
            let then = type_of(then, scope)?;
            let otherwise = type_of(otherwise, scope)?;
            row(span, conditional_type(test, then, otherwise))
        }
        Kind::Member(object, name) => member(span, object, name.as_str(), scope),
        Kind::Index(object, index) => {
            let object = type_of(object, scope)?;
            let index = type_of(index, scope)?;
            row(span, index_type(object, index))
        }
        Kind::Call(function, arguments) => call(span, function.as_str(), arguments, scope),
        Kind::Method(object, function, arguments) => {
            if is_bind(object, function.as_str()) {
                return bind(span, arguments, scope);
            }
            let object = type_of(object, scope)?;
            method(span, function.as_str(), object, arguments, scope)
        }
        Kind::List(items) => list(items, scope),
        Kind::Map(entries) => map(entries, scope),
    }
}

/// `object.name`
#[cycle(typing)]
fn member<'x>(
    span: Span,
    object: &'x Tree,
    name: &'x str,
    scope: &'x Scope<'x, CelType>,
) -> Result<CelType, Fault>
    ensures { result ≡ form_type (bound scope.now) span (Member (tree_view object.now) name.now) }
{
    if scope.is_device(object) {
        return device_type(span, name);
    }
    let object = type_of(object, scope)?;
    row(span, member_type(object))
}

/// `function(arguments)`
#[cycle(typing)]
fn call<'x>(
    span: Span,
    function: &'x str,
    arguments: &'x [Tree],
    scope: &'x Scope<'x, CelType>,
) -> Result<CelType, Fault>
    ensures { result ≡ form_type (bound scope.now) span
        (Call function.now (asts_of (map tree_view arguments.now))) }
{
    let called = called_of(function);
    match called {
        Some(Called::Has) => has(span, arguments, scope),
        _ => {
            let given = types_of(arguments, 0, scope)?;
            called_type(span, called, given)
        }
    }
}

/// `has(object.name)`
#[cycle(typing)]
fn has<'x>(
    span: Span,
    arguments: &'x [Tree],
    scope: &'x Scope<'x, CelType>,
) -> Result<CelType, Fault>
    ensures { result ≡ has_of (bound scope.now) span (asts_of (map tree_view arguments.now)) }
{
    if arguments.len() != 1 {
        return Err(Fault::NoOverload(span));
    }
    match &arguments[0].kind {
        Kind::Member(object, _) => {
            if scope.is_device(object) {
                return Err(Fault::NoOverload(span));
            }
            let object = type_of(object, scope)?;
            match member_type(object) {
                Some(_) => Ok(CelType::BOOL),
                None => Err(Fault::NoOverload(span)),
            }
        }
        _ => Err(Fault::NoOverload(span)),
    }
}

/// `object.function(arguments)`, where it isn't `cel.bind`, after its object.
#[cycle(typing)]
fn method<'x>(
    span: Span,
    function: &'x str,
    object: CelType,
    arguments: &'x [Tree],
    scope: &'x Scope<'x, CelType>,
) -> Result<CelType, Fault>
    ensures { result ≡ method_of (bound scope.now) span function.now object (asts_of (map tree_view arguments.now)) }
{
    let called = called_of(function);
    match called {
        Some(Called::Comprehension(macro_name)) => {
            comprehension(span, macro_name, object, arguments, scope)
        }
        _ => {
            let given = types_of(arguments, 0, scope)?;
            method_called_type(span, called, object, given)
        }
    }
}

/// `range.all(x, ..)` and the like, after the range.
#[cycle(typing)]
fn comprehension<'x>(
    span: Span,
    comprehension: Comprehension,
    range: CelType,
    arguments: &'x [Tree],
    scope: &'x Scope<'x, CelType>,
) -> Result<CelType, Fault>
    ensures { result ≡ over span range
        (λ e. comprehension_of (bound scope.now) span comprehension e (asts_of (map tree_view arguments.now))) }
{
    let Some(element) = element_type(range) else {
        return Err(Fault::NoOverload(span));
    };
    if arguments.len() == 0 {
        return Err(Fault::NoOverload(span));
    }
    let Some(name) = variable_of(&arguments[0]) else {
        return Err(Fault::NoOverload(span));
    };
    let inner = Scope::Bound(name, CelType::Scalar(element), scope);
    let bodies = types_of(arguments, 1, &inner)?;
    comprehension_type(span, comprehension, element, bodies)
}

/// `cel.bind(x, value, body)`
#[cycle(typing)]
fn bind<'x>(
    span: Span,
    arguments: &'x [Tree],
    scope: &'x Scope<'x, CelType>,
) -> Result<CelType, Fault>
    ensures { result ≡ bind_of (bound scope.now) span (asts_of (map tree_view arguments.now)) }
{
    if arguments.len() < 2 {
        return Err(Fault::NoOverload(span));
    }
    let Some(name) = variable_of(&arguments[0]) else {
        return Err(Fault::NoOverload(span));
    };
    let value = type_of(&arguments[1], scope)?;
    let inner = Scope::Bound(name, value, scope);
    match types_of(arguments, 2, &inner)? {
        Arguments::One(body) => Ok(body),
        _ => Err(Fault::NoOverload(span)),
    }
}

/// The types of the trees from an index on.
#[cycle(typing)]
fn types_of<'x>(
    trees: &'x [Tree],
    from: usize,
    scope: &'x Scope<'x, CelType>,
) -> Result<Arguments, Fault>
    requires { from ≤ length trees.now }
    ensures { result ≡ types_of (bound scope.now) (asts_of (map tree_view (drop from trees.now))) }
{
    let mut given = Arguments::None;
    for at in from..trees.len() {
        let kind = type_of(&trees[at], scope)?;
        given = with_last(given, kind);
    }
    Ok(given)
}

/// A list literal.
#[cycle(typing)]
fn list<'x>(items: &'x [Tree], scope: &'x Scope<'x, CelType>) -> Result<CelType, Fault>
    ensures { result ≡ list_of (bound scope.now) (asts_of (map tree_view items.now)) }
{
    let mut found = None;
    for at in 0..items.len() {
        let item = &items[at];
        let kind = type_of(item, scope)?;
        let scalar = item_type(item.span, kind)?;
        found = Some(also(found, scalar));
    }
    Ok(CelType::List(found.unwrap_or(Scalar::Dyn)))
}

/// A map literal.
#[cycle(typing)]
fn map<'x>(entries: &'x [Entry], scope: &'x Scope<'x, CelType>) -> Result<CelType, Fault>
    ensures { result ≡ map_of (bound scope.now) (entries_of (map entry_view entries.now)) }
{
    let mut found = None;
    for at in 0..entries.len() {
        let entry = &entries[at];
        if !is_key(entries, at, &entry.key) {
            return Err(Fault::NoOverload(entry.key.span));
        }
        let value = &entry.value;
        let kind = type_of(value, scope)?;
        let scalar = item_type(value.span, kind)?;
        found = Some(also(found, scalar));
    }
    Ok(CelType::Map(keys_type(entries), found.unwrap_or(Scalar::Dyn)))
}

/// One more type after the others.
fn with_last(given: Arguments, kind: CelType) -> Arguments
    ensures { result ≡ with_last given kind }
{
    match given {
        Arguments::None => Arguments::One(kind),
        Arguments::One(first) => Arguments::Two(first, kind),
        Arguments::Two(..) | Arguments::Many => Arguments::Many,
    }
}

/// The type of the items so far and of one more.
fn also(found: Option<Scalar>, scalar: Scalar) -> Scalar
    ensures { result ≡ also found scalar }
{
    match found {
        Some(found) => joined(found, Some(scalar)),
        None => scalar,
    }
}
