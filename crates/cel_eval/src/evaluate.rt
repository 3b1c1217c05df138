ghost use Rattle.std.specs.Prelude.{◌≡◌, ◌<◌, ◌+◌, ◌^◌, [], ◌∷◌, length, map};
ghost use Rattle.cel_tree.specs.Ast.{Unary, Member, Call, tree_view, entry_view, asts_of, entries_of};
ghost use Rattle.cel_value.specs.Values.{Gives};
ghost use Rattle.cel_meaning.specs.Folds.{tested, as_single, as_key, holds, folded, gathered, list_value, comprehended};
ghost use Rattle.cel_meaning.specs.Steps.{folded_steps, gathered_steps, comprehended_steps};
ghost use Rattle.cel_meaning.specs.Meaning.{means, form_means, bound_to, each, items_of, entries_of as table_of, has_means, comprehension_means, bind_means};
ghost use Rattle.cel_meaning.specs.Cost.{cost, within, each_steps, items_steps, entries_steps, has_steps, comprehension_steps, bind_steps};
ghost use Rattle.cel_eval.specs.Parts.{connected_means, connected_steps, combined_means, combined_steps, indexed_means, method_means, method_steps, body, turn, bodies, all_turns, needed, maker, maker_steps};
ghost use Rattle.cel_eval.specs.Answers.{bindings, Counts};

use crate::making::Making;
use crate::parts::{called_on, is_one, list_value, map_value, method_on, truth_value};
use crate::scope::{Scope, is_device, named_value};
use crate::steps::{Steps, weighed, weights};
use cel_meaning::{Connective, connective_of};
use cel_tree::{
    BinaryOp, Called, Comprehension, Entry, Kind, Tree, UnaryOp, called_of, is_bind,
    nodes_have_their_lists, variable_of,
};
use cel_value::{
    DeviceEnv, EvalError, Key, Single, Value, binary, constant, device_member, elements, has,
    index, member, truth, unary, weight,
};
use dra_values::{Duplicate, Seq, Table};
use std::alloc::Global;

/// What a tree means, and the steps that it takes.
#[cycle(evaluate)]
pub fn value_of<'x>(
    alloc: Global,
    device: &'x DeviceEnv,
    tree: &'x Tree,
    scope: &'x Scope<'x>,
    steps: &mut Steps,
) -> Result<Value, EvalError>
    requires { steps.old.count + cost device.now (bindings scope.now) (tree_view tree.now) < 2 ^ 64 }
    ensures means { Gives result (means device.now (bindings scope.now) (tree_view tree.now)) }
    ensures counts { Counts result steps.old.count steps.new.count
        (cost device.now (bindings scope.now) (tree_view tree.now)) }
{
    nodes_have_their_lists();
    steps.count += 1;
    match &tree.kind {
        Kind::Literal(literal) => constant(alloc, literal),
        Kind::Ident(name) => named_value(alloc, scope, name.as_str()),
        Kind::Unary(op, operand) => unary_of(alloc, device, *op, operand, scope, steps),
        Kind::Binary(op, left, right) => match connective_of(*op) {
            Some(connective) => {
                let left = truth_of(alloc, device, left, scope, steps);
                connected(alloc, device, connective, left, right, scope, steps)
            }
            None => {
                let left = value_of(alloc, device, left, scope, steps)?;
                let joined = combined(alloc, device, *op, &left, right, scope, steps);
                drop(left);
                joined
            }
        },
        Kind::Conditional(test, then, otherwise) => {
            let holds = truth_of(alloc, device, test, scope, steps)?;
            let branch = if holds { then } else { otherwise };
            value_of(alloc, device, branch, scope, steps)
        }
        Kind::Member(object, name) => member_of(alloc, device, object, name.as_str(), scope, steps),
        Kind::Index(object, place) => {
            let object = value_of(alloc, device, object, scope, steps)?;
            let item = indexed(alloc, device, &object, place, scope, steps);
            drop(object);
            item
        }
        Kind::Call(function, arguments) => {
            call(alloc, device, function.as_str(), arguments, scope, steps)
        }
        Kind::Method(object, function, arguments) => {
            let name = function.as_str();
            if is_bind(object, name) {
                return bind(alloc, device, arguments, scope, steps);
            }
            let object = value_of(alloc, device, object, scope, steps)?;
            let returned = method(alloc, device, &object, name, arguments, scope, steps);
            drop(object);
            returned
        }
        Kind::List(items) => list_value(items_of(alloc, device, items, scope, steps)),
        Kind::Map(entries) => map_value(table_of(alloc, device, entries, scope, steps)),
    }
}

/// `!operand` or `-operand`, beside the node's own step.
#[cycle(evaluate)]
fn unary_of<'x>(
    alloc: Global,
    device: &'x DeviceEnv,
    op: UnaryOp,
    operand: &'x Tree,
    scope: &'x Scope<'x>,
    steps: &mut Steps,
) -> Result<Value, EvalError>
    requires { steps.old.count + cost device.now (bindings scope.now) (tree_view operand.now) < 2 ^ 64 }
    ensures means { Gives result
        (form_means device.now (bindings scope.now) (Unary op (tree_view operand.now))) }
    ensures counts { Counts result steps.old.count steps.new.count
        (cost device.now (bindings scope.now) (tree_view operand.now)) }
{
    let operand = value_of(alloc, device, operand, scope, steps)?;
    let made = unary(op, &operand);
    drop(operand);
    made
}

/// `left && right` or `left || right`, after its left side.
#[cycle(evaluate)]
fn connected<'x>(
    alloc: Global,
    device: &'x DeviceEnv,
    connective: Connective,
    left: Result<bool, EvalError>,
    right: &'x Tree,
    scope: &'x Scope<'x>,
    steps: &mut Steps,
) -> Result<Value, EvalError>
    requires { steps.old.count
        + connected_steps device.now (bindings scope.now) connective left (tree_view right.now) < 2 ^ 64 }
    ensures means { Gives result
        (connected_means device.now (bindings scope.now) connective left (tree_view right.now)) }
    ensures counts { Counts result steps.old.count steps.new.count
        (connected_steps device.now (bindings scope.now) connective left (tree_view right.now)) }
{
    if connective.stops(left) {
        return truth_value(left);
    }
    let right = truth_of(alloc, device, right, scope, steps);
    truth_value(connective.join(left, right))
}

/// Another operation of two operands, after its left one.
#[cycle(evaluate)]
fn combined<'x>(
    alloc: Global,
    device: &'x DeviceEnv,
    op: BinaryOp,
    left: &Value,
    right: &'x Tree,
    scope: &'x Scope<'x>,
    steps: &mut Steps,
) -> Result<Value, EvalError>
    requires { steps.old.count
        + combined_steps device.now (bindings scope.now) op left.now (tree_view right.now) < 2 ^ 64 }
    ensures means { Gives result
        (combined_means device.now (bindings scope.now) op left.now (tree_view right.now)) }
    ensures counts { Counts result steps.old.count steps.new.count
        (combined_steps device.now (bindings scope.now) op left.now (tree_view right.now)) }
{
    let right = value_of(alloc, device, right, scope, steps)?;
    steps.count += weighed(op, left, &right);
    let made = binary(alloc, device, op, left, &right);
    drop(right);
    made
}

/// `object.name`, beside the node's own step.
#[cycle(evaluate)]
fn member_of<'x>(
    alloc: Global,
    device: &'x DeviceEnv,
    object: &'x Tree,
    name: &str,
    scope: &'x Scope<'x>,
    steps: &mut Steps,
) -> Result<Value, EvalError>
    requires { steps.old.count
        + within device.now (bindings scope.now) (Member (tree_view object.now) name.now) < 2 ^ 64 }
    ensures means { Gives result
        (form_means device.now (bindings scope.now) (Member (tree_view object.now) name.now)) }
    ensures counts { Counts result steps.old.count steps.new.count
        (within device.now (bindings scope.now) (Member (tree_view object.now) name.now)) }
{
    if is_device(scope, object) {
        steps.count += 1;
        return device_member(alloc, device, name);
    }
    let object = value_of(alloc, device, object, scope, steps)?;
    let found = member(alloc, device, &object, name);
    drop(object);
    found
}

/// `object[place]`, after its object.
#[cycle(evaluate)]
fn indexed<'x>(
    alloc: Global,
    device: &'x DeviceEnv,
    object: &Value,
    place: &'x Tree,
    scope: &'x Scope<'x>,
    steps: &mut Steps,
) -> Result<Value, EvalError>
    requires { steps.old.count + cost device.now (bindings scope.now) (tree_view place.now) < 2 ^ 64 }
    ensures means { Gives result
        (indexed_means device.now (bindings scope.now) object.now (tree_view place.now)) }
    ensures counts { Counts result steps.old.count steps.new.count
        (cost device.now (bindings scope.now) (tree_view place.now)) }
{
    let place = value_of(alloc, device, place, scope, steps)?;
    let item = index(alloc, device, object, &place);
    drop(place);
    item
}

/// What a test, or a side of `&&` or `||`, means.
#[cycle(evaluate)]
fn truth_of<'x>(
    alloc: Global,
    device: &'x DeviceEnv,
    tree: &'x Tree,
    scope: &'x Scope<'x>,
    steps: &mut Steps,
) -> Result<bool, EvalError>
    requires { steps.old.count + cost device.now (bindings scope.now) (tree_view tree.now) < 2 ^ 64 }
    ensures means { Gives result (tested (means device.now (bindings scope.now) (tree_view tree.now))) }
    ensures counts { Counts result steps.old.count steps.new.count
        (cost device.now (bindings scope.now) (tree_view tree.now)) }
{
    match value_of(alloc, device, tree, scope, steps) {
        Ok(value) => {
            let holds = truth(&value);
            drop(value);
            holds
        }
        Err(error) => Err(error),
    }
}

/// A value that a list or a map may hold.
#[cycle(evaluate)]
fn single_of<'x>(
    alloc: Global,
    device: &'x DeviceEnv,
    tree: &'x Tree,
    scope: &'x Scope<'x>,
    steps: &mut Steps,
) -> Result<Single, EvalError>
    requires { steps.old.count + cost device.now (bindings scope.now) (tree_view tree.now) < 2 ^ 64 }
    ensures means { Gives result (as_single (means device.now (bindings scope.now) (tree_view tree.now))) }
    ensures counts { Counts result steps.old.count steps.new.count
        (cost device.now (bindings scope.now) (tree_view tree.now)) }
{
    match value_of(alloc, device, tree, scope, steps) {
        Ok(value) => value.into_single(),
        Err(error) => Err(error),
    }
}

/// The key of a map's entry.
#[cycle(evaluate)]
fn key_of<'x>(
    alloc: Global,
    device: &'x DeviceEnv,
    tree: &'x Tree,
    scope: &'x Scope<'x>,
    steps: &mut Steps,
) -> Result<Key, EvalError>
    requires { steps.old.count + cost device.now (bindings scope.now) (tree_view tree.now) < 2 ^ 64 }
    ensures means { Gives result (as_key (means device.now (bindings scope.now) (tree_view tree.now))) }
    ensures counts { Counts result steps.old.count steps.new.count
        (cost device.now (bindings scope.now) (tree_view tree.now)) }
{
    match value_of(alloc, device, tree, scope, steps) {
        Ok(value) => value.into_key(),
        Err(error) => Err(error),
    }
}

/// `function(arguments)`, beside the call's own step.
#[cycle(evaluate)]
fn call<'x>(
    alloc: Global,
    device: &'x DeviceEnv,
    function: &'x str,
    arguments: &'x [Tree],
    scope: &'x Scope<'x>,
    steps: &mut Steps,
) -> Result<Value, EvalError>
    requires { steps.old.count + within device.now (bindings scope.now)
        (Call function.now (asts_of (map tree_view arguments.now))) < 2 ^ 64 }
    ensures means { Gives result (form_means device.now (bindings scope.now)
        (Call function.now (asts_of (map tree_view arguments.now)))) }
    ensures counts { Counts result steps.old.count steps.new.count (within device.now (bindings scope.now)
        (Call function.now (asts_of (map tree_view arguments.now)))) }
{
    let called = called_of(function);
    match called {
        Some(Called::Has) => has_member(alloc, device, arguments, scope, steps),
        _ => {
            let given = values_of(alloc, device, arguments, scope, steps)?;
            steps.count += weights(given.as_slice());
            called_on(alloc, device, called, given.as_slice())
        }
    }
}

/// `has(object.name)`
#[cycle(evaluate)]
fn has_member<'x>(
    alloc: Global,
    device: &'x DeviceEnv,
    arguments: &'x [Tree],
    scope: &'x Scope<'x>,
    steps: &mut Steps,
) -> Result<Value, EvalError>
    requires { steps.old.count
        + has_steps device.now (bindings scope.now) (asts_of (map tree_view arguments.now)) < 2 ^ 64 }
    ensures means { Gives result (has_means device.now (bindings scope.now) (asts_of (map tree_view arguments.now))) }
    ensures counts { Counts result steps.old.count steps.new.count
        (has_steps device.now (bindings scope.now) (asts_of (map tree_view arguments.now))) }
{
    if arguments.len() != 1 {
        return Err(EvalError::NoOverload);
    }
    match &arguments[0].kind {
        Kind::Member(object, name) => {
            if is_device(scope, object) {
                return Err(EvalError::NoOverload);
            }
            let object = value_of(alloc, device, object, scope, steps)?;
            let found = has(alloc, device, &object, name.as_str());
            drop(object);
            found
        }
        _ => Err(EvalError::NoOverload),
    }
}

/// `object.function(arguments)`, where it isn't `cel.bind`, after its object.
#[cycle(evaluate)]
fn method<'x>(
    alloc: Global,
    device: &'x DeviceEnv,
    object: &Value,
    function: &'x str,
    arguments: &'x [Tree],
    scope: &'x Scope<'x>,
    steps: &mut Steps,
) -> Result<Value, EvalError>
    requires { steps.old.count + method_steps device.now (bindings scope.now) object.now function.now
        (asts_of (map tree_view arguments.now)) < 2 ^ 64 }
    ensures means { Gives result (method_means device.now (bindings scope.now) object.now function.now
        (asts_of (map tree_view arguments.now))) }
    ensures counts { Counts result steps.old.count steps.new.count (method_steps device.now (bindings scope.now)
        object.now function.now (asts_of (map tree_view arguments.now))) }
{
    let called = called_of(function);
    match called {
        Some(Called::Comprehension(form)) => {
            let elements = elements(alloc, device, object)?;
            comprehension(
                alloc,
                device,
                form,
                elements.as_slice(),
                arguments,
                scope,
                steps,
            )
        }
        _ => {
            let given = values_of(alloc, device, arguments, scope, steps)?;
            steps.count += weight(object).saturating_add(weights(given.as_slice()));
            method_on(alloc, device, called, object, given.as_slice())
        }
    }
}

/// `range.all(x, body)` and the like, over the elements of the range.
#[cycle(evaluate)]
fn comprehension<'x>(
    alloc: Global,
    device: &'x DeviceEnv,
    form: Comprehension,
    elements: &[Single],
    arguments: &'x [Tree],
    scope: &'x Scope<'x>,
    steps: &mut Steps,
) -> Result<Value, EvalError>
    requires { steps.old.count + comprehension_steps device.now (bindings scope.now) form elements.now
        (asts_of (map tree_view arguments.now)) < 2 ^ 64 }
    ensures means { Gives result (comprehension_means device.now (bindings scope.now) form elements.now
        (asts_of (map tree_view arguments.now))) }
    ensures counts { Counts result steps.old.count steps.new.count (comprehension_steps device.now
        (bindings scope.now) form elements.now (asts_of (map tree_view arguments.now))) }
{
    if arguments.len() == 0 {
        return Err(EvalError::NoOverload);
    }
    let Some(name) = variable_of(&arguments[0]) else {
        return Err(EvalError::NoOverload);
    };
    if arguments.len() == 2 {
        return with_one(alloc, device, form, elements, name, arguments, scope, steps);
    }
    if arguments.len() == 3 {
        return with_two(alloc, device, form, elements, name, arguments, scope, steps);
    }
    Err(EvalError::NoOverload)
}

/// A comprehension with one body.
#[cycle(evaluate)]
fn with_one<'x>(
    alloc: Global,
    device: &'x DeviceEnv,
    form: Comprehension,
    elements: &[Single],
    name: &'x str,
    arguments: &'x [Tree],
    scope: &'x Scope<'x>,
    steps: &mut Steps,
) -> Result<Value, EvalError>
    requires one { length arguments.now ≡ 2 }
    requires room { steps.old.count + comprehended_steps form
        (all_turns device.now (bindings scope.now) name.now arguments.now) elements.now < 2 ^ 64 }
    ensures means { Gives result (comprehended form
        (bodies device.now (bindings scope.now) name.now arguments.now) elements.now) }
    ensures counts { Counts result steps.old.count steps.new.count (comprehended_steps form
        (all_turns device.now (bindings scope.now) name.now arguments.now) elements.now) }
{
    match form {
        Comprehension::All => {
            let test = &arguments[1];
            let connective = Connective::And;
            truth_value(fold(
                alloc, device, connective, elements, name, test, scope, steps,
            ))
        }
        Comprehension::Exists => {
            let test = &arguments[1];
            let connective = Connective::Or;
            truth_value(fold(
                alloc, device, connective, elements, name, test, scope, steps,
            ))
        }
        Comprehension::ExistsOne => {
            let making = Making::Filter;
            is_one(gather(
                alloc, device, making, elements, name, arguments, scope, steps,
            ))
        }
        Comprehension::Filter => {
            let making = Making::Filter;
            list(
                alloc, device, making, elements, name, arguments, scope, steps,
            )
        }
        Comprehension::Map => {
            let making = Making::Map;
            list(
                alloc, device, making, elements, name, arguments, scope, steps,
            )
        }
    }
}

/// A comprehension with two bodies: `range.map(x, test, body)`.
#[cycle(evaluate)]
fn with_two<'x>(
    alloc: Global,
    device: &'x DeviceEnv,
    form: Comprehension,
    elements: &[Single],
    name: &'x str,
    arguments: &'x [Tree],
    scope: &'x Scope<'x>,
    steps: &mut Steps,
) -> Result<Value, EvalError>
    requires two { length arguments.now ≡ 3 }
    requires room { steps.old.count + comprehended_steps form
        (all_turns device.now (bindings scope.now) name.now arguments.now) elements.now < 2 ^ 64 }
    ensures means { Gives result (comprehended form
        (bodies device.now (bindings scope.now) name.now arguments.now) elements.now) }
    ensures counts { Counts result steps.old.count steps.new.count (comprehended_steps form
        (all_turns device.now (bindings scope.now) name.now arguments.now) elements.now) }
{
    match form {
        Comprehension::Map => {
            let making = Making::TestAndMap;
            list(
                alloc, device, making, elements, name, arguments, scope, steps,
            )
        }
        _ => Err(EvalError::NoOverload),
    }
}

/// The list of what `filter` or `map` makes of the elements.
#[cycle(evaluate)]
fn list<'x>(
    alloc: Global,
    device: &'x DeviceEnv,
    making: Making,
    elements: &[Single],
    name: &'x str,
    arguments: &'x [Tree],
    scope: &'x Scope<'x>,
    steps: &mut Steps,
) -> Result<Value, EvalError>
    requires bodies { needed making < length arguments.now }
    requires room { steps.old.count + gathered_steps
        (maker making (bodies device.now (bindings scope.now) name.now arguments.now))
        (maker_steps making (all_turns device.now (bindings scope.now) name.now arguments.now)) elements.now < 2 ^ 64 }
    ensures means { Gives result (list_value
        (maker making (bodies device.now (bindings scope.now) name.now arguments.now)) elements.now) }
    ensures counts { Counts result steps.old.count steps.new.count (gathered_steps
        (maker making (bodies device.now (bindings scope.now) name.now arguments.now))
        (maker_steps making (all_turns device.now (bindings scope.now) name.now arguments.now)) elements.now) }
{
    list_value(gather(
        alloc, device, making, elements, name, arguments, scope, steps,
    ))
}

/// What becomes of the elements by `filter` or `map`, as far as they are kept.
#[cycle(evaluate)]
fn gather<'x>(
    alloc: Global,
    device: &'x DeviceEnv,
    making: Making,
    elements: &[Single],
    name: &'x str,
    arguments: &'x [Tree],
    scope: &'x Scope<'x>,
    steps: &mut Steps,
) -> Result<Seq<Single>, EvalError>
    requires bodies { needed making < length arguments.now }
    requires room { steps.old.count + gathered_steps
        (maker making (bodies device.now (bindings scope.now) name.now arguments.now))
        (maker_steps making (all_turns device.now (bindings scope.now) name.now arguments.now)) elements.now < 2 ^ 64 }
    ensures means { Gives result (gathered
        (maker making (bodies device.now (bindings scope.now) name.now arguments.now)) elements.now) }
    ensures counts { Counts result steps.old.count steps.new.count (gathered_steps
        (maker making (bodies device.now (bindings scope.now) name.now arguments.now))
        (maker_steps making (all_turns device.now (bindings scope.now) name.now arguments.now)) elements.now) }
{
    let mut gathered = Seq::empty(alloc);
    for element in elements {
        steps.count += 2;
        if let Some(made) = make(
            alloc, device, making, element, name, arguments, scope, steps,
        )? {
            gathered.push(made)?;
        }
    }
    Ok(gathered)
}

/// What becomes of an element, if it is kept.
#[cycle(evaluate)]
fn make<'x>(
    alloc: Global,
    device: &'x DeviceEnv,
    making: Making,
    element: &Single,
    name: &'x str,
    arguments: &'x [Tree],
    scope: &'x Scope<'x>,
    steps: &mut Steps,
) -> Result<Option<Single>, EvalError>
    requires bodies { needed making < length arguments.now }
    requires room { steps.old.count
        + maker_steps making (all_turns device.now (bindings scope.now) name.now arguments.now) element.now < 2 ^ 64 }
    ensures means { Gives result
        (maker making (bodies device.now (bindings scope.now) name.now arguments.now) element.now) }
    ensures counts { Counts result steps.old.count steps.new.count
        (maker_steps making (all_turns device.now (bindings scope.now) name.now arguments.now) element.now) }
{
    match making {
        Making::Filter => {
            if truth_at(alloc, device, element, name, &arguments[1], scope, steps)? {
                Ok(Some(element.duplicate(alloc)?))
            } else {
                Ok(None)
            }
        }
        Making::Map => {
            let value = value_at(alloc, device, element, name, &arguments[1], scope, steps)?;
            Ok(Some(value.into_single()?))
        }
        Making::TestAndMap => {
            if truth_at(alloc, device, element, name, &arguments[1], scope, steps)? {
                let value = value_at(alloc, device, element, name, &arguments[2], scope, steps)?;
                Ok(Some(value.into_single()?))
            } else {
                Ok(None)
            }
        }
    }
}

/// `all` and `exists`, up to the first element that decides alone.
#[cycle(evaluate)]
fn fold<'x>(
    alloc: Global,
    device: &'x DeviceEnv,
    connective: Connective,
    elements: &[Single],
    name: &'x str,
    test: &'x Tree,
    scope: &'x Scope<'x>,
    steps: &mut Steps,
) -> Result<bool, EvalError>
    requires { steps.old.count + folded_steps connective
        (turn device.now (bindings scope.now) name.now (tree_view test.now)) elements.now < 2 ^ 64 }
    ensures means { Gives result (folded connective
        (holds (body device.now (bindings scope.now) name.now (tree_view test.now))) elements.now) }
    ensures counts { Counts result steps.old.count steps.new.count (folded_steps connective
        (turn device.now (bindings scope.now) name.now (tree_view test.now)) elements.now) }
{
    let mut found = Ok(connective.start());
    for element in elements {
        steps.count += 2;
        let side = truth_at(alloc, device, element, name, test, scope, steps);
        if connective.stops(side) {
            return side;
        }
        found = connective.join(found, side);
    }
    found
}

/// What the body of a comprehension means at an element.
#[cycle(evaluate)]
fn value_at<'x>(
    alloc: Global,
    device: &'x DeviceEnv,
    element: &Single,
    name: &'x str,
    body: &'x Tree,
    scope: &'x Scope<'x>,
    steps: &mut Steps,
) -> Result<Value, EvalError>
    requires { steps.old.count
        + cost device.now (bound_to name.now element.now (bindings scope.now)) (tree_view body.now) < 2 ^ 64 }
    ensures means { Gives result
        (means device.now (bound_to name.now element.now (bindings scope.now)) (tree_view body.now)) }
    ensures counts { Counts result steps.old.count steps.new.count
        (cost device.now (bound_to name.now element.now (bindings scope.now)) (tree_view body.now)) }
{
    let value = Value::Single(element.duplicate(alloc)?);
    let made = under(alloc, device, name, &value, body, scope, steps);
    drop(value);
    made
}

/// What a body means with one more name.
#[cycle(evaluate)]
fn under<'x>(
    alloc: Global,
    device: &'x DeviceEnv,
    name: &'x str,
    value: &Value,
    body: &'x Tree,
    scope: &'x Scope<'x>,
    steps: &mut Steps,
) -> Result<Value, EvalError>
    requires { steps.old.count
        + cost device.now ((name.now, value.now) ∷ bindings scope.now) (tree_view body.now) < 2 ^ 64 }
    ensures means { Gives result
        (means device.now ((name.now, value.now) ∷ bindings scope.now) (tree_view body.now)) }
    ensures counts { Counts result steps.old.count steps.new.count
        (cost device.now ((name.now, value.now) ∷ bindings scope.now) (tree_view body.now)) }
{
    let inner = Scope::Bound(&*name, &*value, &*scope);
    value_of(alloc, &*device, &*body, &inner, steps)
}

/// What a test of a comprehension means at an element.
#[cycle(evaluate)]
fn truth_at<'x>(
    alloc: Global,
    device: &'x DeviceEnv,
    element: &Single,
    name: &'x str,
    test: &'x Tree,
    scope: &'x Scope<'x>,
    steps: &mut Steps,
) -> Result<bool, EvalError>
    requires { steps.old.count
        + cost device.now (bound_to name.now element.now (bindings scope.now)) (tree_view test.now) < 2 ^ 64 }
    ensures means { Gives result
        (tested (means device.now (bound_to name.now element.now (bindings scope.now)) (tree_view test.now))) }
    ensures counts { Counts result steps.old.count steps.new.count
        (cost device.now (bound_to name.now element.now (bindings scope.now)) (tree_view test.now)) }
{
    match value_at(alloc, device, element, name, test, scope, steps) {
        Ok(value) => {
            let holds = truth(&value);
            drop(value);
            holds
        }
        Err(error) => Err(error),
    }
}

/// `cel.bind(x, value, body)`
#[cycle(evaluate)]
fn bind<'x>(
    alloc: Global,
    device: &'x DeviceEnv,
    arguments: &'x [Tree],
    scope: &'x Scope<'x>,
    steps: &mut Steps,
) -> Result<Value, EvalError>
    requires { steps.old.count
        + bind_steps device.now (bindings scope.now) (asts_of (map tree_view arguments.now)) < 2 ^ 64 }
    ensures means { Gives result (bind_means device.now (bindings scope.now) (asts_of (map tree_view arguments.now))) }
    ensures counts { Counts result steps.old.count steps.new.count
        (bind_steps device.now (bindings scope.now) (asts_of (map tree_view arguments.now))) }
{
    if arguments.len() != 3 {
        return Err(EvalError::NoOverload);
    }
    let Some(name) = variable_of(&arguments[0]) else {
        return Err(EvalError::NoOverload);
    };
    let value = value_of(alloc, device, &arguments[1], scope, steps)?;
    let made = under(alloc, device, name, &value, &arguments[2], scope, steps);
    drop(value);
    made
}

/// The values of arguments, one after another.
#[cycle(evaluate)]
fn values_of<'x>(
    alloc: Global,
    device: &'x DeviceEnv,
    trees: &'x [Tree],
    scope: &'x Scope<'x>,
    steps: &mut Steps,
) -> Result<Seq<Value>, EvalError>
    requires { steps.old.count
        + each_steps device.now (bindings scope.now) (asts_of (map tree_view trees.now)) < 2 ^ 64 }
    ensures means { Gives result (each device.now (bindings scope.now) (asts_of (map tree_view trees.now))) }
    ensures counts { Counts result steps.old.count steps.new.count
        (each_steps device.now (bindings scope.now) (asts_of (map tree_view trees.now))) }
{
    let mut values = Seq::empty(alloc);
    for at in 0..trees.len() {
        let value = value_of(alloc, device, &trees[at], scope, steps)?;
        values.push(value)?;
    }
    Ok(values)
}

/// The items of a list literal.
#[cycle(evaluate)]
fn items_of<'x>(
    alloc: Global,
    device: &'x DeviceEnv,
    trees: &'x [Tree],
    scope: &'x Scope<'x>,
    steps: &mut Steps,
) -> Result<Seq<Single>, EvalError>
    requires { steps.old.count
        + items_steps device.now (bindings scope.now) (asts_of (map tree_view trees.now)) < 2 ^ 64 }
    ensures means { Gives result (items_of device.now (bindings scope.now) (asts_of (map tree_view trees.now))) }
    ensures counts { Counts result steps.old.count steps.new.count
        (items_steps device.now (bindings scope.now) (asts_of (map tree_view trees.now))) }
{
    let mut items = Seq::empty(alloc);
    for at in 0..trees.len() {
        let item = single_of(alloc, device, &trees[at], scope, steps)?;
        items.push(item)?;
    }
    Ok(items)
}

/// The entries of a map literal.
#[cycle(evaluate)]
fn table_of<'x>(
    alloc: Global,
    device: &'x DeviceEnv,
    entries: &'x [Entry],
    scope: &'x Scope<'x>,
    steps: &mut Steps,
) -> Result<Table<Key, Single>, EvalError>
    requires { steps.old.count
        + entries_steps device.now (bindings scope.now) (entries_of (map entry_view entries.now)) < 2 ^ 64 }
    ensures means { Gives result
        (table_of device.now (bindings scope.now) [] (entries_of (map entry_view entries.now))) }
    ensures counts { Counts result steps.old.count steps.new.count
        (entries_steps device.now (bindings scope.now) (entries_of (map entry_view entries.now))) }
{
    let mut table = Table::new(alloc);
    for at in 0..entries.len() {
        let entry = &entries[at];
        let key = key_of(alloc, device, &entry.key, scope, steps)?;
        let value = single_of(alloc, device, &entry.value, scope, steps)?;
        table.insert(key, value)?;
    }
    Ok(table)
}
