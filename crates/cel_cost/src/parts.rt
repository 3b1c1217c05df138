ghost use Rattle.std.specs.Prelude.{◌≡◌, ℕ, ◌+◌, ◌*◌, List, [], ◌∷◌, unwrap_or};
ghost use Rattle.cel_tree.specs.Typing.{with_first, is_has};
ghost use Rattle.cel_tree.specs.Estimate.{Bounds as Estimated, scalar_in, gathered_weight, comprehension_bounds, bind_bounds, list_bounds, map_bounds, call_bounds, method_bounds};
ghost use Rattle.cel_cost.specs.Capped.{cap, capped, seen, parts_of};

use crate::bounds::{Bounds, element_of, typed};
use cel_tree::{
    Arguments, Called, CelType, Comprehension, KeyType, Scalar, Span, called_type,
    comprehension_type, joined, method_called_type,
};

/// What is kept of expressions one after another: their types as arguments and as elements, how many
/// they are, their weights and steps in all, and the weight of the last.
#[derive(Clone, Copy)]
pub struct Parts {
    pub arguments: Arguments,
    pub elements: Option<Scalar>,
    pub number: u64,
    pub weight: u64,
    pub steps: u64,
    pub last: Option<u64>,
}

impl Parts {
    #[tactic(auto, unfolding(crate::specs::Capped::parts_of))]
    pub fn none() -> Parts
        ensures { result ≡ parts_of [] }
    {
        Parts {
            arguments: Arguments::None,
            elements: None,
            number: 0,
            weight: 0,
            steps: 0,
            last: None,
        }
    }

    /// The parts with one more before the others.
    pub fn behind(self, first: Bounds) -> Parts
        ensures { (x : Estimated) → (xs : List Estimated) → self ≡ parts_of xs → seen first ≡ capped x
            → result ≡ parts_of (x ∷ xs) }
    {
        Parts {
            arguments: with_first(first.kind, self.arguments),
            elements: Some(joined(scalar_in(first.kind), self.elements)),
            number: self.number.saturating_add(1),
            weight: first.weight.saturating_add(self.weight),
            steps: first.steps.saturating_add(self.steps),
            last: Some(or(self.last, first.weight)),
        }
    }
}

fn or(last: Option<u64>, other: u64) -> u64
    ensures { result ≡ unwrap_or last other }
{
    match last {
        Some(last) => last,
        None => other,
    }
}

fn with_first(first: CelType, rest: Arguments) -> Arguments
    ensures { result ≡ with_first first rest }
{
    match rest {
        Arguments::None => Arguments::One(first),
        Arguments::One(second) => Arguments::Two(first, second),
        Arguments::Two(..) | Arguments::Many => Arguments::Many,
    }
}

fn scalar_in(kind: CelType) -> Scalar
    ensures { result ≡ scalar_in kind }
{
    match kind {
        CelType::Scalar(scalar) => scalar,
        _ => Scalar::Dyn,
    }
}

fn scalar_or(scalar: Option<Scalar>, other: Scalar) -> Scalar
    ensures { result ≡ unwrap_or scalar other }
{
    match scalar {
        Some(scalar) => scalar,
        None => other,
    }
}

/// A list takes one step and its elements', and weighs one and what they weigh.
pub fn list_bounds(items: Parts) -> Bounds
    ensures { (xs : List Estimated) → items ≡ parts_of xs → seen result ≡ capped (list_bounds xs) }
{
    let kind = CelType::List(scalar_or(items.elements, Scalar::Dyn));
    let weight = items.weight.saturating_add(1);
    let steps = items.steps.saturating_add(1);
    Bounds::new(kind, weight, items.number, steps)
}

/// A map takes one step and those of its keys and values, and weighs one and what these weigh.
pub fn map_bounds(key: KeyType, keys: Parts, values: Parts) -> Bounds
    ensures { (ks vs : List Estimated) → keys ≡ parts_of ks → values ≡ parts_of vs
        → seen result ≡ capped (map_bounds key ks vs) }
{
    let kind = CelType::Map(key, scalar_or(values.elements, Scalar::Dyn));
    let weight = keys.weight.saturating_add(values.weight).saturating_add(1);
    let steps = keys.steps.saturating_add(values.steps).saturating_add(1);
    Bounds::new(kind, weight, keys.number, steps)
}

/// A call takes one step, those of its operands, and their weights. `has(object.name)` takes one step
/// and the object's, as `object.name` does.
pub fn call_bounds(span: Span, called: Option<Called>, arguments: Parts) -> Bounds
    ensures { (xs : List Estimated) → arguments ≡ parts_of xs
        → seen result ≡ capped (call_bounds span called xs) }
{
    if is_has(called) {
        return Bounds::new(CelType::BOOL, 1, 0, arguments.steps);
    }
    let kind = typed(called_type(span, called, arguments.arguments));
    let steps = arguments
        .steps
        .saturating_add(arguments.weight)
        .saturating_add(1);
    Bounds::new(kind, 1, 0, steps)
}

fn is_has(called: Option<Called>) -> bool
    ensures { result ≡ is_has called }
{
    matches!(called, Some(Called::Has))
}

/// The same of a method, whose object is an operand.
pub fn method_bounds(span: Span, called: Option<Called>, object: Bounds, arguments: Parts) -> Bounds
    ensures { (x : Estimated) → (xs : List Estimated) → seen object ≡ capped x → arguments ≡ parts_of xs
        → seen result ≡ capped (method_bounds span called x xs) }
{
    let kind = typed(method_called_type(span, called, object.kind, arguments.arguments));
    let operands = object.steps.saturating_add(arguments.steps);
    let weights = object.weight.saturating_add(arguments.weight);
    let steps = operands.saturating_add(weights).saturating_add(1);
    Bounds::new(kind, 1, 0, steps)
}

/// A comprehension takes one step, the range's, and for each element two and its bodies'.
pub fn comprehension_bounds(
    span: Span,
    comprehension: Comprehension,
    range: Bounds,
    bodies: Parts,
) -> Bounds
    ensures { (x : Estimated) → (xs : List Estimated) → seen range ≡ capped x → bodies ≡ parts_of xs
        → seen result ≡ capped (comprehension_bounds span comprehension x xs) }
{
    let element = element_of(range.kind);
    let kind = typed(comprehension_type(span, comprehension, element, bodies.arguments));
    let weight = gathered_weight(comprehension, range, bodies);
    let turn = bodies.steps.saturating_add(2);
    let turns = range.number.saturating_mul(turn);
    let steps = range.steps.saturating_add(turns).saturating_add(1);
    Bounds::new(kind, weight, range.number, steps)
}

/// The weight of the value of a comprehension: of `filter` at most the range, of `map` one and for each
/// element its last body.
fn gathered_weight(comprehension: Comprehension, range: Bounds, bodies: Parts) -> u64
    ensures { (x : Estimated) → (xs : List Estimated) → seen range ≡ capped x → bodies ≡ parts_of xs
        → result ≡ cap (gathered_weight comprehension x xs) }
{
    match comprehension {
        Comprehension::All | Comprehension::Exists | Comprehension::ExistsOne => 1,
        Comprehension::Filter => range.weight,
        Comprehension::Map => {
            let weights = range.number.saturating_mul(or(bodies.last, 0));
            weights.saturating_add(1)
        }
    }
}

/// `cel.bind(x, value, body)` takes one step, the value's and the body's, and is what the body is.
pub fn bind_bounds(value: Bounds, body: Bounds) -> Bounds
    ensures { (x y : Estimated) → (ys : List Estimated) → seen value ≡ capped x → seen body ≡ capped y
        → seen result ≡ capped (bind_bounds x (y ∷ ys)) }
{
    let steps = value.steps.saturating_add(body.steps).saturating_add(1);
    Bounds {
        kind: body.kind,
        weight: body.weight,
        number: body.number,
        steps,
    }
}
