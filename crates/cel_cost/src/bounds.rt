ghost use Rattle.std.specs.Prelude.{◌≡◌, ℕ, ◌+◌, Option, option_map};
ghost use Rattle.cel_tree.specs.Ast.{constant_view};
ghost use Rattle.cel_tree.specs.Typing.{device_type, constant_type};
ghost use Rattle.cel_tree.specs.Estimate.{Bounds as Estimated, bounds, typed, weight_by, number_by, nothing, constant_weight, constant_bounds, name_bounds, unary_bounds, weighing, binary_bounds, conditional_bounds, part_weight, member_bounds, index_bounds, device_bounds, element_of, element_weight, element_bounds};
ghost use Rattle.cel_cost.specs.Capped.{cap, capped, seen};

use cel_tree::{
    BinaryOp, CelType, Facet, Fault, Literal, Scalar, Span, UnaryOp, binary_type, conditional_type,
    element_type, index_type, member_type, row, unary_type,
};

/// What the value of an expression is at most, and the most steps that lead to it. Numbers stop at
/// the greatest of 64 bits.
#[derive(Clone, Copy)]
pub struct Bounds {
    pub kind: CelType,
    pub weight: u64,
    pub number: u64,
    pub steps: u64,
}

impl Bounds {
    /// The bounds of a value of the type, whose weight and number are those given where the type
    /// alone doesn't decide them.
    pub fn new(kind: CelType, weight: u64, number: u64, steps: u64) -> Bounds
        ensures { seen result ≡ bounds kind weight number steps }
    {
        Bounds {
            kind,
            weight: weight_by(kind, weight),
            number: number_by(kind, number),
            steps,
        }
    }

    /// The bounds used where there is no expression.
    #[tactic(auto, unfolding(cel_tree::specs::Estimate::nothing, crate::specs::Capped::capped))]
    pub fn nothing() -> Bounds
        ensures { seen result ≡ capped nothing }
    {
        Bounds::new(CelType::DYN, 1, 0, 1)
    }
}

fn weight_by(kind: CelType, weight: u64) -> u64
    ensures { result ≡ weight_by kind weight }
{
    match kind {
        CelType::Scalar(Scalar::Text | Scalar::Dyn) => weight,
        CelType::Scalar(_) => 1,
        CelType::List(_) | CelType::Map(..) => weight,
        CelType::Domains(_) | CelType::Entries(_) => 2049,
    }
}

fn number_by(kind: CelType, number: u64) -> u64
    ensures { result ≡ number_by kind number }
{
    match kind {
        CelType::Scalar(_) | CelType::List(_) | CelType::Map(..) => number,
        CelType::Domains(_) | CelType::Entries(_) => 32,
    }
}

/// What has no type counts as dyn.
pub fn typed(given: Result<CelType, Fault>) -> CelType
    ensures { result ≡ typed given }
{
    match given {
        Ok(kind) => kind,
        Err(_) => CelType::DYN,
    }
}

/// A literal takes one step.
pub fn literal_bounds(literal: &Literal) -> Bounds
    ensures { seen result ≡ capped (constant_bounds (constant_view literal.now)) }
{
    Bounds::new(literal_type(literal), literal_weight(literal), 0, 1)
}

fn literal_type(literal: &Literal) -> CelType
    ensures { result ≡ constant_type (constant_view literal.now) }
{
    match literal {
        Literal::Null => CelType::NULL,
        Literal::Bool(_) => CelType::BOOL,
        Literal::Int(_) => CelType::INT,
        Literal::Text(_) => CelType::TEXT,
    }
}

/// A text weighs one and its bytes.
fn literal_weight(literal: &Literal) -> u64
    ensures { result ≡ cap (constant_weight (constant_view literal.now)) }
{
    match literal {
        Literal::Text(text) => (text.as_str().len() as u64).saturating_add(1),
        _ => 1,
    }
}

/// A name takes one step, and is what its value is.
pub fn name_bounds(value: Option<Bounds>) -> Bounds
    ensures { (x : Option Estimated) → option_map seen value ≡ option_map capped x → seen result ≡ capped (name_bounds x) }
{
    match value {
        Some(value) => Bounds {
            kind: value.kind,
            weight: value.weight,
            number: value.number,
            steps: 1,
        },
        None => Bounds::new(CelType::DYN, 1, 0, 1),
    }
}

/// `!` and unary `-` take one step and their operand's.
pub fn unary_bounds(span: Span, op: UnaryOp, operand: Bounds) -> Bounds
    ensures { (x : Estimated) → seen operand ≡ capped x → seen result ≡ capped (unary_bounds span op x) }
{
    let kind = typed(row(span, unary_type(op, operand.kind)));
    Bounds::new(kind, 1, 0, operand.steps.saturating_add(1))
}

/// An operation takes one step, those of both operands, and the operands' weights where it may look
/// at all of them.
pub fn binary_bounds(span: Span, op: BinaryOp, left: Bounds, right: Bounds) -> Bounds
    ensures { (x y : Estimated) → seen left ≡ capped x → seen right ≡ capped y
        → seen result ≡ capped (binary_bounds span op x y) }
{
    let kind = typed(row(span, binary_type(op, left.kind, right.kind)));
    let weight = left.weight.saturating_add(right.weight);
    let number = left.number.saturating_add(right.number);
    let steps = left.steps.saturating_add(right.steps).saturating_add(1);
    let all = steps.saturating_add(weighing(op, weight));
    Bounds::new(kind, weight, number, all)
}

/// The steps of an operation for the weights of its operands.
fn weighing(op: BinaryOp, weights: u64) -> u64
    ensures { result ≡ weighing op weights }
{
    match op {
        BinaryOp::Or
        | BinaryOp::And
        | BinaryOp::Subtract
        | BinaryOp::Multiply
        | BinaryOp::Divide
        | BinaryOp::Remainder => 0,
        _ => weights,
    }
}

/// `test ? then : otherwise` takes one step, the test's, and the dearer branch's.
pub fn conditional_bounds(span: Span, test: Bounds, then: Bounds, otherwise: Bounds) -> Bounds
    ensures { (t x y : Estimated) → seen test ≡ capped t → seen then ≡ capped x → seen otherwise ≡ capped y
        → seen result ≡ capped (conditional_bounds span t x y) }
{
    let kind = typed(row(span, conditional_type(test.kind, then.kind, otherwise.kind)));
    let weight = then.weight.max(otherwise.weight);
    let number = then.number.max(otherwise.number);
    let branch = then.steps.max(otherwise.steps);
    let steps = test.steps.saturating_add(branch).saturating_add(1);
    Bounds::new(kind, weight, number, steps)
}

fn part_weight(kind: CelType, weight: u64) -> u64
    ensures { result ≡ part_weight kind weight }
{
    match kind {
        CelType::Entries(Facet::Attributes) => 257,
        _ => weight,
    }
}

/// `object.name` takes one step and the object's.
pub fn member_bounds(span: Span, object: Bounds) -> Bounds
    ensures { (x : Estimated) → seen object ≡ capped x → seen result ≡ capped (member_bounds span x) }
{
    let kind = typed(row(span, member_type(object.kind)));
    let weight = part_weight(object.kind, object.weight);
    Bounds::new(kind, weight, 0, object.steps.saturating_add(1))
}

/// `object[index]` takes one step and those of both.
pub fn index_bounds(span: Span, object: Bounds, index: Bounds) -> Bounds
    ensures { (x y : Estimated) → seen object ≡ capped x → seen index ≡ capped y
        → seen result ≡ capped (index_bounds span x y) }
{
    let kind = typed(row(span, index_type(object.kind, index.kind)));
    let weight = part_weight(object.kind, object.weight);
    let steps = object.steps.saturating_add(index.steps).saturating_add(1);
    Bounds::new(kind, weight, 0, steps)
}

/// A member of `device`: one step, and one for `device`. `device.driver` weighs at most 64.
pub fn device_bounds(span: Span, name: &str) -> Bounds
    ensures { seen result ≡ capped (device_bounds span name.now) }
{
    Bounds::new(typed(device_type(span, name)), 64, 0, 2)
}

/// The types of the members of `device`.
fn device_type(span: Span, name: &str) -> Result<CelType, Fault>
    ensures { result ≡ device_type span name.now }
{
    if name == "driver" {
        Ok(CelType::TEXT)
    } else if name == "attributes" {
        Ok(CelType::Domains(Facet::Attributes))
    } else if name == "capacity" {
        Ok(CelType::Domains(Facet::Capacities))
    } else {
        Err(Fault::NoSuchName(span))
    }
}

/// The type of a range's elements.
pub fn element_of(range: CelType) -> Scalar
    ensures { result ≡ element_of range }
{
    match element_type(range) {
        Some(element) => element,
        None => Scalar::Dyn,
    }
}

fn element_weight(range: CelType, weight: u64) -> u64
    ensures { result ≡ element_weight range weight }
{
    match range {
        CelType::Domains(_) | CelType::Entries(_) => 64,
        _ => weight,
    }
}

/// The value of a comprehension's variable.
pub fn element_bounds(range: Bounds) -> Bounds
    ensures { (x : Estimated) → seen range ≡ capped x → seen result ≡ capped (element_bounds x) }
{
    let kind = CelType::Scalar(element_of(range.kind));
    Bounds::new(kind, element_weight(range.kind, range.weight), 0, 1)
}
