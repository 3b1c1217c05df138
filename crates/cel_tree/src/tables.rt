ghost use Rattle.std.specs.Prelude.{◌≡◌};
ghost use Rattle.cel_tree.specs.Types.{both_accept, when, unary_type, logic_type, order_type, arithmetic_type, equality_type, element_type, in_type, sum_type, add_type, binary_type, branch_type, conditional_type, entry_type, member_type, index_type};

use crate::{BinaryOp, CelType, Facet, Scalar, UnaryOp};

/// Whether an overload with two operands of the scalar type accepts these.
pub fn both_accept(wanted: Scalar, left: CelType, right: CelType) -> bool
    ensures { result ≡ both_accept wanted left right }
{
    wanted.accepts(left) && wanted.accepts(right)
}

/// The result, if the overload accepts the operands.
pub fn when(fits: bool, result_type: CelType) -> Option<CelType>
    ensures { result ≡ when fits result_type }
{
    if fits { Some(result_type) } else { None }
}

/// The type of `!operand` or `-operand`. None if there is no such overload.
pub fn unary_type(op: UnaryOp, operand: CelType) -> Option<CelType>
    ensures { result ≡ unary_type op operand }
{
    match op {
        UnaryOp::Not => when(Scalar::Bool.accepts(operand), CelType::BOOL),
        UnaryOp::Negate => when(Scalar::Int.accepts(operand), CelType::INT),
    }
}

/// The type of an operation with two operands. None if there is no such overload.
pub fn binary_type(op: BinaryOp, left: CelType, right: CelType) -> Option<CelType>
    ensures { result ≡ binary_type op left right }
{
    match op {
        BinaryOp::Or | BinaryOp::And => logic_type(left, right),
        BinaryOp::Less | BinaryOp::LessEq | BinaryOp::GreaterEq | BinaryOp::Greater => {
            order_type(left, right)
        }
        BinaryOp::Equal | BinaryOp::NotEqual => equality_type(left, right),
        BinaryOp::In => in_type(left, right),
        BinaryOp::Add => add_type(left, right),
        BinaryOp::Subtract | BinaryOp::Multiply | BinaryOp::Divide | BinaryOp::Remainder => {
            arithmetic_type(left, right)
        }
    }
}

fn logic_type(left: CelType, right: CelType) -> Option<CelType>
    ensures { result ≡ logic_type left right }
{
    when(both_accept(Scalar::Bool, left, right), CelType::BOOL)
}

fn order_type(left: CelType, right: CelType) -> Option<CelType>
    ensures { result ≡ order_type left right }
{
    let fits = both_accept(Scalar::Int, left, right)
        || both_accept(Scalar::Text, left, right)
        || both_accept(Scalar::Bool, left, right);
    when(fits, CelType::BOOL)
}

fn arithmetic_type(left: CelType, right: CelType) -> Option<CelType>
    ensures { result ≡ arithmetic_type left right }
{
    when(both_accept(Scalar::Int, left, right), CelType::INT)
}

fn equality_type(left: CelType, right: CelType) -> Option<CelType>
    ensures { result ≡ equality_type left right }
{
    match (left, right) {
        (CelType::Scalar(s), CelType::Scalar(t)) => when(s.is_comparable(t), CelType::BOOL),
        (CelType::List(s), CelType::List(t)) => when(s.is(t), CelType::BOOL),
        (CelType::Map(k, v), CelType::Map(l, w)) => {
            when(k.scalar().is(l.scalar()) && v.is(w), CelType::BOOL)
        }
        _ => None,
    }
}

fn in_type(element: CelType, range: CelType) -> Option<CelType>
    ensures { result ≡ in_type element range }
{
    match range {
        CelType::Scalar(_) => None,
        CelType::List(item) => match element {
            CelType::Scalar(element) => when(element.is_comparable(item), CelType::BOOL),
            _ => None,
        },
        CelType::Map(key, _) => when(key.scalar().accepts(element), CelType::BOOL),
        CelType::Domains(_) | CelType::Entries(_) => {
            when(Scalar::Text.accepts(element), CelType::BOOL)
        }
    }
}

fn sum_type(left: Scalar, right: Scalar) -> Option<CelType>
    ensures { result ≡ sum_type left right }
{
    if left.is_dyn() && right.is_dyn() {
        Some(CelType::DYN)
    } else if Scalar::Int.takes(left) && Scalar::Int.takes(right) {
        Some(CelType::INT)
    } else {
        let fits = Scalar::Text.takes(left) && Scalar::Text.takes(right);
        when(fits, CelType::TEXT)
    }
}

fn add_type(left: CelType, right: CelType) -> Option<CelType>
    ensures { result ≡ add_type left right }
{
    match (left, right) {
        (CelType::Scalar(s), CelType::Scalar(t)) => sum_type(s, t),
        (CelType::List(s), CelType::List(t)) => when(s.is(t), left),
        _ => None,
    }
}

/// The type of `test ? then : otherwise`: the type of both branches, or dyn if one of them is dyn
/// and the other another scalar. None if there is no such overload.
pub fn conditional_type(test: CelType, then: CelType, otherwise: CelType) -> Option<CelType>
    ensures { result ≡ conditional_type test then otherwise }
{
    if Scalar::Bool.accepts(test) {
        branch_type(then, otherwise)
    } else {
        None
    }
}

fn branch_type(left: CelType, right: CelType) -> Option<CelType>
    ensures { result ≡ branch_type left right }
{
    match (left, right) {
        (CelType::Scalar(s), CelType::Scalar(t)) => {
            if s.is(t) {
                Some(left)
            } else {
                when(s.is_dyn() || t.is_dyn(), CelType::DYN)
            }
        }
        (CelType::List(s), CelType::List(t)) => when(s.is(t), left),
        (CelType::Map(k, v), CelType::Map(l, w)) => {
            when(k.scalar().is(l.scalar()) && v.is(w), left)
        }
        (CelType::Domains(f), CelType::Domains(g)) => when(f.is(g), left),
        (CelType::Entries(f), CelType::Entries(g)) => when(f.is(g), left),
        _ => None,
    }
}

fn entry_type(facet: Facet) -> CelType
    ensures { result ≡ entry_type facet }
{
    match facet {
        Facet::Attributes => CelType::DYN,
        Facet::Capacities => CelType::QUANTITY,
    }
}

/// The type of `object.name` where the object isn't `device`: what the device has in a domain, an
/// attribute or a capacity by its id, or the value at a key of a map whose keys are texts. None
/// for another object.
pub fn member_type(object: CelType) -> Option<CelType>
    ensures { result ≡ member_type object }
{
    match object {
        CelType::Map(key, value) => when(key.scalar().is(Scalar::Text), CelType::Scalar(value)),
        CelType::Domains(facet) => Some(CelType::Entries(facet)),
        CelType::Entries(facet) => Some(entry_type(facet)),
        _ => None,
    }
}

/// The type of `object[index]`. None if there is no such overload.
pub fn index_type(object: CelType, index: CelType) -> Option<CelType>
    ensures { result ≡ index_type object index }
{
    match object {
        CelType::Scalar(_) => None,
        CelType::List(item) => when(Scalar::Int.accepts(index), CelType::Scalar(item)),
        CelType::Map(key, value) => when(key.scalar().accepts(index), CelType::Scalar(value)),
        CelType::Domains(facet) => when(Scalar::Text.accepts(index), CelType::Entries(facet)),
        CelType::Entries(facet) => when(Scalar::Text.accepts(index), entry_type(facet)),
    }
}

/// The type of a comprehension's variable over a range of the type: an item of a list, a key of a
/// map, a domain, or an id. None if there is nothing to go over.
pub fn element_type(range: CelType) -> Option<Scalar>
    ensures { result ≡ element_type range }
{
    match range {
        CelType::Scalar(_) => None,
        CelType::List(item) => Some(item),
        CelType::Map(key, _) => Some(key.scalar()),
        CelType::Domains(_) | CelType::Entries(_) => Some(Scalar::Text),
    }
}
