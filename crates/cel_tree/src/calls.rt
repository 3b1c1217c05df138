ghost use Rattle.std.specs.Prelude.{◌≡◌};
ghost use Rattle.cel_tree.specs.Calls.{text_function, reading_function, order_function, quantity_function, version_function, function_of, comprehension_of, is_left_out, called_of, size_type, call_type, both_ordered, are_summed, method_alone, method_with, method_type};

use crate::tables::{both_accept, element_type, when};
use crate::{CelType, Scalar};

/// The functions: those of the CEL language definition on texts and sizes, and those of the
/// Kubernetes libraries for quantities and versions.
#[derive(Clone, Copy, Debug, PartialEq, Eq)]
pub enum Function {
    Size,
    StartsWith,
    EndsWith,
    Contains,
    Quantity,
    IsQuantity,
    Semver,
    IsSemver,
    CompareTo,
    IsLessThan,
    IsGreaterThan,
    Add,
    Sub,
    Sign,
    IsInteger,
    AsInteger,
    Major,
    Minor,
    Patch,
}

/// The macros of the CEL language definition that go over a range, as `range.all(x, body)`.
#[derive(Clone, Copy, Debug, PartialEq, Eq)]
pub enum Comprehension {
    All,
    Exists,
    ExistsOne,
    Filter,
    Map,
}

/// What the name of a call refers to.
#[derive(Clone, Copy, Debug, PartialEq, Eq)]
pub enum Called {
    /// The macro `has(object.name)`.
    Has,
    Comprehension(Comprehension),
    Function(Function),
    /// A function of the CEL language definition that the profile leaves out.
    LeftOut,
}

/// The types of arguments, one after another. No row of the tables has more than two.
#[derive(Clone, Copy, Debug, PartialEq, Eq)]
pub enum Arguments {
    None,
    One(CelType),
    Two(CelType, CelType),
    Many,
}

/// What a name refers to in a call, as a function's or as a method's. None if there is no such
/// function.
pub fn called_of(name: &str) -> Option<Called>
    ensures { result ≡ called_of name.now }
{
    if name == "has" {
        return Some(Called::Has);
    }
    if let Some(found) = comprehension_of(name) {
        return Some(Called::Comprehension(found));
    }
    if let Some(found) = function_of(name) {
        return Some(Called::Function(found));
    }
    if is_left_out(name) {
        Some(Called::LeftOut)
    } else {
        None
    }
}

fn comprehension_of(name: &str) -> Option<Comprehension>
    ensures { result ≡ comprehension_of name.now }
{
    if name == "all" {
        Some(Comprehension::All)
    } else if name == "exists" {
        Some(Comprehension::Exists)
    } else if name == "exists_one" {
        Some(Comprehension::ExistsOne)
    } else if name == "filter" {
        Some(Comprehension::Filter)
    } else if name == "map" {
        Some(Comprehension::Map)
    } else {
        None
    }
}

fn is_left_out(name: &str) -> bool
    ensures { result ≡ is_left_out name.now }
{
    name == "matches"
        || name == "type"
        || name == "timestamp"
        || name == "duration"
        || name == "double"
        || name == "uint"
        || name == "bytes"
}

fn function_of(name: &str) -> Option<Function>
    ensures { result ≡ function_of name.now }
{
    if let Some(found) = text_function(name) {
        return Some(found);
    }
    if let Some(found) = reading_function(name) {
        return Some(found);
    }
    if let Some(found) = order_function(name) {
        return Some(found);
    }
    if let Some(found) = quantity_function(name) {
        return Some(found);
    }
    version_function(name)
}

/// The functions of texts and of all that has a size.
fn text_function(name: &str) -> Option<Function>
    ensures { result ≡ text_function name.now }
{
    if name == "size" {
        Some(Function::Size)
    } else if name == "startsWith" {
        Some(Function::StartsWith)
    } else if name == "endsWith" {
        Some(Function::EndsWith)
    } else if name == "contains" {
        Some(Function::Contains)
    } else {
        None
    }
}

/// The functions that read a text.
fn reading_function(name: &str) -> Option<Function>
    ensures { result ≡ reading_function name.now }
{
    if name == "quantity" {
        Some(Function::Quantity)
    } else if name == "isQuantity" {
        Some(Function::IsQuantity)
    } else if name == "semver" {
        Some(Function::Semver)
    } else if name == "isSemver" {
        Some(Function::IsSemver)
    } else {
        None
    }
}

/// The functions of quantities and versions that compare.
fn order_function(name: &str) -> Option<Function>
    ensures { result ≡ order_function name.now }
{
    if name == "compareTo" {
        Some(Function::CompareTo)
    } else if name == "isLessThan" {
        Some(Function::IsLessThan)
    } else if name == "isGreaterThan" {
        Some(Function::IsGreaterThan)
    } else {
        None
    }
}

/// The other functions of quantities.
fn quantity_function(name: &str) -> Option<Function>
    ensures { result ≡ quantity_function name.now }
{
    if name == "add" {
        Some(Function::Add)
    } else if name == "sub" {
        Some(Function::Sub)
    } else if name == "sign" {
        Some(Function::Sign)
    } else if name == "isInteger" {
        Some(Function::IsInteger)
    } else if name == "asInteger" {
        Some(Function::AsInteger)
    } else {
        None
    }
}

/// The parts of a version.
fn version_function(name: &str) -> Option<Function>
    ensures { result ≡ version_function name.now }
{
    if name == "major" {
        Some(Function::Major)
    } else if name == "minor" {
        Some(Function::Minor)
    } else if name == "patch" {
        Some(Function::Patch)
    } else {
        None
    }
}

/// The type of `function(arguments)`. None if there is no such overload.
pub fn call_type(function: Function, arguments: Arguments) -> Option<CelType>
    ensures { result ≡ call_type function arguments }
{
    let Arguments::One(argument) = arguments else {
        return None;
    };
    let text = Scalar::Text.accepts(argument);
    match function {
        Function::Size => size_type(argument),
        Function::Quantity => when(text, CelType::QUANTITY),
        Function::IsQuantity | Function::IsSemver => when(text, CelType::BOOL),
        Function::Semver => when(text, CelType::SEMVER),
        _ => None,
    }
}

fn size_type(argument: CelType) -> Option<CelType>
    ensures { result ≡ size_type argument }
{
    let fits = Scalar::Text.accepts(argument) || element_type(argument).is_some();
    when(fits, CelType::INT)
}

/// The type of `object.function(arguments)`. None if there is no such overload.
pub fn method_type(function: Function, object: CelType, arguments: Arguments) -> Option<CelType>
    ensures { result ≡ method_type function object arguments }
{
    match arguments {
        Arguments::None => method_alone(function, object),
        Arguments::One(argument) => method_with(function, object, argument),
        Arguments::Two(..) | Arguments::Many => None,
    }
}

fn method_alone(function: Function, object: CelType) -> Option<CelType>
    ensures { result ≡ method_alone function object }
{
    let amount = Scalar::Quantity.accepts(object);
    match function {
        Function::Size => size_type(object),
        Function::Sign | Function::AsInteger => when(amount, CelType::INT),
        Function::IsInteger => when(amount, CelType::BOOL),
        Function::Major | Function::Minor | Function::Patch => {
            when(Scalar::Semver.accepts(object), CelType::INT)
        }
        _ => None,
    }
}

fn method_with(function: Function, object: CelType, argument: CelType) -> Option<CelType>
    ensures { result ≡ method_with function object argument }
{
    match function {
        Function::StartsWith | Function::EndsWith | Function::Contains => {
            when(both_accept(Scalar::Text, object, argument), CelType::BOOL)
        }
        Function::CompareTo => when(both_ordered(object, argument), CelType::INT),
        Function::IsLessThan | Function::IsGreaterThan => {
            when(both_ordered(object, argument), CelType::BOOL)
        }
        Function::Add | Function::Sub => when(are_summed(object, argument), CelType::QUANTITY),
        _ => None,
    }
}

/// Two quantities or two versions.
fn both_ordered(left: CelType, right: CelType) -> bool
    ensures { result ≡ both_ordered left right }
{
    both_accept(Scalar::Quantity, left, right) || both_accept(Scalar::Semver, left, right)
}

/// A quantity with a quantity or an int.
fn are_summed(object: CelType, argument: CelType) -> bool
    ensures { result ≡ are_summed object argument }
{
    Scalar::Quantity.accepts(object)
        && (Scalar::Quantity.accepts(argument) || Scalar::Int.accepts(argument))
}
