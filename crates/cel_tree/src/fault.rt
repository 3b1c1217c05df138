ghost use Rattle.std.specs.Prelude.{◌≡◌};
ghost use Rattle.cel_tree.specs.Faults.{item_type, row, list_of, mapped_type, comprehension_type, called_type, method_called_type, joined};

use crate::calls::{call_type, method_type};
use crate::{Arguments, Called, CelType, Comprehension, Scalar, Span};

/// Why a tree has no type, with the span of the node that is at fault.
#[derive(Clone, Copy, Debug, PartialEq, Eq)]
pub enum Fault {
    /// A function that the profile leaves out, or a list or map that would be inside another.
    NotSupported(Span),
    /// A variable, a function or a member of `device` that there isn't.
    NoSuchName(Span),
    /// A form or call that has no row for its operands' types.
    NoOverload(Span),
}

/// The type that a table returns, or the fault NoOverload.
pub fn row(span: Span, given: Option<CelType>) -> Result<CelType, Fault>
    ensures { result ≡ row span given }
{
    match given {
        Some(given) => Ok(given),
        None => Err(Fault::NoOverload(span)),
    }
}

/// The type as that of a list's item or of a map's value: a scalar. A list or a map isn't supported
/// there.
pub fn item_type(span: Span, given: CelType) -> Result<Scalar, Fault>
    ensures { result ≡ item_type span given }
{
    match given {
        CelType::Scalar(scalar) => Ok(scalar),
        CelType::List(_) | CelType::Map(..) => Err(Fault::NotSupported(span)),
        CelType::Domains(_) | CelType::Entries(_) => Err(Fault::NoOverload(span)),
    }
}

/// The type of the items of a list, with one more before the others: dyn if they differ.
pub fn joined(first: Scalar, rest: Option<Scalar>) -> Scalar
    ensures { result ≡ joined first rest }
{
    match rest {
        Some(rest) if first.is(rest) => first,
        Some(_) => Scalar::Dyn,
        None => first,
    }
}

fn list_of(span: Span, item: CelType) -> Result<CelType, Fault>
    ensures { result ≡ list_of span item }
{
    match item_type(span, item) {
        Ok(item) => Ok(CelType::List(item)),
        Err(fault) => Err(fault),
    }
}

fn mapped_type(span: Span, bodies: Arguments) -> Result<CelType, Fault>
    ensures { result ≡ mapped_type span bodies }
{
    match bodies {
        Arguments::One(item) => list_of(span, item),
        Arguments::Two(test, item) => {
            if Scalar::Bool.accepts(test) {
                list_of(span, item)
            } else {
                Err(Fault::NoOverload(span))
            }
        }
        Arguments::None | Arguments::Many => Err(Fault::NoOverload(span)),
    }
}

/// The type of a comprehension over elements of the type, from the types of what follows its
/// variable: `all(x, test)`, `exists(x, test)` and `exists_one(x, test)` are bools, `filter(x, test)`
/// is a list of elements, and `map(x, item)` and `map(x, test, item)` are lists of items.
pub fn comprehension_type(
    span: Span,
    comprehension: Comprehension,
    element: Scalar,
    bodies: Arguments,
) -> Result<CelType, Fault>
    ensures { result ≡ comprehension_type span comprehension element bodies }
{
    if let Comprehension::Map = comprehension {
        return mapped_type(span, bodies);
    }
    let Arguments::One(test) = bodies else {
        return Err(Fault::NoOverload(span));
    };
    if !Scalar::Bool.accepts(test) {
        return Err(Fault::NoOverload(span));
    }
    match comprehension {
        Comprehension::Filter => Ok(CelType::List(element)),
        _ => Ok(CelType::BOOL),
    }
}

/// The type of `function(arguments)` that is no macro.
pub fn called_type(
    span: Span,
    called: Option<Called>,
    arguments: Arguments,
) -> Result<CelType, Fault>
    ensures { result ≡ called_type span called arguments }
{
    match called {
        Some(Called::Function(function)) => row(span, call_type(function, arguments)),
        Some(Called::LeftOut) => Err(Fault::NotSupported(span)),
        Some(Called::Has) | Some(Called::Comprehension(_)) => Err(Fault::NoOverload(span)),
        None => Err(Fault::NoSuchName(span)),
    }
}

/// The type of `object.function(arguments)` that is no macro.
pub fn method_called_type(
    span: Span,
    called: Option<Called>,
    object: CelType,
    arguments: Arguments,
) -> Result<CelType, Fault>
    ensures { result ≡ method_called_type span called object arguments }
{
    match called {
        Some(Called::Function(function)) => row(span, method_type(function, object, arguments)),
        Some(Called::LeftOut) => Err(Fault::NotSupported(span)),
        Some(Called::Has) | Some(Called::Comprehension(_)) => Err(Fault::NoOverload(span)),
        None => Err(Fault::NoSuchName(span)),
    }
}
