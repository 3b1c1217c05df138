ghost use Rattle.std.specs.Prelude.{◌≡◌, ◌<◌, ◌≤◌, Ok, Err, length, map};
ghost use Rattle.cel_tree.specs.Ast.{constant_view};
ghost use Rattle.cel_tree.specs.Scopes.{bound, look_up};
ghost use Rattle.cel_tree.specs.Typing.{constant_type, name_type, device_type};

use cel_tree::{CelType, Facet, Fault, Literal, Scope, Span};

pub fn constant_type(literal: &Literal) -> CelType
    ensures { result ≡ constant_type (constant_view literal.now) }
{
    match literal {
        Literal::Null => CelType::NULL,
        Literal::Bool(_) => CelType::BOOL,
        Literal::Int(_) => CelType::INT,
        Literal::Text(_) => CelType::TEXT,
    }
}

/// The type of a name alone. `device` has none of its own.
pub fn name_type(span: Span, name: &str, scope: &Scope<CelType>) -> Result<CelType, Fault>
    ensures { result ≡ name_type span name.now (look_up name.now (bound scope.now)) }
{
    match scope.find(name) {
        Some(kind) => Ok(kind),
        None if name == "device" => Err(Fault::NoOverload(span)),
        None => Err(Fault::NoSuchName(span)),
    }
}

/// The type of a member of `device`.
pub fn device_type(span: Span, name: &str) -> Result<CelType, Fault>
    ensures { result ≡ device_type span name.now }
{
    if name == "driver" {
        Ok(CelType::TEXT)
    } else if name == "attributes" {
        Ok(CelType::Domains(Facet::Attributes))
    } else if name == "capacity" {
        Ok(CelType::Domains(Facet::Capacities))
    } else {
        Err(Fault::NoSuchName(span))
    }
}
