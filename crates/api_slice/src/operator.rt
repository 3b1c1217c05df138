ghost use Rattle.std.specs.Prelude.{◌≡◌};
ghost use Rattle.serde_json.specs.View.{view};
ghost use Rattle.object_fields.specs.Fields.{Reads};
ghost use Rattle.api_slice.specs.Selectors as fields;

use object_fields::{FieldError, FieldErrorKind, Path, borrowed};
use serde_json::Value;
use std::alloc::Global;

/// The operators of a requirement of a node selector.
#[derive(Clone, Copy)]
pub(crate) enum Operator {
    In,
    NotIn,
    Exists,
    DoesNotExist,
    Gt,
    Lt,
}

/// The operator of a requirement on a label. Missing, then WrongType, then NotSupported.
pub(crate) fn read_operator(
    alloc: Global,
    object: &Value,
    path: &Path,
) -> Result<Operator, FieldError>
    ensures { Reads result (fields.operator_at path.now (view object.now)) }
{
    let word = borrowed(alloc, object, path, "operator")?;
    match operator_of(word) {
        Some(operator) => Ok(operator),
        None => Err(FieldError::of_field(alloc, path, "operator", FieldErrorKind::NotSupported)),
    }
}

/// The operator of a requirement on a field: In or NotIn. Missing, then WrongType, then
/// NotSupported.
pub(crate) fn read_field_operator(
    alloc: Global,
    object: &Value,
    path: &Path,
) -> Result<Operator, FieldError>
    ensures { Reads result (fields.field_operator_at path.now (view object.now)) }
{
    let operator = read_operator(alloc, object, path)?;
    if is_membership(operator) {
        Ok(operator)
    } else {
        Err(FieldError::of_field(alloc, path, "operator", FieldErrorKind::NotSupported))
    }
}

fn operator_of(word: &str) -> Option<Operator>
    ensures { result ≡ fields.operator_of word.now }
{
    match word {
        "In" => Some(Operator::In),
        "NotIn" => Some(Operator::NotIn),
        "Exists" => Some(Operator::Exists),
        "DoesNotExist" => Some(Operator::DoesNotExist),
        "Gt" => Some(Operator::Gt),
        "Lt" => Some(Operator::Lt),
        _ => None,
    }
}

fn is_membership(operator: Operator) -> bool
    ensures { result ≡ fields.is_membership operator }
{
    match operator {
        Operator::In | Operator::NotIn => true,
        Operator::Exists | Operator::DoesNotExist | Operator::Gt | Operator::Lt => false,
    }
}
