ghost use Rattle.std.specs.Prelude.{◌≡◌};
ghost use Rattle.serde_json.specs.View.{items_view, view};
ghost use Rattle.object_fields.specs.Fields.{Gives, Reads};
ghost use Rattle.object_fields.specs.Lists.{each};
ghost use Rattle.api_slice.specs.Selectors as fields;

use crate::lists::items_or_none;
use crate::operator::{Operator, read_field_operator, read_operator};
use dra_values::{Seq, Text};
use node_select::{Requirement, Selector, Test, whole};
use object_fields::{
    FieldError, FieldErrorKind, Path, borrowed, list, optional_list, or_memory, read_items,
    value_object, value_text,
};
use serde_json::Value;
use std::alloc::Global;

/// Reads a node selector (NodeSelector of the Kubernetes API reference) at the path.
///
/// It has exactly one term under `nodeSelectorTerms`, else NotOne there (this project's own rule).
/// The term has `matchExpressions` and `matchFields`, of any length; each item has `key`, `operator`
/// and `values`, which are checked in this order:
///
/// - In and NotIn need one text or more, Exists and DoesNotExist none, Gt and Lt one integer
///   from -2^63 to 2^63-1; another number of values is NotOne at `values`, a value of Gt or Lt
///   that isn't such an integer is WrongType there, and another operator is NotSupported
/// - of `matchFields` the key is `metadata.name` and the operator In or NotIn, else NotSupported
///
/// A required field is Missing if it isn't there or is null, then WrongType if it is of
/// another JSON type. Memory may be returned at any time, with the top's path.
#[tactic(auto, unfolding(crate::specs::Selectors::selector_of))]
pub fn read_selector(alloc: Global, value: &Value, path: &Path) -> Result<Selector, FieldError>
    ensures { Reads result (fields.selector_of path.now (view value.now)) }
{
    let object = value_object(alloc, value, path)?;
    let terms = list(alloc, object, path, "nodeSelectorTerms")?;
    let path = path.member("nodeSelectorTerms");
    read_one_term(alloc, terms, &path)
}

fn read_one_term(alloc: Global, terms: &[Value], path: &Path) -> Result<Selector, FieldError>
    ensures { Reads result (fields.one_term path.now (items_view terms.now)) }
{
    match terms.split_first() {
        None => Err(FieldError::at(alloc, path, FieldErrorKind::NotOne)),
        Some((term, others)) => match others.split_first() {
            None => read_term(alloc, term, &path.place(0)),
            Some(_) => Err(FieldError::at(alloc, path, FieldErrorKind::NotOne)),
        },
    }
}

fn read_term(alloc: Global, value: &Value, path: &Path) -> Result<Selector, FieldError>
    ensures { Reads result (fields.term_of path.now (view value.now)) }
{
    let term = value_object(alloc, value, path)?;
    let expressions = read_expressions(alloc, term, path)?;
    let fields = read_fields(alloc, term, path)?;
    Ok(Selector {
        expressions,
        fields,
    })
}

fn read_expressions(
    alloc: Global,
    term: &Value,
    path: &Path,
) -> Result<Seq<Requirement>, FieldError>
    ensures { Reads result (fields.expressions_at path.now (view term.now)) }
{
    let values = optional_list(alloc, term, path, "matchExpressions")?;
    let path = path.member("matchExpressions");
    each_expression(alloc, items_or_none(values), &path)
}

fn each_expression(
    alloc: Global,
    values: &[Value],
    path: &Path,
) -> Result<Seq<Requirement>, FieldError>
    ensures { Reads result (each fields.expression_of path.now (items_view values.now)) }
{
    let mut requirements = Seq::empty(alloc);
    for place in 0..values.len() {
        let at = path.place(place);
        let requirement = read_expression(alloc, &values[place], &at)?;
        or_memory(alloc, requirements.push(requirement))?;
    }
    Ok(requirements)
}

fn read_expression(alloc: Global, value: &Value, path: &Path) -> Result<Requirement, FieldError>
    ensures { Reads result (fields.expression_of path.now (view value.now)) }
{
    let object = value_object(alloc, value, path)?;
    let key = borrowed(alloc, object, path, "key")?;
    let operator = read_operator(alloc, object, path)?;
    let test = read_test(alloc, object, path, operator)?;
    let key = or_memory(alloc, Text::from_str(alloc, key))?;
    Ok(Requirement { key, test })
}

fn read_fields(alloc: Global, term: &Value, path: &Path) -> Result<Seq<Requirement>, FieldError>
    ensures { Reads result (fields.fields_at path.now (view term.now)) }
{
    let values = optional_list(alloc, term, path, "matchFields")?;
    let path = path.member("matchFields");
    each_field(alloc, items_or_none(values), &path)
}

fn each_field(alloc: Global, values: &[Value], path: &Path) -> Result<Seq<Requirement>, FieldError>
    ensures { Reads result (each fields.field_of path.now (items_view values.now)) }
{
    let mut requirements = Seq::empty(alloc);
    for place in 0..values.len() {
        let at = path.place(place);
        let requirement = read_field(alloc, &values[place], &at)?;
        or_memory(alloc, requirements.push(requirement))?;
    }
    Ok(requirements)
}

fn read_field(alloc: Global, value: &Value, path: &Path) -> Result<Requirement, FieldError>
    ensures { Reads result (fields.field_of path.now (view value.now)) }
{
    let object = value_object(alloc, value, path)?;
    let key = field_key(alloc, object, path)?;
    let operator = read_field_operator(alloc, object, path)?;
    let test = read_test(alloc, object, path, operator)?;
    let key = or_memory(alloc, Text::from_str(alloc, key))?;
    Ok(Requirement { key, test })
}

fn field_key<'a>(alloc: Global, object: &'a Value, path: &Path) -> Result<&'a str, FieldError>
    ensures { Gives (λ s. s.now) result (fields.field_key_at path.now (view object.now)) }
{
    let key = borrowed(alloc, object, path, "key")?;
    if key == "metadata.name" {
        Ok(key)
    } else {
        Err(FieldError::of_field(alloc, path, "key", FieldErrorKind::NotSupported))
    }
}

/// What a requirement's operator tests with its `values`.
fn read_test(
    alloc: Global,
    object: &Value,
    path: &Path,
    operator: Operator,
) -> Result<Test, FieldError>
    ensures { Reads result (fields.test_at path.now (view object.now) operator) }
{
    let values = optional_list(alloc, object, path, "values")?;
    let path = path.member("values");
    test_of(alloc, items_or_none(values), &path, operator)
}

fn test_of(
    alloc: Global,
    values: &[Value],
    path: &Path,
    operator: Operator,
) -> Result<Test, FieldError>
    ensures { Reads result (fields.test_of path.now (items_view values.now) operator) }
{
    match operator {
        Operator::In => Ok(Test::OneOf(some_texts(alloc, values, path)?)),
        Operator::NotIn => Ok(Test::NoneOf(some_texts(alloc, values, path)?)),
        Operator::Exists => {
            no_texts(alloc, values, path)?;
            Ok(Test::Present)
        }
        Operator::DoesNotExist => {
            no_texts(alloc, values, path)?;
            Ok(Test::Absent)
        }
        Operator::Gt => Ok(Test::Above(one_number(alloc, values, path)?)),
        Operator::Lt => Ok(Test::Below(one_number(alloc, values, path)?)),
    }
}

/// One text or more.
fn some_texts(alloc: Global, values: &[Value], path: &Path) -> Result<Seq<Text>, FieldError>
    ensures { Reads result (fields.some_texts path.now (items_view values.now)) }
{
    match values.split_first() {
        None => Err(FieldError::at(alloc, path, FieldErrorKind::NotOne)),
        Some(_) => read_items(alloc, values, path),
    }
}

fn no_texts(alloc: Global, values: &[Value], path: &Path) -> Result<(), FieldError>
    ensures { Reads result (fields.no_texts path.now (items_view values.now)) }
{
    match values.split_first() {
        None => Ok(()),
        Some(_) => Err(FieldError::at(alloc, path, FieldErrorKind::NotOne)),
    }
}

/// One text that is the notation of a 64-bit integer.
fn one_number(alloc: Global, values: &[Value], path: &Path) -> Result<i64, FieldError>
    ensures { Reads result (fields.one_number path.now (items_view values.now)) }
{
    match values.split_first() {
        None => Err(FieldError::at(alloc, path, FieldErrorKind::NotOne)),
        Some((value, others)) => match others.split_first() {
            None => read_number(alloc, value, path),
            Some(_) => Err(FieldError::at(alloc, path, FieldErrorKind::NotOne)),
        },
    }
}

fn read_number(alloc: Global, value: &Value, path: &Path) -> Result<i64, FieldError>
    ensures { Reads result (fields.number_of path.now (view value.now)) }
{
    let at = path.place(0);
    let text = value_text(alloc, value, &at)?;
    match whole(text.as_str()) {
        Some(number) => Ok(number),
        None => Err(FieldError::at(alloc, path, FieldErrorKind::WrongType)),
    }
}
