ghost use Rattle.std.specs.Prelude.{◌≡◌, ◌++◌, [], ◌∷◌};
ghost use Rattle.serde_json.specs.View.{items_view, view};
ghost use Rattle.object_fields.specs.Fields.{Reads};
ghost use Rattle.object_fields.specs.Lists.{each};
ghost use Rattle.object_fields.specs.declared.path.Step.TheVariants.{Place};
ghost use Rattle.api_claim.specs.Constraints as fields;

use crate::lists::has_text;
use crate::types::DeviceConstraint;
use dra_values::{Seq, Text};
use object_fields::{
    FieldError, FieldErrorKind, Path, QualName, borrowed, optional_list, optional_short_list,
    or_memory, unset, value_object, value_text,
};
use serde_json::Value;
use std::alloc::Global;

/// The most constraints of a claim (API reference of `resource.k8s.io/v1`).
const CONSTRAINTS_MOST: usize = 32;

/// The constraints of a spec's devices, whose requests have these names; none if they are
/// missing.
pub(crate) fn read_constraints(
    alloc: Global,
    devices: &Value,
    path: &Path,
    names: &[Text],
) -> Result<Seq<DeviceConstraint>, FieldError>
    ensures { Reads result (fields.constraints_at names.now path.now (view devices.now)) }
{
    match optional_short_list(alloc, devices, path, "constraints", CONSTRAINTS_MOST)? {
        Some(constraints) => {
            let path = path.member("constraints");
            read_each(alloc, constraints, &path, names)
        }
        None => Ok(Seq::empty(alloc)),
    }
}

fn read_each(
    alloc: Global,
    values: &[Value],
    path: &Path,
    names: &[Text],
) -> Result<Seq<DeviceConstraint>, FieldError>
    ensures { Reads result
        (each (fields.constraint_at names.now) path.now (items_view values.now)) }
{
    let mut constraints = Seq::empty(alloc);
    for place in 0..values.len() {
        let constraint = read_constraint_in(alloc, &values[place], path, place, names)?;
        or_memory(alloc, constraints.push(constraint))?;
    }
    Ok(constraints)
}

/// The constraint at an index of the list.
fn read_constraint_in(
    alloc: Global,
    value: &Value,
    path: &Path,
    place: usize,
    names: &[Text],
) -> Result<DeviceConstraint, FieldError>
    ensures { Reads result
        (fields.constraint_at names.now (path.now ++ Place place ∷ []) (view value.now)) }
{
    let at = path.place(place);
    read_constraint(alloc, value, &at, names)
}

fn read_constraint(
    alloc: Global,
    value: &Value,
    path: &Path,
    names: &[Text],
) -> Result<DeviceConstraint, FieldError>
    ensures { Reads result (fields.constraint_at names.now path.now (view value.now)) }
{
    let constraint = value_object(alloc, value, path)?;
    unset(alloc, constraint, path, "distinctAttribute")?;
    let requests = read_requests(alloc, constraint, path, names)?;
    let attribute = read_attribute(alloc, constraint, path)?;
    Ok(DeviceConstraint {
        requests,
        attribute,
    })
}

/// The requests that a constraint names; none if they are missing.
fn read_requests(
    alloc: Global,
    constraint: &Value,
    path: &Path,
    names: &[Text],
) -> Result<Seq<Text>, FieldError>
    ensures { Reads result (fields.known_requests_at names.now path.now (view constraint.now)) }
{
    match optional_list(alloc, constraint, path, "requests")? {
        Some(requests) => {
            let path = path.member("requests");
            read_each_request(alloc, requests, &path, names)
        }
        None => Ok(Seq::empty(alloc)),
    }
}

fn read_each_request(
    alloc: Global,
    values: &[Value],
    path: &Path,
    names: &[Text],
) -> Result<Seq<Text>, FieldError>
    ensures { Reads result (each (fields.known_at names.now) path.now (items_view values.now)) }
{
    let mut requests = Seq::empty(alloc);
    for place in 0..values.len() {
        let request = read_known_in(alloc, &values[place], path, place, names)?;
        or_memory(alloc, requests.push(request))?;
    }
    Ok(requests)
}

/// The name at an index of the list.
fn read_known_in(
    alloc: Global,
    value: &Value,
    path: &Path,
    place: usize,
    names: &[Text],
) -> Result<Text, FieldError>
    ensures { Reads result
        (fields.known_at names.now (path.now ++ Place place ∷ []) (view value.now)) }
{
    let at = path.place(place);
    read_known(alloc, value, &at, names)
}

fn read_known(alloc: Global, value: &Value, path: &Path, names: &[Text]) -> Result<Text, FieldError>
    ensures { Reads result (fields.known_at names.now path.now (view value.now)) }
{
    let text = value_text(alloc, value, path)?;
    if has_text(names, text.as_str()) {
        Ok(text)
    } else {
        Err(FieldError::at(alloc, path, FieldErrorKind::Unknown))
    }
}

fn read_attribute(alloc: Global, constraint: &Value, path: &Path) -> Result<QualName, FieldError>
    ensures { Reads result (fields.attribute_at path.now (view constraint.now)) }
{
    let text = borrowed(alloc, constraint, path, "matchAttribute")?;
    let path = path.member("matchAttribute");
    read_full_name(alloc, &path, text)
}

/// A name with its domain, `domain/id`.
fn read_full_name(alloc: Global, path: &Path, text: &str) -> Result<QualName, FieldError>
    ensures { Reads result (fields.full_name_in path.now text.now) }
{
    match text.split_once('/') {
        Some(_) => QualName::read(alloc, path, text, ""),
        None => Err(FieldError::at(alloc, path, FieldErrorKind::BadName)),
    }
}
