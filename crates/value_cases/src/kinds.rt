use crate::input::CaseError;
use crate::shown::{Out, show};
use crate::{
    claims, documents, fields, limited, names, nodes, objects, optional, printing, quantities,
    values,
};
use api_claim::{ClaimStatus, ResourceClaim};
use api_slice::ResourceSlice;
use serde_json::Value;
use std::alloc::Global;

/// Appends the line of a case of that kind, whose input is this value.
pub fn of_group(
    alloc: Global,
    out: &mut Out,
    group: &str,
    word: &str,
    input: &Value,
) -> Result<(), CaseError> {
    match group {
        "object" => of_object(alloc, out, word, input),
        "required" => fields::required(alloc, out, word, input),
        "limited" => limited::limited(alloc, out, word, input),
        "optional" => optional::optional(alloc, out, word, input),
        "metadata" => fields::metadata(alloc, out, word, input),
        "quantity" => quantities::answer(out, word, input),
        "value" => values::answer(alloc, out, word, input),
        "name" => names::answer(alloc, out, word, input),
        "node" => nodes::answer(alloc, out, word, input),
        "commands" => documents::answer(alloc, out, word, input),
        "print" => printing::answer(alloc, out, word, input),
        _ => Err(CaseError::BadCase),
    }
}

/// Appends the fields of an object, or the name and the path of the error.
fn of_object(alloc: Global, out: &mut Out, word: &str, input: &Value) -> Result<(), CaseError> {
    match word {
        "slice" => show(alloc, out, ResourceSlice::read(alloc, input)),
        "claim" => show(alloc, out, ResourceClaim::read(alloc, input)),
        "status" => show(alloc, out, ClaimStatus::read(alloc, input)),
        "ready_claim" => claims::ready(alloc, out, input),
        "reads" => objects::reads(alloc, out, input),
        _ => objects::answer(alloc, out, word, input),
    }
}
