ghost use Rattle.std.specs.Prelude.{◌≡◌, option_map, Some, IfOk};
ghost use Rattle.serde_json.specs.Read.{read};
ghost use Rattle.serde_json.specs.View.{view};
ghost use Rattle.serde_json.specs.Written.{compact_text};
ghost use Rattle.api_print.specs.Objects.{json_of};
ghost use Rattle.api_print.specs.Parts.{part_json};

use crate::claim::claim_value;
use crate::class::class_value;
use crate::node::node_value;
use crate::part::Part;
use crate::pod::pod_value;
use crate::slice::slice_value;
use cluster::{State, Target};
use object_fields::Key;
use serde_json::Value;
use std::alloc::{AllocError, Global};

/// The JSON of the state's object of a kind and name, or `None` if it doesn't exist. `AllocError` only
/// if memory runs out.
pub fn value_of(alloc: Global, target: &Target, state: &State) -> Result<Option<Value>, AllocError>
    ensures { IfOk result (λ o. option_map view o ≡ json_of state.now target.now) }
{
    match target {
        Target::Node(name) => match state.inventory.nodes().get(name) {
            Some(node) => Ok(Some(node_value(alloc, node)?)),
            None => Ok(None),
        },
        Target::Slice(name) => match state.inventory.slices().get(name) {
            Some(slice) => Ok(Some(slice_value(alloc, slice)?)),
            None => Ok(None),
        },
        Target::Class(name) => match state.classes.get(name) {
            Some(class) => Ok(Some(class_value(alloc, class)?)),
            None => Ok(None),
        },
        Target::Claim(key) => claim_at(alloc, key, state),
        Target::Pod(key) => pod_at(alloc, key, state),
    }
}

fn claim_at(alloc: Global, key: &Key, state: &State) -> Result<Option<Value>, AllocError>
    ensures { IfOk result (λ o. option_map view o ≡ json_of state.now (Target.Claim key.now)) }
{
    match state.claims.get(key) {
        Some(claim) => Ok(Some(claim_value(alloc, &state.pods, claim)?)),
        None => Ok(None),
    }
}

fn pod_at(alloc: Global, key: &Key, state: &State) -> Result<Option<Value>, AllocError>
    ensures { IfOk result (λ o. option_map view o ≡ json_of state.now (Target.Pod key.now)) }
{
    match state.pods.get(key) {
        Some(pod) => Ok(Some(pod_value(alloc, &pod.pod)?)),
        None => Ok(None),
    }
}

/// The text of the state's object of a kind and name: JSON without blanks and its members in the
/// order of bytes, or `None` if the object doesn't exist. The text reads as the object's JSON.
/// `AllocError` only if memory runs out.
pub fn print(alloc: Global, target: &Target, state: &State) -> Result<Option<Vec<u8>>, AllocError>
    ensures text { IfOk result (λ o. option_map (λ t. t.items) o ≡ option_map compact_text (json_of state.now target.now)) }
    ensures reads_back { IfOk result (λ o. option_map (λ t. read t.items) o ≡ option_map Some (json_of state.now target.now)) }
{
    match value_of(alloc, target, state)? {
        Some(value) => Ok(Some(value.to_vec(alloc)?)),
        None => Ok(None),
    }
}

/// The JSON of the object of a part, or `None` if there is none. `AllocError` only if memory runs out.
pub fn part_value(alloc: Global, part: &Part) -> Result<Option<Value>, AllocError>
    ensures { IfOk result (λ o. option_map view o ≡ part_json part.now) }
{
    match part {
        Part::Absent => Ok(None),
        Part::Node(node) => Ok(Some(node_value(alloc, node)?)),
        Part::Slice(slice) => Ok(Some(slice_value(alloc, slice)?)),
        Part::Class(class) => Ok(Some(class_value(alloc, class)?)),
        Part::Claim { claim, pods } => Ok(Some(claim_value(alloc, pods, claim)?)),
        Part::Pod(pod) => Ok(Some(pod_value(alloc, pod)?)),
    }
}

/// The text of the object of a part, as `print` makes it, or `None` if there is none. `AllocError` only if memory
/// runs out.
pub fn print_part(alloc: Global, part: &Part) -> Result<Option<Vec<u8>>, AllocError>
    ensures text { IfOk result (λ o. option_map (λ t. t.items) o ≡ option_map compact_text (part_json part.now)) }
    ensures reads_back { IfOk result (λ o. option_map (λ t. read t.items) o ≡ option_map Some (part_json part.now)) }
{
    match part_value(alloc, part)? {
        Some(value) => Ok(Some(value.to_vec(alloc)?)),
        None => Ok(None),
    }
}
