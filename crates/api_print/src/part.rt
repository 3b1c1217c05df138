ghost use Rattle.std.specs.Prelude.{◌≡◌, [], IfOk, OnOk, Some};
ghost use Rattle.pool_view.specs.Names.{at_key};
ghost use Rattle.api_print.specs.Objects.{json_of};
ghost use Rattle.api_print.specs.Status.{claim_json};
ghost use Rattle.api_print.specs.Parts.{part_json, with_pod, with_user, with_users};

use api_cluster::{Node, Pod};
use api_slice::ResourceSlice;
use cluster::{ClaimState, PodState, State, Target, Use, Users};
use dra_values::{Duplicate, Shared, Text};
use object_fields::Key;
use pool_view::Stored;
use ready_objects::ReadyClass;
use shared_map::SharedMap;
use std::alloc::{AllocError, Global};

/// What is printed of one object of a state: the object as it is stored, and of a claim also the pods whose use is
/// written. It shares the objects with the state and none of its tables.
#[derive(Drop)]
pub enum Part {
    /// The object doesn't exist, or none is printed.
    Absent,
    Node(Stored<Shared<Node>>),
    Slice(Stored<Shared<ResourceSlice>>),
    Class(Stored<Shared<ReadyClass>>),
    Claim {
        claim: ClaimState,
        pods: SharedMap<Key, PodState>,
    },
    Pod(Stored<Shared<Pod>>),
}

/// The part of a state that is printed of the object of a kind and name. It takes as long as the look-up, and for a
/// claim one more look-up for each user. `AllocError` only if memory runs out, or the count of owners of an object is
/// full.
pub fn part_of(alloc: Global, target: &Target, state: &State) -> Result<Part, AllocError>
    ensures { IfOk result (λ part. part_json part ≡ json_of state.now target.now) }
{
    match target {
        Target::Node(name) => node_part(alloc, name, state),
        Target::Slice(name) => slice_part(alloc, name, state),
        Target::Class(name) => class_part(alloc, name, state),
        Target::Claim(key) => claim_part(alloc, key, state),
        Target::Pod(key) => pod_part(alloc, key, state),
    }
}

fn node_part(alloc: Global, name: &Text, state: &State) -> Result<Part, AllocError>
    ensures { IfOk result (λ part. part_json part ≡ json_of state.now (Target.Node name.now)) }
{
    match state.inventory.nodes().get(name) {
        Some(node) => Ok(Part::Node(node.duplicate(alloc)?)),
        None => Ok(Part::Absent),
    }
}

fn slice_part(alloc: Global, name: &Text, state: &State) -> Result<Part, AllocError>
    ensures { IfOk result (λ part. part_json part ≡ json_of state.now (Target.Slice name.now)) }
{
    match state.inventory.slices().get(name) {
        Some(slice) => Ok(Part::Slice(slice.duplicate(alloc)?)),
        None => Ok(Part::Absent),
    }
}

fn class_part(alloc: Global, name: &Text, state: &State) -> Result<Part, AllocError>
    ensures { IfOk result (λ part. part_json part ≡ json_of state.now (Target.Class name.now)) }
{
    match state.classes.get(name) {
        Some(class) => Ok(Part::Class(class.duplicate(alloc)?)),
        None => Ok(Part::Absent),
    }
}

fn claim_part(alloc: Global, key: &Key, state: &State) -> Result<Part, AllocError>
    ensures { IfOk result (λ part. part_json part ≡ json_of state.now (Target.Claim key.now)) }
{
    match state.claims.get(key) {
        Some(claim) => with_its_pods(alloc, &state.pods, claim),
        None => Ok(Part::Absent),
    }
}

/// A claim with the pods whose use of it is written.
#[tactic(auto, using(crate::proofs::UserPods::claim_same))]
fn with_its_pods(
    alloc: Global,
    pods: &SharedMap<Key, PodState>,
    claim: &ClaimState,
) -> Result<Part, AllocError>
    ensures { IfOk result (λ part. part_json part ≡ Some (claim_json pods.now claim.now)) }
{
    let users = written_pods(alloc, pods, claim.users.value())?;
    Ok(Part::Claim {
        claim: claim.duplicate(alloc)?,
        pods: users,
    })
}

fn pod_part(alloc: Global, key: &Key, state: &State) -> Result<Part, AllocError>
    ensures { IfOk result (λ part. part_json part ≡ json_of state.now (Target.Pod key.now)) }
{
    match state.pods.get(key) {
        Some(pod) => Ok(Part::Pod(pod.pod.duplicate(alloc)?)),
        None => Ok(Part::Absent),
    }
}

/// The pods whose use is written.
fn written_pods(
    alloc: Global,
    pods: &SharedMap<Key, PodState>,
    users: &Users,
) -> Result<SharedMap<Key, PodState>, AllocError>
    ensures { IfOk result (λ table. table ≡ with_users pods.now users.now []) }
{
    let mut table = SharedMap::new(alloc)?;
    for user in users.as_slice() {
        put_user(&mut table, alloc, pods, &user.0, &user.1)?;
    }
    Ok(table)
}

/// Puts the pod into a table, if its use is written.
fn put_user(
    table: &mut SharedMap<Key, PodState>,
    alloc: Global,
    pods: &SharedMap<Key, PodState>,
    key: &Key,
    how: &Use,
) -> Result<(), AllocError>
    ensures { OnOk result (table.new ≡ with_user pods.now key.now how.now table.old) }
{
    match how {
        Use::Assumed(_) => Ok(()),
        Use::Written => put_pod(table, alloc, pods, key),
    }
}

/// Puts the pod into a table, if it exists.
fn put_pod(
    table: &mut SharedMap<Key, PodState>,
    alloc: Global,
    pods: &SharedMap<Key, PodState>,
    key: &Key,
) -> Result<(), AllocError>
    ensures { OnOk result (table.new ≡ with_pod key.now (at_key pods.now key.now) table.old) }
{
    match pods.get(key) {
        Some(pod) => table.insert(alloc, key.copy(alloc)?, pod.duplicate(alloc)?),
        None => Ok(()),
    }
}
