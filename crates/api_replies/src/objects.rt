ghost use Rattle.std.specs.Prelude.{◌≡◌, IfOk, [], map};
ghost use Rattle.std.specs.Map.{keys_of};
ghost use Rattle.api_replies.specs.Lists as spec;

use api_routes::Kind;
use cluster::{State, Target};
use dra_values::{Seq, Text};
use object_fields::Key;
use std::alloc::{AllocError, Global};

/// The objects of a kind in a namespace, in the order of their keys. Of a kind without namespaces, all.
pub fn targets(
    alloc: Global,
    kind: Kind,
    namespace: &Text,
    state: &State,
) -> Result<Seq<Target>, AllocError>
    ensures { IfOk result (λ ts. ts ≡ spec.targets state.now kind namespace.now) }
{
    match kind {
        Kind::Node => nodes(alloc, state),
        Kind::ResourceSlice => slices(alloc, state),
        Kind::DeviceClass => classes(alloc, state),
        Kind::ResourceClaim => claims(alloc, namespace, state),
        Kind::Pod => pods(alloc, namespace, state),
    }
}

fn nodes(alloc: Global, state: &State) -> Result<Seq<Target>, AllocError>
    ensures { IfOk result (λ ts. ts ≡ map Target.Node (keys_of state.now.inventory.nodes)) }
{
    let mut targets = Seq::empty(alloc);
    for (name, _) in state.inventory.nodes().iter() {
        targets.push(Target::Node(name.copy(alloc)?))?;
    }
    Ok(targets)
}

fn slices(alloc: Global, state: &State) -> Result<Seq<Target>, AllocError>
    ensures { IfOk result (λ ts. ts ≡ map Target.Slice (keys_of state.now.inventory.slices)) }
{
    let mut targets = Seq::empty(alloc);
    for (name, _) in state.inventory.slices().iter() {
        targets.push(Target::Slice(name.copy(alloc)?))?;
    }
    Ok(targets)
}

fn classes(alloc: Global, state: &State) -> Result<Seq<Target>, AllocError>
    ensures { IfOk result (λ ts. ts ≡ map Target.Class (keys_of state.now.classes)) }
{
    let mut targets = Seq::empty(alloc);
    for (name, _) in state.classes.iter() {
        targets.push(Target::Class(name.copy(alloc)?))?;
    }
    Ok(targets)
}

fn claims(alloc: Global, namespace: &Text, state: &State) -> Result<Seq<Target>, AllocError>
    ensures { IfOk result (λ ts. ts ≡ map Target.Claim (spec.within namespace.now (keys_of state.now.claims))) }
{
    let mut targets = Seq::empty(alloc);
    for (key, _) in state.claims.iter() {
        if key.namespace == *namespace {
            targets.push(Target::Claim(key.copy(alloc)?))?;
        }
    }
    Ok(targets)
}

fn pods(alloc: Global, namespace: &Text, state: &State) -> Result<Seq<Target>, AllocError>
    ensures { IfOk result (λ ts. ts ≡ map Target.Pod (spec.within namespace.now (keys_of state.now.pods))) }
{
    let mut targets = Seq::empty(alloc);
    for (key, _) in state.pods.iter() {
        if key.namespace == *namespace {
            targets.push(Target::Pod(key.copy(alloc)?))?;
        }
    }
    Ok(targets)
}
