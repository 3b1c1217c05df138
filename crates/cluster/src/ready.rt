ghost use Rattle.std.specs.Prelude.{◌≡◌, IfOk};
ghost use Rattle.object_fields.specs.Fields.{Reads};
ghost use Rattle.cluster.specs.declared.object.Object.TheVariants as object;
ghost use Rattle.cluster.specs.Ready.{ArePart, IsReady, Keeps, ready_of};

use crate::{Kept, Object};
use api_claim::ResourceClaim;
use api_cluster::{DeviceClass, Node, Pod};
use api_slice::ResourceSlice;
use dra_values::Shared;
use object_fields::{FieldError, or_memory};
use ready_objects::{ReadyClaim, ReadyClass};
use std::alloc::{AllocError, Global};
use std::marker::Model;

/// An object whose selectors are compiled, which contracts see as the object.
#[derive(Drop)]
pub struct Ready {
    object: Object,
    kept: Kept,
}

impl Model for Ready {
    ghost use Rattle.cluster.specs.declared.object.Object.{Object};
    ghost use Rattle.cluster.specs.Ready.{ArePart};

    ghost Value = { Object };

    ghost view = { λ r. r.object };

    ghost invariant = { λ r. ArePart r.object r.kept };
}

/// The parts of an object that is ready: the object, and the same as the state keeps it.
#[derive(Drop)]
pub struct ReadyParts {
    pub object: Object,
    pub kept: Kept,
}

impl Ready {
    /// Compiles the selectors of an object, if it is a class or a claim. The error is that of the first
    /// that doesn't compile, in the order in which the fields are read: of kind `Selector` with its
    /// stage, at its `cel.expression`. An error of kind `Memory` may be returned at any time.
    pub fn of(alloc: Global, object: Object) -> Result<Ready, FieldError>
        ensures { Reads result (ready_of object) }
    {
        let kept = keep(alloc, &object)?;
        Ok(Ready { object, kept })
    }

    /// The object.
    pub fn object(&self) -> &Object
        ensures value { result.now ≡ self.now }
        ensures valid { IsReady self.now }
    {
        &self.object
    }

    /// One more owner of the same object and of its compiled selectors. Allocates nothing; `AllocError`
    /// only if the count of owners is full.
    pub fn share(&self) -> Result<Ready, AllocError>
        ensures { IfOk result (λ other. other ≡ self.now) }
    {
        Ok(Ready {
            object: self.object.share()?,
            kept: self.kept.share()?,
        })
    }

    /// The object, and the same as the state keeps it. Allocates nothing.
    pub fn into_parts(self) -> ReadyParts
        ensures object { result.object ≡ self }
        ensures kept { ArePart self result.kept }
    {
        ReadyParts {
            object: self.object,
            kept: self.kept,
        }
    }
}

/// The object as the state keeps it.
fn keep(alloc: Global, object: &Object) -> Result<Kept, FieldError>
    ensures { Keeps object.now result }
{
    match object {
        Object::Node(node) => keep_node(alloc, node),
        Object::Slice(slice) => keep_slice(alloc, slice),
        Object::Class(class) => keep_class(alloc, class),
        Object::Claim(claim) => keep_claim(alloc, claim),
        Object::Pod(pod) => keep_pod(alloc, pod),
    }
}

fn keep_node(alloc: Global, node: &Shared<Node>) -> Result<Kept, FieldError>
    ensures { Keeps (object.Node node.now) result }
{
    node.keeps_limits();
    Ok(Kept::Node(or_memory(alloc, node.share())?))
}

fn keep_slice(alloc: Global, slice: &Shared<ResourceSlice>) -> Result<Kept, FieldError>
    ensures { Keeps (object.Slice slice.now) result }
{
    slice.keeps_limits();
    Ok(Kept::Slice(or_memory(alloc, slice.share())?))
}

fn keep_pod(alloc: Global, pod: &Shared<Pod>) -> Result<Kept, FieldError>
    ensures { Keeps (object.Pod pod.now) result }
{
    pod.keeps_limits();
    Ok(Kept::Pod(or_memory(alloc, pod.share())?))
}

fn keep_class(alloc: Global, class: &Shared<DeviceClass>) -> Result<Kept, FieldError>
    ensures { Keeps (object.Class class.now) result }
{
    class.keeps_limits();
    let class = or_memory(alloc, class.copy(alloc))?;
    let class = ReadyClass::of(alloc, class)?;
    Ok(Kept::Class(or_memory(alloc, Shared::new(alloc, class))?))
}

fn keep_claim(alloc: Global, claim: &Shared<ResourceClaim>) -> Result<Kept, FieldError>
    ensures { Keeps (object.Claim claim.now) result }
{
    claim.keeps_limits();
    let claim = or_memory(alloc, claim.copy(alloc))?;
    let claim = ReadyClaim::of(alloc, claim)?;
    Ok(Kept::Claim(or_memory(alloc, Shared::new(alloc, claim))?))
}
