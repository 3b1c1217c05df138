ghost use Rattle.std.specs.Prelude.{◌≡◌, IfOk};

use api_claim::ResourceClaim;
use api_cluster::{DeviceClass, Node, Pod};
use api_slice::ResourceSlice;
use dra_values::{Duplicate, Shared, Text};
use object_fields::Key;
use std::alloc::{AllocError, Global};

/// What a document applies.
#[derive(Drop)]
pub enum Object {
    Node(Shared<Node>),
    Slice(Shared<ResourceSlice>),
    Class(Shared<DeviceClass>),
    Claim(Shared<ResourceClaim>),
    Pod(Shared<Pod>),
}

impl Object {
    /// One more owner of the same object. Allocates nothing; `AllocError` only if the count of owners is
    /// full.
    pub fn share(&self) -> Result<Object, AllocError>
        ensures { IfOk result (λ other. other ≡ self.now) }
    {
        match self {
            Object::Node(node) => Ok(Object::Node(node.share()?)),
            Object::Slice(slice) => Ok(Object::Slice(slice.share()?)),
            Object::Class(class) => Ok(Object::Class(class.share()?)),
            Object::Claim(claim) => Ok(Object::Claim(claim.share()?)),
            Object::Pod(pod) => Ok(Object::Pod(pod.share()?)),
        }
    }
}

/// A duplicate is one more owner of the same object.
impl Duplicate for Object {
    fn duplicate(&self, _alloc: Global) -> Result<Object, AllocError> {
        self.share()
    }
}

/// The kind and the name of an object.
#[derive(Drop)]
pub enum Target {
    Node(Text),
    Slice(Text),
    Class(Text),
    Claim(Key),
    Pod(Key),
}

impl Target {
    /// An equal target.
    pub fn copy(&self, alloc: Global) -> Result<Target, AllocError>
        ensures { IfOk result (λ copy. copy ≡ self.now) }
    {
        match self {
            Target::Node(name) => Ok(Target::Node(name.copy(alloc)?)),
            Target::Slice(name) => Ok(Target::Slice(name.copy(alloc)?)),
            Target::Class(name) => Ok(Target::Class(name.copy(alloc)?)),
            Target::Claim(key) => Ok(Target::Claim(key.copy(alloc)?)),
            Target::Pod(key) => Ok(Target::Pod(key.copy(alloc)?)),
        }
    }
}
