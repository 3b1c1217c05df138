ghost use Rattle.std.specs.Prelude.{◌≡◌, IfOk};

use api_cluster::{Node, Pod};
use api_slice::ResourceSlice;
use dra_values::Shared;
use ready_objects::{ReadyClaim, ReadyClass};
use std::alloc::AllocError;

/// An object as the state keeps it: the selectors of classes and claims are compiled.
#[derive(Drop)]
pub enum Kept {
    Node(Shared<Node>),
    Slice(Shared<ResourceSlice>),
    Class(Shared<ReadyClass>),
    Claim(Shared<ReadyClaim>),
    Pod(Shared<Pod>),
}

impl Kept {
    /// One more owner of the same object. Allocates nothing; `AllocError` only if the count of owners is
    /// full.
    pub fn share(&self) -> Result<Kept, AllocError>
        ensures { IfOk result (λ other. other ≡ self.now) }
    {
        match self {
            Kept::Node(node) => Ok(Kept::Node(node.share()?)),
            Kept::Slice(slice) => Ok(Kept::Slice(slice.share()?)),
            Kept::Class(class) => Ok(Kept::Class(class.share()?)),
            Kept::Claim(claim) => Ok(Kept::Claim(claim.share()?)),
            Kept::Pod(pod) => Ok(Kept::Pod(pod.share()?)),
        }
    }
}
