ghost use Rattle.std.specs.Prelude.{◌≡◌, IfOk};

use crate::rows::claim_for;
use ckpt_journal::Claim;
use dra_values::{Duplicate, Seq, Text};
use object_fields::{DeviceId, Key};
use std::alloc::{AllocError, Global};

/// What the kubelet, and the driver that it asks, are told of a claim.
#[derive(Debug, PartialEq, Eq, Drop)]
pub struct ClaimForNode {
    /// The claim's uid.
    pub uid: Text,
    /// The claim's namespace and name.
    pub key: Key,
    /// The node that the claim's devices are allocated on, or None if none are allocated.
    pub node: Option<Text>,
    /// The pods that the claim is reserved for.
    pub pods: Seq<Key>,
    /// The allocated devices, one per result, in order.
    pub devices: Seq<DeviceId>,
}

/// The names of a claim's devices, `<driver>/device=<claim uid>-<device>`, one per result, in order.
pub type Names = Seq<Text>;

impl ClaimForNode {
    /// An equal claim. Returns `AllocError` only if out of memory.
    pub fn copy(&self, alloc: Global) -> Result<ClaimForNode, AllocError>
        ensures { IfOk result (λ copied. copied ≡ self.now) }
    {
        let node = self.node.duplicate(alloc)?;
        Ok(on_node(claim_for(alloc, self, &self.pods)?, node))
    }
}

/// A claim on a node.
pub fn on_node(claim: Claim, node: Option<Text>) -> ClaimForNode
    ensures { result ≡ record { uid = claim.uid; key = claim.key; node = node; pods = claim.pods; devices = claim.devices } }
{
    let Claim {
        uid,
        key,
        pods,
        devices,
    } = claim;
    ClaimForNode {
        uid,
        key,
        node,
        pods,
        devices,
    }
}
