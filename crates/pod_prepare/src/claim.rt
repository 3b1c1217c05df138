ghost use Rattle.std.specs.Prelude.{◌≡◌, ◌++◌, ◌∷◌, [], IfOk, map, option_map};
ghost use Rattle.pod_prepare.specs.ForNode.{device_of, for_node, granted_devices, node_of, written_pods};
ghost use Rattle.api_print.specs.Metadata.{uid_text};

use api_print::uid_text;
use cluster::{ClaimState, DeviceResult, Granted, Use};
use dra_values::{Seq, Shared, Text};
use object_fields::{DeviceId, Key};
use prepare_core::ClaimForNode;
use std::alloc::{AllocError, Global};

/// The pods whose use of a claim is written.
fn written_pods(alloc: Global, users: &[(Key, Use)]) -> Result<Seq<Key>, AllocError>
    ensures { IfOk result (λ pods. pods ≡ written_pods users.now) }
{
    let mut pods = Seq::empty(alloc);
    for user in users {
        push_written(alloc, &mut pods, user)?;
    }
    Ok(pods)
}

/// Puts a pod at the end, if its use is written.
fn push_written(alloc: Global, pods: &mut Seq<Key>, user: &(Key, Use)) -> Result<(), AllocError>
    ensures { IfOk result (λ _. pods.new ≡ pods.old ++ written_pods (user.now ∷ [])) }
{
    match user.1 {
        Use::Assumed(_) => Ok(()),
        Use::Written => {
            let pod = user.0.copy(alloc)?;
            pods.push(pod)
        }
    }
}

/// The devices of results, in order.
fn devices_of(alloc: Global, results: &[DeviceResult]) -> Result<Seq<DeviceId>, AllocError>
    ensures { IfOk result (λ devices. devices ≡ map device_of results.now) }
{
    let mut devices = Seq::empty(alloc);
    for picked in results {
        let device = picked.device.copy(alloc)?;
        devices.push(device)?;
    }
    Ok(devices)
}

/// The devices of a grant, if there is one.
fn granted_devices(
    alloc: Global,
    grant: &Option<Shared<Granted>>,
) -> Result<Seq<DeviceId>, AllocError>
    ensures { IfOk result (λ devices. devices ≡ granted_devices grant.now) }
{
    match grant {
        None => Ok(Seq::empty(alloc)),
        Some(granted) => devices_of(alloc, granted.results.as_slice()),
    }
}

/// The node of a grant, if there is one.
fn granted_node(alloc: Global, grant: &Option<Shared<Granted>>) -> Result<Option<Text>, AllocError>
    ensures { IfOk result (λ node. node ≡ option_map node_of grant.now) }
{
    match grant {
        None => Ok(None),
        Some(granted) => Ok(Some(granted.node.copy(alloc)?)),
    }
}

/// The uid of a claim.
pub fn claim_uid(alloc: Global, claim: &ClaimState) -> Result<Text, AllocError>
    ensures { IfOk result (λ uid. uid ≡ uid_text claim.now.claim.uid) }
{
    let uid = uid_text(alloc, claim.claim.uid)?;
    Text::new(alloc, uid)
}

/// What the kubelet is told of a claim, which the pod names by this key: its uid, the node and the devices of its
/// grant, and the pods whose use of it is written. `AllocError` is returned only if memory runs out.
pub fn for_node(alloc: Global, key: &Key, claim: &ClaimState) -> Result<ClaimForNode, AllocError>
    ensures { IfOk result (λ told. told ≡ for_node key.now claim.now) }
{
    Ok(ClaimForNode {
        uid: claim_uid(alloc, claim)?,
        key: key.copy(alloc)?,
        node: granted_node(alloc, &claim.grant)?,
        pods: written_pods(alloc, claim.users.as_slice())?,
        devices: granted_devices(alloc, &claim.grant)?,
    })
}
