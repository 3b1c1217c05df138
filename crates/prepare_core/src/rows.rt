ghost use Rattle.std.specs.Prelude.{◌≡◌, ◌++◌, IfOk, OnOk, [], ◌∷◌, map, option_copied};
ghost use Rattle.prepare_core.specs.Names.{name_of, names_of};
ghost use Rattle.prepare_core.specs.Table.{begun_pods, claim_with, has_pod, pods_of_row, row_of, with_pod, with_pods, without_pod};

use crate::{ClaimForNode, Names};
use ckpt_journal::{Claim, Row, RowState};
use dra_values::{Seq, Text};
use object_fields::{DeviceId, Key};
use std::alloc::{AllocError, Global};

/// The row of the claim with this uid. Allocates nothing.
pub fn find_row<'a>(rows: &'a [Row], uid: &str) -> Option<&'a Row>
    ensures { option_copied result ≡ row_of uid.now rows.now }
{
    for row in rows {
        if row.claim.uid.as_str() == uid {
            return Some(row);
        }
    }
    None
}

/// Whether the pod is among these. Allocates nothing.
pub fn is_among(pods: &[Key], pod: &Key) -> bool
    ensures { result ≡ has_pod pod.now pods.now }
{
    pods.contains(pod)
}

/// Puts an equal pod at the end.
fn push_copy(alloc: Global, pods: &mut Seq<Key>, pod: &Key) -> Result<(), AllocError>
    ensures { OnOk result (pods.new ≡ pods.old ++ pod.now ∷ []) }
{
    pods.push(pod.copy(alloc)?)?;
    Ok(())
}

/// The pods, and this one at their end.
pub fn pods_and(alloc: Global, pods: &Seq<Key>, pod: &Key) -> Result<Seq<Key>, AllocError>
    ensures { IfOk result (λ more. more ≡ pods.now ++ pod.now ∷ []) }
{
    let mut more = pods.copy(alloc)?;
    push_copy(alloc, &mut more, pod)?;
    Ok(more)
}

/// The pods, and this one if it isn't among them.
fn pods_with(alloc: Global, pods: &Seq<Key>, pod: &Key) -> Result<Seq<Key>, AllocError>
    ensures { IfOk result (λ more. more ≡ with_pod pod.now pods.now) }
{
    if is_among(pods.as_slice(), pod) {
        pods.copy(alloc)
    } else {
        pods_and(alloc, pods, pod)
    }
}

/// The pods but for this one.
pub fn pods_without(alloc: Global, pods: &[Key], pod: &Key) -> Result<Seq<Key>, AllocError>
    ensures { IfOk result (λ left. left ≡ without_pod pod.now pods.now) }
{
    let mut left = Seq::empty(alloc);
    for other in pods {
        if other != pod {
            push_copy(alloc, &mut left, other)?;
        }
    }
    Ok(left)
}

/// The list of one pod.
fn one_pod(alloc: Global, pod: &Key) -> Result<Seq<Key>, AllocError>
    ensures { IfOk result (λ pods. pods ≡ pod.now ∷ []) }
{
    let mut pods = Seq::empty(alloc);
    push_copy(alloc, &mut pods, pod)?;
    Ok(pods)
}

/// The pods of a claim whose preparation begins for a pod.
pub fn pods_to_begin(
    alloc: Global,
    rows: &[Row],
    uid: &str,
    pod: &Key,
) -> Result<Seq<Key>, AllocError>
    ensures { IfOk result (λ pods. pods ≡ begun_pods pod.now (row_of uid.now rows.now)) }
{
    match find_row(rows, uid) {
        None => one_pod(alloc, pod),
        Some(row) => match row.state {
            RowState::Begun => pods_with(alloc, &row.claim.pods, pod),
            RowState::Prepared | RowState::Leaving => one_pod(alloc, pod),
        },
    }
}

/// The name of a device.
fn device_name(alloc: Global, uid: &Text, device: &DeviceId) -> Result<Text, AllocError>
    ensures { IfOk result (λ name. name ≡ name_of uid.now device.now) }
{
    let name = format!(in alloc; "{}/device={uid}-{}", device.driver, device.device)?;
    Text::new(alloc, name)
}

/// The names of a claim's devices, in order.
pub fn device_names(alloc: Global, uid: &Text, devices: &[DeviceId]) -> Result<Names, AllocError>
    ensures { IfOk result (λ names. names ≡ map (name_of uid.now) devices.now) }
{
    let mut names = Seq::empty(alloc);
    for device in devices {
        names.push(device_name(alloc, uid, device)?)?;
    }
    Ok(names)
}

/// Equal fields of a claim, but for its pods.
fn copied_fields(
    alloc: Global,
    uid: &Text,
    key: &Key,
    devices: &Seq<DeviceId>,
) -> Result<(Text, Key, Seq<DeviceId>), AllocError>
    ensures { IfOk result (λ x. (x.0 ≡ uid.now) × (x.1 ≡ key.now) × (x.2 ≡ devices.now)) }
{
    let uid = uid.copy(alloc)?;
    let key = key.copy(alloc)?;
    Ok((uid, key, devices.copy(alloc)?))
}

/// What is recorded of the claim handed in, for these pods.
pub fn claim_for(alloc: Global, claim: &ClaimForNode, pods: &Seq<Key>) -> Result<Claim, AllocError>
    ensures { IfOk result (λ k. k ≡ claim_with claim.now pods.now) }
{
    let pods = pods.copy(alloc)?;
    let (uid, key, devices) = copied_fields(alloc, &claim.uid, &claim.key, &claim.devices)?;
    Ok(Claim {
        uid,
        key,
        pods,
        devices,
    })
}

/// The claim of a row, for these pods.
pub fn claim_for_pods(alloc: Global, claim: &Claim, pods: Seq<Key>) -> Result<Claim, AllocError>
    ensures { IfOk result (λ k. k ≡ with_pods pods claim.now) }
{
    let (uid, key, devices) = copied_fields(alloc, &claim.uid, &claim.key, &claim.devices)?;
    Ok(Claim {
        uid,
        key,
        pods,
        devices,
    })
}
