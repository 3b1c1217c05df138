ghost use Rattle.std.specs.Prelude.{◌≡◌, ◌++◌, IfOk, filter, map};
ghost use Rattle.std.specs.List.{flat_map, list_any};
ghost use Rattle.pool_view.specs.Pools.{offered_by};
ghost use Rattle.pool_view.specs.Visibility.{offered_to, own_are_on, sees_slice};

use crate::device::DeviceRef;
use crate::slice_ref::SliceRef;
use crate::visible::{are_on, own_are_on, sees_slice};
use api_cluster::Node;
use api_slice::{ResourceSlice, SliceNodes};
use dra_values::Seq;
use std::alloc::{AllocError, Global};

/// Puts all devices of a slice at the end, in order.
fn push_each<'a>(out: &mut Seq<DeviceRef<'a>>, slice: &'a ResourceSlice) -> Result<(), AllocError>
    ensures { IfOk result (λ _. out.new ≡ out.old ++ map (offered_by slice.now) slice.now.devices) }
{
    for device in slice.devices.as_slice() {
        out.push(DeviceRef::of(slice, device))?;
    }
    Ok(())
}

/// Puts those devices of a slice at the end, in order, that are on a node by their own fields.
fn push_own<'a>(
    out: &mut Seq<DeviceRef<'a>>,
    node: &Node,
    slice: &'a ResourceSlice,
) -> Result<(), AllocError>
    ensures { IfOk result (λ _. out.new ≡ out.old ++ map (offered_by slice.now) (filter (λ d. own_are_on d.nodes node.now) slice.now.devices)) }
{
    for device in slice.devices.as_slice() {
        if own_are_on(device, node) {
            out.push(DeviceRef::of(slice, device))?;
        }
    }
    Ok(())
}

/// Puts the devices of a slice that a node sees at the end, in order. The slice's own field is evaluated
/// once.
#[tactic(auto, using(crate::proofs::SliceFields::offered_if_on, crate::proofs::SliceFields::nothing_if_off, crate::proofs::SliceFields::offered_by_device))]
pub fn push_seen<'a>(
    out: &mut Seq<DeviceRef<'a>>,
    node: &Node,
    slice: &'a ResourceSlice,
) -> Result<(), AllocError>
    ensures { IfOk result (λ _. out.new ≡ out.old ++ offered_to node.now slice.now) }
{
    match &slice.nodes {
        SliceNodes::PerDevice => push_own(out, node, slice),
        SliceNodes::Nodes(nodes) => {
            if are_on(nodes, node) {
                push_each(out, slice)
            } else {
                Ok(())
            }
        }
    }
}

/// The devices of slices that a node sees, in order.
pub fn devices_seen<'a>(
    alloc: Global,
    node: &Node,
    slices: &[SliceRef<'a>],
) -> Result<Seq<DeviceRef<'a>>, AllocError>
    ensures { IfOk result (λ devices. devices ≡ flat_map (offered_to node.now) slices.now) }
{
    let mut devices = Seq::empty(alloc);
    for slice in slices {
        push_seen(&mut devices, node, slice.get())?;
    }
    Ok(devices)
}

/// Whether a node sees one of the slices.
pub fn are_seen(node: &Node, slices: &[SliceRef<'_>]) -> bool
    ensures { result ≡ list_any (sees_slice node.now) slices.now }
{
    for slice in slices {
        if sees_slice(node, slice.get()) {
            return true;
        }
    }
    false
}
