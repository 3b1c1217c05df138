ghost use Rattle.std.specs.Prelude.{◌≡◌};
ghost use Rattle.std.specs.List.{list_any};
ghost use Rattle.pool_view.specs.Visibility.{are_on, own_are_on, sees_slice};

use api_cluster::Node;
use api_slice::{Device, Nodes, ResourceSlice, SliceNodes};

/// Whether a node is one of these: the one that is named, one whose name and labels are selected, or any
/// (API reference of `resource.k8s.io/v1`). Allocates nothing.
pub fn are_on(nodes: &Nodes, node: &Node) -> bool
    ensures { result ≡ are_on nodes.now node.now }
{
    match nodes {
        Nodes::Named(name) => *name == node.name,
        Nodes::Selected(selector) => selector.matches(node.name.as_str(), &node.labels),
        Nodes::All => true,
    }
}

/// Whether a device is on a node by its own field. Allocates nothing.
pub fn own_are_on(device: &Device, node: &Node) -> bool
    ensures { result ≡ own_are_on device.now.nodes node.now }
{
    match &device.nodes {
        Some(nodes) => are_on(nodes, node),
        None => false,
    }
}

fn any_own(devices: &[Device], node: &Node) -> bool
    ensures { result ≡ list_any (λ d. own_are_on d.nodes node.now) devices.now }
{
    for device in devices {
        if own_are_on(device, node) {
            return true;
        }
    }
    false
}

/// Whether the node sees a slice: by the slice's `nodeName`, `nodeSelector` or `allNodes`, or one of its
/// devices by the device's own if the slice has `perDeviceNodeSelection`. Allocates nothing.
#[tactic(auto, using(crate::proofs::SliceFields::seen_by_field))]
pub fn sees_slice(node: &Node, slice: &ResourceSlice) -> bool
    ensures { result ≡ sees_slice node.now slice.now }
{
    match &slice.nodes {
        SliceNodes::Nodes(nodes) => are_on(nodes, node),
        SliceNodes::PerDevice => any_own(slice.devices.as_slice(), node),
    }
}
