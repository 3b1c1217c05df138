//! Laws of what is read.

ghost use Rattle.std.specs.Prelude.{◌≡◌, Ok};
ghost use Rattle.serde_json.specs.Data.{Data};
ghost use Rattle.api_cluster.specs.Classes.{class_of};
ghost use Rattle.api_cluster.specs.Limits.{ClassKept, NodeKept, PodKept};
ghost use Rattle.api_cluster.specs.Nodes.{node_of};
ghost use Rattle.api_cluster.specs.Pods.{pod_of};
ghost use Rattle.api_cluster.specs.declared.types.DeviceClass.{DeviceClass};
ghost use Rattle.api_cluster.specs.declared.types.Node.{Node};
ghost use Rattle.api_cluster.specs.declared.types.Pod.{Pod};

use crate::types::PodResourceClaim;
use dra_values::Text;
use object_fields::{lists_keep_limits, metadata_keeps_limits};

/// Each node, class and pod that is read keeps the limits and name rules of the API references of
/// `v1` and of `resource.k8s.io/v1`: the names and namespaces of their metadata, at most 32
/// selectors of a class, and at most 32 claims of a pod.
pub fn limits_are_kept()
    ensures node { (d : Data) (node : Node) → node_of d ≡ Ok node → NodeKept node }
    ensures class { (d : Data) (class : DeviceClass) → class_of d ≡ Ok class → ClassKept class }
    ensures pod { (d : Data) (pod : Pod) → pod_of d ≡ Ok pod → PodKept pod }
{
    metadata_keeps_limits();
    lists_keep_limits::<Text>();
    lists_keep_limits::<PodResourceClaim>();
}
