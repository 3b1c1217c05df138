//! What is printed reads as the object.

ghost use Rattle.std.specs.Prelude.{◌≡◌, ◌≢◌, ◌<◌, ◌≤◌, ◌^◌, [], ◌∷◌, List, Err, Ok, Some, codes, length, true};
ghost use Rattle.object_fields.specs.Fields.{field_error};
ghost use Rattle.object_fields.specs.Limits.{KeyKept};
ghost use Rattle.object_fields.specs.declared.key.Key.{Key};
ghost use Rattle.object_fields.specs.declared.kind.FieldErrorKind.TheVariants.{NotSupported};
ghost use Rattle.object_fields.specs.declared.meta.Scope.TheVariants.{Namespaced};
ghost use Rattle.object_fields.specs.declared.path.Step.TheVariants.{Member};
ghost use Rattle.api_claim.specs.Claims.{claim_of};
ghost use Rattle.api_claim.specs.Limits.{ClaimKept};
ghost use Rattle.api_claim.specs.Status.{results_most, status_of};
ghost use Rattle.api_slice.specs.Slices.{slice_of};
ghost use Rattle.cluster.specs.declared.state.ClaimState.{ClaimState};
ghost use Rattle.cluster.specs.declared.state.Granted.{Granted};
ghost use Rattle.cluster.specs.declared.state.PodState.{PodState};
ghost use Rattle.api_cluster.specs.Classes.{class_of};
ghost use Rattle.api_cluster.specs.Nodes.{node_of};
ghost use Rattle.api_cluster.specs.Pods.{pod_of};
ghost use Rattle.api_print.specs.Classes.{class_json};
ghost use Rattle.api_print.specs.LeftOut.{without_users};
ghost use Rattle.api_print.specs.Nodes.{node_json};
ghost use Rattle.api_print.specs.Pods.{pod_json};
ghost use Rattle.api_print.specs.Slices.{slice_json};
ghost use Rattle.api_print.specs.Status.{claim_json, written_users};
ghost use Rattle.api_print.specs.ReadBack.{claim_read, class_read, node_read, pod_read, slice_read, status_read};

use crate::ranges::slice_in_range;
use api_cluster::{DeviceClass, Node, Pod};
use api_slice::ResourceSlice;

/// The JSON of a node reads as the node, with the version that it has in the state. Allocates nothing.
pub fn node_reads_back(node: &Node, version: u64, uid: u64)
    ensures { node_of (node_json (record { object = node.now; uid = uid; version = version })) ≡ Ok (node_read (record { object = node.now; uid = uid; version = version })) }
{
    node.keeps_limits();
    node.labels.in_order();
}

/// The JSON of a slice reads as the slice, with the version that it has in the state: its name, driver
/// and pool, where its devices are, its counter sets, and of each device its name, attributes,
/// capacities, what it draws from counter sets, its own nodes and its taints. Allocates nothing.
pub fn slice_reads_back(slice: &ResourceSlice, version: u64, uid: u64)
    ensures { slice_of (slice_json (record { object = slice.now; uid = uid; version = version })) ≡ Ok (slice_read (record { object = slice.now; uid = uid; version = version })) }
{
    slice.keeps_limits();
    slice_in_range(slice);
}

/// The JSON of a class reads as the class, with the version that it has in the state. Allocates nothing.
pub fn class_reads_back(class: &DeviceClass, version: u64, uid: u64)
    ensures { class_of (class_json (record { object = class.now; uid = uid; version = version })) ≡ Ok (class_read (record { object = class.now; uid = uid; version = version })) }
{
    class.keeps_limits();
}

/// The JSON of a pod reads as the pod, with the version that it has in the state. Allocates nothing.
pub fn pod_reads_back(pod: &Pod, version: u64, uid: u64)
    ensures { pod_of (pod_json (record { object = pod.now; uid = uid; version = version })) ≡ Ok (pod_read (record { object = pod.now; uid = uid; version = version })) }
{
    pod.keeps_limits();
}

/// The JSON of a claim reads as the claim, with the version that it has in the state, whatever its
/// grant and its users are.
pub fn claim_reads_back()
    ensures { (pods : List (Key × PodState)) (c : ClaimState) → ClaimKept c.claim.object → c.claim.version < 2 ^ 64 → claim_of (claim_json pods c) ≡ Ok (claim_read c.claim) }
{}

/// The JSON of a claim whose grant is published, has 1 to 32 results and no written user, as a status
/// write leaves it, reads as a status with this grant and the claim's version.
pub fn status_reads_back()
    ensures { (pods : List (Key × PodState)) (c : ClaimState) (g : Granted) → c.grant ≡ Some g → g.published ≡ true → written_users pods c.users ≡ [] →
        KeyKept Namespaced c.claim.object.key → c.claim.version < 2 ^ 64 → 1 ≤ length g.results → length g.results ≤ results_most →
        status_of (claim_json pods c) ≡ Ok (status_read c.claim.version g) }
{}

/// The same of a claim that may have users. Without `status.reservedFor` the JSON reads as a status with
/// the grant and the claim's version, whichever pods use the claim. If it has written users, that
/// member is printed, and the status is refused as NotSupported there.
pub fn used_status_reads_back()
    ensures left_out { (pods : List (Key × PodState)) (c : ClaimState) (g : Granted) → c.grant ≡ Some g → g.published ≡ true →
        KeyKept Namespaced c.claim.object.key → c.claim.version < 2 ^ 64 → 1 ≤ length g.results → length g.results ≤ results_most →
        status_of (without_users (claim_json pods c)) ≡ Ok (status_read c.claim.version g) }
    ensures refused { (pods : List (Key × PodState)) (c : ClaimState) (g : Granted) → c.grant ≡ Some g → g.published ≡ true → written_users pods c.users ≢ [] →
        KeyKept Namespaced c.claim.object.key → c.claim.version < 2 ^ 64 → 1 ≤ length g.results → length g.results ≤ results_most →
        status_of (claim_json pods c) ≡ Err (field_error (Member (codes "status") ∷ []) (codes "reservedFor") NotSupported) }
{}
