ghost use Rattle.std.specs.Prelude.{◌≡◌, ℕ, List, Some, Contains};
ghost use Rattle.object_fields.specs.declared.key.DeviceId.{DeviceId};
ghost use Rattle.object_fields.specs.declared.key.Key.{Key};
ghost use Rattle.api_cluster.specs.declared.types.Pod.{Pod};
ghost use Rattle.pool_view.specs.Names.{at_key};
ghost use Rattle.cluster.specs.declared.object.Object.{Object};
ghost use Rattle.cluster.specs.declared.object.Target.{Target};
ghost use Rattle.cluster.specs.declared.plan.Plan.{Plan};
ghost use Rattle.cluster.specs.declared.state.ClaimState.{ClaimState};
ghost use Rattle.cluster.specs.declared.state.State.{State};
ghost use Rattle.cluster.specs.Applied.{with_object};
ghost use Rattle.cluster.specs.Bound.{with_bound};
ghost use Rattle.cluster.specs.Deleted.{without_object};
ghost use Rattle.cluster.specs.Held.{HeldOnce, held_by};
ghost use Rattle.cluster.specs.Released.{with_released};
ghost use Rattle.cluster.specs.Reserved.{with_reserved};
ghost use Rattle.cluster.specs.State.{empty_state};
ghost use Rattle.cluster.specs.Unreserved.{with_unreserved};
ghost use Rattle.cluster.specs.Wrote.{with_written};
ghost use Rattle.allocations.specs.Claims.{wanted};
ghost use Rattle.allocations.specs.Allocation.{IsAllocation};

use request_rules::allocations_hold_once;

/// If each device has one holder, it has one after a plan is reserved whose grants are an allocation of
/// the pod's claims without a grant, however many claims it grants or joins.
pub fn grants_hold_once()
    ensures { (s : State) (job : ℕ) (pod : Key) (p : Pod) (plan : Plan) (choice : List ℕ) →
        IsAllocation s (wanted s p) plan.node choice plan.grants → HeldOnce s → HeldOnce (with_reserved job pod plan s) }
{
    allocations_hold_once();
}

/// Each device has one holder in the empty state, and each change that grants nothing preserves this.
pub fn changes_hold_once()
    ensures empty { HeldOnce empty_state }
    ensures applied { (place : ℕ) (object : Object) (s : State) → HeldOnce s → HeldOnce (with_object place object s) }
    ensures deleted { (target : Target) (s : State) → HeldOnce s → HeldOnce (without_object target s) }
    ensures unreserved { (place : ℕ) (pod : Key) (s : State) → HeldOnce s → HeldOnce (with_unreserved place pod s) }
    ensures released { (place : ℕ) (pod : Key) (s : State) → HeldOnce s → HeldOnce (with_released place pod s) }
    ensures written { (place : ℕ) (pod claim : Key) (s : State) → HeldOnce s → HeldOnce (with_written place pod claim s) }
    ensures bound { (pod : Key) (node : List ℕ) (s : State) → HeldOnce s → HeldOnce (with_bound pod node s) }
{}

/// If each device has one holder, two claims that hold the same device are the same claim.
pub fn holders_are_one_claim()
    ensures { (s : State) (k l : Key) (c b : ClaimState) (d : DeviceId) → HeldOnce s → at_key s.claims k ≡ Some c → at_key s.claims l ≡ Some b →
        Contains (held_by c.grant) d → Contains (held_by b.grant) d → k ≡ l }
{}
