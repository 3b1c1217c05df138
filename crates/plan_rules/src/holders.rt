ghost use Rattle.std.specs.Prelude.{◌≡◌, ℕ, List, [], ◌∷◌, None, Some};
ghost use Rattle.object_fields.specs.declared.key.Key.{Key};
ghost use Rattle.api_claim.specs.declared.types.ClaimStatus.{ClaimStatus};
ghost use Rattle.pool_view.specs.Names.{at_key};
ghost use Rattle.cluster.specs.declared.object.Object.{Object};
ghost use Rattle.cluster.specs.declared.object.Target.{Target};
ghost use Rattle.cluster.specs.declared.plan.Plan.{Plan};
ghost use Rattle.cluster.specs.declared.state.ClaimState.{ClaimState};
ghost use Rattle.cluster.specs.declared.state.State.{State};
ghost use Rattle.cluster.specs.Adopted.{with_adopted};
ghost use Rattle.cluster.specs.Applied.{with_object};
ghost use Rattle.cluster.specs.Bound.{with_bound};
ghost use Rattle.cluster.specs.Deleted.{without_object};
ghost use Rattle.cluster.specs.Held.{HeldOnce};
ghost use Rattle.cluster.specs.Released.{with_released};
ghost use Rattle.cluster.specs.Reserved.{with_reserved};
ghost use Rattle.cluster.specs.State.{empty_state};
ghost use Rattle.cluster.specs.Unreserved.{with_unreserved};
ghost use Rattle.cluster.specs.Wrote.{with_written};
ghost use Rattle.allocations.specs.Allocation.{IsAllocation};
ghost use Rattle.plan_rules.specs.Failing.{granted_by};
ghost use Rattle.plan_rules.specs.Plans.{Holds};

use allocations::{changes_hold_once, grants_hold_once};

/// Each device has one holder: it is so if there is nothing yet, and every change keeps it so. A
/// change that reserves keeps it if the plan holds, however many claims the plan grants or joins; one
/// that adopts a claim if this had no grant and the status is an allocation of it.
pub fn one_holder_is_kept()
    ensures empty { HeldOnce empty_state }
    ensures applied { (index : ℕ) (object : Object) (s : State) → HeldOnce s → HeldOnce (with_object index object s) }
    ensures deleted { (target : Target) (s : State) → HeldOnce s → HeldOnce (without_object target s) }
    ensures reserved { (s : State) (job : ℕ) (pod : Key) (plan : Plan) → Holds s pod plan → HeldOnce s → HeldOnce (with_reserved job pod plan s) }
    ensures unreserved { (index : ℕ) (pod : Key) (s : State) → HeldOnce s → HeldOnce (with_unreserved index pod s) }
    ensures released { (index : ℕ) (pod : Key) (s : State) → HeldOnce s → HeldOnce (with_released index pod s) }
    ensures adopted { (s : State) (index : ℕ) (claim : Key) (status : ClaimStatus) (c : ClaimState) (choice : List ℕ) → at_key s.claims claim ≡ Some c → c.grant ≡ None →
        IsAllocation s (record c.claim.object { key = claim } ∷ []) status.node choice (granted_by claim status ∷ []) → HeldOnce s → HeldOnce (with_adopted index claim status s) }
    ensures written { (index : ℕ) (pod claim : Key) (s : State) → HeldOnce s → HeldOnce (with_written index pod claim s) }
    ensures bound { (pod : Key) (node : List ℕ) (s : State) → HeldOnce s → HeldOnce (with_bound pod node s) }
{
    changes_hold_once();
    grants_hold_once();
}
