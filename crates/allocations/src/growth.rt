ghost use Rattle.std.specs.Prelude.{◌≡◌, ℕ, List, [], None, Some, true, false};
ghost use Rattle.std.specs.List.{list_any};
ghost use Rattle.object_fields.specs.declared.key.DeviceId.{DeviceId};
ghost use Rattle.object_fields.specs.declared.key.Key.{Key};
ghost use Rattle.api_claim.specs.declared.types.ClaimStatus.{ClaimStatus};
ghost use Rattle.api_claim.specs.declared.types.ResourceClaim.{ResourceClaim};
ghost use Rattle.api_cluster.specs.declared.types.Pod.{Pod};
ghost use Rattle.cluster.specs.declared.object.Object.{Object};
ghost use Rattle.cluster.specs.declared.object.Target.{Target};
ghost use Rattle.cluster.specs.declared.plan.Plan.{Plan};
ghost use Rattle.cluster.specs.declared.state.ClaimState.{ClaimState};
ghost use Rattle.cluster.specs.declared.state.State.{State};
ghost use Rattle.cluster.specs.Adopted.{with_adopted};
ghost use Rattle.cluster.specs.Applied.{with_object};
ghost use Rattle.cluster.specs.Bound.{with_bound};
ghost use Rattle.cluster.specs.Deleted.{without_object};
ghost use Rattle.cluster.specs.Freed.{without_uses};
ghost use Rattle.cluster.specs.Reserved.{with_reserved};
ghost use Rattle.cluster.specs.Wrote.{with_written};
ghost use Rattle.pool_view.specs.declared.names.PoolName.{PoolName};
ghost use Rattle.pool_view.specs.Names.{at_key};
ghost use Rattle.request_rules.specs.Lists.{add_some};
ghost use Rattle.request_rules.specs.Growth.{specs_of};
ghost use Rattle.walk.specs.Outcome.{Unsat};
ghost use Rattle.allocations.specs.Allocation.{IsAllocation};
ghost use Rattle.allocations.specs.Claims.{other_claim, wanted};
ghost use Rattle.allocations.specs.Growth.{Grown, KeepsBut, KeepsHeld, SameObjects, StaysHeld, StaysHeldFor, is_in_pool};
ghost use Rattle.allocations.specs.Input.{outcome_on};
ghost use Rattle.allocations.specs.Lacking.{Dates, IsLacking, IsSince, Lacking, outcome_for};
ghost use Rattle.allocations.specs.Lost.{devices_of, lost_of, lost_with};
ghost use Rattle.allocations.specs.Outcomes.{FindsNone};

use request_rules::{fuller_inputs_are_narrower, matches_are_by_selectors, more_held_draw_more};

/// If a search of a node within a budget returned Unsat, it still does where claims only hold more, for each pod whose
/// claims without a grant ask for the same in the same order, whatever their names.
pub fn unsat_goes_on()
    ensures claims { (s t : State) (claims others : List ResourceClaim) (node : List ℕ) (b : ℕ) → specs_of others ≡ specs_of claims →
        Grown s t claims node → outcome_for s claims node b ≡ Unsat → outcome_for t others node b ≡ Unsat }
    ensures outcome { (s t : State) (pod other : Pod) (node : List ℕ) (b : ℕ) → specs_of (wanted t other) ≡ specs_of (wanted s pod) →
        Grown s t (wanted s pod) node → outcome_on s pod node b ≡ Unsat → outcome_on t other node b ≡ Unsat }
    ensures found { (s t : State) (pod other : Pod) (node : List ℕ) (b : ℕ) → specs_of (wanted t other) ≡ specs_of (wanted s pod) →
        Grown s t (wanted s pod) node → FindsNone s pod b node → other_claim t other node ≡ None → FindsNone t other b node }
{
    fuller_inputs_are_narrower();
    matches_are_by_selectors();
}

/// Nothing has to change, one growth after another is a growth, and there is one if nodes, slices and classes are the
/// same and each device that was held, of the pools that the node sees, is held.
pub fn growth_adds_up()
    ensures none { (s : State) (claims : List ResourceClaim) (node : List ℕ) → Grown s s claims node }
    ensures both { (r s t : State) (claims : List ResourceClaim) (node : List ℕ) → Grown r s claims node → Grown s t claims node → Grown r t claims node }
    ensures held { (s t : State) (claims : List ResourceClaim) (node : List ℕ) → SameObjects s t → KeepsHeld s t → Grown s t claims node }
    ensures pools { (s t : State) (claims : List ResourceClaim) (node : List ℕ) → SameObjects s t → StaysHeldFor s t node → Grown s t claims node }
{
    more_held_draw_more();
}

/// A change keeps all devices held, if it deletes nothing and takes no pod's uses away, and what it grants, it grants to
/// claims without a grant.
pub fn changes_keep_held()
    ensures applied { (index : ℕ) (object : Object) (s : State) → KeepsHeld s (with_object index object s) }
    ensures reserved { (s : State) (job : ℕ) (pod : Key) (p : Pod) (plan : Plan) (choice : List ℕ) →
        IsAllocation s (wanted s p) plan.node choice plan.grants → KeepsHeld s (with_reserved job pod plan s) }
    ensures written { (index : ℕ) (pod claim : Key) (s : State) → KeepsHeld s (with_written index pod claim s) }
    ensures bound { (pod : Key) (node : List ℕ) (s : State) → KeepsHeld s (with_bound pod node s) }
    ensures adopted { (index : ℕ) (claim : Key) (status : ClaimStatus) (s : State) (c : ClaimState) → at_key s.claims claim ≡ Some c → c.grant ≡ None →
        KeepsHeld s (with_adopted index claim status s) }
{}

/// If a pod's uses are taken away or an object is deleted, only the devices of the grants that go with them may be free.
/// The devices of a pool stay held, if none of those that may be free is of the pool.
pub fn losses_are_told()
    ensures uses { (index : ℕ) (pod : Key) (s : State) → KeepsBut s (without_uses index pod s) (devices_of (lost_with s pod)) }
    ensures object { (t : Target) (s : State) → KeepsBut s (without_object t s) (devices_of (add_some (lost_of s t) [])) }
    ensures pool { (s t : State) (lost : List DeviceId) (pool : PoolName) → KeepsBut s t lost →
        list_any (is_in_pool pool) lost ≡ false → StaysHeld s t pool }
{}

/// What a search found is known from then on, whatever the index and the dates.
pub fn lacking_is_found()
    ensures found { (s : State) (d : Dates) (pod : Pod) (node : List ℕ) (b index : ℕ) → outcome_on s pod node b ≡ Unsat →
        IsLacking s d (record { specs = specs_of (wanted s pod); budget = b; node = node; index = index }) }
    ensures used { (s : State) (d : Dates) (pod : Pod) (row : Lacking) → IsLacking s d row → IsSince s d row.node row.index → specs_of (wanted s pod) ≡ row.specs →
        outcome_on s pod row.node row.budget ≡ Unsat }
{
    unsat_goes_on();
    growth_adds_up();
}
