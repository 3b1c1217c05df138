ghost use Rattle.std.specs.Prelude.{◌≡◌, ◌↔◌, ℕ, List, [], ◌∷◌, Option, None, Some};
ghost use Rattle.object_fields.specs.declared.key.Key.{Key};
ghost use Rattle.api_claim.specs.declared.types.ClaimStatus.{ClaimStatus};
ghost use Rattle.pool_view.specs.Names.{at_key};
ghost use Rattle.cluster.specs.declared.failure.Failure.{Failure};
ghost use Rattle.cluster.specs.declared.plan.Plan.{Plan};
ghost use Rattle.cluster.specs.declared.state.ClaimState.{ClaimState};
ghost use Rattle.cluster.specs.declared.state.PodState.{PodState};
ghost use Rattle.cluster.specs.declared.state.State.{State};
ghost use Rattle.allocations.specs.Allocation.{IsAllocation};
ghost use Rattle.allocations.specs.Claims.{wanted};
ghost use Rattle.plan_rules.specs.Failing.{failing, failing_status, granted_by};
ghost use Rattle.plan_rules.specs.Fits.{FitsPod, IsAllocated, IsOfPod, IsStatusAllocated};
ghost use Rattle.plan_rules.specs.Meant.{KeepLimits, KnewItsPod};
ghost use Rattle.plan_rules.specs.Says.{GrantsSay, PlanSays};

use constraints::results_keep_constraint;
use device_taints::tolerations_are_by_facts;
use pool_view::devices_of_a_view_differ;
use request_rules::faults_are_first;

/// The grants of a plan without a failure are an allocation of the claims that the pod needs, on the
/// plan's node; and so is what a status write without a failure grants to its claim.
pub fn checked_is_allocation()
    ensures plan { (s : State) (pod : Key) (plan : Plan) (p : PodState) → at_key s.pods pod ≡ Some p → failing s pod plan ≡ None →
        (choice : List ℕ) × IsAllocation s (wanted s p.pod.object) plan.node choice plan.grants }
    ensures status { (s : State) (claim : Key) (status : ClaimStatus) (c : ClaimState) → at_key s.claims claim ≡ Some c → failing_status s claim status ≡ None →
        (choice : List ℕ) × IsAllocation s (record c.claim.object { key = claim } ∷ []) status.node choice (granted_by claim status ∷ []) }
{
    results_keep_constraint();
    tolerations_are_by_facts();
}

/// The pod of a plan without a failure exists with the uid that the plan knew, and each claim that it
/// knew exists as it knew it, and has room for the pod.
pub fn checked_is_known()
    ensures { (s : State) (pod : Key) (plan : Plan) → failing s pod plan ≡ None → (p : PodState) × FitsPod s pod p plan }
{}

/// A plan for a pod that fits it has no failure if its grants are an allocation of the claims that the
/// pod needs, on the plan's node; nor has a status write whose results are one of its claim. The claims
/// of the state keep the limits of their API.
pub fn allocations_pass()
    ensures plan { (s : State) (pod : Key) (plan : Plan) (p : PodState) (choice : List ℕ) → KeepLimits s → FitsPod s pod p plan → IsAllocation s (wanted s p.pod.object) plan.node choice plan.grants →
        failing s pod plan ≡ None }
    ensures status { (s : State) (claim : Key) (status : ClaimStatus) (c : ClaimState) (choice : List ℕ) → KeepLimits s → at_key s.claims claim ≡ Some c →
        IsAllocation s (record c.claim.object { key = claim } ∷ []) status.node choice (granted_by claim status ∷ []) → failing_status s claim status ≡ None }
{
    results_keep_constraint();
    tolerations_are_by_facts();
    devices_of_a_view_differ();
}

/// What a failure of a plan means for the state and the plan, and what one of a status write means.
pub fn failures_are_true()
    ensures plan { (s : State) (pod : Key) (plan : Plan) (f : Failure) → failing s pod plan ≡ Some f → PlanSays s pod plan f }
    ensures status { (s : State) (claim : Key) (status : ClaimStatus) (c : ClaimState) (f : Failure) → at_key s.claims claim ≡ Some c → failing_status s claim status ≡ Some f →
        GrantsSay s (record c.claim.object { key = claim } ∷ []) status.node (granted_by claim status ∷ []) f }
{
    results_keep_constraint();
    tolerations_are_by_facts();
    faults_are_first();
}

/// A plan is of the pod as it is now if and only if it knew just the pod's claims and fits the pod.
pub fn fitting_is_of_pod()
    ensures of_pod { (s : State) (pod : Key) (p : PodState) (plan : Plan) → KnewItsPod p plan → FitsPod s pod p plan → IsOfPod s pod p plan }
    ensures fits { (s : State) (pod : Key) (p : PodState) (plan : Plan) → IsOfPod s pod p plan → KnewItsPod p plan × FitsPod s pod p plan }
{}

/// A plan has no failure if and only if its pod exists with the uid that the plan knew, each claim that it
/// knew exists as it knew it and has room for the pod, and its grants are an allocation, on its node, of the
/// claims that the pod needs. A status write has none if and only if its results are an allocation of its
/// claim, on its node. The claims of the state keep the limits of their API.
pub fn unfailing_is_allocated()
    ensures plan { (s : State) (pod : Key) (plan : Plan) → KeepLimits s → failing s pod plan ≡ None ↔ IsAllocated s pod plan }
    ensures status { (s : State) (claim : Key) (status : ClaimStatus) (c : ClaimState) → KeepLimits s → at_key s.claims claim ≡ Some c →
        failing_status s claim status ≡ None ↔ IsStatusAllocated s claim c status }
{
    checked_is_allocation();
    checked_is_known();
    allocations_pass();
}
