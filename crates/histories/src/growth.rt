ghost use Rattle.std.specs.Prelude.{◌≡◌, ◌≤◌, ◌+◌, ◌++◌, ◌∷◌, [], ℕ, List, None, length, if◌then◌else◌};
ghost use Rattle.api_claim.specs.declared.types.ResourceClaim.{ResourceClaim};
ghost use Rattle.api_cluster.specs.declared.types.Pod.{Pod};
ghost use Rattle.pool_view.specs.declared.names.PoolName.{PoolName};
ghost use Rattle.pool_view.specs.Usable.{node_devices, pool_named};
ghost use Rattle.cluster.specs.declared.entry.Entry.{Entry};
ghost use Rattle.cluster.specs.declared.state.State.{State};
ghost use Rattle.cluster.specs.History.{state_at, state_of};
ghost use Rattle.request_rules.specs.Growth.{specs_of};
ghost use Rattle.request_rules.specs.Lists.{Each};
ghost use Rattle.allocations.specs.Claims.{other_claim, wanted};
ghost use Rattle.allocations.specs.Growth.{Grown, SameObjects, StaysHeld};
ghost use Rattle.allocations.specs.Lacking.{Dates, IsLacking, Lacking};
ghost use Rattle.allocations.specs.Outcomes.{FindsNone};
ghost use Rattle.histories.specs.Growth.{AreDatesOf, changes_objects, freed_at, may_free, objects_at};
ghost use Rattle.histories.specs.Legal.{Legal};

use allocations::{changes_keep_held, growth_adds_up, losses_are_told, unsat_goes_on};
use plan_rules::checked_is_allocation;

/// What one entry more does to the index of the last change of nodes, slices and classes, and to that of the last entry
/// that may have freed a device of a pool. Neither is past the history, and neither falls as the history grows.
pub fn dates_grow()
    ensures start { objects_at [] ≡ 0 }
    ensures objects { (h : List Entry) (e : Entry) → objects_at (h ++ e ∷ []) ≡ (if changes_objects e.event then length h + 1 else objects_at h) }
    ensures none_freed { (pool : PoolName) → freed_at [] pool ≡ 0 }
    ensures freed { (h : List Entry) (e : Entry) (pool : PoolName) →
        freed_at (h ++ e ∷ []) pool ≡ (if may_free (state_of h) e.event pool then length h + 1 else freed_at h pool) }
    ensures objects_within { (h : List Entry) → objects_at h ≤ length h }
    ensures freed_within { (h : List Entry) (pool : PoolName) → freed_at h pool ≤ length h }
    ensures objects_rise { (h more : List Entry) → objects_at h ≤ objects_at (h ++ more) }
    ensures freed_rise { (h more : List Entry) (pool : PoolName) → freed_at h pool ≤ freed_at (h ++ more) pool }
{}

/// In a legal history the nodes, slices and classes are what they were at each index since their last change, and the
/// devices of a pool that were held at an index since the last entry that may have freed one are held.
pub fn held_since_dates()
    ensures objects { (h : List Entry) (index : ℕ) → Legal h → index ≤ length h → objects_at h ≤ index → SameObjects (state_at h index) (state_of h) }
    ensures pool { (h : List Entry) (index : ℕ) (pool : PoolName) → Legal h → index ≤ length h → freed_at h pool ≤ index → StaysHeld (state_at h index) (state_of h) pool }
{
    changes_keep_held();
    losses_are_told();
    checked_is_allocation();
}

/// If nodes, slices and classes haven't changed since an index of a legal history, and no entry since may have freed a
/// device of a pool whose devices the node sees, then claims only hold more there: a node on which a search within a
/// budget found neither an allocation nor an evaluation error still has none for pods that ask for the same.
pub fn nodes_stay_without_allocation()
    ensures grown { (h : List Entry) (index : ℕ) (claims : List ResourceClaim) (node : List ℕ) → Legal h → index ≤ length h → objects_at h ≤ index →
        Each (λ o. freed_at h (pool_named o.slice) ≤ index) (node_devices (state_of h).inventory node) →
        Grown (state_at h index) (state_of h) claims node }
    ensures found { (h : List Entry) (index budget : ℕ) (pod other : Pod) (node : List ℕ) → Legal h → index ≤ length h → objects_at h ≤ index →
        Each (λ o. freed_at h (pool_named o.slice) ≤ index) (node_devices (state_of h).inventory node) →
        specs_of (wanted (state_of h) other) ≡ specs_of (wanted (state_at h index) pod) →
        FindsNone (state_at h index) pod budget node → other_claim (state_of h) other node ≡ None → FindsNone (state_of h) other budget node }
{
    held_since_dates();
    growth_adds_up();
    unsat_goes_on();
}

/// What is known of a node, of an index that the history has had, stays true as the history grows, by the dates of the
/// longer history.
pub fn lacking_goes_on()
    ensures { (h more : List Entry) (d later : Dates) (row : Lacking) → Legal (h ++ more) → AreDatesOf h d → AreDatesOf (h ++ more) later →
        row.index ≤ length h → IsLacking (state_of h) d row → IsLacking (state_of (h ++ more)) later row }
{
    dates_grow();
    held_since_dates();
    nodes_stay_without_allocation();
    unsat_goes_on();
}
