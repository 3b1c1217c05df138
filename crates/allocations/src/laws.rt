ghost use Rattle.std.specs.Prelude.{◌≡◌, ◌<◌, ◌⊎◌, ℕ, List, Some, Contains, IsSome, find, length, take};
ghost use Rattle.walk.specs.Walk.{Full, Item, IsBefore, Part};
ghost use Rattle.walk.specs.Outcome.{Budget, Unsat, is_full};
ghost use Rattle.api_cluster.specs.declared.types.Pod.{Pod};
ghost use Rattle.cluster.specs.declared.state.State.{State};
ghost use Rattle.cluster.specs.declared.plan.Grant.{Grant};
ghost use Rattle.pool_view.specs.Names.{at_name};
ghost use Rattle.allocations.specs.Claims.{wanted};
ghost use Rattle.cluster.specs.declared.plan.SelectorFault.{SelectorFault};
ghost use Rattle.request_rules.specs.Faults.{FaultPlace, IsFirstFault};
ghost use Rattle.allocations.specs.Input.{grants_at, input_for, outcome_on, selector_fault, walk_on};
ghost use Rattle.allocations.specs.Allocation.{IsAllocation};
ghost use Rattle.allocations.specs.Outcomes.{IsFault, IsUnsat};

use request_rules::walk_is_meant;
use walk::{outcome_is_exact, walk_is_exact};

/// If a search within some budget returns Unsat, the node has no allocation for the pod, and its walk
/// has no evaluation error.
pub fn unsat_is_true()
    ensures { (s : State) (pod : Pod) (node : List ℕ) (b : ℕ) → outcome_on s pod node b ≡ Unsat → IsUnsat s pod node }
{
    walk_is_meant();
    outcome_is_exact();
}

/// If a search ends with its budget, the walk of the node has more items than the budget, and those
/// within it are neither full nor an evaluation error.
pub fn budget_is_true()
    ensures more { (s : State) (pod : Pod) (node : List ℕ) (b : ℕ) → outcome_on s pod node b ≡ Budget → b < length (walk_on s pod node) }
    ensures parts { (s : State) (pod : Pod) (node : List ℕ) (b : ℕ) (x : Item) → outcome_on s pod node b ≡ Budget → Contains (take b (walk_on s pod node)) x → x.mark ≡ Part }
{
    outcome_is_exact();
}

/// The location of an evaluation error is that of the first of the choice's requests, in order, that has one,
/// on the first device, in order, on which it has one; and the search ended at a choice with one.
pub fn faults_are_first()
    ensures { (s : State) (pod : Pod) (b : ℕ) (node : List ℕ) (fault : SelectorFault) (f : IsFault s pod b node fault) →
        (place : FaultPlace) × (selector_fault place ≡ fault) × IsFirstFault (input_for s pod node) f.item.choice place }
{
    request_rules::faults_are_first();
}

/// The walk of a node that exists has a full item for each allocation of the pod's claims on it,
/// with positions of its devices, and no other full items; the first full item comes before the
/// others.
pub fn walk_is_allocations()
    ensures full { (s : State) (pod : Pod) (node : List ℕ) (x : Item) → IsSome (at_name s.inventory.nodes node) → Contains (walk_on s pod node) x → x.mark ≡ Full →
        IsAllocation s (wanted s pod) node x.choice (grants_at (input_for s pod node) x) }
    ensures every { (s : State) (pod : Pod) (node choice : List ℕ) (grants : List Grant) → IsAllocation s (wanted s pod) node choice grants →
        (x : Item) × (x.choice ≡ choice) × (x.mark ≡ Full) × Contains (walk_on s pod node) x × (grants ≡ grants_at (input_for s pod node) x) }
    ensures least { (s : State) (pod : Pod) (node : List ℕ) (x y : Item) → find is_full (walk_on s pod node) ≡ Some x →
        Contains (walk_on s pod node) y → y.mark ≡ Full → (x ≡ y) ⊎ IsBefore x y }
{
    walk_is_meant();
    walk_is_exact();
}
