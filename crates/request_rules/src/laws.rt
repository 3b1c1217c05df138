ghost use Rattle.std.specs.Prelude.{◌≡◌, ◌⊎◌, ◌<◌, ◌+◌, ◌==◌, ℕ, List, IsSome, find, [], ◌∷◌, ◌++◌, ◌&&◌, true, false, None, Some, Contains, length, slice_get, map};
ghost use Rattle.std.specs.List.{flat_map};
ghost use Rattle.request_rules.specs.Grants.{grants_of, named_result};
ghost use Rattle.walk.specs.Walk as walks;
ghost use Rattle.walk.specs.Outcome.{is_full};
ghost use Rattle.walk.specs.Walk.{Faulty, Full, IsBefore, Item, walk};
ghost use Rattle.request_rules.specs.Input.{SearchInput};
ghost use Rattle.request_rules.specs.Asked.{Rule, Slot};
ghost use Rattle.pool_view.specs.Pools.{Offered};
ghost use Rattle.request_rules.specs.Draws.{CounterId, drawn_from, is_covered};
ghost use Rattle.request_rules.specs.Agreeing as agreeing;
ghost use Rattle.request_rules.specs.Lists.{Each};
ghost use Rattle.request_rules.specs.Joining.{seen_all, seen_by};
ghost use Rattle.request_rules.specs.Rules.{Pick, agrees, covers, fills, least_after, may_join, picks, total};
ghost use Rattle.request_rules.specs.Problem.{good, open_slots, problem_of, shape_of};
ghost use Rattle.request_rules.specs.Faults.{FaultPlace, IsFirstFault, fault_of};
ghost use Rattle.request_rules.specs.Allocation.{HoldsOnce, IsAllocation, Result, results_of};

use device_taints::tolerations_are_by_facts;

/// The walk of a search has a full item for a choice and positions if and only if the devices at the
/// positions are an allocation for the choice. The first full item is the least allocation: it comes
/// before all others, by their choices and then by their positions; and where no item is full there
/// is no allocation.
pub fn walk_is_meant()
    ensures full { (w : SearchInput) (x : Item) → Contains (walk (problem_of w)) x → x.mark ≡ Full →
        IsAllocation w x.choice (results_of w x.choice x.positions) }
    ensures every { (w : SearchInput) (c : List ℕ) (rs : List Result) → IsAllocation w c rs →
        (l : List ℕ) × (rs ≡ results_of w c l) × Contains (walk (problem_of w)) (record { choice = c; positions = l; mark = Full }) }
    ensures meant { (w : SearchInput) (c l : List ℕ) → walks.IsAllocation (problem_of w) c l → IsAllocation w c (results_of w c l) }
    ensures placed { (w : SearchInput) (c : List ℕ) (rs : List Result) → IsAllocation w c rs →
        (l : List ℕ) × (rs ≡ results_of w c l) × walks.IsAllocation (problem_of w) c l }
    ensures least { (w : SearchInput) (x : Item) (c : List ℕ) (rs : List Result) → find is_full (walk (problem_of w)) ≡ Some x → IsAllocation w c rs →
        (y : Item) × (y.choice ≡ c) × (rs ≡ results_of w c y.positions) × ((x ≡ y) ⊎ IsBefore x y) }
    ensures none { (w : SearchInput) (c : List ℕ) (rs : List Result) → find is_full (walk (problem_of w)) ≡ None → IsAllocation w c rs → ⊥ }
{
    walk::walk_is_exact();
    tolerations_are_by_facts();
}

/// Each prefix of a good list is good, and one position more is good by the slot that it is for.
pub fn prefixes_are_good()
    ensures none { (w : SearchInput) (c : List ℕ) → good w c [] ≡ true }
    ensures prefix { (w : SearchInput) (c l m : List ℕ) → good w c (l ++ m) ≡ true → good w c l ≡ true }
    ensures push { (w : SearchInput) (c l : List ℕ) (x : ℕ) (s : Slot) → slice_get (open_slots w c) (length l) ≡ Some s →
        good w c (l ++ x ∷ []) ≡ (good w c l && (fills w s (least_after 0 l) x
        && may_join w (picks (open_slots w c) l) (record { label = s.asked.label; position = x }))) }
    ensures past { (w : SearchInput) (c l : List ℕ) (x : ℕ) → slice_get (open_slots w c) (length l) ≡ None → good w c (l ++ x ∷ []) ≡ false }
{}

/// The evaluation error of a choice is that of the first of its requests, in order, that has one, on the first
/// device, in order, on which it has one. There is one if and only if the choice is faulty.
pub fn faults_are_first()
    ensures first { (w : SearchInput) (c : List ℕ) (fault : FaultPlace) → fault_of w c ≡ Some fault → IsFirstFault w c fault }
    ensures found { (w : SearchInput) (c : List ℕ) → shape_of w c ≡ Faulty → IsSome (fault_of w c) }
    ensures faulty { (w : SearchInput) (c : List ℕ) → IsSome (fault_of w c) → shape_of w c ≡ Faulty }
{}

/// The devices that an allocation has without admin access are held by no claim, and none of them is
/// in it twice.
pub fn allocations_hold_once()
    ensures { (w : SearchInput) (c : List ℕ) (rs : List Result) → IsAllocation w c rs → HoldsOnce w rs }
{}

/// What one result more requires of the counters and of the constraints is what `counter_sets` and
/// `constraints` define for its device: the device is covered after what is drawn, and admin access draws
/// nothing; and it agrees with the results of the constraint's claim before it.
pub fn joining_is_by_device()
    ensures covers { (w : SearchInput) (before : List Pick) (p : Pick) (o : Offered) → slice_get w.devices p.position ≡ Some o →
        p.label.admin ≡ false → covers w before p ≡ is_covered w.value (λ k. total w k before) o }
    ensures admin { (w : SearchInput) (before : List Pick) (p : Pick) → p.label.admin ≡ true → covers w before p ≡ true }
    ensures first { (w : SearchInput) (k : CounterId) → total w k [] ≡ w.drawn k }
    ensures draws { (w : SearchInput) (k : CounterId) (before : List Pick) (p : Pick) (o : Offered) → slice_get w.devices p.position ≡ Some o →
        p.label.admin ≡ false → total w k (before ++ p ∷ []) ≡ total w k before + drawn_from k o }
    ensures draws_nothing { (w : SearchInput) (k : CounterId) (before : List Pick) (p : Pick) → p.label.admin ≡ true →
        total w k (before ++ p ∷ []) ≡ total w k before }
    ensures agrees { (w : SearchInput) (r : Rule) (before : List Pick) (p : Pick) (o : Offered) → Each (λ q. q.position < length w.devices) before →
        slice_get w.devices p.position ≡ Some o → r.claim ≡ p.label.claim →
        agrees w r before p ≡ agreeing.agrees r.constraint (seen_all w r before) (seen_by p.label o) }
    ensures others { (w : SearchInput) (r : Rule) (before : List Pick) (p : Pick) → (r.claim == p.label.claim) ≡ false → agrees w r before p ≡ true }
{}

/// The results of an allocation, cut into one grant for each claim, are the claims' own: the grants
/// are those of the claims in order, and their results, one grant after another, are the allocation's
/// with their printed names.
pub fn grants_have_all_results()
    ensures claims { (w : SearchInput) (rs : List Result) → map (λ g. g.claim) (grants_of w rs) ≡ map (λ c. c.key) w.claims }
    ensures results { (w : SearchInput) (c : List ℕ) (rs : List Result) → IsAllocation w c rs →
        flat_map (λ g. g.results) (grants_of w rs) ≡ map named_result rs }
{}
