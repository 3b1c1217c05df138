ghost use Rattle.std.specs.Prelude.{◌≡◌, ℕ};
ghost use Rattle.object_fields.specs.declared.key.Key.{Key};
ghost use Rattle.cluster.specs.declared.plan.Plan.{Plan};
ghost use Rattle.cluster.specs.declared.plan.Verdict.{Verdict};
ghost use Rattle.cluster.specs.declared.state.State.{State};
ghost use Rattle.plan_rules.specs.Decided.{IsPlanWithin, IsVerdictWithin};

/// What is decided on a pod is unique: of one state, pod, budget and index there are no two true plans
/// that searches within the budget find, no two such verdicts, and not one of each.
pub fn decisions_are_unique()
    ensures plans { (s : State) (pod : Key) (budget : ℕ) (p q : Plan) → IsPlanWithin s pod budget p → IsPlanWithin s pod budget q → p.at ≡ q.at → p ≡ q }
    ensures verdicts { (s : State) (pod : Key) (budget : ℕ) (v w : Verdict) → IsVerdictWithin s pod budget v → IsVerdictWithin s pod budget w → v.at ≡ w.at → v ≡ w }
    ensures apart { (s : State) (pod : Key) (budget : ℕ) (p : Plan) (v : Verdict) → IsPlanWithin s pod budget p → IsVerdictWithin s pod budget v → ⊥ }
{}
