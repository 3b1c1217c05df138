ghost use Rattle.std.specs.Prelude.{◌≡◌, ◌+◌, ◌==◌, ◌++◌, ◌∷◌, [], ℕ, List, length, if◌then◌else◌};
ghost use Rattle.object_fields.specs.declared.key.Key.{Key};
ghost use Rattle.cluster.specs.declared.state.State.{State};
ghost use Rattle.cluster.specs.declared.plan.Plan.{Plan};
ghost use Rattle.plan_rules.specs.Plans.{PlanTrue};
ghost use Rattle.cluster.specs.State.{empty_state};
ghost use Rattle.cluster.specs.Reserved.{with_reserved};
ghost use Rattle.cluster.specs.declared.entry.Entry.{Entry};
ghost use Rattle.cluster.specs.declared.entry.JobState.{JobState};
ghost use Rattle.cluster.specs.Events.{after, job_state_after};
ghost use Rattle.cluster.specs.State.{claims_of};
ghost use Rattle.histories.specs.GoesOn.{GoesOn};
ghost use Rattle.cluster.specs.History.{state_of, job_state_of};

/// What one entry more does to the state after a history, and to the state of each job.
pub fn histories_grow()
    ensures state { (h : List Entry) (e : Entry) → state_of (h ++ e ∷ []) ≡ after (length h + 1) e.job e.event (state_of h) }
    ensures job_state { (h : List Entry) (e : Entry) (job : ℕ) → job_state_of (h ++ e ∷ []) job ≡ (if e.job == job then job_state_after (job_state_of h job) (length h + 1) e.event else job_state_of h job) }
    ensures start { (job : ℕ) → job_state_of [] job ≡ JobState.Fresh }
{}

/// A job that has reserved by a true plan may write each of the pod's uses, and then bind the pod to
/// the plan's node.
pub fn reserved_goes_on()
    ensures { (s : State) (pod : Key) (plan : Plan) (job : ℕ) (t : PlanTrue s pod plan) →
        GoesOn (with_reserved job pod plan s) pod job plan.node (claims_of t.state) }
{}
