ghost use Rattle.object_fields.specs.declared.key.Key.{Key};
ghost use Rattle.cluster.specs.declared.plan.Plan.{Plan};
ghost use Rattle.cluster.specs.declared.state.State.{State};
ghost use Rattle.plan_rules.specs.Plans.{Holds, PlanTrue};

use allocations::walk_is_allocations;

/// A true plan holds at the state that it was made for: its grants are an allocation of the pod's
/// claims there.
pub fn plan_holds()
    ensures { (s : State) (pod : Key) (plan : Plan) → PlanTrue s pod plan → Holds s pod plan }
{
    walk_is_allocations();
}
