//! What is known of a plan at the state that it was made for.

ghost use Rattle.std.specs.Prelude.{◌≡◌, List, None};
ghost use Rattle.object_fields.specs.declared.key.Key.{Key};
ghost use Rattle.cluster.specs.declared.entry.Entry.{Entry};
ghost use Rattle.cluster.specs.declared.plan.Plan.{Plan};
ghost use Rattle.cluster.specs.History.{state_of};
ghost use Rattle.plan_rules.specs.Failing.{failing};
ghost use Rattle.plan_rules.specs.Plans.{PlanTrue};
ghost use Rattle.histories.specs.Legal.{Legal};

use histories::objects_keep_limits;
use plan_rules::{allocations_pass, fitting_is_of_pod, plan_holds};

/// A plan that is true of the state after a legal history has no failure against it.
pub fn true_plans_pass()
    ensures { (h : List Entry) (pod : Key) (plan : Plan) → Legal h → PlanTrue (state_of h) pod plan → failing (state_of h) pod plan ≡ None }
{
    plan_holds();
    fitting_is_of_pod();
    allocations_pass();
    objects_keep_limits();
}
