ghost use Rattle.std.specs.Prelude.{◌≡◌, ℕ};
ghost use Rattle.object_fields.specs.declared.key.Key.{Key};
ghost use Rattle.cluster.specs.declared.state.State.{State};
ghost use Rattle.engine_ports.specs.declared.decision.Decision.{Decision};
ghost use Rattle.engine_ports.specs.Decisions.{IsDecision};

use plan_rules::decisions_are_unique;

/// There is one decision on a pod of a state, for a budget and an index: what `decide` returns is
/// determined by these.
pub fn decision_is_unique()
    ensures { (s : State) (pod : Key) (budget at : ℕ) (d e : Decision) → IsDecision s pod budget at d → IsDecision s pod budget at e → d ≡ e }
{
    decisions_are_unique();
}
