ghost use Rattle.std.specs.Prelude.{◌≡◌};
ghost use Rattle.cluster.specs.State.{is_idle};
ghost use Rattle.plan_rules.specs.Idle.{is_idle_pod};

use cluster::{Phase, Plan, State, Verdict};
use object_fields::Key;

/// What is to be done with a pod.
#[derive(Drop)]
pub enum Decision {
    /// To take the pod, and to grant and join its claims by this plan.
    Reserve(Plan),
    /// No node is taken for it, for this reason.
    Judge(Verdict),
}

/// Whether the pod is there and Idle.
pub fn may_schedule(state: &State, pod: &Key) -> bool
    ensures { result ≡ is_idle_pod state.now pod.now }
{
    match state.pods.get(pod) {
        None => false,
        Some(pod) => is_idle(&pod.phase),
    }
}

fn is_idle(phase: &Phase) -> bool
    ensures { result ≡ is_idle phase.now }
{
    match phase {
        Phase::Idle => true,
        Phase::Taken { .. } | Phase::Bound(_) => false,
    }
}
