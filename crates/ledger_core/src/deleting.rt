//! What refuses a deletion.

ghost use Rattle.std.specs.Prelude.{◌≡◌, false, is_some, not, option_copied};
ghost use Rattle.object_fields.specs.declared.key.Key.{Key};
ghost use Rattle.pool_view.specs.Names.{at_key};
ghost use Rattle.cluster.specs.Denied.{first_refusal, is_busy, is_user, or_else, when};
ghost use Rattle.cluster.specs.declared.entry.Command.TheVariants.{Delete};
ghost use Rattle.cluster.specs.declared.entry.Refusal.TheVariants as refusal;

use cluster::{Phase, PodState, Refusal, State, Target};

/// The first refusal that holds of a pod to be taken away that uses no claim unless it is taken or bound.
fn pod_refusal(pod: Option<&PodState>) -> Option<Refusal>
    ensures { result ≡ or_else (when (not (is_some (option_copied pod.entry))) refusal.NotFound) (when (is_busy (option_copied pod.entry)) refusal.InUse) }
{
    match pod {
        None => Some(Refusal::NotFound),
        Some(pod) => match &pod.phase {
            Phase::Idle => None,
            Phase::Taken { .. } | Phase::Bound(_) => Some(Refusal::InUse),
        },
    }
}

/// The first refusal that holds of an object to be taken away, where each user of a claim is taken or bound, as after
/// each legal history. So no claim is looked at for the uses of a pod. Allocates nothing.
pub fn delete_refusal(state: &State, target: &Target) -> Option<Refusal>
    requires { (pod : Key) → is_busy (at_key state.now.pods pod) ≡ false → is_user state.now pod ≡ false }
    ensures { result ≡ first_refusal state.now (Delete target.now) }
{
    match target {
        Target::Pod(pod) => pod_refusal(state.pods.get(pod)),
        Target::Node(_) => state.delete_refusal(target),
        Target::Slice(_) => state.delete_refusal(target),
        Target::Class(_) => state.delete_refusal(target),
        Target::Claim(_) => state.delete_refusal(target),
    }
}
