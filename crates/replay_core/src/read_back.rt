ghost use Rattle.std.specs.Prelude.{◌≡◌, ◌≤◌, ℕ, List};
ghost use Rattle.cluster.specs.History.{state_of};
ghost use Rattle.cluster.specs.declared.entry.Entry.{Entry};
ghost use Rattle.commands.specs.Readings.{Asks, reading};
ghost use Rattle.commands.specs.declared.given.Given.{Given};
ghost use Rattle.histories.specs.Legal.{Legal};
ghost use Rattle.pod_prepare.specs.ForNode.{ReadsBack};
ghost use Rattle.replay_core.specs.Forms.{kubelet_count};

use histories::{adoptions_are_allocations, histories_grow, legal_steps, objects_keep_limits};

/// After a legal history the key of each pod and claim, and each granted device, is the one that its printed form reads
/// as: namespaces, drivers and devices have names without a slash.
pub fn legal_states_read_back()
    ensures { (h : List Entry) → Legal h → ReadsBack (state_of h) }
{
    legal_steps();
    histories_grow();
    objects_keep_limits();
    adoptions_are_allocations();
}

/// A document asks for at most one command of the kubelet.
pub fn documents_ask_a_kubelet_once()
    ensures { (attempts : ℕ) (bytes : List ℕ) (cs : List Given) → reading attempts bytes ≡ Asks cs → kubelet_count cs ≤ 1 }
{}
