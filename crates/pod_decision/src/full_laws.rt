ghost use Rattle.std.specs.Prelude.{◌≡◌, ◌≤◌, ℕ, List, [], true, Some};
ghost use Rattle.api_claim.specs.declared.types.ResourceClaim.{ResourceClaim};
ghost use Rattle.pool_view.specs.Pools.{Offered};
ghost use Rattle.pool_view.specs.Usable.{node_devices};
ghost use Rattle.counter_sets.specs.Holding.{AreHeld, Holders};
ghost use Rattle.request_rules.specs.Match.{ClassTable};
ghost use Rattle.cluster.specs.declared.state.State.{State};
ghost use Rattle.cluster.specs.Held.{held};
ghost use Rattle.allocations.specs.Input.{input_of};
ghost use Rattle.allocator.specs.Answered.{answer_of};
ghost use Rattle.allocator.specs.declared.outcome.Outcome.TheVariants as outcome;
ghost use Rattle.full_nodes.specs.Full.{all_held, are_exclusive, are_unfaulted};
ghost use Rattle.full_nodes.specs.Sure.{texts_of};

/// A node whose devices are all held by claims has nothing for claims that ask for devices of their own:
/// the claims have at least one request, each request is for at least one device or for all, without
/// alternatives and without admin access, and none has an evaluation error on a device of the node. The
/// search of the node for such claims returns `Unsat` within every budget of at least one item, also if a
/// pool is incomplete or invalid, or a class doesn't exist. Requests without selectors, also of their
/// classes, have no evaluation error on any device.
#[tactic(auto, using(crate::proofs::FullNodes::nothing, crate::proofs::FullNodes::unselective))]
pub fn full_nodes_have_nothing()
    ensures nothing { (s : State) (claims : List ResourceClaim) (node : List ℕ) (h : Holders) (budget : ℕ) → AreHeld h (held s) → are_exclusive claims ≡ true → are_unfaulted s.classes (node_devices s.inventory node) claims ≡ true → all_held h (node_devices s.inventory node) ≡ true → 1 ≤ budget →
        answer_of (input_of s claims node) budget ≡ Some outcome.Unsat }
    ensures unselective { (classes : ClassTable) (claims : List ResourceClaim) (devices : List Offered) → texts_of classes claims ≡ [] → are_unfaulted classes devices claims ≡ true }
{}
