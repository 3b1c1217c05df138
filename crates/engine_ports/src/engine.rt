ghost use Rattle.std.specs.Prelude.{◌≡◌, None, true, IfOk, IsSome};
ghost use Rattle.cluster.specs.Held.{held};
ghost use Rattle.counter_sets.specs.Holding.{AreHeld};
ghost use Rattle.engine_ports.specs.Decisions.{IsDecision};
ghost use Rattle.node_memo.specs.Memo.{Tells};
ghost use Rattle.plan_rules.specs.Failing as spec;
ghost use Rattle.plan_rules.specs.Idle.{is_idle_pod};
ghost use Rattle.pool_totals.specs.Counting.{AreCounted};
ghost use Rattle.pool_totals.specs.Drawn.{AreDrawn};
ghost use Rattle.pool_view.specs.Names.{at_key};

use crate::Decision;
use api_claim::ClaimStatus;
use cluster::{Failure, Plan, State};
use counter_sets::{Held, SharedTotals};
use node_memo::{Dates, Memo};
use object_fields::Key;
use std::alloc::{AllocError, Global};

/// What decides on pods, and checks plans and status writes, over a state.
///
/// `holders` are the devices that the state's claims hold, and `totals` what these draw. Each call reads them and
/// changes nothing but the memo; it returns `AllocError` only if memory runs out.
pub trait Engine: Drop {
    /// Decides on a pod that is there and Idle.
    ///
    /// The verdict names the first of its claims that is missing, or else the first that has as many users as it may
    /// have, the pod not among them. Otherwise the plan takes the first node, in the order of their names, on which a
    /// search finds an allocation and which has the grants of the claims that the pod joins; if there is none, the
    /// verdict has the cause of each node.
    ///
    /// `at` is how many entries were in the history whose state this is, and `budget` how many items of a node's walk a
    /// search may look at.
    fn decide(
        alloc: Global,
        state: &State,
        holders: &Held,
        totals: &SharedTotals,
        pod: &Key,
        at: u64,
        budget: u64,
    ) -> Result<Decision, AllocError>
        requires idle { is_idle_pod state.now pod.now ≡ true }
        requires holders { AreHeld holders.now (held state.now) }
        requires totals { AreDrawn state.now.inventory (held state.now) totals.now }
        ensures { IfOk result (IsDecision state.now pod.now budget at) };

    /// Decides on a pod as `decide` does, with a memo of nodes that have no allocation. `dates` say since when a node
    /// that is known may be relied on.
    fn decide_with(
        alloc: Global,
        state: &State,
        holders: &Held,
        totals: &SharedTotals,
        pod: &Key,
        at: u64,
        budget: u64,
        dates: &Dates,
        memo: &mut Memo,
    ) -> Result<Decision, AllocError>
        requires idle { is_idle_pod state.now pod.now ≡ true }
        requires holders { AreHeld holders.now (held state.now) }
        requires totals { AreDrawn state.now.inventory (held state.now) totals.now }
        requires memo { Tells state.now dates.now memo.old at }
        ensures decision { IfOk result (IsDecision state.now pod.now budget at) }
        ensures memo { Tells state.now dates.now memo.new at };

    /// Checks a plan, where so many entries are in the history: the first failure, or none. A plan that was true at its
    /// index has no failure there.
    fn check_again(
        alloc: Global,
        state: &State,
        holders: &Held,
        totals: &SharedTotals,
        pod: &Key,
        plan: &Plan,
        at: u64,
    ) -> Result<Option<Failure>, AllocError>
        requires holders { AreHeld holders.now (held state.now) }
        requires totals { AreCounted state.now.inventory holders.now totals.now }
        requires passed { plan.now.at ≡ at → spec.failing state.now pod.now plan.now ≡ None }
        ensures { IfOk result (λ found. found ≡ spec.failing state.now pod.now plan.now) };

    /// Checks a status write to a claim that exists, as a plan of the claim's results on its node: the first failure
    /// from the node on, or none.
    fn check_status(
        alloc: Global,
        state: &State,
        holders: &Held,
        totals: &SharedTotals,
        claim: &Key,
        status: &ClaimStatus,
    ) -> Result<Option<Failure>, AllocError>
        requires holders { AreHeld holders.now (held state.now) }
        requires totals { AreCounted state.now.inventory holders.now totals.now }
        requires there { IsSome (at_key state.now.claims claim.now) }
        ensures { IfOk result (λ found. found ≡ spec.failing_status state.now claim.now status.now) };
}
