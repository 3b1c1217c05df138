ghost use Rattle.std.specs.Prelude.{◌≡◌, ℕ, List, None, Some};
ghost use Rattle.object_fields.specs.declared.key.Key.{Key};
ghost use Rattle.cluster.specs.declared.entry.Entry.{Entry};
ghost use Rattle.cluster.specs.declared.plan.Grant.{Grant};
ghost use Rattle.cluster.specs.declared.plan.Reason.TheVariants.{Missing, Users};
ghost use Rattle.cluster.specs.declared.state.PodState.{PodState};
ghost use Rattle.cluster.specs.History.{state_at};
ghost use Rattle.allocations.specs.Claims.{missing_claim, other_claim, wanted};
ghost use Rattle.allocations.specs.Allocation.{IsAllocation};
ghost use Rattle.plan_rules.specs.Plans.{IsFirstFull, MaySearch};
ghost use Rattle.histories.specs.JobRuns.{Run};
ghost use Rattle.sched_job.specs.Complete.{AllSettle, BoundTo, Decided, JudgedBy, PassedAll, RanAlone, first_fit};

use crate::alone_is_undisturbed;
use allocations::unsat_is_true;
use histories::{histories_grow, legal_steps, reserved_goes_on};

/// Scheduling is complete: if a pod is there and Idle as a job to schedule it begins, and no other job
/// makes an entry before the job has ended, then the job carries out the decision on the pod in the state
/// in which it began. If each of the pod's claims is there and has room for it, the pod is bound to the
/// first node by name on which a search within the budget finds an allocation and which has the grants of
/// the pod's claims; if there is no such node, the job's one entry is the verdict that has the cause of
/// each node. So if no search of a node ends with its budget or at an evaluation error, and some node has
/// an allocation for the pod, the pod is bound. If a claim is missing, or else has no room, the job's one
/// entry is the verdict that names the first such claim.
pub fn schedules_are_complete()
    ensures decided { (c : Run) (h : List Entry) (pod : Key) (p : PodState) → RanAlone c h pod p → Decided c h pod p }
    ensures bound { (c : Run) (h : List Entry) (pod : Key) (p : PodState) (node : List ℕ) → RanAlone c h pod p → MaySearch (state_at h c.from) pod p →
        first_fit (state_at h c.from) p.pod.object c.budget ≡ Some node → BoundTo c h pod p node }
    ensures passed { (c : Run) (h : List Entry) (pod : Key) (p : PodState) → RanAlone c h pod p → MaySearch (state_at h c.from) pod p →
        first_fit (state_at h c.from) p.pod.object c.budget ≡ None → PassedAll c h pod p }
    ensures found { (c : Run) (h : List Entry) (pod : Key) (p : PodState) (node choice : List ℕ) (grants : List Grant) → RanAlone c h pod p → MaySearch (state_at h c.from) pod p →
        AllSettle (state_at h c.from) p.pod.object c.budget → other_claim (state_at h c.from) p.pod.object node ≡ None →
        IsAllocation (state_at h c.from) (wanted (state_at h c.from) p.pod.object) node choice grants → (first : List ℕ) × BoundTo c h pod p first }
    ensures missing { (c : Run) (h : List Entry) (pod : Key) (p : PodState) (claim : Key) → RanAlone c h pod p →
        missing_claim (state_at h c.from) p.pod.object ≡ Some claim → JudgedBy c h pod (Missing claim) }
    ensures full { (c : Run) (h : List Entry) (pod : Key) (p : PodState) (claim : Key) → RanAlone c h pod p →
        IsFirstFull (state_at h c.from) pod p claim → JudgedBy c h pod (Users claim) }
{
    alone_is_undisturbed();
    histories_grow();
    legal_steps();
    reserved_goes_on();
    unsat_is_true();
}
