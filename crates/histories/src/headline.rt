ghost use Rattle.std.specs.Prelude.{◌≡◌, ◌≢◌, ◌++◌, ◌∷◌, [], ℕ, List, Contains, Some, true, false};
ghost use Rattle.object_fields.specs.declared.key.Key.{Key};
ghost use Rattle.cluster.specs.declared.plan.Plan.{Plan};
ghost use Rattle.cluster.specs.declared.plan.Verdict.{Verdict};
ghost use Rattle.cluster.specs.Held.{HeldOnce};
ghost use Rattle.cluster.specs.declared.entry.Command.{Command};
ghost use Rattle.cluster.specs.declared.entry.Command.TheVariants.{Release, Schedule};
ghost use Rattle.cluster.specs.declared.entry.Refusal.{Refusal};
ghost use Rattle.cluster.specs.declared.entry.Refusal.TheVariants.{Busy};
ghost use Rattle.cluster.specs.declared.state.ClaimState.{ClaimState};
ghost use Rattle.cluster.specs.declared.state.PodState.{PodState};
ghost use Rattle.cluster.specs.State.{claims_of};
ghost use Rattle.api_claim.specs.declared.types.ClaimStatus.{ClaimStatus};
ghost use Rattle.histories.specs.Owners.{has_pod, pod_in};
ghost use Rattle.histories.specs.Wrote.{IsTaken};
ghost use Rattle.cluster.specs.declared.entry.Entry.{Entry};
ghost use Rattle.cluster.specs.declared.entry.Event.{Event};
ghost use Rattle.cluster.specs.History.{job_state_of, state_at, state_of};
ghost use Rattle.histories.specs.Legal.{Legal, Step};
ghost use Rattle.histories.specs.Denied.{MayDeny};
ghost use Rattle.histories.specs.Headline.{IsAdoptionOf, IsGrantOf, IsVerdictOf};
ghost use Rattle.histories.specs.Granted.{UsersAreGranted};
ghost use Rattle.histories.specs.Limits.{ObjectsKept};
ghost use Rattle.histories.specs.Reservations.{IsVersionReserved};
ghost use Rattle.histories.specs.Users.{PodsUseClaims, UsersAreBusy};
ghost use Rattle.cluster.specs.Denied.{is_busy, is_user};
ghost use Rattle.pool_view.specs.Names.{at_key};

use allocations::budget_is_true;
use cluster::same_is_equal;
use plan_rules::{checked_is_allocation, one_holder_is_kept};

/// Each entry of a legal history may follow the entries before it, and each prefix of a legal history
/// is legal.
pub fn legal_steps()
    ensures step { (prefix : List Entry) (e : Entry) (back : List Entry) → Legal (prefix ++ e ∷ back) → Step prefix e }
    ensures prefix { (prefix back : List Entry) → Legal (prefix ++ back) → Legal prefix }
{}

/// Each reservation of a legal history grants an allocation for the pod: in the state before it, the
/// plan's grants are an allocation of the pod's claims without a grant on the plan's node, and each
/// claim of the pod with a grant has it on this node and is joined.
pub fn grants_are_allocations()
    ensures { (prefix back : List Entry) (job : ℕ) (pod : Key) (plan : Plan) →
        Legal (prefix ++ record { job = job; event = Event.Reserved pod plan } ∷ back) → IsGrantOf prefix pod plan }
{}

/// Each verdict of a legal history is true at its index. A claim that it names isn't there, or has 256
/// users other than the pod. Of the nodes that it names, which are all, a node whose cause says so
/// had no allocation, and if no cause is `Fault` or `Budget`, no node had an allocation for
/// the pod; the walk of a node whose search ended with its budget is longer, and the items that were
/// looked at are neither `Full` nor `Fault`; a claim whose grant is elsewhere has it on another node.
pub fn verdicts_are_true()
    ensures { (prefix back : List Entry) (job : ℕ) (pod : Key) (verdict : Verdict) →
        Legal (prefix ++ record { job = job; event = Event.VerdictGiven pod verdict } ∷ back) → IsVerdictOf prefix pod verdict }
{
    budget_is_true();
}

/// If a legal history denies a command, its refusal is the first that holds of the command in the
/// state before the denial, in the order of `State::first_refusal`; of a status write of which none of
/// these holds it is the first failure of its grant. If a document is denied for an error, the error isn't
/// out of memory; that the document has this error isn't said here, since a history holds no documents.
/// The state after a denial is the one before it.
pub fn denials_change_nothing()
    ensures due { (prefix back : List Entry) (job : ℕ) (command : Command) (refusal : Refusal) →
        Legal (prefix ++ record { job = job; event = Event.Denied command refusal } ∷ back) → MayDeny (state_of prefix) command refusal }
    ensures kept { (prefix : List Entry) (job : ℕ) (command : Command) (refusal : Refusal) →
        state_of (prefix ++ record { job = job; event = Event.Denied command refusal } ∷ []) ≡ state_of prefix }
{}

/// If a legal history denies a Schedule or a Release because a job has taken its pod, that job has it,
/// and it isn't the one that is denied.
pub fn busy_is_another()
    ensures schedule { (prefix back : List Entry) (job holder : ℕ) (pod : Key) →
        Legal (prefix ++ record { job = job; event = Event.Denied (Schedule pod) (Busy holder) } ∷ back) →
        (has_pod (job_state_of prefix holder) ≡ true) × (holder ≢ job) }
    ensures release { (prefix back : List Entry) (job holder : ℕ) (pod : Key) →
        Legal (prefix ++ record { job = job; event = Event.Denied (Release pod) (Busy holder) } ∷ back) →
        (has_pod (job_state_of prefix holder) ≡ true) × (holder ≢ job) }
{}

/// A pod that a job reserved, and neither bound nor gave up, is taken by that job after a legal history,
/// whatever other jobs have done since: where all entries of the job are of the pod, and the job has a
/// pod, this one is taken by it.
pub fn pods_stay_taken()
    ensures { (h : List Entry) (job : ℕ) (pod : Key) → Legal h →
        ((e : Entry) (other : Key) → Contains h e → e.job ≡ job → pod_in e.event ≡ Some other → other ≡ pod) →
        has_pod (job_state_of h job) ≡ true →
        (state : PodState) × ((node : List ℕ) × IsTaken (state_of h) pod job node state) }
{}

/// Pods of one name and uid have the same claims at any two indexes of a legal history.
pub fn uids_keep_claims()
    ensures { (h : List Entry) (first second : ℕ) (key : Key) (p q : PodState) → Legal h →
        at_key (state_at h first).pods key ≡ Some p → at_key (state_at h second).pods key ≡ Some q →
        p.pod.uid ≡ q.pod.uid → claims_of p ≡ claims_of q }
{
    same_is_equal();
}

/// Each adoption of a legal history grants an allocation of its claim, which was there and had no grant.
pub fn adoptions_are_allocations()
    ensures { (prefix back : List Entry) (job : ℕ) (claim : Key) (status : ClaimStatus) →
        Legal (prefix ++ record { job = job; event = Event.Adopted claim status } ∷ back) → IsAdoptionOf prefix claim status }
{
    checked_is_allocation();
}

/// Each user of a claim is a pod that is taken or bound, and names the claim, after a legal history and
/// at each index of it: a pod that is Idle uses no claim.
pub fn users_are_busy()
    ensures now { (h : List Entry) → Legal h → UsersAreBusy (state_of h) }
    ensures always { (h : List Entry) (index : ℕ) → Legal h → UsersAreBusy (state_at h index) }
    ensures idle { (h : List Entry) (pod : Key) → Legal h → is_busy (at_key (state_of h).pods pod) ≡ false → is_user (state_of h) pod ≡ false }
{
    same_is_equal();
}

/// After a legal history and at each index of it, a pod that is taken or bound uses each of its
/// claims, and the uses of one that is bound are written.
pub fn pods_use_claims()
    ensures now { (h : List Entry) → Legal h → PodsUseClaims (state_of h) }
    ensures always { (h : List Entry) (index : ℕ) → Legal h → PodsUseClaims (state_at h index) }
{
    same_is_equal();
}

/// After a legal history and at each index of it a claim with a user has a grant, and a pod that is taken
/// for a node, or bound to it, has the grants of all its claims there. So a claim that is adopted has no
/// users.
pub fn users_are_granted()
    ensures now { (h : List Entry) → Legal h → UsersAreGranted (state_of h) }
    ensures always { (h : List Entry) (index : ℕ) → Legal h → UsersAreGranted (state_at h index) }
    ensures adopted { (prefix back : List Entry) (job : ℕ) (claim : Key) (status : ClaimStatus) (c : ClaimState) →
        Legal (prefix ++ record { job = job; event = Event.Adopted claim status } ∷ back) →
        at_key (state_of prefix).claims claim ≡ Some c → c.users ≡ [] }
{
    same_is_equal();
}

/// In a legal history a write of a use, and a conflict, name the version that the claim had as their job
/// last reserved, which was for the same pod.
pub fn versions_are_reserved()
    ensures wrote { (prefix back : List Entry) (job : ℕ) (pod claim : Key) (seen : ℕ) →
        Legal (prefix ++ record { job = job; event = Event.Wrote pod claim seen } ∷ back) → IsVersionReserved prefix job pod claim seen }
    ensures conflict { (prefix back : List Entry) (job : ℕ) (pod claim : Key) (had now : ℕ) →
        Legal (prefix ++ record { job = job; event = Event.Conflict pod claim had now } ∷ back) → IsVersionReserved prefix job pod claim had }
{
    same_is_equal();
}

/// Each object keeps the limits and name rules of the API references of `v1` and of
/// `resource.k8s.io/v1` after a legal history, and at each index of it.
pub fn objects_keep_limits()
    ensures now { (h : List Entry) → Legal h → ObjectsKept (state_of h) }
    ensures always { (h : List Entry) (index : ℕ) → Legal h → ObjectsKept (state_at h index) }
{}

/// Each device has one holder after a legal history, and at each index of it: no device is held
/// twice, by two claims or by one.
pub fn one_holder()
    ensures now { (h : List Entry) → Legal h → HeldOnce (state_of h) }
    ensures always { (h : List Entry) (index : ℕ) → Legal h → HeldOnce (state_at h index) }
{
    one_holder_is_kept();
    checked_is_allocation();
}
