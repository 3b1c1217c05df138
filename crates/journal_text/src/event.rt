ghost use Rattle.std.specs.Prelude.{◌≡◌, ◌++◌, OnOk, codes};
ghost use Rattle.object_fields.specs.Keys.{key_text};
ghost use Rattle.object_fields.specs.Words.{kind_word, path_text};
ghost use Rattle.journal_text.specs.Journal.{adopted_text, denial_text, event_text, is_unbound, nodes_word, object_text, plan_text, reason_text, refusal_text, release_text, target_text, verdict_text, verdict_word};
ghost use Rattle.cluster.specs.declared.entry.Event.TheVariants.{Refused};
ghost use Rattle.cluster.specs.declared.object.Target.TheVariants as target;

use crate::worded::{Worded, push_after, push_joined, push_shown, push_text};
use api_claim::ClaimStatus;
use cluster::{
    Command, Event, Failure, Object, PassedNodes, Plan, Reason, Refusal, Target, Verdict,
};
use object_fields::{FieldError, Key};
use pool_view::MAX_DEVICES_TOTAL;
use std::alloc::AllocError;

/// An object's kind and name.
impl Worded for Object {
    ghost words = { object_text };

    fn push_to(&self, out: &mut Vec<u8>) -> Result<(), AllocError> {
        match self {
            Object::Node(node) => push_after(out, "Node ", &node.name),
            Object::Slice(slice) => push_after(out, "ResourceSlice ", &slice.name),
            Object::Class(class) => push_after(out, "DeviceClass ", &class.name),
            Object::Claim(claim) => push_after(out, "ResourceClaim ", &claim.key),
            Object::Pod(pod) => push_after(out, "Pod ", &pod.key),
        }
    }
}

/// The kind and the name of an object.
impl Worded for Target {
    ghost words = { target_text };

    fn push_to(&self, out: &mut Vec<u8>) -> Result<(), AllocError> {
        match self {
            Target::Node(name) => push_after(out, "Node ", name),
            Target::Slice(name) => push_after(out, "ResourceSlice ", name),
            Target::Class(name) => push_after(out, "DeviceClass ", name),
            Target::Claim(key) => push_after(out, "ResourceClaim ", key),
            Target::Pod(key) => push_after(out, "Pod ", key),
        }
    }
}

/// A pod of this key, with its kind.
#[derive(Drop)]
struct OfPod<'a>(&'a Key);

impl Worded for OfPod<'_> {
    ghost words = { λ p. target_text (target.Pod p.0.now) };

    fn push_to(&self, out: &mut Vec<u8>) -> Result<(), AllocError> {
        push_after(out, "Pod ", self.0)
    }
}

/// A claim of this key, with its kind.
#[derive(Drop)]
struct OfClaim<'a>(&'a Key);

impl Worded for OfClaim<'_> {
    ghost words = { λ c. target_text (target.Claim c.0.now) };

    fn push_to(&self, out: &mut Vec<u8>) -> Result<(), AllocError> {
        push_after(out, "ResourceClaim ", self.0)
    }
}

/// Writes a pod and a plan for it.
fn push_plan(out: &mut Vec<u8>, pod: &Key, plan: &Plan) -> Result<(), AllocError>
    ensures { OnOk result (out.new.items ≡ out.old.items ++ plan_text pod.now plan.now) }
{
    pod.push_to(out)?;
    push_after(out, " ", &plan.node)?;
    push_after(out, " at=", &plan.at)?;
    push_after(out, " passed=", &plan.passed)?;
    push_after(out, " grants=", &plan.grants)?;
    push_after(out, " joins=", &plan.joins)
}

fn push_reserved(out: &mut Vec<u8>, pod: &Key, plan: &Plan) -> Result<(), AllocError>
    ensures { OnOk result (out.new.items ≡ out.old.items ++ (codes "reserved " ++ plan_text pod.now plan.now)) }
{
    push_text(out, "reserved ")?;
    push_plan(out, pod, plan)
}

fn push_refused(out: &mut Vec<u8>, pod: &Key, plan: &Plan, why: &Failure) -> Result<(), AllocError>
    ensures { OnOk result (out.new.items ≡ out.old.items ++ event_text (Refused pod.now plan.now why.now)) }
{
    push_text(out, "refused ")?;
    push_plan(out, pod, plan)?;
    push_after(out, " why=", why)
}

/// Writes a claim, and the node and the results of a status write.
fn push_adopted(out: &mut Vec<u8>, claim: &Key, status: &ClaimStatus) -> Result<(), AllocError>
    ensures { OnOk result (out.new.items ≡ out.old.items ++ adopted_text claim.now status.now) }
{
    push_after(out, "adopted ", claim)?;
    push_after(out, " ", &status.node)?;
    push_after(out, " grants=", claim)?;
    push_text(out, ":")?;
    push_joined(out, "+", status.results.as_slice())
}

fn push_verdict(out: &mut Vec<u8>, pod: &Key, verdict: &Verdict) -> Result<(), AllocError>
    ensures { OnOk result (out.new.items ≡ out.old.items ++ verdict_text pod.now verdict.now) }
{
    push_after(out, "verdict ", pod)?;
    push_text(out, " ")?;
    push_text(out, verdict_word(&verdict.reason))?;
    push_after(out, " at=", &verdict.at)?;
    push_after(out, " ", &verdict.reason)
}

/// The text of a verdict after its index: its claim, or its nodes with their causes.
impl Worded for Reason {
    ghost words = { reason_text };

    fn push_to(&self, out: &mut Vec<u8>) -> Result<(), AllocError> {
        match self {
            Reason::Missing(claim) => push_after(out, "claim=", claim),
            Reason::Users(claim) => push_after(out, "claim=", claim),
            Reason::Nodes(nodes) => push_after(out, "nodes=", nodes),
        }
    }
}

fn verdict_word(reason: &Reason) -> &'static str
    ensures { result.now ≡ verdict_word reason.now }
{
    match reason {
        Reason::Missing(_) => "missing",
        Reason::Users(_) => "users",
        Reason::Nodes(nodes) => nodes_word(nodes),
    }
}

/// `fault` if a selector has an evaluation error on one node, else `budget` if the search of one ended with its
/// budget, else `unsatisfiable`.
fn nodes_word(nodes: &PassedNodes) -> &'static str
    ensures { result.now ≡ nodes_word nodes.now }
{
    if nodes.has_fault() {
        "fault"
    } else if nodes.has_budget() {
        "budget"
    } else {
        "unsatisfiable"
    }
}

/// Writes a refusal of a command on an object.
fn push_refusal<T: Worded>(
    out: &mut Vec<u8>,
    object: &T,
    refusal: &Refusal,
) -> Result<(), AllocError>
    ensures { OnOk result (out.new.items ≡ out.old.items ++ refusal_text (T.words object.now) refusal.now) }
{
    match refusal {
        Refusal::Invalid => push_after(out, "denied Invalid ", object),
        Refusal::NotFound => push_after(out, "denied NotFound ", object),
        Refusal::Exists => push_after(out, "denied Exists ", object),
        Refusal::Conflict { had, now } => {
            push_after(out, "denied Conflict had=", had)?;
            push_after(out, " now=", now)
        }
        Refusal::Immutable => push_after(out, "denied Immutable ", object),
        Refusal::InUse => push_after(out, "denied InUse ", object),
        Refusal::Devices => push_after(out, "denied Devices ", &MAX_DEVICES_TOTAL),
        Refusal::Busy(job) => push_after(out, "denied Busy ", job),
        Refusal::Bound(node) => push_after(out, "denied Bound ", node),
        Refusal::NotBound => push_after(out, "denied NotBound ", object),
        Refusal::Failure(why) => push_after(out, "denied Failure ", why.value()),
    }
}

fn is_unbound(refusal: &Refusal) -> bool
    ensures { result ≡ is_unbound refusal.now }
{
    matches!(refusal, Refusal::NotBound)
}

/// Writes a refusal to release a pod, which names one that isn't bound without its kind.
fn push_release(out: &mut Vec<u8>, pod: &Key, refusal: &Refusal) -> Result<(), AllocError>
    ensures { OnOk result (out.new.items ≡ out.old.items ++ release_text pod.now refusal.now) }
{
    if is_unbound(refusal) {
        push_refusal(out, pod, refusal)
    } else {
        push_refusal(out, &OfPod(pod), refusal)
    }
}

/// Writes the refusal of a document with an error: the printed word of the error and its path.
fn push_invalid(out: &mut Vec<u8>, error: &FieldError) -> Result<(), AllocError>
    ensures { OnOk result (out.new.items ≡ out.old.items ++ (codes "denied Invalid " ++ kind_word error.now.kind ++ codes " " ++ path_text error.now.path)) }
{
    push_shown(
        out,
        format_args!("denied Invalid {} {}", error.kind, error.path),
    )
}

fn push_denial(out: &mut Vec<u8>, command: &Command, refusal: &Refusal) -> Result<(), AllocError>
    ensures { OnOk result (out.new.items ≡ out.old.items ++ denial_text command.now refusal.now) }
{
    match command {
        Command::Invalid(error) => push_invalid(out, error),
        Command::Apply { object, .. } => push_refusal(out, object, refusal),
        Command::Delete(target) => push_refusal(out, target, refusal),
        Command::Schedule(pod) => push_refusal(out, &OfPod(pod), refusal),
        Command::Release(pod) => push_release(out, pod, refusal),
        Command::Adopt { claim, .. } => push_refusal(out, &OfClaim(claim), refusal),
    }
}

/// Writes a pod and a claim after a word.
fn push_use(out: &mut Vec<u8>, word: &str, pod: &Key, claim: &Key) -> Result<(), AllocError>
    ensures { OnOk result (out.new.items ≡ out.old.items ++ (word.now ++ key_text pod.now ++ codes " " ++ key_text claim.now)) }
{
    push_after(out, word, pod)?;
    push_after(out, " ", claim)
}

/// An event's kind and the rest of its line.
impl Worded for Event {
    ghost words = { event_text };

    fn push_to(&self, out: &mut Vec<u8>) -> Result<(), AllocError> {
        match self {
            Event::Applied { object, .. } => push_after(out, "applied ", object),
            Event::Deleted(target) => push_after(out, "deleted ", target),
            Event::Reserved { pod, plan } => push_reserved(out, pod, plan.value()),
            Event::Refused { pod, plan, why } => push_refused(out, pod, plan.value(), why.value()),
            Event::Wrote { pod, claim, seen } => {
                push_use(out, "wrote ", pod, claim)?;
                push_after(out, " seen=", seen)
            }
            Event::Conflict {
                pod,
                claim,
                had,
                now,
            } => {
                push_use(out, "conflict ", pod, claim)?;
                push_after(out, " had=", had)?;
                push_after(out, " now=", now)
            }
            Event::Unreserved(pod) => push_after(out, "unreserved ", pod),
            Event::Bound { pod, node } => {
                push_after(out, "bound ", pod)?;
                push_after(out, " ", node)
            }
            Event::VerdictGiven { pod, verdict } => push_verdict(out, pod, verdict.value()),
            Event::Contended { pod, attempts } => {
                push_after(out, "contended ", pod)?;
                push_after(out, " attempts=", attempts)
            }
            Event::Released(pod) => push_after(out, "released ", pod),
            Event::Adopted { claim, status } => push_adopted(out, claim, status.value()),
            Event::Denied { command, refusal } => push_denial(out, command, refusal),
        }
    }
}
