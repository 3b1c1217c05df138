//! What a plan knew of the pod and its claims.

ghost use Rattle.std.specs.Prelude.{◌≡◌, IfOk, find, option_copied, option_map};
ghost use Rattle.pool_view.specs.Names.{at_key};
ghost use Rattle.plan_rules.specs.Known as spec;
ghost use Rattle.cluster.specs.State.{may_use};

use cluster::{ClaimState, Failure, Granted, KnownClaim, MOST_USERS, Plan, PodState, State};
use dra_values::{Shared, Text};
use object_fields::Key;
use std::alloc::{AllocError, Global};

fn is_gone(state: &State, known: &KnownClaim) -> bool
    ensures { result ≡ spec.is_gone state.now known.now }
{
    !state.claims.contains_key(&known.claim)
}

fn first_gone<'a>(state: &State, known: &'a [KnownClaim]) -> Option<&'a KnownClaim>
    ensures { option_copied result ≡ find (spec.is_gone state.now) known.now }
{
    known.iter().find(|claim| is_gone(state, claim))
}

/// The failure of the first of the claims that doesn't exist.
pub fn claim_gone(
    alloc: Global,
    state: &State,
    known: &[KnownClaim],
) -> Result<Option<Failure>, AllocError>
    ensures { IfOk result (λ found. found ≡ spec.claim_gone state.now known.now) }
{
    match first_gone(state, known) {
        None => Ok(None),
        Some(known) => Ok(Some(Failure::ClaimGone(known.claim.copy(alloc)?))),
    }
}

fn same_node(grant: &Option<Shared<Granted>>, node: &Option<Text>) -> bool
    ensures { result ≡ spec.same_node grant.now node.now }
{
    match (grant, node) {
        (None, None) => true,
        (None, Some(_)) => false,
        (Some(_), None) => false,
        (Some(grant), Some(node)) => grant.node == *node,
    }
}

/// Whether a claim that exists isn't the one that was known.
fn is_other(known: &KnownClaim, claim: Option<&ClaimState>) -> bool
    ensures { result ≡ spec.is_other known.now (option_copied claim.entry) }
{
    match claim {
        None => false,
        Some(claim) => { !(claim.claim.uid == known.uid && same_node(&claim.grant, &known.node)) }
    }
}

fn is_changed(state: &State, known: &KnownClaim) -> bool
    ensures { result ≡ spec.is_changed state.now known.now }
{
    is_other(known, state.claims.get(&known.claim))
}

fn first_changed<'a>(state: &State, known: &'a [KnownClaim]) -> Option<&'a KnownClaim>
    ensures { option_copied result ≡ find (spec.is_changed state.now) known.now }
{
    known.iter().find(|claim| is_changed(state, claim))
}

/// The failure of a pod that has another uid, or else of the first of the claims that has another uid
/// or another grant.
pub fn changed(
    alloc: Global,
    state: &State,
    key: &Key,
    pod: &PodState,
    plan: &Plan,
) -> Result<Option<Failure>, AllocError>
    ensures { IfOk result (λ found. found ≡ spec.changed state.now key.now pod.now plan.now) }
{
    if pod.pod.uid != plan.known.pod {
        return Ok(Some(Failure::ClaimChanged(key.copy(alloc)?)));
    }
    match first_changed(state, plan.known.claims.as_slice()) {
        None => Ok(None),
        Some(known) => Ok(Some(Failure::ClaimChanged(known.claim.copy(alloc)?))),
    }
}

/// Whether a claim has fewer users than it may have, or the pod is one of them.
fn may_use(pod: &Key, claim: Option<&ClaimState>) -> bool
    ensures { result ≡ may_use pod.now (option_copied claim.entry) }
{
    match claim {
        None => true,
        Some(state) => state.users.contains_key(pod) || state.users.len() < MOST_USERS,
    }
}

fn is_full(state: &State, pod: &Key, known: &KnownClaim) -> bool
    ensures { result ≡ spec.is_full state.now pod.now known.now }
{
    !may_use(pod, state.claims.get(&known.claim))
}

fn first_full<'a>(state: &State, pod: &Key, known: &'a [KnownClaim]) -> Option<&'a KnownClaim>
    ensures { option_copied result ≡ find (spec.is_full state.now pod.now) known.now }
{
    known.iter().find(|claim| is_full(state, pod, claim))
}

/// The failure of the first of the claims that has as many users as it may have, the pod not among them.
pub fn claim_full(
    alloc: Global,
    state: &State,
    pod: &Key,
    known: &[KnownClaim],
) -> Result<Option<Failure>, AllocError>
    ensures { IfOk result (λ found. found ≡ spec.claim_full state.now pod.now known.now) }
{
    match first_full(state, pod, known) {
        None => Ok(None),
        Some(known) => Ok(Some(Failure::Users(known.claim.copy(alloc)?))),
    }
}
