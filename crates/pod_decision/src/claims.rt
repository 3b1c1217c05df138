ghost use Rattle.std.specs.Prelude.{◌≡◌, ◌++◌, [], ◌∷◌, IfOk, option_copied, is_none, not, option_map, filter, if◌then◌else◌};
ghost use Rattle.pool_view.specs.Names.{at_key};
ghost use Rattle.cluster.specs.Claims.{add_known, known_claim, known_claims};
ghost use Rattle.cluster.specs.State.{may_use};
ghost use Rattle.allocations.specs.Claims.{has_grant, is_elsewhere, is_off};
ghost use Rattle.pod_decision.specs.Parts.{first_elsewhere, first_full, first_missing, unready};

use cluster::{ClaimState, Granted, KnownClaim, MOST_USERS, Reason, State};
use dra_values::{Seq, Shared, Text};
use object_fields::Key;
use std::alloc::{AllocError, Global};

/// Why no search is made for a pod with these claims: one of them is missing, or else one has no room
/// for it. It is the first such.
pub fn unready(
    alloc: Global,
    state: &State,
    pod: &Key,
    claims: &[Key],
) -> Result<Option<Reason>, AllocError>
    ensures { IfOk result (λ reason. reason ≡ unready state.now pod.now claims.now) }
{
    if let Some(claim) = first_missing(state, claims) {
        return Ok(Some(Reason::Missing(claim.copy(alloc)?)));
    }
    match first_full(state, pod, claims) {
        Some(claim) => Ok(Some(Reason::Users(claim.copy(alloc)?))),
        None => Ok(None),
    }
}

/// The first of the claims that isn't there.
fn first_missing<'a>(state: &State, claims: &'a [Key]) -> Option<&'a Key>
    ensures { option_copied result ≡ first_missing state.now claims.now }
{
    claims.iter().find(|claim| is_missing(state, claim))
}

fn is_missing(state: &State, claim: &Key) -> bool
    ensures { result ≡ is_none (at_key state.now.claims claim.now) }
{
    !state.claims.contains_key(claim)
}

/// The first of the claims without room for the pod.
fn first_full<'a>(state: &State, pod: &Key, claims: &'a [Key]) -> Option<&'a Key>
    ensures { option_copied result ≡ first_full state.now pod.now claims.now }
{
    claims
        .iter()
        .find(|claim| !may_use(pod, state.claims.get(claim)))
}

/// Whether the claim has fewer users than it may have, or the pod is one of them.
fn may_use(pod: &Key, claim: Option<&ClaimState>) -> bool
    ensures { result ≡ may_use pod.now (option_copied claim.entry) }
{
    match claim {
        None => true,
        Some(state) => state.users.contains_key(pod) || state.users.len() < MOST_USERS,
    }
}

/// The first of the claims whose grant is on another node.
pub fn first_elsewhere<'a>(state: &State, node: &Text, claims: &'a [Key]) -> Option<&'a Key>
    ensures { option_copied result ≡ first_elsewhere state.now node.now claims.now }
{
    claims
        .iter()
        .find(|claim| is_elsewhere(node, state.claims.get(claim)))
}

fn is_elsewhere(node: &Text, claim: Option<&ClaimState>) -> bool
    ensures { result ≡ is_elsewhere node.now (option_copied claim.entry) }
{
    match claim {
        None => false,
        Some(state) => is_off(node, &state.grant),
    }
}

fn is_off(node: &Text, grant: &Option<Shared<Granted>>) -> bool
    ensures { result ≡ is_off node.now grant.now }
{
    match grant {
        None => false,
        Some(grant) => !(grant.node == *node),
    }
}

/// Those of the claims that have a grant.
pub fn granted(alloc: Global, state: &State, claims: &[Key]) -> Result<Seq<Key>, AllocError>
    ensures { IfOk result (λ granted. granted ≡ filter (λ k. has_grant (at_key state.now.claims k)) claims.now) }
{
    let mut granted = Seq::empty(alloc);
    for claim in claims {
        push_granted(&mut granted, alloc, claim, state.claims.get(claim))?;
    }
    Ok(granted)
}

/// Puts the key of a claim at the end, if the claim has a grant.
fn push_granted(
    granted: &mut Seq<Key>,
    alloc: Global,
    key: &Key,
    claim: Option<&ClaimState>,
) -> Result<(), AllocError>
    ensures { IfOk result (λ _. granted.new ≡ granted.old ++ (if has_grant (option_copied claim.entry) then key.now ∷ [] else [])) }
{
    if has_grant(claim) {
        granted.push(key.copy(alloc)?)
    } else {
        Ok(())
    }
}

fn has_grant(claim: Option<&ClaimState>) -> bool
    ensures { result ≡ has_grant (option_copied claim.entry) }
{
    match claim {
        None => false,
        Some(state) => state.grant.is_some(),
    }
}

/// What a plan knows of those of the claims that are there.
pub fn known_claims(
    alloc: Global,
    state: &State,
    claims: &[Key],
) -> Result<Seq<KnownClaim>, AllocError>
    ensures { IfOk result (λ known. known ≡ known_claims state.now claims.now) }
{
    let mut known = Seq::empty(alloc);
    for claim in claims {
        push_known(&mut known, alloc, claim, state.claims.get(claim))?;
    }
    Ok(known)
}

/// Puts what a plan knows of a claim at the end, if the claim is there.
fn push_known(
    known: &mut Seq<KnownClaim>,
    alloc: Global,
    key: &Key,
    claim: Option<&ClaimState>,
) -> Result<(), AllocError>
    ensures { IfOk result (λ _. known.new ≡ known.old ++ add_known key.now (option_copied claim.entry) []) }
{
    match claim {
        None => Ok(()),
        Some(claim) => known.push(known_claim(alloc, key, claim)?),
    }
}

fn known_claim(alloc: Global, key: &Key, claim: &ClaimState) -> Result<KnownClaim, AllocError>
    ensures { IfOk result (λ known. known ≡ known_claim key.now claim.now) }
{
    Ok(KnownClaim {
        claim: key.copy(alloc)?,
        uid: claim.claim.uid,
        node: node_of(alloc, &claim.grant)?,
    })
}

/// The node of a grant, if there is one.
fn node_of(alloc: Global, grant: &Option<Shared<Granted>>) -> Result<Option<Text>, AllocError>
    ensures { IfOk result (λ node. node ≡ option_map (λ g. g.node) grant.now) }
{
    match grant {
        None => Ok(None),
        Some(grant) => Ok(Some(grant.node.copy(alloc)?)),
    }
}
