ghost use Rattle.std.specs.Prelude.{◌≡◌, ◌++◌, IfOk, OnOk, Some, map, option_copied, option_map};
ghost use Rattle.cluster.specs.Freed.{freed, freed_by, freed_version, grant_left};
ghost use Rattle.cluster.specs.Leaving.{leaving, leaving_by, leaving_each, left, left_at};
ghost use Rattle.cluster.specs.Tables.{changed_at};

use crate::{ClaimState, Granted, PodState, Use, Users};
use api_cluster::{Pod, PodResourceClaim};
use dra_values::{Duplicate, Shared, Text};
use object_fields::Key;
use pool_view::Stored;
use ready_objects::ReadyClaim;
use shared_map::{NoValue, SharedMap};
use std::alloc::{AllocError, Global};

/// A claim as it is without a pod's use.
#[derive(Drop)]
pub struct Leaving {
    claim: Key,
    /// `None` if the claim isn't there.
    state: Option<ClaimState>,
}

/// What the claims of a pod are without its uses, by the entry at this index; none if the pod isn't
/// there. `AllocError` is returned only if memory runs out.
pub fn prepare_free(
    alloc: Global,
    claims: &SharedMap<Key, ClaimState>,
    index: u64,
    pod: &Key,
    state: Option<&PodState>,
) -> Result<Vec<Leaving>, AllocError>
    ensures { IfOk result (λ claims_left. claims_left.items ≡ leaving_by index pod.now claims.now (option_copied state.entry)) }
{
    match state {
        None => Ok(Vec::new(alloc)),
        Some(state) => prepare_each(alloc, claims, index, pod, &state.pod.object),
    }
}

fn prepare_each(
    alloc: Global,
    claims: &SharedMap<Key, ClaimState>,
    index: u64,
    pod: &Key,
    named: &Pod,
) -> Result<Vec<Leaving>, AllocError>
    ensures { IfOk result (λ claims_left. claims_left.items ≡ leaving_each index pod.now claims.now named.now) }
{
    let mut claims_left = Vec::new(alloc);
    for claim in named.claims.as_slice() {
        claims_left.push(prepare_leaving(alloc, claims, index, pod, &named.key.namespace, claim)?)?;
    }
    Ok(claims_left)
}

fn prepare_leaving(
    alloc: Global,
    claims: &SharedMap<Key, ClaimState>,
    index: u64,
    pod: &Key,
    namespace: &Text,
    claim: &PodResourceClaim,
) -> Result<Leaving, AllocError>
    ensures { IfOk result (λ l. l ≡ leaving index pod.now claims.now namespace.now claim.now) }
{
    let claim = Key {
        namespace: namespace.copy(alloc)?,
        name: claim.claim.copy(alloc)?,
    };
    let state = freed_at(alloc, index, pod, claims.get(&claim))?;
    Ok(Leaving { claim, state })
}

fn freed_at(
    alloc: Global,
    index: u64,
    pod: &Key,
    state: Option<&ClaimState>,
) -> Result<Option<ClaimState>, AllocError>
    ensures { IfOk result (λ s. s ≡ option_map (freed index pod.now) (option_copied state.entry)) }
{
    match state {
        None => Ok(None),
        Some(state) => Ok(Some(freed(alloc, index, pod, state)?)),
    }
}

/// The claim without the pod's use, if it has one.
fn freed(alloc: Global, index: u64, pod: &Key, state: &ClaimState) -> Result<ClaimState, AllocError>
    ensures { IfOk result (λ s. s ≡ freed index pod.now state.now) }
{
    match state.users.get(pod) {
        None => state.duplicate(alloc),
        Some(how) => without_use(alloc, index, pod, how, state),
    }
}

/// The claim without the pod's use, which it has.
fn without_use(
    alloc: Global,
    index: u64,
    pod: &Key,
    how: &Use,
    state: &ClaimState,
) -> Result<ClaimState, AllocError>
    ensures { IfOk result (λ s. s ≡ freed_by index pod.now (Some how.now) state.now) }
{
    let claim = freed_claim(alloc, index, how, &state.claim)?;
    let users = Shared::new(alloc, state.users.without(alloc, pod)?)?;
    let grant = grant_left(alloc, &users, &state.grant)?;
    Ok(ClaimState {
        claim,
        grant,
        users,
    })
}

fn freed_claim(
    alloc: Global,
    index: u64,
    how: &Use,
    claim: &Stored<Shared<ReadyClaim>>,
) -> Result<Stored<Shared<ReadyClaim>>, AllocError>
    ensures { IfOk result (λ c. c ≡ record claim.now { version = freed_version index how.now claim.now.version }) }
{
    let mut freed = claim.duplicate(alloc)?;
    freed.version = freed_version(index, how, claim.version);
    Ok(freed)
}

fn freed_version(index: u64, how: &Use, version: u64) -> u64
    ensures { result ≡ freed_version index how.now version }
{
    match how {
        Use::Assumed(_) => version,
        Use::Written => index,
    }
}

/// The grant of a claim with these users, of which there may be none.
fn grant_left(
    alloc: Global,
    users: &Users,
    grant: &Option<Shared<Granted>>,
) -> Result<Option<Shared<Granted>>, AllocError>
    ensures { IfOk result (λ g. g ≡ grant_left users.now grant.now) }
{
    if users.is_empty() {
        Ok(None)
    } else {
        grant.duplicate(alloc)
    }
}

/// Puts what was prepared into the claims. `AllocError` is returned only if memory runs out, and then some of it may be
/// there.
pub fn leave(
    alloc: Global,
    claims: &mut SharedMap<Key, ClaimState>,
    claims_left: Vec<Leaving>,
) -> Result<(), AllocError>
    ensures { OnOk result (claims.new ≡ left claims_left.items claims.old) }
{
    for leaving in claims_left {
        put(alloc, claims, leaving)?;
    }
    Ok(())
}

fn put(
    alloc: Global,
    claims: &mut SharedMap<Key, ClaimState>,
    leaving: Leaving,
) -> Result<(), AllocError>
    ensures { OnOk result (claims.new ≡ left_at leaving.claim leaving.state claims.old) }
{
    let Leaving { claim, state } = leaving;
    match state {
        Some(state) => set_state(alloc, claims, &claim, state),
        None => Ok(()),
    }
}

/// Replaces the claim at a key, if it is there.
fn set_state(
    alloc: Global,
    claims: &mut SharedMap<Key, ClaimState>,
    claim: &Key,
    state: ClaimState,
) -> Result<(), AllocError>
    ensures { OnOk result (claims.new ≡ changed_at claim.now (λ _. state) claims.old) }
{
    match claims.get_mut(alloc, claim) {
        Ok(old) => {
            *old = state;
            Ok(())
        }
        Err(NoValue::Missing) => Ok(()),
        Err(NoValue::Memory) => Err(AllocError),
    }
}
