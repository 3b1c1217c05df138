//! The claims of a pod that have no grant.

ghost use Rattle.std.specs.Prelude.{◌≡◌, ◌++◌, [], IfOk, IfSome, OnOk, option_map};
ghost use Rattle.pool_view.specs.Names.{at_key};
ghost use Rattle.allocations.specs.Claims.{add_wanted, keys_of_pod, wanted};
ghost use Rattle.node_inputs.specs.Wanted.{wanted_at};

use allocations::keys_of_pod;
use api_cluster::Pod;
use cluster::{ClaimState, State};
use object_fields::Key;
use request_rows::WantedClaim;
use shared_map::SharedMap;
use std::alloc::{AllocError, Global};

/// A claim with its key, both borrowed from the table.
fn claim_at<'a>(
    claims: &'a SharedMap<Key, ClaimState>,
    key: &Key,
) -> Option<(&'a Key, &'a ClaimState)>
    ensures key { IfSome result (λ entry. entry.0.now ≡ key.now) }
    ensures claim { option_map (λ entry. entry.1.now) result ≡ at_key claims.now key.now }
{
    claims.get_key_value(key)
}

/// Puts a claim at the end, if it is there and has no grant.
fn add_claim<'a>(
    wanted: &mut Vec<WantedClaim<'a>>,
    claims: &'a SharedMap<Key, ClaimState>,
    key: &Key,
) -> Result<(), AllocError>
    ensures { OnOk result (wanted.new.items ≡ wanted.old.items ++ add_wanted key.now (at_key claims.now key.now) []) }
{
    if let Some((key, state)) = claim_at(claims, key) {
        if state.grant.is_none() {
            wanted.push(WantedClaim {
                key,
                claim: &state.claim.object,
            })?;
        }
    }
    Ok(())
}

/// Those of the claims that are there and have no grant, in order.
fn wanted_among<'a>(
    alloc: Global,
    claims: &'a SharedMap<Key, ClaimState>,
    keys: &[Key],
) -> Result<Vec<WantedClaim<'a>>, AllocError>
    ensures { IfOk result (λ wanted. wanted.items ≡ wanted_at claims.now keys.now) }
{
    let mut wanted = Vec::new(alloc);
    for key in keys {
        add_claim(&mut wanted, claims, key)?;
    }
    Ok(wanted)
}

/// What `wanted_claims` returns, by the table of the claims.
pub fn wanted_in<'a>(
    alloc: Global,
    claims: &'a SharedMap<Key, ClaimState>,
    pod: &Pod,
) -> Result<Vec<WantedClaim<'a>>, AllocError>
    ensures { IfOk result (λ wanted. wanted.items ≡ wanted_at claims.now (keys_of_pod pod.now)) }
{
    let keys = keys_of_pod(alloc, pod)?;
    wanted_among(alloc, claims, keys.as_slice())
}

/// The claims of a pod that are there and have no grant, each at its first occurrence, under the key by which
/// the pod names it. `AllocError` only if memory runs out.
#[tactic(auto, using(crate::proofs::WantedAt::wanted_by))]
pub fn wanted_claims<'a>(
    alloc: Global,
    state: &'a State,
    pod: &Pod,
) -> Result<Vec<WantedClaim<'a>>, AllocError>
    ensures { IfOk result (λ claims. claims.items ≡ wanted state.now pod.now) }
{
    wanted_in(alloc, &state.claims, pod)
}
