ghost use Rattle.std.specs.Prelude.{◌≡◌, ◌++◌, IfOk, OnOk, false, map};
ghost use Rattle.pool_view.specs.Names.{at_key};
ghost use Rattle.cluster.specs.Tables.{changed_at};
ghost use Rattle.cluster.specs.Prepared.{given, given_by, joined_use, granted_use, placed, uses_of, users_with};

use crate::{ClaimState, Grant, Granted, Plan, Use, Users};
use dra_values::{Shared, Text};
use object_fields::Key;
use shared_map::{NoValue, SharedMap};
use std::alloc::{AllocError, Global};

/// What a claim gets for a pod.
#[derive(Drop)]
pub struct Prepared {
    claim: Key,
    /// The grant, if the plan makes one.
    grant: Option<Shared<Granted>>,
    /// All users of the claim, the pod among them.
    users: Shared<Users>,
}

/// What the claims of a plan get for the pod. `AllocError` is returned only if memory runs out.
pub fn prepare(
    alloc: Global,
    claims: &SharedMap<Key, ClaimState>,
    pod: &Key,
    plan: &Plan,
) -> Result<Vec<Prepared>, AllocError>
    ensures { IfOk result (λ uses. uses.items ≡ uses_of pod.now plan.now claims.now) }
{
    let mut uses = Vec::new(alloc);
    prepare_grants(alloc, claims, pod, plan, &mut uses)?;
    prepare_joins(alloc, claims, pod, plan, &mut uses)?;
    Ok(uses)
}

fn prepare_grants(
    alloc: Global,
    claims: &SharedMap<Key, ClaimState>,
    pod: &Key,
    plan: &Plan,
    uses: &mut Vec<Prepared>,
) -> Result<(), AllocError>
    ensures { IfOk result (λ _. uses.new.items ≡ uses.old.items ++ map (granted_use plan.now.node pod.now claims.now) plan.now.grants) }
{
    for grant in plan.grants.as_slice() {
        uses.push(prepare_grant(alloc, claims, pod, &plan.node, grant)?)?;
    }
    Ok(())
}

fn prepare_joins(
    alloc: Global,
    claims: &SharedMap<Key, ClaimState>,
    pod: &Key,
    plan: &Plan,
    uses: &mut Vec<Prepared>,
) -> Result<(), AllocError>
    ensures { IfOk result (λ _. uses.new.items ≡ uses.old.items ++ map (joined_use pod.now claims.now) plan.now.joins) }
{
    for claim in plan.joins.as_slice() {
        uses.push(prepare_join(alloc, claims, pod, claim)?)?;
    }
    Ok(())
}

fn prepare_grant(
    alloc: Global,
    claims: &SharedMap<Key, ClaimState>,
    pod: &Key,
    node: &Text,
    grant: &Grant,
) -> Result<Prepared, AllocError>
    ensures { IfOk result (λ made. made ≡ granted_use node.now pod.now claims.now grant.now) }
{
    let mut prepared = prepare_join(alloc, claims, pod, &grant.claim)?;
    prepared.grant = Some(Shared::new(alloc, granted(alloc, node, grant)?)?);
    Ok(prepared)
}

/// The grant that a plan makes on its node, not yet published.
fn granted(alloc: Global, node: &Text, grant: &Grant) -> Result<Granted, AllocError>
    ensures { IfOk result (λ g. g ≡ record { node = node.now; results = grant.now.results; published = false }) }
{
    let node = node.copy(alloc)?;
    let results = grant.results.copy(alloc)?;
    Ok(Granted {
        node,
        results,
        published: false,
    })
}

fn prepare_join(
    alloc: Global,
    claims: &SharedMap<Key, ClaimState>,
    pod: &Key,
    claim: &Key,
) -> Result<Prepared, AllocError>
    ensures { IfOk result (λ made. made ≡ joined_use pod.now claims.now claim.now) }
{
    let users = users_with(alloc, claims, pod, claim)?;
    let users = Shared::new(alloc, users)?;
    Ok(Prepared {
        claim: claim.copy(alloc)?,
        grant: None,
        users,
    })
}

/// The users of a claim with the pod as an assumed one; none of a claim that isn't there.
fn users_with(
    alloc: Global,
    claims: &SharedMap<Key, ClaimState>,
    pod: &Key,
    claim: &Key,
) -> Result<Users, AllocError>
    ensures { IfOk result (λ users. users ≡ users_with pod.now (at_key claims.now claim.now)) }
{
    match claims.get(claim) {
        None => Ok(Users::none(alloc)),
        Some(state) => {
            let how = Use::Assumed(state.claim.version);
            state.users.with(alloc, pod, how)
        }
    }
}

/// Puts what was prepared into the claims. `AllocError` is returned only if memory runs out, and then some of it may be
/// there.
pub fn place(
    alloc: Global,
    claims: &mut SharedMap<Key, ClaimState>,
    uses: Vec<Prepared>,
) -> Result<(), AllocError>
    ensures { OnOk result (claims.new ≡ placed uses.items claims.old) }
{
    for prepared in uses {
        put(alloc, claims, prepared)?;
    }
    Ok(())
}

fn put(
    alloc: Global,
    claims: &mut SharedMap<Key, ClaimState>,
    prepared: Prepared,
) -> Result<(), AllocError>
    ensures { OnOk result (claims.new ≡ changed_at prepared.claim (given prepared) claims.old) }
{
    let Prepared {
        claim,
        grant,
        users,
    } = prepared;
    match claims.get_mut(alloc, &claim) {
        Ok(state) => {
            give(state, grant, users);
            Ok(())
        }
        Err(NoValue::Missing) => Ok(()),
        Err(NoValue::Memory) => Err(AllocError),
    }
}

fn give(state: &mut ClaimState, grant: Option<Shared<Granted>>, users: Shared<Users>)
    ensures { state.new ≡ given_by grant users state.old }
{
    state.users = users;
    if grant.is_some() {
        state.grant = grant;
    }
}
