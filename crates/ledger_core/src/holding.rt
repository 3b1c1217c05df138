//! The claims that hold devices, changed with each kind of entry.

ghost use Rattle.std.specs.Prelude.{◌≡◌, ◌++◌, [], None, true, false, IfOk, OnOk, OnErr, map};
ghost use Rattle.object_fields.specs.declared.key.DeviceId.{DeviceId};
ghost use Rattle.pool_view.specs.Names.{at_key};
ghost use Rattle.counter_sets.specs.Holding.{holder_in};
ghost use Rattle.cluster.specs.Adopted.{result_of, with_adopted};
ghost use Rattle.cluster.specs.Deleted.{without_object};
ghost use Rattle.cluster.specs.Freed.{without_uses};
ghost use Rattle.cluster.specs.Reserved.{with_reserved};
ghost use Rattle.cluster.specs.declared.object.Target.TheVariants as targets;
ghost use Rattle.request_rules.specs.Lists.{add_some};
ghost use Rattle.pool_totals.specs.Counting.{AreCounted};
ghost use Rattle.allocations.specs.Lost.{grant_at, lost_among, lost_at, lost_by, lost_of, lost_with};
ghost use Rattle.histories.specs.Growth.{names_searched};
ghost use Rattle.ledger_core.specs.Holding.{given_each, given_one, given_to, left_by, left_of, left_one};
ghost use Rattle.ledger_core.specs.Remembered.{AreSet, IsSame, pools_lost};

use crate::counting;
use crate::dating::{pools_held, pools_lost, set_freed};
use allocations::keys_of_pod;
use api_claim::{ClaimStatus, StatusResult};
use cluster::{ClaimState, DeviceResult, Grant, Granted, Plan, State, Target};
use counter_sets::{Held, SharedTotals};
use dra_values::{Duplicate, Seq, Shared};
use node_memo::Dates;
use object_fields::Key;
use pool_totals::hold;
use pool_view::{Inventory, PoolName, Pools};
use shared_map::SharedMap;
use std::alloc::{AllocError, Global};

/// Gives a claim the device of a result, unless the result has admin access.
fn give(
    alloc: Global,
    pools: &Pools,
    holders: &mut Held,
    totals: &mut SharedTotals,
    claim: &Key,
    found: &DeviceResult,
) -> Result<(), AllocError>
    requires counted { AreCounted pools.now holders.old totals.old }
    ensures ok { OnOk result ((id : DeviceId) → holder_in holders.new id ≡ given_one claim.now found.now id (holder_in holders.old id)) }
    ensures counted { OnOk result (AreCounted pools.now holders.new totals.new) }
{
    if found.admin {
        return Ok(());
    }
    let claim = claim.copy(alloc)?;
    hold(alloc, pools, holders, totals, &found.device, claim)
}

/// Gives a claim the devices of results without admin access. After an error it may have some of them.
fn give_all(
    alloc: Global,
    pools: &Pools,
    holders: &mut Held,
    totals: &mut SharedTotals,
    claim: &Key,
    results: &[DeviceResult],
) -> Result<(), AllocError>
    requires counted { AreCounted pools.now holders.old totals.old }
    ensures ok { OnOk result ((id : DeviceId) → holder_in holders.new id ≡ given_to claim.now results.now id (holder_in holders.old id)) }
    ensures counted { OnOk result (AreCounted pools.now holders.new totals.new) }
{
    for found in results {
        give(alloc, pools, holders, totals, claim, found)?;
    }
    Ok(())
}

/// Gives each claim its devices. After an error some of them may be given.
fn give_each(
    alloc: Global,
    pools: &Pools,
    holders: &mut Held,
    totals: &mut SharedTotals,
    grants: &[Grant],
) -> Result<(), AllocError>
    requires counted { AreCounted pools.now holders.old totals.old }
    ensures ok { OnOk result ((id : DeviceId) → holder_in holders.new id ≡ given_each grants.now id (holder_in holders.old id)) }
    ensures counted { OnOk result (AreCounted pools.now holders.new totals.new) }
{
    for grant in grants {
        give_all(
            alloc,
            pools,
            holders,
            totals,
            &grant.claim,
            grant.results.as_slice(),
        )?;
    }
    Ok(())
}

/// Gives the device of a result back, unless the result has admin access.
fn leave(
    alloc: Global,
    pools: &Pools,
    holders: &mut Held,
    totals: &mut SharedTotals,
    found: &DeviceResult,
) -> Result<(), AllocError>
    requires counted { AreCounted pools.now holders.old totals.old }
    ensures left { OnOk result ((id : DeviceId) → holder_in holders.new id ≡ left_one found.now id (holder_in holders.old id)) }
    ensures counted { OnOk result (AreCounted pools.now holders.new totals.new) }
{
    if found.admin {
        return Ok(());
    }
    pool_totals::leave(alloc, pools, holders, totals, &found.device)
}

/// Gives the devices of results without admin access back. After an error some of them may be given back.
fn leave_all(
    alloc: Global,
    pools: &Pools,
    holders: &mut Held,
    totals: &mut SharedTotals,
    results: &[DeviceResult],
) -> Result<(), AllocError>
    requires counted { AreCounted pools.now holders.old totals.old }
    ensures left { OnOk result ((id : DeviceId) → holder_in holders.new id ≡ left_of results.now id (holder_in holders.old id)) }
    ensures counted { OnOk result (AreCounted pools.now holders.new totals.new) }
{
    for found in results {
        leave(alloc, pools, holders, totals, found)?;
    }
    Ok(())
}

/// Gives the devices of grants that go back. After an error some of them may be given back.
fn leave_lost(
    alloc: Global,
    pools: &Pools,
    holders: &mut Held,
    totals: &mut SharedTotals,
    lost: &[Shared<Granted>],
) -> Result<(), AllocError>
    requires counted { AreCounted pools.now holders.old totals.old }
    ensures left { OnOk result ((id : DeviceId) → holder_in holders.new id ≡ left_by lost.now id (holder_in holders.old id)) }
    ensures counted { OnOk result (AreCounted pools.now holders.new totals.new) }
{
    for grant in lost {
        leave_all(alloc, pools, holders, totals, grant.results.as_slice())?;
    }
    Ok(())
}

// ---- a plan's grants

/// Gives the claims of a plan their devices, and makes its grants. After an error the devices may be given.
fn reserve_held(
    alloc: Global,
    state: &mut State,
    pools: &Pools,
    holders: &mut Held,
    totals: &mut SharedTotals,
    job: u64,
    pod: &Key,
    plan: &Plan,
) -> Result<(), AllocError>
    requires counted { AreCounted pools.now holders.old totals.old }
    ensures ok { OnOk result (state.new ≡ with_reserved job pod.now plan.now state.old) }
    ensures given { OnOk result ((id : DeviceId) → holder_in holders.new id ≡ given_each plan.now.grants id (holder_in holders.old id)) }
    ensures err { OnErr result (state.new ≡ state.old) }
    ensures counted { OnOk result (AreCounted pools.now holders.new totals.new) }
{
    give_each(alloc, pools, holders, totals, plan.grants.as_slice())?;
    state.reserve(alloc, job, pod, plan)
}

/// Makes a plan's grants, where these are the state's nodes and slices. After an error each device is held as it was.
fn reserve_over(
    alloc: Global,
    state: &mut State,
    inventory: &Inventory,
    holders: &mut Held,
    totals: &mut SharedTotals,
    job: u64,
    pod: &Key,
    plan: &Plan,
) -> Result<(), AllocError>
    requires counted { AreCounted inventory.now holders.old totals.old }
    ensures ok { OnOk result (state.new ≡ with_reserved job pod.now plan.now state.old) }
    ensures given { OnOk result ((id : DeviceId) → holder_in holders.new id ≡ given_each plan.now.grants id (holder_in holders.old id)) }
    ensures err { OnErr result (state.new ≡ state.old) }
    ensures same { OnErr result (holders.new ≡ holders.old) }
    ensures counted { AreCounted inventory.now holders.new totals.new }
{
    let pools = Pools::of(alloc, inventory)?;
    let mut next = holders.share()?;
    let mut drawn = totals.share()?;
    reserve_held(alloc, state, &pools, &mut next, &mut drawn, job, pod, plan)?;
    *holders = next;
    *totals = drawn;
    Ok(())
}

/// Makes a plan's grants, and returns the pod's key and the plan again. `AllocError` is returned only if memory runs
/// out, and then the state is as it was, and each device is held as it was.
pub fn reserve(
    alloc: Global,
    state: &mut State,
    holders: &mut Held,
    totals: &mut SharedTotals,
    job: u64,
    pod: &Key,
    plan: &Plan,
) -> Result<(Key, Shared<Plan>), AllocError>
    requires counted { AreCounted state.old.inventory holders.old totals.old }
    ensures kept { IfOk result (λ kept. (kept.0 ≡ pod.now) × (kept.1 ≡ plan.now)) }
    ensures ok { OnOk result (state.new ≡ with_reserved job pod.now plan.now state.old) }
    ensures given { OnOk result ((id : DeviceId) → holder_in holders.new id ≡ given_each plan.now.grants id (holder_in holders.old id)) }
    ensures err { OnErr result (state.new ≡ state.old) }
    ensures same { OnErr result (holders.new ≡ holders.old) }
    ensures counted { AreCounted state.old.inventory holders.new totals.new }
{
    state.sort(alloc)?;
    let kept_pod = pod.copy(alloc)?;
    let kept_plan = Shared::new(alloc, plan.copy(alloc)?)?;
    let inventory = state.inventory.share()?;
    reserve_over(alloc, state, &inventory, holders, totals, job, pod, plan)?;
    Ok((kept_pod, kept_plan))
}

// ---- the uses of a pod

/// The grant of a claim whose only user is the pod.
fn lost_by(
    alloc: Global,
    pod: &Key,
    claim: &ClaimState,
) -> Result<Option<Shared<Granted>>, AllocError>
    ensures { IfOk result (λ lost. lost ≡ lost_by pod.now claim.now) }
{
    if claim.users.contains_key(pod) && claim.users.len() == 1 {
        claim.grant.duplicate(alloc)
    } else {
        Ok(None)
    }
}

fn lost_at(
    alloc: Global,
    claims: &SharedMap<Key, ClaimState>,
    pod: &Key,
    claim: &Key,
) -> Result<Option<Shared<Granted>>, AllocError>
    ensures { IfOk result (λ lost. lost ≡ lost_at pod.now (at_key claims.now claim.now)) }
{
    match claims.get(claim) {
        None => Ok(None),
        Some(claim) => lost_by(alloc, pod, claim),
    }
}

/// Puts a grant that goes at the end, where there is one.
fn add_lost(
    lost: &mut Vec<Shared<Granted>>,
    grant: Option<Shared<Granted>>,
) -> Result<(), AllocError>
    ensures { OnOk result (lost.new.items ≡ lost.old.items ++ add_some grant []) }
{
    if let Some(grant) = grant {
        lost.push(grant)?;
    }
    Ok(())
}

fn lost_among(
    alloc: Global,
    claims: &SharedMap<Key, ClaimState>,
    pod: &Key,
    keys: &[Key],
) -> Result<Vec<Shared<Granted>>, AllocError>
    ensures { IfOk result (λ lost. lost.items ≡ lost_among pod.now claims.now keys.now) }
{
    let mut lost = Vec::new(alloc);
    for key in keys {
        add_lost(&mut lost, lost_at(alloc, claims, pod, key)?)?;
    }
    Ok(lost)
}

/// The grants that go with the uses of a pod.
fn lost_with(alloc: Global, state: &State, pod: &Key) -> Result<Vec<Shared<Granted>>, AllocError>
    ensures { IfOk result (λ lost. lost.items ≡ lost_with state.now pod.now) }
{
    match state.pods.get(pod) {
        None => Ok(Vec::new(alloc)),
        Some(found) => {
            let keys = keys_of_pod(alloc, &found.pod.object)?;
            lost_among(alloc, &state.claims, pod, keys.as_slice())
        }
    }
}

/// Takes the uses of a pod away, and gives the devices back that go with them. After an error some may be given back, and
/// some dates set.
fn free_held(
    alloc: Global,
    state: &mut State,
    pools: &Pools,
    holders: &mut Held,
    totals: &mut SharedTotals,
    dates: &mut Dates,
    index: u64,
    pod: &Key,
) -> Result<(), AllocError>
    requires counted { AreCounted pools.now holders.old totals.old }
    ensures ok { OnOk result (state.new ≡ without_uses index pod.now state.old) }
    ensures left { OnOk result ((id : DeviceId) → holder_in holders.new id ≡ left_by (lost_with state.old pod.now) id (holder_in holders.old id)) }
    ensures dated { OnOk result (AreSet false (lost_with state.old pod.now) index dates.old dates.new) }
    ensures err { OnErr result (state.new ≡ state.old) }
    ensures counted { OnOk result (AreCounted pools.now holders.new totals.new) }
{
    let lost = lost_with(alloc, state, pod)?;
    let freed = pools_lost(alloc, &lost)?;
    set_freed(alloc, dates, &freed, index)?;
    leave_lost(alloc, pools, holders, totals, &lost)?;
    state.free(alloc, index, pod)
}

/// Takes the uses of a pod away, where these are the state's nodes and slices. After an error nothing has changed.
fn free_over(
    alloc: Global,
    state: &mut State,
    inventory: &Inventory,
    holders: &mut Held,
    totals: &mut SharedTotals,
    dates: &mut Shared<Dates>,
    index: u64,
    pod: &Key,
) -> Result<(), AllocError>
    requires counted { AreCounted inventory.now holders.old totals.old }
    ensures ok { OnOk result (state.new ≡ without_uses index pod.now state.old) }
    ensures left { OnOk result ((id : DeviceId) → holder_in holders.new id ≡ left_by (lost_with state.old pod.now) id (holder_in holders.old id)) }
    ensures dated { OnOk result (AreSet false (lost_with state.old pod.now) index dates.old dates.new) }
    ensures err { OnErr result (state.new ≡ state.old) }
    ensures same { OnErr result (holders.new ≡ holders.old) }
    ensures undated { OnErr result (IsSame dates.old dates.new) }
    ensures counted { AreCounted inventory.now holders.new totals.new }
{
    let pools = Pools::of(alloc, inventory)?;
    let mut next = holders.share()?;
    let mut drawn = totals.share()?;
    let mut later = dates.share()?;
    let dated = later.change(alloc)?;
    free_held(
        alloc, state, &pools, &mut next, &mut drawn, dated, index, pod,
    )?;
    *holders = next;
    *totals = drawn;
    *dates = later;
    Ok(())
}

/// Takes the uses of a pod away, by the entry at this index, and returns its key again. `AllocError`
/// is returned only if memory runs out, and then nothing changed.
pub fn free(
    alloc: Global,
    state: &mut State,
    holders: &mut Held,
    totals: &mut SharedTotals,
    dates: &mut Shared<Dates>,
    index: u64,
    pod: &Key,
) -> Result<Key, AllocError>
    requires counted { AreCounted state.old.inventory holders.old totals.old }
    ensures kept { IfOk result (λ kept. kept ≡ pod.now) }
    ensures ok { OnOk result (state.new ≡ without_uses index pod.now state.old) }
    ensures left { OnOk result ((id : DeviceId) → holder_in holders.new id ≡ left_by (lost_with state.old pod.now) id (holder_in holders.old id)) }
    ensures dated { OnOk result (AreSet false (lost_with state.old pod.now) index dates.old dates.new) }
    ensures err { OnErr result (state.new ≡ state.old) }
    ensures same { OnErr result (holders.new ≡ holders.old) }
    ensures undated { OnErr result (IsSame dates.old dates.new) }
    ensures counted { AreCounted state.old.inventory holders.new totals.new }
{
    state.sort(alloc)?;
    let kept = pod.copy(alloc)?;
    let inventory = state.inventory.share()?;
    free_over(alloc, state, &inventory, holders, totals, dates, index, pod)?;
    Ok(kept)
}

// ---- objects that are taken away

/// The grant of a claim, if it is there and has one.
fn grant_at(
    alloc: Global,
    claims: &SharedMap<Key, ClaimState>,
    claim: &Key,
) -> Result<Option<Shared<Granted>>, AllocError>
    ensures { IfOk result (λ grant. grant ≡ grant_at (at_key claims.now claim.now)) }
{
    match claims.get(claim) {
        None => Ok(None),
        Some(claim) => claim.grant.duplicate(alloc),
    }
}

/// Takes an object away, with whose grant these results go. After an error some of their devices may be given back.
fn remove_held(
    alloc: Global,
    state: &mut State,
    pools: &Pools,
    holders: &mut Held,
    totals: &mut SharedTotals,
    target: &Target,
    results: &[DeviceResult],
) -> Result<(), AllocError>
    requires counted { AreCounted pools.now holders.old totals.old }
    ensures ok { OnOk result (state.new ≡ without_object target.now state.old) }
    ensures left { OnOk result ((id : DeviceId) → holder_in holders.new id ≡ left_of results.now id (holder_in holders.old id)) }
    ensures err { OnErr result (state.new ≡ state.old) }
    ensures counted { OnOk result (AreCounted pools.now holders.new totals.new) }
{
    leave_all(alloc, pools, holders, totals, results)?;
    state.remove(alloc, target)
}

/// Takes away a claim, with whose grant these results go, where these are the state's nodes and slices. After an error
/// each device is held as it was.
fn remove_over(
    alloc: Global,
    state: &mut State,
    inventory: &Inventory,
    holders: &mut Held,
    totals: &mut SharedTotals,
    target: &Target,
    results: &[DeviceResult],
) -> Result<(), AllocError>
    requires counted { AreCounted inventory.now holders.old totals.old }
    ensures ok { OnOk result (state.new ≡ without_object target.now state.old) }
    ensures left { OnOk result ((id : DeviceId) → holder_in holders.new id ≡ left_of results.now id (holder_in holders.old id)) }
    ensures err { OnErr result (state.new ≡ state.old) }
    ensures same { OnErr result (holders.new ≡ holders.old) }
    ensures counted { AreCounted inventory.now holders.new totals.new }
{
    let pools = Pools::of(alloc, inventory)?;
    let mut next = holders.share()?;
    let mut drawn = totals.share()?;
    remove_held(alloc, state, &pools, &mut next, &mut drawn, target, results)?;
    *holders = next;
    *totals = drawn;
    Ok(())
}

/// Takes away a claim, with whose grant these results go.
fn remove_granted(
    alloc: Global,
    state: &mut State,
    holders: &mut Held,
    totals: &mut SharedTotals,
    target: &Target,
    key: &Key,
    results: &[DeviceResult],
) -> Result<(), AllocError>
    requires target { target.now ≡ targets.Claim key.now }
    requires counted { AreCounted state.old.inventory holders.old totals.old }
    ensures ok { OnOk result (state.new ≡ without_object target.now state.old) }
    ensures left { OnOk result ((id : DeviceId) → holder_in holders.new id ≡ left_of results.now id (holder_in holders.old id)) }
    ensures err { OnErr result (state.new ≡ state.old) }
    ensures same { OnErr result (holders.new ≡ holders.old) }
    ensures counted { AreCounted state.new.inventory holders.new totals.new }
{
    state.sort(alloc)?;
    let inventory = state.inventory.share()?;
    remove_over(alloc, state, &inventory, holders, totals, target, results)
}

/// Takes away a claim, with whose grant its devices go back.
fn remove_claim(
    alloc: Global,
    state: &mut State,
    holders: &mut Held,
    totals: &mut SharedTotals,
    target: &Target,
    key: &Key,
    grant: &Option<Shared<Granted>>,
) -> Result<(), AllocError>
    requires target { target.now ≡ targets.Claim key.now }
    requires counted { AreCounted state.old.inventory holders.old totals.old }
    ensures ok { OnOk result (state.new ≡ without_object target.now state.old) }
    ensures left { OnOk result ((id : DeviceId) → holder_in holders.new id ≡ left_by (add_some grant.now []) id (holder_in holders.old id)) }
    ensures err { OnErr result (state.new ≡ state.old) }
    ensures same { OnErr result (holders.new ≡ holders.old) }
    ensures counted { AreCounted state.new.inventory holders.new totals.new }
{
    match grant {
        None => counting::remove(alloc, state, holders, totals, target),
        Some(grant) => {
            let results = grant.results.as_slice();
            remove_granted(alloc, state, holders, totals, target, key, results)
        }
    }
}

/// The pools of the devices that a grant holds, if there is one.
fn pools_of_grant(
    alloc: Global,
    grant: &Option<Shared<Granted>>,
) -> Result<Vec<PoolName>, AllocError>
    ensures { IfOk result (λ pools. pools.items ≡ pools_lost (add_some grant.now [])) }
{
    match grant {
        None => Ok(Vec::new(alloc)),
        Some(grant) => pools_held(alloc, grant.results.as_slice()),
    }
}

/// Takes away a claim by the entry at this index.
fn remove_dated(
    alloc: Global,
    state: &mut State,
    holders: &mut Held,
    totals: &mut SharedTotals,
    dates: &mut Shared<Dates>,
    index: u64,
    target: &Target,
    key: &Key,
) -> Result<(), AllocError>
    requires target { target.now ≡ targets.Claim key.now }
    requires counted { AreCounted state.old.inventory holders.old totals.old }
    ensures ok { OnOk result (state.new ≡ without_object target.now state.old) }
    ensures left { OnOk result ((id : DeviceId) → holder_in holders.new id ≡ left_by (add_some (lost_of state.old target.now) []) id (holder_in holders.old id)) }
    ensures dated { OnOk result (AreSet false (add_some (lost_of state.old target.now) []) index dates.old dates.new) }
    ensures err { OnErr result (state.new ≡ state.old) }
    ensures same { OnErr result (holders.new ≡ holders.old) }
    ensures undated { OnErr result (IsSame dates.old dates.new) }
    ensures counted { AreCounted state.new.inventory holders.new totals.new }
{
    let grant = grant_at(alloc, &state.claims, key)?;
    let freed = pools_of_grant(alloc, &grant)?;
    let mut later = dates.share()?;
    set_freed(alloc, later.change(alloc)?, &freed, index)?;
    remove_claim(alloc, state, holders, totals, target, key, &grant)?;
    *dates = later;
    Ok(())
}

/// Takes away a node, a slice or a class by the entry at this index.
fn remove_searched(
    alloc: Global,
    state: &mut State,
    holders: &Held,
    totals: &mut SharedTotals,
    dates: &mut Shared<Dates>,
    index: u64,
    target: &Target,
) -> Result<(), AllocError>
    requires counted { AreCounted state.old.inventory holders.now totals.old }
    ensures ok { OnOk result (state.new ≡ without_object target.now state.old) }
    ensures dated { OnOk result (AreSet true [] index dates.old dates.new) }
    ensures err { OnErr result (state.new ≡ state.old) }
    ensures undated { OnErr result (IsSame dates.old dates.new) }
    ensures counted { AreCounted state.new.inventory holders.now totals.new }
{
    let dates = dates.change(alloc)?;
    counting::remove(alloc, state, holders, totals, target)?;
    dates.set_objects(index);
    Ok(())
}

fn remove_by(
    alloc: Global,
    state: &mut State,
    holders: &mut Held,
    totals: &mut SharedTotals,
    dates: &mut Shared<Dates>,
    index: u64,
    target: &Target,
) -> Result<(), AllocError>
    requires counted { AreCounted state.old.inventory holders.old totals.old }
    ensures ok { OnOk result (state.new ≡ without_object target.now state.old) }
    ensures left { OnOk result ((id : DeviceId) → holder_in holders.new id ≡ left_by (add_some (lost_of state.old target.now) []) id (holder_in holders.old id)) }
    ensures dated { OnOk result (AreSet (names_searched target.now) (add_some (lost_of state.old target.now) []) index dates.old dates.new) }
    ensures err { OnErr result (state.new ≡ state.old) }
    ensures same { OnErr result (holders.new ≡ holders.old) }
    ensures undated { OnErr result (IsSame dates.old dates.new) }
    ensures counted { AreCounted state.new.inventory holders.new totals.new }
{
    match target {
        Target::Claim(key) => {
            remove_dated(alloc, state, holders, totals, dates, index, target, key)
        }
        Target::Pod(_) => counting::remove(alloc, state, holders, totals, target),
        Target::Node(_) | Target::Slice(_) | Target::Class(_) => {
            remove_searched(alloc, state, holders, totals, dates, index, target)
        }
    }
}

/// Takes an object away by the entry at this index, and returns its kind and name again. `AllocError` is
/// returned only if memory runs out, and then the state is as it was, and each device is held as it was.
pub fn remove(
    alloc: Global,
    state: &mut State,
    holders: &mut Held,
    totals: &mut SharedTotals,
    dates: &mut Shared<Dates>,
    index: u64,
    target: &Target,
) -> Result<Target, AllocError>
    requires counted { AreCounted state.old.inventory holders.old totals.old }
    ensures kept { IfOk result (λ kept. kept ≡ target.now) }
    ensures ok { OnOk result (state.new ≡ without_object target.now state.old) }
    ensures left { OnOk result ((id : DeviceId) → holder_in holders.new id ≡ left_by (add_some (lost_of state.old target.now) []) id (holder_in holders.old id)) }
    ensures dated { OnOk result (AreSet (names_searched target.now) (add_some (lost_of state.old target.now) []) index dates.old dates.new) }
    ensures err { OnErr result (state.new ≡ state.old) }
    ensures same { OnErr result (holders.new ≡ holders.old) }
    ensures undated { OnErr result (IsSame dates.old dates.new) }
    ensures counted { AreCounted state.new.inventory holders.new totals.new }
{
    let kept = target.copy(alloc)?;
    remove_by(alloc, state, holders, totals, dates, index, target)?;
    Ok(kept)
}

// ---- the grant of a status write

fn device_result(alloc: Global, found: &StatusResult) -> Result<DeviceResult, AllocError>
    ensures { IfOk result (λ r. r ≡ result_of found.now) }
{
    Ok(DeviceResult {
        name: found.request.copy(alloc)?,
        device: found.device.copy(alloc)?,
        admin: found.admin,
    })
}

/// The results of a status write as those of a grant.
fn status_results(alloc: Global, status: &ClaimStatus) -> Result<Seq<DeviceResult>, AllocError>
    ensures { IfOk result (λ results. results ≡ map result_of status.now.results) }
{
    let mut results = Seq::empty(alloc);
    for found in status.results.as_slice() {
        results.push(device_result(alloc, found)?)?;
    }
    Ok(results)
}

/// Gives a claim the devices of a status write, and grants it what that says. After an error the devices may be given.
fn adopt_held(
    alloc: Global,
    state: &mut State,
    pools: &Pools,
    holders: &mut Held,
    totals: &mut SharedTotals,
    index: u64,
    claim: &Key,
    status: &ClaimStatus,
) -> Result<(), AllocError>
    requires counted { AreCounted pools.now holders.old totals.old }
    ensures ok { OnOk result (state.new ≡ with_adopted index claim.now status.now state.old) }
    ensures given { OnOk result ((id : DeviceId) → holder_in holders.new id ≡ given_to claim.now (map result_of status.now.results) id (holder_in holders.old id)) }
    ensures err { OnErr result (state.new ≡ state.old) }
    ensures counted { OnOk result (AreCounted pools.now holders.new totals.new) }
{
    let results = status_results(alloc, status)?;
    give_all(alloc, pools, holders, totals, claim, results.as_slice())?;
    state.adopt(alloc, index, claim, status)
}

/// Grants a claim what a status write says, where these are the state's nodes and slices. After an error each device is
/// held as it was.
fn adopt_over(
    alloc: Global,
    state: &mut State,
    inventory: &Inventory,
    holders: &mut Held,
    totals: &mut SharedTotals,
    index: u64,
    claim: &Key,
    status: &ClaimStatus,
) -> Result<(), AllocError>
    requires counted { AreCounted inventory.now holders.old totals.old }
    ensures ok { OnOk result (state.new ≡ with_adopted index claim.now status.now state.old) }
    ensures given { OnOk result ((id : DeviceId) → holder_in holders.new id ≡ given_to claim.now (map result_of status.now.results) id (holder_in holders.old id)) }
    ensures err { OnErr result (state.new ≡ state.old) }
    ensures same { OnErr result (holders.new ≡ holders.old) }
    ensures counted { AreCounted inventory.now holders.new totals.new }
{
    let pools = Pools::of(alloc, inventory)?;
    let mut next = holders.share()?;
    let mut drawn = totals.share()?;
    adopt_held(
        alloc, state, &pools, &mut next, &mut drawn, index, claim, status,
    )?;
    *holders = next;
    *totals = drawn;
    Ok(())
}

/// Grants a claim what a status write says, by the entry at this index, and returns the claim's key again. `AllocError`
/// is returned only if memory runs out, and then the state is as it was, and each device is held as it was.
pub fn adopt(
    alloc: Global,
    state: &mut State,
    holders: &mut Held,
    totals: &mut SharedTotals,
    index: u64,
    claim: &Key,
    status: &ClaimStatus,
) -> Result<Key, AllocError>
    requires counted { AreCounted state.old.inventory holders.old totals.old }
    ensures kept { IfOk result (λ kept. kept ≡ claim.now) }
    ensures ok { OnOk result (state.new ≡ with_adopted index claim.now status.now state.old) }
    ensures given { OnOk result ((id : DeviceId) → holder_in holders.new id ≡ given_to claim.now (map result_of status.now.results) id (holder_in holders.old id)) }
    ensures err { OnErr result (state.new ≡ state.old) }
    ensures same { OnErr result (holders.new ≡ holders.old) }
    ensures counted { AreCounted state.old.inventory holders.new totals.new }
{
    state.sort(alloc)?;
    let kept = claim.copy(alloc)?;
    let inventory = state.inventory.share()?;
    adopt_over(
        alloc, state, &inventory, holders, totals, index, claim, status,
    )?;
    Ok(kept)
}
