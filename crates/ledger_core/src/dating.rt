//! The dates that a ledger keeps: which nodes, slices and classes an entry changes, and in which pools it frees devices.

ghost use Rattle.std.specs.Prelude.{◌≡◌, ◌++◌, ◌∷◌, [], IfOk, OnOk};
ghost use Rattle.pool_view.specs.declared.names.PoolName.{PoolName};
ghost use Rattle.cluster.specs.Ready.{object_of};
ghost use Rattle.allocations.specs.Lacking.{freed_for};
ghost use Rattle.histories.specs.Growth.{is_searched};
ghost use Rattle.ledger_core.specs.Remembered.{GoesOn, IsSame, pool_of, pools_held, pools_lost, set_in};

use api_slice::ResourceSlice;
use cluster::{DeviceResult, Granted, Kept};
use dra_values::Shared;
use histories::{dates_grow, held_since_dates, lacking_goes_on};
use node_memo::Dates;
use object_fields::DeviceId;
use pool_view::PoolName;
use std::alloc::{AllocError, Global};

/// One entry more keeps dates that it sets, and what is known of nodes if the history stays legal.
pub fn memory_goes_on()
    ensures { GoesOn }
{
    dates_grow();
    held_since_dates();
    lacking_goes_on();
}

// ---- pools in which devices may be free again

fn pool_of(alloc: Global, device: &DeviceId) -> Result<PoolName, AllocError>
    ensures { IfOk result (λ pool. pool ≡ pool_of device.now) }
{
    Ok(PoolName {
        driver: device.driver.copy(alloc)?,
        pool: device.pool.copy(alloc)?,
    })
}

/// Puts the pool of a result at the end, unless the result has admin access.
fn add_pool(
    alloc: Global,
    pools: &mut Vec<PoolName>,
    found: &DeviceResult,
) -> Result<(), AllocError>
    ensures { OnOk result (pools.new.items ≡ pools.old.items ++ pools_held (found.now ∷ [])) }
{
    if found.admin {
        return Ok(());
    }
    pools.push(pool_of(alloc, &found.device)?)?;
    Ok(())
}

/// Puts the pools of results without admin access at the end.
fn add_pools(
    alloc: Global,
    pools: &mut Vec<PoolName>,
    results: &[DeviceResult],
) -> Result<(), AllocError>
    ensures { OnOk result (pools.new.items ≡ pools.old.items ++ pools_held results.now) }
{
    for found in results {
        add_pool(alloc, pools, found)?;
    }
    Ok(())
}

/// The pools of the devices that results hold.
pub fn pools_held(alloc: Global, results: &[DeviceResult]) -> Result<Vec<PoolName>, AllocError>
    ensures { IfOk result (λ pools. pools.items ≡ pools_held results.now) }
{
    let mut pools = Vec::new(alloc);
    add_pools(alloc, &mut pools, results)?;
    Ok(pools)
}

/// The pools of the devices that grants hold.
pub fn pools_lost(alloc: Global, lost: &[Shared<Granted>]) -> Result<Vec<PoolName>, AllocError>
    ensures { IfOk result (λ pools. pools.items ≡ pools_lost lost.now) }
{
    let mut pools = Vec::new(alloc);
    for grant in lost {
        add_pools(alloc, &mut pools, grant.results.as_slice())?;
    }
    Ok(pools)
}

/// Sets the dates of pools. `AllocError` only if memory runs out, and then some may be set.
pub fn set_freed(
    alloc: Global,
    dates: &mut Dates,
    pools: &[PoolName],
    index: u64,
) -> Result<(), AllocError>
    ensures objects { OnOk result (dates.new.objects ≡ dates.old.objects) }
    ensures freed { OnOk result ((pool : PoolName) → freed_for dates.new pool ≡ set_in index pool pools.now (freed_for dates.old pool)) }
{
    for pool in pools {
        dates.set_freed(alloc, pool, index)?;
    }
    Ok(())
}

// ---- nodes, slices and classes

/// Whether it is a node, a slice or a class.
pub fn is_searched(kept: &Kept) -> bool
    ensures { result ≡ is_searched (object_of kept.now) }
{
    match kept {
        Kept::Node(_) => true,
        Kept::Slice(_) => true,
        Kept::Class(_) => true,
        Kept::Claim(_) => false,
        Kept::Pod(_) => false,
    }
}

/// Makes room for the date of the pool of a slice, which then has its place among the dates before a device of it is
/// freed. All dates stay the same.
pub fn make_slice_row(alloc: Global, dates: &mut Dates, kept: &Kept) -> Result<(), AllocError>
    ensures { IsSame dates.old dates.new }
{
    match kept {
        Kept::Slice(slice) => make_pool_row(alloc, dates, slice.value()),
        Kept::Node(_) => Ok(()),
        Kept::Class(_) => Ok(()),
        Kept::Claim(_) => Ok(()),
        Kept::Pod(_) => Ok(()),
    }
}

fn make_pool_row(alloc: Global, dates: &mut Dates, slice: &ResourceSlice) -> Result<(), AllocError>
    ensures { IsSame dates.old dates.new }
{
    let pool = PoolName::of(alloc, slice)?;
    dates.make_room(alloc, &pool)
}
