//! The slices of each pool, kept beside those of all pools.

ghost use Rattle.std.specs.Prelude.{◌≡◌, None, IfOk, OnOk, cond, option_copied, true};
ghost use Rattle.std.specs.BTreeMap.{insert_entry, is_at};
ghost use Rattle.std.specs.Map.{remove_entry};
ghost use Rattle.pool_view.specs.declared.names.PoolName.{PoolName};
ghost use Rattle.api_slice.specs.declared.types.ResourceSlice.{ResourceSlice};
ghost use Rattle.pool_view.specs.Groups.{objects};
ghost use Rattle.pool_view.specs.Inventory.{Named, with_named, without_named};
ghost use Rattle.pool_view.specs.Names.{at_name, text_cmp};
ghost use Rattle.pool_view.specs.OnePool.{is_in, stored_in};
ghost use Rattle.pool_view.specs.PoolIndexes.{AreIndexed, at_pool, stored_by, was_in};
ghost use Rattle.pool_view.specs.Pools.{slices_of};
ghost use Rattle.pool_view.specs.Tally.{AreUncounted};
ghost use Rattle.pool_view.specs.Usable.{pool_named};

use crate::inventory::Slices;
use crate::one_pool::stored_in;
use crate::pool_slices::PoolSlices;
use crate::{PoolName, Stored};
use api_slice::ResourceSlice;
use dra_values::{Duplicate, Shared, Text};
use shared_map::SharedMap;
use std::alloc::{AllocError, Global};

/// The slices of each pool that has some, by the pool's name.
pub type PoolIndex = SharedMap<Shared<PoolName>, PoolSlices>;

/// The slices of a pool among all, which share with those that are kept. They are found by the index, or if there is none,
/// among all slices. `AllocError` only if memory runs out.
pub fn slices_in(
    alloc: Global,
    pools: &Option<PoolIndex>,
    slices: &Slices,
    driver: &Text,
    pool: &Text,
) -> Result<Slices, AllocError>
    requires { AreIndexed slices.now pools.now }
    ensures { IfOk result (λ some. some ≡ stored_in driver.now pool.now slices.now) }
{
    match pools {
        Some(index) => indexed_in(alloc, index, driver, pool),
        None => stored_in(alloc, slices, driver, pool),
    }
}

/// The slices that an index has for a pool.
fn indexed_in(
    alloc: Global,
    index: &PoolIndex,
    driver: &Text,
    pool: &Text,
) -> Result<Slices, AllocError>
    ensures { IfOk result (λ slices. slices ≡ at_pool index.now (record { driver = driver.now; pool = pool.now })) }
{
    let name = PoolName {
        driver: driver.copy(alloc)?,
        pool: pool.copy(alloc)?,
    };
    match index.get(&Shared::new(alloc, name)?) {
        Some(slices) => slices.slices().share(),
        None => SharedMap::new(alloc),
    }
}

/// The slices of the pool of a name, which are shared.
fn at_pool(
    alloc: Global,
    index: &PoolIndex,
    name: &Shared<PoolName>,
) -> Result<PoolSlices, AllocError>
    ensures { IfOk result (λ slices. slices ≡ at_pool index.now name.now) }
{
    match index.get(name) {
        Some(slices) => slices.duplicate(alloc),
        None => PoolSlices::new(alloc),
    }
}

/// Whether it is known that counters are about none of the usable slices of a pool, by an index if there is one. It
/// takes one look at the index. `AllocError` only if memory runs out.
pub fn is_uncounted_in(
    alloc: Global,
    pools: &Option<PoolIndex>,
    driver: &Text,
    pool: &Text,
) -> Result<bool, AllocError>
    ensures { IfOk result (λ known. known ≡ true → (all : Named ResourceSlice) → AreIndexed all pools.now → AreUncounted (slices_of driver.now pool.now all)) }
{
    match pools {
        Some(index) => is_uncounted_at(alloc, index, driver, pool),
        None => Ok(false),
    }
}

/// The same by an index.
fn is_uncounted_at(
    alloc: Global,
    index: &PoolIndex,
    driver: &Text,
    pool: &Text,
) -> Result<bool, AllocError>
    ensures { IfOk result (λ known. known ≡ true → AreUncounted (objects (at_pool index.now (record { driver = driver.now; pool = pool.now })))) }
{
    let name = PoolName {
        driver: driver.copy(alloc)?,
        pool: pool.copy(alloc)?,
    };
    match index.get(&Shared::new(alloc, name)?) {
        Some(slices) => Ok(slices.is_uncounted()),
        None => Ok(true),
    }
}

/// Puts a slice of a name that none of its pool has, which is stored, among those of its pool.
fn add(
    alloc: Global,
    index: &mut PoolIndex,
    slice: &ResourceSlice,
    name: Text,
    stored: Stored<Shared<ResourceSlice>>,
) -> Result<(), AllocError>
    requires { at_name (at_pool index.old (pool_named slice.now)) name ≡ None }
    ensures { OnOk result ((p : PoolName) → at_pool index.new p ≡ cond (is_in p.driver p.pool slice.now) (insert_entry text_cmp (at_pool index.old p) name stored) (at_pool index.old p)) }
{
    let pool = Shared::new(alloc, PoolName::of(alloc, slice)?)?;
    let mut slices = at_pool(alloc, index, &pool)?;
    slices.insert(alloc, name, stored)?;
    index.insert(alloc, pool, slices)
}

/// Takes the slice of a name from those of its pool, which goes with its last slice.
fn take_out(
    alloc: Global,
    index: &mut PoolIndex,
    slice: &ResourceSlice,
    name: &Text,
) -> Result<(), AllocError>
    ensures { OnOk result ((p : PoolName) → at_pool index.new p ≡ cond (is_in p.driver p.pool slice.now) (remove_entry (is_at (text_cmp name.now)) (at_pool index.old p)) (at_pool index.old p)) }
{
    index.in_order();
    let pool = Shared::new(alloc, PoolName::of(alloc, slice)?)?;
    let mut slices = at_pool(alloc, index, &pool)?;
    slices.remove(alloc, name)?;
    if slices.is_empty() {
        index.remove(alloc, &pool)?;
        Ok(())
    } else {
        index.insert(alloc, pool, slices)
    }
}

/// Takes what the slice of a name was from the slices of its pool, if it was there.
fn take_old(
    alloc: Global,
    index: &mut PoolIndex,
    old: Option<&Stored<Shared<ResourceSlice>>>,
    name: &Text,
) -> Result<(), AllocError>
    ensures { OnOk result ((p : PoolName) → at_pool index.new p ≡ cond (was_in p.driver p.pool (option_copied old.entry)) (remove_entry (is_at (text_cmp name.now)) (at_pool index.old p)) (at_pool index.old p)) }
{
    match old {
        None => Ok(()),
        Some(old) => take_out(alloc, index, &old.object, name),
    }
}

/// A slice as it is stored where the entry at this index puts it, in the place of another if there is one.
fn stored_by(
    place: u64,
    slice: Shared<ResourceSlice>,
    old: Option<&Stored<Shared<ResourceSlice>>>,
) -> Stored<Shared<ResourceSlice>>
    ensures { result ≡ stored_by place slice (option_copied old.entry) }
{
    match old {
        None => Stored::created(place, slice),
        Some(old) => Stored {
            object: slice,
            uid: old.uid,
            version: place,
        },
    }
}

/// The index, if there is one, after the entry at this index puts a slice. `AllocError` only if memory runs out.
pub fn index_with(
    alloc: Global,
    pools: Option<PoolIndex>,
    slices: &Slices,
    place: u64,
    slice: &Shared<ResourceSlice>,
) -> Result<Option<PoolIndex>, AllocError>
    requires { AreIndexed slices.now pools }
    ensures { IfOk result (AreIndexed (with_named place slice.now.name slice.now slices.now)) }
{
    let Some(mut index) = pools else {
        return Ok(None);
    };
    slices.in_order();
    let name = slice.name.copy(alloc)?;
    let old = slices.get(&name);
    take_old(alloc, &mut index, old, &name)?;
    let stored = stored_by(place, slice.share()?, old);
    add(alloc, &mut index, slice, name, stored)?;
    Ok(Some(index))
}

/// The index, if there is one, after the slice of a name is removed. `AllocError` only if memory runs out.
pub fn index_without(
    alloc: Global,
    pools: Option<PoolIndex>,
    slices: &Slices,
    name: &Text,
) -> Result<Option<PoolIndex>, AllocError>
    requires { AreIndexed slices.now pools }
    ensures { IfOk result (AreIndexed (without_named name.now slices.now)) }
{
    let Some(mut index) = pools else {
        return Ok(None);
    };
    slices.in_order();
    take_old(alloc, &mut index, slices.get(name), name)?;
    Ok(Some(index))
}
