//! Totals where a slice is put or removed: those of the pools that the change touches are made anew.

ghost use Rattle.std.specs.Prelude.{◌≡◌, true, None, IfOk, IfSome, OnOk};
ghost use Rattle.pool_view.specs.Inventory.{has_room_for, with_slice, without_slice};
ghost use Rattle.pool_view.specs.Names.{at_name};
ghost use Rattle.pool_view.specs.OnePool.{is_in, only_pool};
ghost use Rattle.request_rules.specs.Draws.{CounterId};
ghost use Rattle.counter_sets.specs.Totals.{drawn_in, value_of};
ghost use Rattle.pool_totals.specs.Counting.{AreCounted};
ghost use Rattle.pool_totals.specs.Recounting.{AreCountedFor, IsOld, IsReplaced, drawn_taken, value_taken};

use crate::kept::kept_totals;
use api_slice::ResourceSlice;
use counter_sets::{Held, SharedTotals, Totals};
use dra_values::{Shared, Text};
use pool_view::{Inventory, pools_change_alone};
use std::alloc::{AllocError, Global};

/// The totals of one pool.
#[derive(Drop)]
pub struct PoolTotals {
    /// A slice of the pool.
    slice: Shared<ResourceSlice>,
    totals: Totals,
}

/// The slices of a pool, after a slice is put.
fn pool_with(
    alloc: Global,
    inventory: &Inventory,
    of: &ResourceSlice,
    index: u64,
    slice: &Shared<ResourceSlice>,
) -> Result<Inventory, AllocError>
    requires { has_room_for inventory.now.slices slice.now ≡ true }
    ensures { IfOk result (λ i. i ≡ with_slice index slice.now (only_pool of.now.driver of.now.pool.name inventory.now)) }
{
    pools_change_alone();
    let mut pool = inventory.pool(alloc, of.driver.as_text(), &of.pool.name)?;
    pool.put_slice(alloc, index, slice.share()?)?;
    Ok(pool)
}

/// The slices of a pool, after the slice of a name is removed.
fn pool_without(
    alloc: Global,
    inventory: &Inventory,
    of: &ResourceSlice,
    name: &Text,
) -> Result<Inventory, AllocError>
    ensures { IfOk result (λ i. i ≡ without_slice name.now (only_pool of.now.driver of.now.pool.name inventory.now)) }
{
    let mut pool = inventory.pool(alloc, of.driver.as_text(), &of.pool.name)?;
    pool.remove_slice(alloc, name)?;
    Ok(pool)
}

/// The counters of the pool of a slice, after a slice is put. If it is known that the pool has none then, this doesn't go
/// over its slices.
fn counters_with(
    alloc: Global,
    inventory: &Inventory,
    holders: &Held,
    of: &ResourceSlice,
    index: u64,
    slice: &Shared<ResourceSlice>,
) -> Result<Totals, AllocError>
    requires { has_room_for inventory.now.slices slice.now ≡ true }
    ensures { IfOk result (AreCountedFor (with_slice index slice.now inventory.now) holders.now of.now) }
{
    pools_change_alone();
    inventory.keeps_order();
    if inventory.is_uncounted_with(alloc, of.driver.as_text(), &of.pool.name, index, slice)? {
        return Ok(Totals::new(alloc));
    }
    let pool = pool_with(alloc, inventory, of, index, slice)?;
    kept_totals(alloc, &pool, holders)
}

/// The counters of the pool of a slice, after the slice of a name is removed. If it is known that the pool has none then,
/// this doesn't go over its slices.
fn counters_without(
    alloc: Global,
    inventory: &Inventory,
    holders: &Held,
    of: &ResourceSlice,
    name: &Text,
) -> Result<Totals, AllocError>
    ensures { IfOk result (AreCountedFor (without_slice name.now inventory.now) holders.now of.now) }
{
    pools_change_alone();
    inventory.keeps_order();
    if inventory.is_uncounted_without(alloc, of.driver.as_text(), &of.pool.name, name)? {
        return Ok(Totals::new(alloc));
    }
    let pool = pool_without(alloc, inventory, of, name)?;
    kept_totals(alloc, &pool, holders)
}

/// The totals of the pool of a slice, after a slice is put.
fn totals_with(
    alloc: Global,
    inventory: &Inventory,
    holders: &Held,
    of: &Shared<ResourceSlice>,
    index: u64,
    slice: &Shared<ResourceSlice>,
) -> Result<PoolTotals, AllocError>
    requires { has_room_for inventory.now.slices slice.now ≡ true }
    ensures slice { IfOk result (λ p. p.slice ≡ of.now) }
    ensures counted { IfOk result (λ p. AreCountedFor (with_slice index slice.now inventory.now) holders.now of.now p.totals) }
{
    let totals = counters_with(alloc, inventory, holders, of.value(), index, slice)?;
    let slice = of.share()?;
    Ok(PoolTotals { slice, totals })
}

/// The totals of the pool of a slice, after the slice of a name is removed.
fn totals_without(
    alloc: Global,
    inventory: &Inventory,
    holders: &Held,
    of: &Shared<ResourceSlice>,
    name: &Text,
) -> Result<PoolTotals, AllocError>
    ensures slice { IfOk result (λ p. p.slice ≡ of.now) }
    ensures counted { IfOk result (λ p. AreCountedFor (without_slice name.now inventory.now) holders.now of.now p.totals) }
{
    let totals = counters_without(alloc, inventory, holders, of.value(), name)?;
    let slice = of.share()?;
    Ok(PoolTotals { slice, totals })
}

/// Whether two slices are of one pool.
fn are_of_one_pool(a: &ResourceSlice, b: &ResourceSlice) -> bool
    ensures { result ≡ is_in b.now.driver b.now.pool.name a.now }
{
    a.pool.name == b.pool.name && a.driver.as_text() == b.driver.as_text()
}

/// The totals of the pool of the slice that a slice replaces, after it is put, if that is another pool.
fn replaced_with(
    alloc: Global,
    inventory: &Inventory,
    holders: &Held,
    old: &Shared<ResourceSlice>,
    index: u64,
    slice: &Shared<ResourceSlice>,
) -> Result<Option<PoolTotals>, AllocError>
    requires { has_room_for inventory.now.slices slice.now ≡ true }
    ensures none { IfOk result (λ q. q ≡ None → is_in slice.now.driver slice.now.pool.name old.now ≡ true) }
    ensures slice { IfOk result (λ q. IfSome q (λ p. p.slice ≡ old.now)) }
    ensures counted { IfOk result (λ q. IfSome q (λ p. AreCountedFor (with_slice index slice.now inventory.now) holders.now p.slice p.totals)) }
{
    if are_of_one_pool(old.value(), slice.value()) {
        return Ok(None);
    }
    let totals = totals_with(alloc, inventory, holders, old, index, slice)?;
    Ok(Some(totals))
}

/// The totals of the pool of the slice that a slice replaces, if it replaces one of another pool, after it is put.
fn old_with(
    alloc: Global,
    inventory: &Inventory,
    holders: &Held,
    index: u64,
    slice: &Shared<ResourceSlice>,
) -> Result<Option<PoolTotals>, AllocError>
    requires { has_room_for inventory.now.slices slice.now ≡ true }
    ensures old { IfOk result (IsReplaced slice.now (at_name inventory.now.slices slice.now.name)) }
    ensures counted { IfOk result (λ q. IfSome q (λ p. AreCountedFor (with_slice index slice.now inventory.now) holders.now p.slice p.totals)) }
{
    match inventory.slices().get(&slice.name) {
        None => Ok(None),
        Some(old) => replaced_with(alloc, inventory, holders, &old.object, index, slice),
    }
}

/// The totals of the pool of the slice of a name, if there is one, after it is removed.
fn removed_without(
    alloc: Global,
    inventory: &Inventory,
    holders: &Held,
    name: &Text,
) -> Result<Option<PoolTotals>, AllocError>
    ensures old { IfOk result (IsOld (at_name inventory.now.slices name.now)) }
    ensures counted { IfOk result (λ q. IfSome q (λ p. AreCountedFor (without_slice name.now inventory.now) holders.now p.slice p.totals)) }
{
    match inventory.slices().get(name) {
        None => Ok(None),
        Some(old) => {
            let old = totals_without(alloc, inventory, holders, &old.object, name)?;
            Ok(Some(old))
        }
    }
}

/// Puts the counters of a pool that were made anew, if some were.
fn take(
    alloc: Global,
    totals: &mut SharedTotals,
    pool: Option<PoolTotals>,
) -> Result<(), AllocError>
    ensures value { OnOk result ((c : CounterId) → value_of totals.new c ≡ value_taken pool (value_of totals.old c) c) }
    ensures drawn { OnOk result ((c : CounterId) → drawn_in totals.new c ≡ drawn_taken pool (drawn_in totals.old c) c) }
{
    match pool {
        None => Ok(()),
        Some(
            PoolTotals {
                slice,
                totals: from,
            },
        ) => totals.put_pool(slice.value(), from, alloc),
    }
}

/// The totals after a slice is put by the entry at this index: those of its own pool, and of the pool of the slice
/// that it replaces, are made anew. `AllocError` only if memory runs out.
pub fn recount_with(
    alloc: Global,
    inventory: &Inventory,
    holders: &Held,
    totals: &SharedTotals,
    index: u64,
    slice: &Shared<ResourceSlice>,
) -> Result<SharedTotals, AllocError>
    requires room { has_room_for inventory.now.slices slice.now ≡ true }
    requires counted { AreCounted inventory.now holders.now totals.now }
    ensures { IfOk result (AreCounted (with_slice index slice.now inventory.now) holders.now) }
{
    pools_change_alone();
    inventory.keeps_order();
    let new = totals_with(alloc, inventory, holders, slice, index, slice)?;
    let old = old_with(alloc, inventory, holders, index, slice)?;
    let mut next = totals.share()?;
    take(alloc, &mut next, Some(new))?;
    take(alloc, &mut next, old)?;
    Ok(next)
}

/// The totals after the slice of a name is removed: those of its pool are made anew. `AllocError` only if memory runs
/// out.
pub fn recount_without(
    alloc: Global,
    inventory: &Inventory,
    holders: &Held,
    totals: &SharedTotals,
    name: &Text,
) -> Result<SharedTotals, AllocError>
    requires { AreCounted inventory.now holders.now totals.now }
    ensures { IfOk result (AreCounted (without_slice name.now inventory.now) holders.now) }
{
    pools_change_alone();
    inventory.keeps_order();
    let old = removed_without(alloc, inventory, holders, name)?;
    let mut next = totals.share()?;
    take(alloc, &mut next, old)?;
    Ok(next)
}
