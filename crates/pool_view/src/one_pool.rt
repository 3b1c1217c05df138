//! The slices of one pool.

ghost use Rattle.std.specs.Prelude.{◌≡◌, ◌≤◌, IfOk, filter};
ghost use Rattle.pool_view.specs.Inventory.{device_count, devices_most};
ghost use Rattle.pool_view.specs.OnePool.{AreByPool, is_before, is_in, stored_in};

use crate::inventory::Slices;
use api_slice::ResourceSlice;
use dra_values::{Duplicate, Shared, Text};
use shared_map::SharedMap;
use std::alloc::{AllocError, Global};

/// Whether the slice is one of the pool. The pools' names are compared first, as drivers are few.
fn is_in(slice: &ResourceSlice, driver: &Text, pool: &Text) -> bool
    ensures { result ≡ is_in driver.now pool.now slice.now }
{
    slice.pool.name == *pool && slice.driver.as_text() == driver
}

/// Those of the slices that are of the pool.
#[tactic(auto, unfolding(crate::specs::OnePool::stored_in))]
pub fn stored_in(
    alloc: Global,
    slices: &Slices,
    driver: &Text,
    pool: &Text,
) -> Result<Slices, AllocError>
    ensures { IfOk result (λ some. some ≡ stored_in driver.now pool.now slices.now) }
{
    slices.in_order();
    let mut some = SharedMap::new(alloc)?;
    for (name, stored) in slices.iter() {
        if is_in(&stored.object, driver, pool) {
            let name = name.copy(alloc)?;
            some.insert(alloc, name, stored.duplicate(alloc)?)?;
        }
    }
    Ok(some)
}

/// How many devices the slices have.
pub fn device_count(slices: &Slices) -> usize
    requires { device_count slices.now ≤ devices_most }
    ensures { result ≡ device_count slices.now }
{
    let mut count = 0;
    for (_, stored) in slices.iter() {
        count += stored.object.devices.as_slice().len();
    }
    count
}

/// Whether the slice's pool comes before that one, by driver and then by its own name.
fn is_before(slice: &ResourceSlice, driver: &Text, pool: &Text) -> bool
    ensures { result ≡ is_before driver.now pool.now slice.now }
{
    let by_driver = slice.driver.as_text().cmp(driver);
    by_driver.then(slice.pool.name.cmp(pool)).is_lt()
}

/// Those of slices, in the order of their pools, that are of one pool: two binary searches.
pub fn slices_of<'a>(
    slices: &'a [Shared<ResourceSlice>],
    driver: &Text,
    pool: &Text,
) -> &'a [Shared<ResourceSlice>]
    requires { AreByPool slices.now }
    ensures { result.now ≡ filter (is_in driver.now pool.now) slices.now }
{
    let first = slices.partition_point(|slice| is_before(slice.value(), driver, pool));
    let rest = &slices[first..];
    let count = rest.partition_point(|slice| is_in(slice.value(), driver, pool));
    &rest[..count]
}
