//! The counters of a pool, in place of those that are kept of it.

ghost use Rattle.std.specs.Prelude.{◌≡◌, [], OnOk, OnErr};
ghost use Rattle.std.specs.BTreeMap.{insert_entry};
ghost use Rattle.pool_view.specs.Names.{at_name, text_cmp};
ghost use Rattle.counter_sets.specs.Totals as spec;

use crate::counter::{DriverCounters, PoolCounters};
use api_slice::ResourceSlice;
use dra_values::{Table, Text};
use std::alloc::{AllocError, Global};

fn put_sets(
    pools: &mut DriverCounters,
    pool: &Text,
    sets: PoolCounters,
    alloc: Global,
) -> Result<(), AllocError>
    ensures ok { OnOk result (pools.new ≡ insert_entry text_cmp pools.old pool.now sets) }
    ensures err { OnErr result (pools.new ≡ pools.old) }
{
    let name = pool.copy(alloc)?;
    pools.insert(name, sets)
}

/// Adds a driver that has no entry, with the counters of a pool.
fn add_driver(
    drivers: &mut Table<Text, DriverCounters>,
    driver: &Text,
    pool: &Text,
    sets: PoolCounters,
    alloc: Global,
) -> Result<(), AllocError>
    ensures ok { OnOk result (drivers.new ≡ insert_entry text_cmp drivers.old driver.now (insert_entry text_cmp [] pool.now sets)) }
    ensures err { OnErr result (drivers.new ≡ drivers.old) }
{
    let name = driver.copy(alloc)?;
    let mut pools = Table::new(alloc);
    put_sets(&mut pools, pool, sets, alloc)?;
    drivers.insert(name, pools)
}

#[tactic(auto, using(std::proofs::lemmas::Map::Steps::set_value_same))]
fn put_in_driver(
    drivers: &mut Table<Text, DriverCounters>,
    driver: &Text,
    pool: &Text,
    sets: PoolCounters,
    alloc: Global,
) -> Result<(), AllocError>
    ensures ok { OnOk result (drivers.new ≡ spec.put_in driver.now (λ pools. insert_entry text_cmp pools pool.now sets) drivers.old) }
    ensures err { OnErr result (drivers.new ≡ drivers.old) }
{
    match drivers.get_mut(driver) {
        Some(pools) => put_sets(pools, pool, sets, alloc),
        None => add_driver(drivers, driver, pool, sets, alloc),
    }
}

/// Puts the counters of the slice's pool in place of those that are kept of it.
#[tactic(auto, unfolding(crate::specs::Totals::with_pool))]
pub fn put_pool(
    drivers: &mut Table<Text, DriverCounters>,
    slice: &ResourceSlice,
    sets: PoolCounters,
    alloc: Global,
) -> Result<(), AllocError>
    ensures ok { OnOk result (drivers.new ≡ spec.with_pool slice.now sets drivers.old) }
    ensures err { OnErr result (drivers.new ≡ drivers.old) }
{
    let driver = slice.driver.as_text();
    put_in_driver(drivers, driver, &slice.pool.name, sets, alloc)
}

fn empty_sets(pools: &mut DriverCounters, pool: &Text, alloc: Global)
    ensures { pools.new ≡ spec.emptied_pools pool.now pools.old }
{
    if let Some(sets) = pools.get_mut(pool) {
        *sets = Table::new(alloc);
    }
}

fn empty_in_driver(
    drivers: &mut Table<Text, DriverCounters>,
    driver: &Text,
    pool: &Text,
    alloc: Global,
)
    ensures { drivers.new ≡ spec.changed_at driver.now (λ pools. spec.emptied_pools pool.now pools) drivers.old }
{
    if let Some(pools) = drivers.get_mut(driver) {
        empty_sets(pools, pool, alloc);
    }
}

/// Takes the counters of the slice's pool away. Allocates nothing.
pub fn empty_pool(drivers: &mut Table<Text, DriverCounters>, slice: &ResourceSlice, alloc: Global)
    ensures { drivers.new ≡ spec.emptied slice.now drivers.old }
{
    let driver = slice.driver.as_text();
    empty_in_driver(drivers, driver, &slice.pool.name, alloc);
}

fn of_pool(pools: Option<DriverCounters>, pool: &Text, alloc: Global) -> PoolCounters
    ensures { result ≡ spec.or_empty (at_name (spec.or_empty pools) pool.now) }
{
    match pools {
        None => Table::new(alloc),
        Some(mut pools) => match pools.remove(pool) {
            None => Table::new(alloc),
            Some(sets) => sets,
        },
    }
}

/// The counters of a pool. Allocates nothing.
pub fn taken_pool(
    mut drivers: Table<Text, DriverCounters>,
    driver: &Text,
    pool: &Text,
    alloc: Global,
) -> PoolCounters
    ensures { result ≡ spec.pool_in drivers driver.now pool.now }
{
    let pools = drivers.remove(driver);
    of_pool(pools, pool, alloc)
}
