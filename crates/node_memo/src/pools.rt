//! The pools of devices.

ghost use Rattle.std.specs.Prelude.{◌≡◌, true, IfOk, OnOk};
ghost use Rattle.request_rules.specs.Lists.{Each};
ghost use Rattle.pool_view.specs.Usable.{pool_named};
ghost use Rattle.node_memo.specs.Dated.{number_from, number_of};
ghost use Rattle.node_memo.specs.Memo.{IsAmong};

use api_slice::ResourceSlice;
use dra_values::{Seq, Shared};
use pool_view::{DeviceRef, PoolName};
use std::alloc::{AllocError, Global};
use std::marker::Model;

/// How many numbers pools have.
pub const NUMBERS: usize = 256;

/// The number of a pool, by the bytes of its name. Other pools may have the same one.
pub fn number_of(pool: &PoolName) -> usize
    ensures { result ≡ number_of pool.now }
{
    number_in(pool.pool.as_str().as_bytes())
}

fn number_in(bytes: &[u8]) -> usize
    ensures { result ≡ number_from 0 bytes.now }
{
    let mut number = 0;
    for byte in bytes {
        number = (number * 31 + *byte as usize) % NUMBERS;
    }
    number
}

/// A pool with its number. Contracts see the pool.
#[derive(Drop)]
pub struct NumberedPool {
    pool: Shared<PoolName>,
    number: usize,
}

impl Model for NumberedPool {
    ghost use Rattle.std.specs.Prelude.{◌≡◌};
    ghost use Rattle.pool_view.specs.declared.names.PoolName.{PoolName};
    ghost use Rattle.node_memo.specs.Dated.{number_of};

    ghost Value = { PoolName };

    ghost view = { λ p. p.pool };

    ghost invariant = { λ p. p.number ≡ number_of p.pool };
}

impl NumberedPool {
    /// A pool with its number. `AllocError` only if memory runs out.
    fn of(alloc: Global, pool: PoolName) -> Result<NumberedPool, AllocError>
        ensures { IfOk result (λ numbered. numbered ≡ pool) }
    {
        let number = number_of(&pool);
        Ok(NumberedPool {
            pool: Shared::new(alloc, pool)?,
            number,
        })
    }

    /// The pool.
    pub fn pool(&self) -> &Shared<PoolName>
        ensures { result.now ≡ self.now }
    {
        &self.pool
    }

    /// Its number.
    pub fn number(&self) -> usize
        ensures { result ≡ number_of self.now }
    {
        self.number
    }
}

/// Whether it is the slice's pool.
fn is_of(pool: &PoolName, slice: &ResourceSlice) -> bool
    ensures { result ≡ true → pool.now ≡ pool_named slice.now }
{
    pool.pool == slice.pool.name && pool.driver == *slice.driver.as_text()
}

/// Whether the last of the pools is the slice's.
fn is_last(pools: &[NumberedPool], slice: &ResourceSlice) -> bool
    ensures { result ≡ true → IsAmong pools.now (pool_named slice.now) }
{
    match pools.last() {
        None => false,
        Some(pool) => is_of(pool.pool().value(), slice),
    }
}

/// Puts the pool of a slice at the end, unless it is there.
fn add_pool(
    alloc: Global,
    pools: &mut Seq<NumberedPool>,
    slice: &ResourceSlice,
) -> Result<(), AllocError>
    ensures added { OnOk result (IsAmong pools.new (pool_named slice.now)) }
    ensures others { (p : PoolName) → IsAmong pools.old p → IsAmong pools.new p }
{
    if is_last(pools.as_slice(), slice) {
        Ok(())
    } else {
        pools.push(NumberedPool::of(alloc, PoolName::of(alloc, slice)?)?)
    }
}

/// The pools of devices. Of devices that follow each other and are of one pool it has the pool once. `AllocError` only
/// if memory runs out.
pub fn pools_of(alloc: Global, devices: &[DeviceRef]) -> Result<Seq<NumberedPool>, AllocError>
    ensures { IfOk result (λ pools. Each (λ o. IsAmong pools (pool_named o.slice)) devices.now) }
{
    let mut pools = Seq::empty(alloc);
    for device in devices {
        add_pool(alloc, &mut pools, device.slice())?;
    }
    Ok(pools)
}
