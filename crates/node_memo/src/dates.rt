ghost use Rattle.std.specs.Prelude.{◌≡◌, ◌≤◌, ℕ, List, [], Some, true, IfOk, IfSome, OnOk, OnErr, if◌then◌else◌, nat_le};
ghost use Rattle.std.specs.BTreeMap.{insert_entry};
ghost use Rattle.pool_view.specs.declared.names.PoolName.{PoolName};
ghost use Rattle.pool_view.specs.Usable.{pool_cmp};
ghost use Rattle.allocations.specs.Lacking.{freed_for};
ghost use Rattle.node_memo.specs.Dated.{AreNumbered, IsRaised, at, index_in, names};

use crate::pools::{NUMBERS, NumberedPool, number_of};
use dra_values::{Duplicate, Seq, Shared};
use pool_view::PoolName;
use shared_map::{Place, SharedMap};
use std::alloc::{AllocError, Global};
use std::marker::Model;

/// The index of the last entry of a history that changed nodes, slices or classes, and for each pool that of the last one
/// that may have freed a device of it; 0 where there is none.
///
/// A duplicate shares the indexes of the pools. A change while one is alive copies those of a few pools.
#[derive(Drop)]
pub struct Dates {
    objects: u64,
    freed: SharedMap<Shared<PoolName>, u64>,
    /// No index of a pool is greater.
    latest: u64,
    /// For each number of pools an index that is at least that of each pool of this number. So most pools aren't looked up.
    numbered: Shared<Seq<u64>>,
}

impl Model for Dates {
    ghost use Rattle.allocations.specs.Lacking as lacking;
    ghost use Rattle.node_memo.specs.Dated.{AreKept};

    ghost Value = { lacking.Dates };

    ghost view = { λ d. record { objects = d.objects; freed = d.freed } };

    ghost invariant = { λ d. AreKept d.freed d.latest d.numbered };
}

impl Dates {
    /// Nothing has changed, and nothing was freed. `AllocError` only if memory runs out.
    pub fn new(alloc: Global) -> Result<Dates, AllocError>
        ensures { IfOk result (λ dates. dates ≡ record { objects = 0; freed = [] }) }
    {
        Ok(Dates {
            objects: 0,
            freed: SharedMap::new(alloc)?,
            latest: 0,
            numbered: no_numbers(alloc)?,
        })
    }

    /// The index of the last entry that changed nodes, slices or classes.
    pub fn objects(&self) -> u64
        ensures { result ≡ self.now.objects }
    {
        self.objects
    }

    /// The index of the last entry that may have freed a device of a pool. Allocates nothing.
    pub fn freed(&self, pool: &Shared<PoolName>) -> u64
        ensures { result ≡ freed_for self.now pool.now }
    {
        match self.freed.get(pool) {
            None => 0,
            Some(index) => *index,
        }
    }

    /// The same as `freed`, by no look-up if this is the pool's place (`place`). Allocates nothing.
    pub fn freed_at(&self, pool: &Shared<PoolName>, place: Place) -> u64
        ensures { result ≡ freed_for self.now pool.now }
    {
        match index_at(&self.freed, pool.value(), place) {
            None => self.freed(pool),
            Some(index) => index,
        }
    }

    /// Whether no entry after an index may have freed a device of a pool, which has this place (`place`). Allocates nothing.
    pub(crate) fn is_up_to(&self, pool: &NumberedPool, place: Place, index: u64) -> bool
        ensures { result ≡ nat_le (freed_for self.now pool.now) index }
    {
        are_up_to(self.numbered.as_slice(), pool, index)
            || self.freed_at(pool.pool(), place) <= index
    }

    /// Where `freed_at` finds the index of a pool, until another pool is added. Allocates nothing. Any other place is as
    /// right, but slower.
    pub(crate) fn place(&self, pool: &Shared<PoolName>) -> Place {
        self.freed.place(pool)
    }

    /// An index that is at least that of each pool. Allocates nothing.
    pub fn latest(&self) -> u64
        ensures { (pool : PoolName) → freed_for self.now pool ≤ result }
    {
        self.latest
    }

    /// The entry at this index changes nodes, slices or classes.
    pub fn set_objects(&mut self, index: u64)
        ensures objects { self.new.objects ≡ index }
        ensures freed { self.new.freed ≡ self.old.freed }
    {
        self.objects = index;
    }

    /// Makes a place for the index of a pool, so that it has one before a device of it is freed. No index changes.
    /// `AllocError` only if memory runs out.
    pub fn make_room(&mut self, alloc: Global, pool: &PoolName) -> Result<(), AllocError>
        ensures objects { self.new.objects ≡ self.old.objects }
        ensures freed { (p : PoolName) → freed_for self.new p ≡ freed_for self.old p }
    {
        let name = shared_name(alloc, pool)?;
        if self.freed.contains_key(&name) {
            return Ok(());
        }
        self.freed.insert(alloc, name, 0)?;
        Ok(())
    }

    /// The entry at this index may free a device of a pool. `AllocError` only if memory runs out, and then no index
    /// changed.
    pub fn set_freed(
        &mut self,
        alloc: Global,
        pool: &PoolName,
        index: u64,
    ) -> Result<(), AllocError>
        ensures objects { self.new.objects ≡ self.old.objects }
        ensures freed { OnOk result ((p : PoolName) → freed_for self.new p ≡ (if names p pool.now then index else freed_for self.old p)) }
        ensures err { OnErr result ((p : PoolName) → freed_for self.new p ≡ freed_for self.old p) }
    {
        let name = shared_name(alloc, pool)?;
        let number = number_of(pool);
        let numbered = numbered_with(alloc, self.numbered.as_slice(), number, index)?;
        self.freed.insert(alloc, name, index)?;
        self.latest = self.latest.max(index);
        self.numbered = numbered;
        Ok(())
    }
}

/// Equal dates, which share the indexes of the pools. Allocates nothing.
impl Duplicate for Dates {
    fn duplicate(&self, _alloc: Global) -> Result<Dates, AllocError> {
        Ok(Dates {
            objects: self.objects,
            freed: self.freed.share()?,
            latest: self.latest,
            numbered: self.numbered.share()?,
        })
    }
}

/// The indexes by the numbers of pools while no pool has one.
fn no_numbers(alloc: Global) -> Result<Shared<Seq<u64>>, AllocError> {
    let mut indexes = Vec::new(alloc);
    indexes.resize(NUMBERS, 0)?;
    Shared::new(alloc, Seq::new(indexes))
}

/// The indexes by the numbers of pools, where that of one number is now at least this one.
fn numbered_with(
    alloc: Global,
    numbered: &[u64],
    number: usize,
    index: u64,
) -> Result<Shared<Seq<u64>>, AllocError>
    ensures { IfOk result (IsRaised numbered.now number index) }
{
    let mut indexes = Vec::from_slice(alloc, numbered)?;
    raise(&mut indexes, number, index);
    Shared::new(alloc, Seq::new(indexes))
}

/// Makes what there is at a number at least this index.
fn raise(indexes: &mut Vec<u64>, number: usize, index: u64)
    ensures { IsRaised indexes.old.items number index indexes.new.items }
{
    if number < indexes.len() {
        indexes[number] = indexes[number].max(index);
    }
}

/// Whether no pool of the same number has an index greater than this one.
fn are_up_to(numbered: &[u64], pool: &NumberedPool, index: u64) -> bool
    ensures { result ≡ true → (freed : List (PoolName × ℕ)) → AreNumbered freed numbered.now → index_in freed pool.now ≤ index }
{
    match numbered.get(pool.number()) {
        None => false,
        Some(latest) => *latest <= index,
    }
}

/// A copy of a name, to be shared.
fn shared_name(alloc: Global, pool: &PoolName) -> Result<Shared<PoolName>, AllocError>
    ensures { IfOk result (λ name. name ≡ pool.now) }
{
    let driver = pool.driver.copy(alloc)?;
    let pool = pool.pool.copy(alloc)?;
    Shared::new(alloc, PoolName { driver, pool })
}

/// The index at a place, if it is the pool's.
fn index_at(freed: &SharedMap<Shared<PoolName>, u64>, pool: &PoolName, place: Place) -> Option<u64>
    ensures { IfSome result (λ index. at pool.now freed.now ≡ Some index) }
{
    freed.in_order();
    let (name, index) = freed.at(place)?;
    if is_pool(name.value(), pool) {
        Some(*index)
    } else {
        None
    }
}

/// Whether these name one pool.
fn is_pool(name: &PoolName, pool: &PoolName) -> bool
    ensures { result ≡ names name.now pool.now }
{
    name.driver == pool.driver && name.pool == pool.pool
}
