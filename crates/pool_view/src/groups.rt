ghost use Rattle.std.specs.Prelude.{◌≡◌, [], IfOk, map};
ghost use Rattle.pool_view.specs.Groups.{added, grouped, objects};
ghost use Rattle.pool_view.specs.Usable.{pool_cmp, pool_named, pools};

use crate::Slices;
use crate::names::PoolName;
use crate::slice_ref::SliceRef;
use dra_values::{Seq, Table};
use std::alloc::{AllocError, Global};
use std::collections::BTreeSet;

/// Puts an item at the end of the group at a key.
pub fn add<K: Ord + Drop, T: Drop>(
    groups: &mut Table<K, Seq<T>>,
    alloc: Global,
    key: K,
    item: T,
) -> Result<(), AllocError>
    ensures { IfOk result (λ _. groups.new ≡ added K.cmp groups.old key item) }
{
    let mut group = match groups.remove(&key) {
        Some(group) => group,
        None => Seq::empty(alloc),
    };
    group.push(item)?;
    groups.insert(key, group)
}

/// The slices of each pool, in the order of their names.
pub fn by_pool<'a>(
    alloc: Global,
    slices: &'a Slices,
) -> Result<Table<PoolName, Seq<SliceRef<'a>>>, AllocError>
    ensures { IfOk result (λ groups. groups ≡ grouped pool_cmp pool_named [] (objects slices.now)) }
{
    let mut groups = Table::new(alloc);
    for (_, stored) in slices.iter() {
        let name = PoolName::of(alloc, &stored.object)?;
        add(&mut groups, alloc, name, SliceRef::of(&stored.object))?;
    }
    Ok(groups)
}

/// The pools in order.
pub fn pool_names(alloc: Global, slices: &Slices) -> Result<BTreeSet<PoolName>, AllocError>
    ensures { IfOk result (λ names. names.keys ≡ pools slices.now) }
{
    let mut names = BTreeSet::new(alloc);
    for (_, stored) in slices.iter() {
        names.insert(PoolName::of(alloc, &stored.object)?)?;
    }
    Ok(names)
}
