ghost use Rattle.std.specs.Prelude.{◌≡◌, ◌++◌, ◌&&◌, [], IfOk, not, filter, map, if◌then◌else◌};
ghost use Rattle.std.specs.List.{flat_map};
ghost use Rattle.pool_view.specs.Groups.{group_at};
ghost use Rattle.pool_view.specs.Pools.{counts_of, device_names, has_twice, highest, is_complete, is_usable, newest, of_generation};
ghost use Rattle.pool_view.specs.Sorted.{AreSorted};
ghost use Rattle.pool_view.specs.Usable.{broken_slices, counted_slices, if_broken, if_usable, is_counted, pool_cmp, usable_slices};

use crate::Inventory;
use crate::draws::{are_drawable, counted_of, is_counted};
use crate::groups::{by_pool, pool_names};
use crate::kept::{IndexedSlices, SortedSlices};
use crate::names::{NameRef, PoolName};
use crate::slice_ref::SliceRef;
use api_slice::ResourceSlice;
use dra_values::{Seq, Shared, Table};
use std::alloc::{AllocError, Global};
use std::collections::BTreeSet;

/// The highest generation among slices, or 0 if there are none.
fn highest(slices: &[SliceRef<'_>]) -> u64
    ensures { result ≡ highest slices.now }
{
    let mut highest = 0;
    for slice in slices {
        highest = highest.max(slice.get().pool.generation);
    }
    highest
}

/// Those of one generation.
fn of_generation<'a>(
    alloc: Global,
    slices: &[SliceRef<'a>],
    generation: u64,
) -> Result<Vec<SliceRef<'a>>, AllocError>
    ensures { IfOk result (λ xs. xs.items ≡ of_generation generation slices.now) }
{
    let mut out = Vec::new(alloc);
    for slice in slices {
        if slice.get().pool.generation == generation {
            out.push(slice.again())?;
        }
    }
    Ok(out)
}

/// Those of a pool's slices that have its highest generation.
fn newest<'a>(
    alloc: Global,
    groups: &Table<PoolName, Seq<SliceRef<'a>>>,
    pool: &PoolName,
) -> Result<Vec<SliceRef<'a>>, AllocError>
    ensures { IfOk result (λ xs. xs.items ≡ newest (group_at pool_cmp groups.now pool.now)) }
{
    match groups.get(pool) {
        Some(group) => of_generation(alloc, group.as_slice(), highest(group.as_slice())),
        None => Ok(Vec::new(alloc)),
    }
}

/// Whether the number of slices equals the count in each.
fn are_complete(slices: &[SliceRef<'_>]) -> bool
    ensures { result ≡ is_complete (counts_of slices.now) }
{
    let count = slices.len() as u64;
    for slice in slices {
        if slice.get().pool.slices != count {
            return false;
        }
    }
    true
}

fn push_names<'a>(names: &mut Vec<NameRef<'a>>, slice: &'a ResourceSlice) -> Result<(), AllocError>
    ensures { IfOk result (λ _. names.new.items ≡ names.old.items ++ device_names slice.now) }
{
    for device in slice.devices.as_slice() {
        names.push(NameRef::of(&device.name))?;
    }
    Ok(())
}

/// The names of all devices of slices.
fn names_of<'a>(alloc: Global, slices: &[SliceRef<'a>]) -> Result<Vec<NameRef<'a>>, AllocError>
    ensures { IfOk result (λ names. names.items ≡ flat_map device_names slices.now) }
{
    let mut names = Vec::new(alloc);
    for slice in slices {
        push_names(&mut names, slice.get())?;
    }
    Ok(names)
}

/// Whether a name appears twice.
#[tactic(auto, using(crate::proofs::Twice::clashes_at_first))]
fn has_twice(alloc: Global, names: Vec<NameRef<'_>>) -> Result<bool, AllocError>
    ensures { IfOk result (λ twice. twice ≡ has_twice names.entry.items) }
{
    let mut seen = BTreeSet::new(alloc);
    for name in names {
        if !seen.insert(name)? {
            return Ok(true);
        }
    }
    Ok(false)
}

/// Whether the number of slices equals the count in each, and no device name appears twice in them.
fn are_whole(alloc: Global, slices: &[SliceRef<'_>]) -> Result<bool, AllocError>
    ensures { IfOk result (λ whole. whole ≡ (is_complete (counts_of slices.now) && not (has_twice (flat_map device_names slices.now)))) }
{
    let complete = are_complete(slices);
    let twice = has_twice(alloc, names_of(alloc, slices)?)?;
    Ok(complete && !twice)
}

/// Whether the slices of a pool's highest generation make it usable.
#[tactic(auto, using(crate::proofs::Complete::is_usable_by))]
fn is_usable(alloc: Global, slices: &[SliceRef<'_>]) -> Result<bool, AllocError>
    ensures { IfOk result (λ usable. usable ≡ is_usable slices.now) }
{
    let whole = are_whole(alloc, slices)?;
    let drawable = are_drawable(alloc, slices)?;
    Ok(whole && drawable)
}

/// The slices of usable pools' highest generations, and those of broken pools'.
#[derive(Drop)]
pub struct Sorted<'a> {
    pub usable: Seq<SliceRef<'a>>,
    pub broken: Seq<SliceRef<'a>>,
}

fn append<'a>(to: &mut Seq<SliceRef<'a>>, slices: Vec<SliceRef<'a>>) -> Result<(), AllocError>
    ensures { IfOk result (λ _. to.new ≡ to.old ++ slices.entry.items) }
{
    for slice in slices {
        to.push(slice)?;
    }
    Ok(())
}

fn put<'a>(out: &mut Sorted<'a>, slices: Vec<SliceRef<'a>>, usable: bool) -> Result<(), AllocError>
    ensures { IfOk result (λ _. out.new ≡ record { usable = out.old.usable ++ (if usable then slices.entry.items else []); broken = out.old.broken ++ (if usable then [] else slices.entry.items) }) }
{
    if usable {
        append(&mut out.usable, slices)
    } else {
        append(&mut out.broken, slices)
    }
}

/// The slices of the highest generation of each of the pools, in order, sorted by whether the pool is
/// usable.
fn sort_pools<'a>(
    alloc: Global,
    groups: &Table<PoolName, Seq<SliceRef<'a>>>,
    names: &BTreeSet<PoolName>,
) -> Result<Sorted<'a>, AllocError>
    ensures usable { IfOk result (λ s. s.usable ≡ flat_map (λ p. if_usable (newest (group_at pool_cmp groups.now p))) names.now.keys) }
    ensures broken { IfOk result (λ s. s.broken ≡ flat_map (λ p. if_broken (newest (group_at pool_cmp groups.now p))) names.now.keys) }
{
    let mut out = Sorted {
        usable: Seq::empty(alloc),
        broken: Seq::empty(alloc),
    };
    for pool in names {
        let slices = newest(alloc, groups, pool)?;
        let usable = is_usable(alloc, &slices)?;
        put(&mut out, slices, usable)?;
    }
    Ok(out)
}

/// All slices of the inventory that have the highest generation of their pool, sorted by whether
/// the pool is usable, each in the order of driver, pool and slice.
#[tactic(auto, using(crate::proofs::PoolGroups::usable_by, crate::proofs::PoolGroups::broken_by))]
pub fn sort_all<'a>(alloc: Global, inventory: &'a Inventory) -> Result<Sorted<'a>, AllocError>
    ensures usable { IfOk result (λ s. s.usable ≡ usable_slices inventory.now) }
    ensures broken { IfOk result (λ s. s.broken ≡ broken_slices inventory.now) }
{
    let groups = by_pool(alloc, inventory.slices())?;
    let names = pool_names(alloc, inventory.slices())?;
    sort_pools(alloc, &groups, &names)
}

/// The slices of the inventory, sorted, to be kept.
pub fn sorted_slices(alloc: Global, inventory: &Inventory) -> Result<SortedSlices, AllocError>
    ensures { IfOk result (λ sorted. AreSorted inventory.now.slices sorted) }
{
    let sorted = sort_all(alloc, inventory)?;
    let usable = IndexedSlices::of(alloc, sorted.usable.as_slice())?;
    let broken = IndexedSlices::of(alloc, sorted.broken.as_slice())?;
    let counted = counted_of(alloc, sorted.usable.as_slice())?;
    Ok(SortedSlices {
        usable,
        broken,
        counted,
    })
}

/// The slices of the usable pools, those of each pool's highest generation, over all nodes: in the
/// order of driver, pool and slice. A pool is usable if it has as many slices of its highest
/// generation as each of them says (`resourceSliceCount`), no device name and no name of a counter set
/// appears twice in them, and their devices draw from counters that these sets have.
/// `AllocError` is returned only if memory runs out.
pub fn usable(alloc: Global, inventory: &Inventory) -> Result<Vec<&ResourceSlice>, AllocError>
    ensures { IfOk result (λ slices. map (λ s. s.now) slices.items ≡ usable_slices inventory.now) }
{
    match inventory.sorted() {
        Some(kept) => values_of(alloc, kept.value().usable.slices()),
        None => borrowed(alloc, sort_all(alloc, inventory)?.usable.as_slice()),
    }
}

/// Those of the slices of the usable pools that have counter sets, or whose devices draw from some, in
/// the same order. `AllocError` is returned only if memory runs out.
#[tactic(auto, unfolding(crate::specs::Usable::counted_slices))]
pub fn counted(alloc: Global, inventory: &Inventory) -> Result<Vec<&ResourceSlice>, AllocError>
    ensures { IfOk result (λ slices. map (λ s. s.now) slices.items ≡ counted_slices inventory.now) }
{
    match inventory.sorted() {
        Some(kept) => values_of(alloc, kept.value().counted.as_slice()),
        None => counted_among(alloc, sort_all(alloc, inventory)?.usable.as_slice()),
    }
}

fn counted_among<'a>(
    alloc: Global,
    slices: &[SliceRef<'a>],
) -> Result<Vec<&'a ResourceSlice>, AllocError>
    ensures { IfOk result (λ out. map (λ s. s.now) out.items ≡ filter is_counted slices.now) }
{
    let mut out = Vec::new(alloc);
    for slice in slices {
        if is_counted(slice.get()) {
            out.push(slice.get())?;
        }
    }
    Ok(out)
}

fn values_of(
    alloc: Global,
    slices: &[Shared<ResourceSlice>],
) -> Result<Vec<&ResourceSlice>, AllocError>
    ensures { IfOk result (λ out. map (λ s. s.now) out.items ≡ slices.now) }
{
    let mut out = Vec::with_capacity(alloc, slices.len())?;
    for slice in slices {
        out.push(slice.value())?;
    }
    Ok(out)
}

fn borrowed<'a>(
    alloc: Global,
    slices: &[SliceRef<'a>],
) -> Result<Vec<&'a ResourceSlice>, AllocError>
    ensures { IfOk result (λ out. map (λ s. s.now) out.items ≡ slices.now) }
{
    let mut out = Vec::with_capacity(alloc, slices.len())?;
    for slice in slices {
        out.push(slice.get())?;
    }
    Ok(out)
}
