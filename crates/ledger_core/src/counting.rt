//! The totals that a ledger keeps, where objects are put and removed: where a slice is, those of its pool are made
//! anew.

ghost use Rattle.std.specs.Prelude.{◌≡◌, true, OnOk, OnErr};
ghost use Rattle.cluster.specs.declared.object.Object.TheVariants as objects;
ghost use Rattle.cluster.specs.declared.object.Target.TheVariants as targets;
ghost use Rattle.cluster.specs.Applied.{with_object};
ghost use Rattle.cluster.specs.Deleted.{without_object};
ghost use Rattle.cluster.specs.Ready.{object_of};
ghost use Rattle.cluster.specs.State.{has_room};
ghost use Rattle.pool_totals.specs.Counting.{AreCounted};

use api_slice::ResourceSlice;
use cluster::{Kept, State, Target};
use counter_sets::{Held, SharedTotals};
use dra_values::{Shared, Text};
use pool_totals::{recount_with, recount_without};
use std::alloc::{AllocError, Global};

/// Puts a slice that there is room for, and counts the pools anew that it touches. `AllocError` only if memory runs
/// out, and then the state is as it was.
fn put_slice(
    alloc: Global,
    state: &mut State,
    holders: &Held,
    totals: &mut SharedTotals,
    index: u64,
    slice: Shared<ResourceSlice>,
) -> Result<(), AllocError>
    requires room { has_room state.old (objects.Slice slice) ≡ true }
    requires counted { AreCounted state.old.inventory holders.now totals.old }
    ensures ok { OnOk result (state.new ≡ with_object index (objects.Slice slice) state.old) }
    ensures err { OnErr result (state.new ≡ state.old) }
    ensures counted { AreCounted state.new.inventory holders.now totals.new }
{
    let next = recount_with(alloc, &state.inventory, holders, totals, index, &slice)?;
    state.put(alloc, index, Kept::Slice(slice))?;
    *totals = next;
    Ok(())
}

/// Puts an object that there is room for, by the entry at this index. `AllocError` only if memory runs out, and then
/// the state is as it was.
pub fn put(
    alloc: Global,
    state: &mut State,
    holders: &Held,
    totals: &mut SharedTotals,
    index: u64,
    kept: Kept,
) -> Result<(), AllocError>
    requires room { has_room state.old (object_of kept) ≡ true }
    requires counted { AreCounted state.old.inventory holders.now totals.old }
    ensures ok { OnOk result (state.new ≡ with_object index (object_of kept) state.old) }
    ensures err { OnErr result (state.new ≡ state.old) }
    ensures counted { AreCounted state.new.inventory holders.now totals.new }
{
    match kept {
        Kept::Slice(slice) => put_slice(alloc, state, holders, totals, index, slice),
        Kept::Node(node) => state.put(alloc, index, Kept::Node(node)),
        Kept::Class(class) => state.put(alloc, index, Kept::Class(class)),
        Kept::Claim(claim) => state.put(alloc, index, Kept::Claim(claim)),
        Kept::Pod(pod) => state.put(alloc, index, Kept::Pod(pod)),
    }
}

/// Removes the slice of a name, and counts its pool anew. `AllocError` only if memory runs out, and then the state is
/// as it was.
fn remove_slice(
    alloc: Global,
    state: &mut State,
    holders: &Held,
    totals: &mut SharedTotals,
    target: &Target,
    name: &Text,
) -> Result<(), AllocError>
    requires target { target.now ≡ targets.Slice name.now }
    requires counted { AreCounted state.old.inventory holders.now totals.old }
    ensures ok { OnOk result (state.new ≡ without_object target.now state.old) }
    ensures err { OnErr result (state.new ≡ state.old) }
    ensures counted { AreCounted state.new.inventory holders.now totals.new }
{
    let next = recount_without(alloc, &state.inventory, holders, totals, name)?;
    state.remove(alloc, target)?;
    *totals = next;
    Ok(())
}

/// Takes an object away. `AllocError` only if memory runs out, and then the state is as it was.
pub fn remove(
    alloc: Global,
    state: &mut State,
    holders: &Held,
    totals: &mut SharedTotals,
    target: &Target,
) -> Result<(), AllocError>
    requires counted { AreCounted state.old.inventory holders.now totals.old }
    ensures ok { OnOk result (state.new ≡ without_object target.now state.old) }
    ensures err { OnErr result (state.new ≡ state.old) }
    ensures counted { AreCounted state.new.inventory holders.now totals.new }
{
    match target {
        Target::Slice(name) => remove_slice(alloc, state, holders, totals, target, name),
        Target::Node(_) => state.remove(alloc, target),
        Target::Class(_) => state.remove(alloc, target),
        Target::Claim(_) => state.remove(alloc, target),
        Target::Pod(_) => state.remove(alloc, target),
    }
}
