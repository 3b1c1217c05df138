//! What the inventory has to learn before nodes without a free device can be passed over.

ghost use Rattle.std.specs.Prelude.{◌≡◌, ◌≤◌, length, is_some, IfOk};
ghost use Rattle.std.specs.List.{list_all};
ghost use Rattle.counter_sets.specs.Holding.{holder_in};

use crate::full::are_exclusive;
use crate::sure::{Selection, selections_of};
use api_slice::{Device, ResourceSlice};
use counter_sets::{Held, HeldInPool};
use dra_values::{Seq, Shared, Text};
use pool_view::{Inventory, KnownSlices};
use request_rows::{Classes, WantedClaim};
use std::alloc::{AllocError, Global};

/// The most slices of which one call learns something. A slice has at most 128 devices, so a call tries
/// each list of selectors on at most 2,048 devices, however many slices there are.
const MAX_LEARNED_SLICES: usize = 16;

/// Lets an inventory find out whether the selectors of claims have an evaluation error on slices
/// whose devices are all held, if each request is exclusive: `PodSearch::outcome` then passes over nodes
/// that have only such devices. It takes the slices in the order of their names, and the first 16 at most
/// of which something isn't known yet. The inventory stays the same, and is duplicated only if there is
/// something to find out. `AllocError` only if memory runs out.
pub fn learn_full_slices(
    alloc: Global,
    inventory: &mut Shared<Inventory>,
    classes: &Classes,
    claims: &[WantedClaim],
    holders: &Held,
) -> Result<(), AllocError>
    ensures { inventory.new ≡ inventory.old }
{
    if !are_exclusive(claims) {
        return Ok(());
    }
    let selections = selections_of(alloc, classes, claims)?;
    learn_selections(alloc, inventory, selections.as_slice(), holders)
}

fn learn_selections(
    alloc: Global,
    inventory: &mut Shared<Inventory>,
    selections: &[Selection],
    holders: &Held,
) -> Result<(), AllocError>
    ensures { inventory.new ≡ inventory.old }
{
    if selections.is_empty() {
        return Ok(());
    }
    let names = unknown_full(alloc, inventory, selections, holders)?;
    if names.as_slice().is_empty() {
        return Ok(());
    }
    learn_each(
        alloc,
        inventory.change(alloc)?,
        selections,
        names.as_slice(),
    )
}

/// The names of the slices of which something is to be learned.
fn unknown_full(
    alloc: Global,
    inventory: &Inventory,
    selections: &[Selection],
    holders: &Held,
) -> Result<Seq<Text>, AllocError>
    ensures { IfOk result (λ names. length names ≤ 16) }
{
    let known = known_each(alloc, inventory, selections)?;
    let mut names = Seq::empty(alloc);
    for (name, stored) in inventory.slices().iter() {
        if names.as_slice().len() == MAX_LEARNED_SLICES {
            return Ok(names);
        }
        if is_unknown_full(&known, name, &stored.object, holders) {
            names.push(name.copy(alloc)?)?;
        }
    }
    Ok(names)
}

/// What the inventory knows of each of the selections.
fn known_each<'a>(
    alloc: Global,
    inventory: &'a Inventory,
    selections: &[Selection],
) -> Result<Vec<Option<KnownSlices<'a>>>, AllocError> {
    let mut known = Vec::new(alloc);
    for selection in selections {
        known.push(selection.known_in(inventory))?;
    }
    Ok(known)
}

/// Whether the slice has devices, all of them are held, and of some selectors it isn't known whether
/// they have an evaluation error on it.
fn is_unknown_full(
    known: &[Option<KnownSlices>],
    name: &Text,
    slice: &ResourceSlice,
    holders: &Held,
) -> bool {
    let devices = slice.devices.as_slice();
    !devices.is_empty()
        && any_unknown(known, name)
        && are_held(
            devices,
            holders.in_pool(slice.driver.as_text(), &slice.pool.name),
        )
}

fn are_held(devices: &[Device], pool: HeldInPool) -> bool
    ensures { result ≡ list_all (λ d. is_some (holder_in pool.entry.holders (record { driver = pool.entry.driver; pool = pool.entry.pool; device = d.name }))) devices.now }
{
    for device in devices {
        if pool.at(&device.name).is_none() {
            return false;
        }
    }
    true
}

fn any_unknown(known: &[Option<KnownSlices>], slice: &Text) -> bool {
    for list in known {
        if !is_known(list, slice) {
            return true;
        }
    }
    false
}

fn is_known(known: &Option<KnownSlices>, slice: &Text) -> bool {
    match known {
        None => false,
        Some(known) => known.is_sure(slice).is_some(),
    }
}

fn learn_each(
    alloc: Global,
    inventory: &mut Inventory,
    selections: &[Selection],
    names: &[Text],
) -> Result<(), AllocError>
    ensures { inventory.new ≡ inventory.old }
{
    for name in names {
        learn_slice(alloc, inventory, selections, name)?;
    }
    Ok(())
}

fn learn_slice(
    alloc: Global,
    inventory: &mut Inventory,
    selections: &[Selection],
    slice: &Text,
) -> Result<(), AllocError>
    ensures { inventory.new ≡ inventory.old }
{
    for selection in selections {
        if !is_known(&selection.known_in(inventory), slice) {
            selection.learn(alloc, inventory, slice)?;
        }
    }
    Ok(())
}
