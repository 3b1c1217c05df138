//! Totals that are kept while claims take devices and give them back.

ghost use Rattle.std.specs.Prelude.{◌≡◌, ◌≤◌, List, [], Contains, None, Some, false, find, is_some, IfOk, OnOk, option_copied, if◌then◌else◌};
ghost use Rattle.object_fields.specs.declared.key.DeviceId.{DeviceId};
ghost use Rattle.object_fields.specs.declared.key.Key.{Key};
ghost use Rattle.pool_view.specs.declared.inventory.Inventory.{Inventory};
ghost use Rattle.pool_view.specs.Names.{device_eq, text_eq};
ghost use Rattle.pool_view.specs.Pools.{Offered};
ghost use Rattle.pool_view.specs.Usable.{usable_slices};
ghost use Rattle.request_rules.specs.Draws.{CounterId, drawn, drawn_from, value_among};
ghost use Rattle.counter_sets.specs.Holding.{AreHeld, Holders, holder_in};
ghost use Rattle.counter_sets.specs.Totals.{KeptCounters, sum_most};
ghost use Rattle.pool_totals.specs.Counting.{AreCounted, AreWithinLimits, device_of, found_in, is_of};
ghost use Rattle.pool_totals.specs.Drawn.{AreDrawn};

use crate::totals::{add_held, undrawn};
use api_slice::{Device, ResourceSlice};
use counter_sets::{Held, SharedTotals, Totals};
use dra_values::{Shared, Text};
use object_fields::{DeviceId, Key};
use pool_view::{
    DeviceRef, Inventory, Pools, usable_counters_are_there, usable_devices_are_few,
    usable_slices_differ,
};
use std::alloc::{AllocError, Global};

/// What totals that are kept say: they have what the devices draw that claims hold, and what any devices of
/// usable pools draw stays below 2^128. A device of a usable pool draws nothing from a counter that no slice of a
/// usable pool has. Allocates nothing.
pub fn kept_totals_are_drawn()
    ensures drawn { (i : Inventory) (h : Holders) (pairs : List (DeviceId × Key)) (kept : KeptCounters) → AreHeld h pairs → AreCounted i h kept → AreDrawn i pairs kept }
    ensures fits { (i : Inventory) (h : Holders) (kept : KeptCounters) (pairs : List (DeviceId × Key)) (c : CounterId) → AreCounted i h kept → drawn (usable_slices i) pairs c ≤ sum_most }
    ensures there { (i : Inventory) (o : Offered) (c : CounterId) → Contains (usable_slices i) o.slice → Contains o.slice.devices o.device → is_some (value_among (usable_slices i) c) ≡ false → drawn_from c o ≡ 0 }
{
    usable_counters_are_there();
}

/// States that each slice keeps the limits. Allocates nothing.
fn keep_limits(slices: &[Shared<ResourceSlice>])
    ensures { AreWithinLimits slices.now }
{
    for slice in slices {
        let slice = slice.value();
        slice.keeps_limits();
    }
}

/// The counters of the usable pools of an inventory, with what the devices draw from each that claims hold: two
/// passes over the slices that have counter sets or devices that draw from some. `AllocError` only if memory
/// runs out.
pub fn kept_totals(
    alloc: Global,
    inventory: &Inventory,
    holders: &Held,
) -> Result<Totals, AllocError>
    ensures { IfOk result (AreCounted inventory.now holders.now) }
{
    usable_counters_are_there();
    usable_devices_are_few(inventory);
    let pools = Pools::of(alloc, inventory)?;
    let counted = pools.counted();
    keep_limits(counted);
    let mut totals = undrawn(alloc, counted)?;
    add_held(&mut totals, counted, holders);
    Ok(totals)
}

/// The totals of an inventory without slices. `AllocError` only if memory runs out.
pub fn new_totals(alloc: Global, inventory: &Inventory) -> Result<SharedTotals, AllocError>
    requires { inventory.now.slices ≡ [] }
    ensures { IfOk result (λ totals. (h : Holders) → AreCounted inventory.now h totals) }
{
    let totals = SharedTotals::new(alloc)?;
    Ok(totals)
}

/// Whether the slice is one of the device's pool.
fn is_of(slice: &ResourceSlice, id: &DeviceId) -> bool
    ensures { result ≡ is_of id.now slice.now }
{
    slice.pool.name == id.pool && *slice.driver.as_text() == id.driver
}

/// The first of the devices that has the name.
fn named<'a>(devices: &'a [Device], name: &Text) -> Option<&'a Device>
    ensures { option_copied result ≡ find (λ d. text_eq d.name name.now) devices.now }
{
    devices.iter().find(|device| device.name == *name)
}

/// The device of the slice that has the id.
fn device_of<'a>(slice: &'a ResourceSlice, id: &DeviceId) -> Option<&'a Device>
    ensures { option_copied result ≡ device_of id.now slice.now }
{
    if is_of(slice, id) {
        named(slice.devices.as_slice(), &id.device)
    } else {
        None
    }
}

/// The device of the slices that has the id.
fn found_in<'a>(slices: &'a [Shared<ResourceSlice>], id: &DeviceId) -> Option<DeviceRef<'a>>
    ensures { result ≡ found_in id.now slices.now }
{
    for slice in slices {
        let slice = slice.value();
        if let Some(device) = device_of(slice, id) {
            return Some(DeviceRef::of(slice, device));
        }
    }
    None
}

/// Gives a device to a claim, in place of another that held it, and draws what it draws if it was free.
/// `AllocError` only if memory runs out; then holders or totals may have changed, so whoever needs both changes copies.
pub fn hold(
    alloc: Global,
    pools: &Pools,
    holders: &mut Held,
    totals: &mut SharedTotals,
    device: &DeviceId,
    claim: Key,
) -> Result<(), AllocError>
    requires { AreCounted pools.now holders.old totals.old }
    ensures ok { OnOk result ((id : DeviceId) → holder_in holders.new id ≡ (if device_eq device.now id then Some claim else holder_in holders.old id)) }
    ensures counted { OnOk result (AreCounted pools.now holders.new totals.new) }
{
    usable_counters_are_there();
    usable_slices_differ();
    let is_free = holders.holder(device).is_none();
    holders.insert(device, claim, alloc)?;
    if is_free {
        if let Some(found) = found_in(pools.counted_in(&device.driver, &device.pool), device) {
            totals.hold(&found, alloc)?;
        }
    }
    Ok(())
}

/// Takes a device from the claim that holds it, and gives back what it drew; changes nothing if none holds it.
/// `AllocError` only if memory runs out; then holders or totals may have changed, so whoever needs both changes copies.
pub fn leave(
    alloc: Global,
    pools: &Pools,
    holders: &mut Held,
    totals: &mut SharedTotals,
    device: &DeviceId,
) -> Result<(), AllocError>
    requires { AreCounted pools.now holders.old totals.old }
    ensures ok { OnOk result ((id : DeviceId) → holder_in holders.new id ≡ (if device_eq device.now id then None else holder_in holders.old id)) }
    ensures counted { OnOk result (AreCounted pools.now holders.new totals.new) }
{
    usable_slices_differ();
    let is_held = holders.holder(device).is_some();
    holders.remove(device, alloc)?;
    if is_held {
        if let Some(found) = found_in(pools.counted_in(&device.driver, &device.pool), device) {
            totals.give_back(&found, alloc)?;
        }
    }
    Ok(())
}
