ghost use Rattle.std.specs.Prelude.{◌≡◌, ◌++◌, ◌∷◌, [], List, Option, None, Some, ◌&&◌, IfOk, OnOk, OnErr, if◌then◌else◌, option_copied};
ghost use Rattle.std.specs.BTreeMap.{insert_entry};
ghost use Rattle.pool_view.specs.Names.{at_name, device_eq, text_cmp, text_eq};
ghost use Rattle.object_fields.specs.declared.key.DeviceId.{DeviceId};
ghost use Rattle.counter_sets.specs.Totals.{or_empty};
ghost use Rattle.counter_sets.specs.Holding as spec;
ghost use Rattle.object_fields.specs.declared.key.Key.{Key};
ghost use Rattle.counter_sets.specs.Holding.{AreHeld, holder_in};

use crate::change::{Change, move_device};
use crate::counter::DriverCounters;
use api_slice::{Device, ResourceSlice};
use dra_values::{Table, Text};
use object_fields::{DeviceId, Key};
use shared_map::{NoValue, SharedMap};
use std::alloc::{AllocError, Global};
use std::marker::Model;

type Devices = SharedMap<Text, Key>;

type Pools = SharedMap<Text, Devices>;

type Drivers = SharedMap<Text, Pools>;

/// The devices that claims hold, each with its claim.
///
/// Clauses see the claim that holds a device (`holder_in`), or that they are the pairs of a list
/// (`AreHeld`). A copy shares what is equal in both, and a change while copies are alive copies small
/// parts alone.
#[derive(Drop)]
pub struct Held {
    drivers: Drivers,
}

impl Model for Held {
    ghost use Rattle.counter_sets.specs.Holding.{Holders};

    ghost Value = { Holders };

    ghost view = { λ h. h.drivers };
}

impl Held {
    /// No device is held. `AllocError` is returned only if memory runs out.
    #[tactic(auto, using(crate::proofs::Holding::none_held, crate::proofs::Holding::no_pairs))]
    pub fn new(alloc: Global) -> Result<Held, AllocError>
        ensures none { IfOk result (λ held. (id : DeviceId) → holder_in held id ≡ None) }
        ensures pairs { IfOk result (λ held. AreHeld held []) }
    {
        Ok(Held {
            drivers: SharedMap::new(alloc)?,
        })
    }

    /// Adds a device and the claim that holds it, in place of another that held it. `AllocError`
    /// is returned only if memory runs out, and then nothing changes.
    pub fn insert(
        &mut self,
        device: &DeviceId,
        holder: Key,
        alloc: Global,
    ) -> Result<(), AllocError>
        ensures ok { OnOk result ((id : DeviceId) → holder_in self.new id ≡ (if device_eq device.now id then Some holder else holder_in self.old id)) }
        ensures pairs { OnOk result ((pairs : List (DeviceId × Key)) → AreHeld self.old pairs → holder_in self.old device.now ≡ None → AreHeld self.new (pairs ++ (device.now, holder) ∷ [])) }
        ensures err { OnErr result (self.new ≡ self.old) }
    {
        self.put(device, holder, alloc)
    }

    fn put(&mut self, device: &DeviceId, holder: Key, alloc: Global) -> Result<(), AllocError>
        ensures ok { OnOk result (self.new ≡ spec.put_driver device.now holder self.old) }
        ensures err { OnErr result (self.new ≡ self.old) }
    {
        put_driver(&mut self.drivers, device, holder, alloc)
    }

    /// Removes a device, whichever claim holds it; no other changes, and none does if no claim holds it.
    /// `AllocError` is returned only if memory runs out, and then nothing changes.
    pub fn remove(&mut self, device: &DeviceId, alloc: Global) -> Result<(), AllocError>
        ensures ok { OnOk result ((id : DeviceId) → holder_in self.new id ≡ (if device_eq device.now id then None else holder_in self.old id)) }
        ensures err { OnErr result (self.new ≡ self.old) }
    {
        self.take(device, alloc)
    }

    #[tactic(auto, unfolding(crate::specs::Holding::holder_in))]
    fn take(&mut self, device: &DeviceId, alloc: Global) -> Result<(), AllocError>
        ensures rest { OnOk result (self.new ≡ spec.left_driver device.now self.old) }
        ensures gone { OnOk result (holder_in self.new device.now ≡ None) }
        ensures err { OnErr result (self.new ≡ self.old) }
    {
        take_driver(&mut self.drivers, device, alloc)
    }

    /// The claim that holds a device.
    pub fn holder(&self, device: &DeviceId) -> Option<&Key>
        ensures { option_copied result ≡ holder_in self.now device.now }
    {
        self.at(&device.driver, &device.pool, &device.device)
    }

    /// The claim that holds a device, by its driver, its pool and its name.
    #[tactic(auto, unfolding(crate::specs::Holding::holder_in))]
    pub fn at(&self, driver: &Text, pool: &Text, device: &Text) -> Option<&Key>
        ensures { option_copied result ≡ holder_in self.now (record { driver = driver.now; pool = pool.now; device = device.now }) }
    {
        find(find_pool(&self.drivers, driver, pool), device)
    }

    /// The held devices of one pool, looked up once for all of them. Allocates nothing.
    pub fn in_pool<'a>(&'a self, driver: &'a Text, pool: &'a Text) -> HeldInPool<'a>
        ensures { result ≡ record { holders = self.now; driver = driver.now; pool = pool.now } }
    {
        HeldInPool {
            held: self,
            driver,
            pool,
            devices: find_pool(&self.drivers, driver, pool),
        }
    }

    /// The same devices, each held by the same claim. Both share all of it, and nothing is allocated.
    /// `AllocError` is returned only if the count of copies is full, at 2^63 - 1.
    pub fn share(&self) -> Result<Held, AllocError>
        ensures { IfOk result (λ copy. copy ≡ self.now) }
    {
        Ok(Held {
            drivers: self.drivers.share()?,
        })
    }
}

/// The held devices of one pool. Contracts see the holders of all devices, and the pool.
#[derive(Drop)]
pub struct HeldInPool<'a> {
    held: &'a Held,
    driver: &'a Text,
    pool: &'a Text,
    devices: Option<&'a Devices>,
}

impl<'a> Model for HeldInPool<'a> {
    ghost use Rattle.std.specs.Prelude.{◌≡◌, option_copied};
    ghost use Rattle.counter_sets.specs.Totals.{or_empty};
    ghost use Rattle.counter_sets.specs.Holding.{PoolHolders, held_in_pool};

    ghost Value = { PoolHolders };

    ghost view = { λ p. record { holders = p.held.now; driver = p.driver.now; pool = p.pool.now } };

    ghost invariant = { λ p. or_empty (option_copied p.devices) ≡ held_in_pool p.held.now p.driver.now p.pool.now };
}

impl<'a> HeldInPool<'a> {
    /// The claim that holds the device of that name in the pool.
    #[tactic(auto, unfolding(crate::specs::Holding::holder_in))]
    pub fn at(&self, device: &Text) -> Option<&'a Key>
        ensures { option_copied result ≡ holder_in self.now.holders (record { driver = self.now.driver; pool = self.now.pool; device = device.now }) }
    {
        find(self.devices, device)
    }

    /// Whether it is this pool.
    fn is_of(&self, driver: &Text, pool: &Text) -> bool
        ensures { result ≡ (text_eq self.now.pool pool.now && text_eq self.now.driver driver.now) }
    {
        *self.pool == *pool && *self.driver == *driver
    }

    /// The held devices of a pool, which are looked up only if it is another one. Allocates nothing.
    pub fn or_in_pool(self, driver: &'a Text, pool: &'a Text) -> HeldInPool<'a>
        ensures { result ≡ record { holders = self.entry.holders; driver = driver.now; pool = pool.now } }
    {
        if self.is_of(driver, pool) {
            self
        } else {
            self.held.in_pool(driver, pool)
        }
    }
}

fn find_pool<'a>(drivers: &'a Drivers, driver: &Text, pool: &Text) -> Option<&'a Devices>
    ensures { option_copied result ≡ at_name (or_empty (at_name drivers.now driver.now)) pool.now }
{
    match drivers.get(driver) {
        None => None,
        Some(pools) => pools.get(pool),
    }
}

fn find<'a>(devices: Option<&'a Devices>, device: &Text) -> Option<&'a Key>
    ensures { option_copied result ≡ at_name (or_empty (option_copied devices.entry)) device.now }
{
    match devices {
        None => None,
        Some(devices) => devices.get(device),
    }
}

fn put_device(
    devices: &mut Devices,
    name: &Text,
    holder: Key,
    alloc: Global,
) -> Result<(), AllocError>
    ensures ok { OnOk result (devices.new ≡ spec.put_device name.now holder devices.old) }
    ensures err { OnErr result (devices.new ≡ devices.old) }
{
    let name = name.copy(alloc)?;
    devices.insert(alloc, name, holder)
}

/// Adds a pool that has no entry, with the device.
fn add_pool(
    pools: &mut Pools,
    device: &DeviceId,
    holder: Key,
    alloc: Global,
) -> Result<(), AllocError>
    ensures ok { OnOk result (pools.new ≡ insert_entry text_cmp pools.old device.now.pool (spec.put_device device.now.device holder [])) }
    ensures err { OnErr result (pools.new ≡ pools.old) }
{
    let name = device.pool.copy(alloc)?;
    let mut devices = SharedMap::new(alloc)?;
    put_device(&mut devices, &device.device, holder, alloc)?;
    pools.insert(alloc, name, devices)
}

#[tactic(auto, using(std::proofs::lemmas::Map::Steps::set_value_same))]
fn put_pool(
    pools: &mut Pools,
    device: &DeviceId,
    holder: Key,
    alloc: Global,
) -> Result<(), AllocError>
    ensures ok { OnOk result (pools.new ≡ spec.put_pool device.now holder pools.old) }
    ensures err { OnErr result (pools.new ≡ pools.old) }
{
    match pools.get_mut(alloc, &device.pool) {
        Ok(devices) => put_device(devices, &device.device, holder, alloc),
        Err(NoValue::Missing) => add_pool(pools, device, holder, alloc),
        Err(NoValue::Memory) => Err(AllocError),
    }
}

/// Adds a driver that has no entry, with the device.
fn add_driver(
    drivers: &mut Drivers,
    device: &DeviceId,
    holder: Key,
    alloc: Global,
) -> Result<(), AllocError>
    ensures ok { OnOk result (drivers.new ≡ insert_entry text_cmp drivers.old device.now.driver (spec.put_pool device.now holder [])) }
    ensures err { OnErr result (drivers.new ≡ drivers.old) }
{
    let name = device.driver.copy(alloc)?;
    let mut pools = SharedMap::new(alloc)?;
    put_pool(&mut pools, device, holder, alloc)?;
    drivers.insert(alloc, name, pools)
}

#[tactic(auto, using(std::proofs::lemmas::Map::Steps::set_value_same), unfolding(crate::specs::Holding::put_driver))]
fn put_driver(
    drivers: &mut Drivers,
    device: &DeviceId,
    holder: Key,
    alloc: Global,
) -> Result<(), AllocError>
    ensures ok { OnOk result (drivers.new ≡ spec.put_driver device.now holder drivers.old) }
    ensures err { OnErr result (drivers.new ≡ drivers.old) }
{
    match drivers.get_mut(alloc, &device.driver) {
        Ok(pools) => put_pool(pools, device, holder, alloc),
        Err(NoValue::Missing) => add_driver(drivers, device, holder, alloc),
        Err(NoValue::Memory) => Err(AllocError),
    }
}

fn take_device(devices: &mut Devices, name: &Text, alloc: Global) -> Result<(), AllocError>
    ensures rest { OnOk result (devices.new ≡ spec.left_device name.now devices.old) }
    ensures gone { OnOk result (at_name devices.new name.now ≡ None) }
    ensures err { OnErr result (devices.new ≡ devices.old) }
{
    devices.in_order();
    devices.remove(alloc, name)?;
    Ok(())
}

#[tactic(auto, using(std::proofs::lemmas::Map::Steps::set_value_same))]
fn take_pool(pools: &mut Pools, device: &DeviceId, alloc: Global) -> Result<(), AllocError>
    ensures rest { OnOk result (pools.new ≡ spec.left_pool device.now pools.old) }
    ensures gone { OnOk result (at_name (or_empty (at_name pools.new device.now.pool)) device.now.device ≡ None) }
    ensures err { OnErr result (pools.new ≡ pools.old) }
{
    match pools.get_mut(alloc, &device.pool) {
        Ok(devices) => take_device(devices, &device.device, alloc),
        Err(NoValue::Missing) => Ok(()),
        Err(NoValue::Memory) => Err(AllocError),
    }
}

#[tactic(auto, using(std::proofs::lemmas::Map::Steps::set_value_same), unfolding(crate::specs::Holding::left_driver))]
fn take_driver(drivers: &mut Drivers, device: &DeviceId, alloc: Global) -> Result<(), AllocError>
    ensures rest { OnOk result (drivers.new ≡ spec.left_driver device.now drivers.old) }
    ensures gone { OnOk result (at_name (or_empty (at_name (or_empty (at_name drivers.new device.now.driver)) device.now.pool)) device.now.device ≡ None) }
    ensures err { OnErr result (drivers.new ≡ drivers.old) }
{
    match drivers.get_mut(alloc, &device.driver) {
        Ok(pools) => take_pool(pools, device, alloc),
        Err(NoValue::Missing) => Ok(()),
        Err(NoValue::Memory) => Err(AllocError),
    }
}

/// Draws what a device draws, where it is held.
fn draw_device(
    drivers: &mut Table<Text, DriverCounters>,
    slice: &ResourceSlice,
    device: &Device,
    held: &Held,
)
    ensures { drivers.new ≡ spec.held_device held.now slice.now device.now drivers.old }
{
    if held
        .at(slice.driver.as_text(), &slice.pool.name, &device.name)
        .is_some()
    {
        move_device(drivers, Change::Draw, slice, device.consumes.as_slice());
    }
}

/// Draws what the held devices of a slice draw.
#[tactic(auto, unfolding(crate::specs::Holding::added_held))]
pub fn draw_devices(drivers: &mut Table<Text, DriverCounters>, slice: &ResourceSlice, held: &Held)
    ensures { drivers.new ≡ spec.added_held held.now slice.now slice.now.devices drivers.old }
{
    for device in slice.devices.as_slice() {
        draw_device(drivers, slice, device, held);
    }
}
