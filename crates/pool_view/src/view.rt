ghost use Rattle.std.specs.Prelude.{◌≡◌, [], IfOk, IsSome, filter};
ghost use Rattle.pool_view.specs.Names.{at_name};
ghost use Rattle.pool_view.specs.OnePool.{is_in};
ghost use Rattle.pool_view.specs.Sorted.{AreSorted};
ghost use Rattle.pool_view.specs.Usable.{counted_slices, has_broken, node_devices};
ghost use Rattle.pool_view.specs.Views.{places_from, position_of, with_place};

use crate::Inventory;
use crate::device::DeviceRef;
use crate::kept::SortedSlices;
use crate::one_pool::slices_of;
use crate::seen::{are_seen, devices_seen};
use crate::sorting::{sort_all, sorted_slices};
use api_slice::ResourceSlice;
use dra_values::{Seq, Shared, Table, Text};
use object_fields::DeviceId;
use std::alloc::{AllocError, Global};
use std::marker::Model;

/// The slices of an inventory that have the highest generation of their pool, usable ones apart from
/// broken ones, each by the node that they name. Contracts see the inventory.
#[derive(Drop)]
pub struct Pools<'a> {
    inventory: &'a Inventory,
    sorted: Shared<SortedSlices>,
}

impl<'a> Model for Pools<'a> {
    ghost use Rattle.pool_view.specs.declared.inventory.Inventory.{Inventory};
    ghost use Rattle.pool_view.specs.Sorted.{AreSorted};

    ghost Value = { Inventory };

    ghost view = { λ p. p.inventory.now };

    ghost invariant = { λ p. AreSorted p.inventory.now.slices p.sorted };
}

/// What a node sees of the pools of an inventory: the devices that may be allocated to a pod there, with
/// an index by their ids. The devices are borrowed from the inventory.
#[derive(Drop)]
pub struct PoolView<'a> {
    inventory: &'a Inventory,
    devices: Seq<DeviceRef<'a>>,
    places: Table<DeviceId, usize>,
    broken: bool,
}

impl<'a> Model for PoolView<'a> {
    ghost use Rattle.std.specs.Prelude.{◌≡◌, []};
    ghost use Rattle.pool_view.specs.Views.{ViewFields, places_from};

    ghost Value = { ViewFields };

    ghost view = { λ v. record { inventory = v.inventory.now; devices = v.devices; has_broken = v.broken } };

    ghost invariant = { λ v. v.places ≡ places_from 0 v.devices [] };
}

impl<'a> Pools<'a> {
    /// The slices of an inventory by their pools and by the node that they name: shared with it if it is
    /// sorted, and else sorted now, in one pass over all of them. `AllocError` is returned only if memory
    /// runs out.
    pub fn of(alloc: Global, inventory: &'a Inventory) -> Result<Pools<'a>, AllocError>
        ensures { IfOk result (λ pools. pools ≡ inventory.now) }
    {
        let sorted = sorted_by(alloc, inventory)?;
        Ok(Pools { inventory, sorted })
    }

    /// The devices of usable pools that a node of the inventory sees, in the order of driver, pool,
    /// slice and index in the slice. Goes over the slices that name the node and those that name none.
    /// `AllocError` is returned only if memory runs out.
    #[tactic(auto, using(crate::proofs::NodeSees::devices_are, crate::proofs::NodeSees::no_devices_at))]
    pub fn devices(&self, alloc: Global, node: &Text) -> Result<Vec<DeviceRef<'_>>, AllocError>
        requires { IsSome (at_name self.now.nodes node.now) }
        ensures { IfOk result (λ devices. devices.items ≡ node_devices self.now node.now) }
    {
        let usable = &self.sorted.value().usable;
        match self.inventory.nodes().get(node) {
            Some(stored) => Ok(usable.devices_for(alloc, &stored.object)?.into_vec()),
            None => Ok(Vec::new(alloc)),
        }
    }

    /// Whether an incomplete or invalid pool has a slice of its highest generation that a node of the
    /// inventory sees; false for a node that doesn't exist. Goes over the slices that name the node and
    /// those that name none, and allocates nothing.
    #[tactic(auto, using(crate::proofs::NodeSees::any_are, crate::proofs::NodeSees::none_at, crate::proofs::NodeSees::none_broken))]
    pub fn has_broken(&self, node: &Text) -> bool
        ensures { result ≡ has_broken self.now node.now }
    {
        let broken = &self.sorted.value().broken;
        if broken.slices().is_empty() {
            return false;
        }
        match self.inventory.nodes().get(node) {
            Some(stored) => broken.are_seen(&stored.object),
            None => false,
        }
    }

    /// Those of the slices of usable pools that have counter sets, or whose devices draw from some, in the
    /// order of driver, pool and slice. Allocates nothing.
    pub fn counted(&self) -> &[Shared<ResourceSlice>]
        ensures { result.now ≡ counted_slices self.now }
    {
        self.sorted.value().counted.as_slice()
    }

    /// Those of them that are of one pool: two binary searches. Allocates nothing.
    pub fn counted_in(&self, driver: &Text, pool: &Text) -> &[Shared<ResourceSlice>]
        ensures { result.now ≡ filter (is_in driver.now pool.now) (counted_slices self.now) }
    {
        slices_of(self.counted(), driver, pool)
    }
}

impl<'a> PoolView<'a> {
    /// What a node of the inventory sees. `AllocError` is returned only if memory runs out.
    pub fn of(
        alloc: Global,
        inventory: &'a Inventory,
        node: &Text,
    ) -> Result<PoolView<'a>, AllocError>
        requires { IsSome (at_name inventory.now.nodes node.now) }
        ensures inventory { IfOk result (λ view. view.inventory ≡ inventory.now) }
        ensures devices { IfOk result (λ view. view.devices ≡ node_devices inventory.now node.now) }
        ensures broken { IfOk result (λ view. view.has_broken ≡ has_broken inventory.now node.now) }
    {
        match inventory.sorted() {
            Some(sorted) => view_by(alloc, inventory, sorted.value(), node),
            None => view_of_all(alloc, inventory, node),
        }
    }

    /// The devices of usable pools that the node sees, in the order of driver, pool, slice and index
    /// in the slice. A device's position is its index here.
    pub fn devices(&self) -> &[DeviceRef<'a>]
        ensures { result.now ≡ self.now.devices }
    {
        self.devices.as_slice()
    }

    /// The position of the device of that id, or `None` if the view has no such device. Allocates
    /// nothing.
    #[tactic(auto, using(crate::proofs::Indexed::position_is))]
    pub fn position(&self, id: &DeviceId) -> Option<usize>
        ensures { result ≡ position_of id.now self.now.devices }
    {
        self.places.get(id).copied()
    }

    /// The inventory of which it is a view.
    pub fn inventory(&self) -> &'a Inventory
        ensures { result.now ≡ self.now.inventory }
    {
        self.inventory
    }

    /// Whether an incomplete or invalid pool has a slice of its highest generation that the node
    /// sees.
    pub fn has_broken(&self) -> bool
        ensures { result ≡ self.now.has_broken }
    {
        self.broken
    }
}

/// What is kept of the inventory's slices, or else made now.
fn sorted_by(alloc: Global, inventory: &Inventory) -> Result<Shared<SortedSlices>, AllocError>
    ensures { IfOk result (λ sorted. AreSorted inventory.now.slices sorted) }
{
    match inventory.sorted() {
        Some(kept) => kept.share(),
        None => Shared::new(alloc, sorted_slices(alloc, inventory)?),
    }
}

/// The view of these devices, with their index.
fn view_with<'a>(
    alloc: Global,
    inventory: &'a Inventory,
    devices: Seq<DeviceRef<'a>>,
    broken: bool,
) -> Result<PoolView<'a>, AllocError>
    ensures { IfOk result (λ view. view ≡ record { inventory = inventory.now; devices = devices.entry; has_broken = broken }) }
{
    let places = places_of(alloc, devices.as_slice())?;
    Ok(PoolView {
        inventory,
        devices,
        places,
        broken,
    })
}

/// What a node of an inventory sees of its slices, which are sorted.
#[tactic(auto, using(crate::proofs::NodeSees::devices_are, crate::proofs::NodeSees::any_are, crate::proofs::NodeSees::none_at, crate::proofs::NodeSees::no_devices_at))]
fn view_by<'a>(
    alloc: Global,
    inventory: &'a Inventory,
    sorted: &'a SortedSlices,
    node: &Text,
) -> Result<PoolView<'a>, AllocError>
    requires sorted { AreSorted inventory.now.slices sorted.now }
    requires there { IsSome (at_name inventory.now.nodes node.now) }
    ensures { IfOk result (λ view. view ≡ record { inventory = inventory.now; devices = node_devices inventory.now node.now; has_broken = has_broken inventory.now node.now }) }
{
    match inventory.nodes().get(node) {
        Some(stored) => {
            let devices = sorted.usable.devices_for(alloc, &stored.object)?;
            let broken = sorted.broken.are_seen(&stored.object);
            view_with(alloc, inventory, devices, broken)
        }
        None => view_with(alloc, inventory, Seq::empty(alloc), false),
    }
}

/// What a node of an inventory sees of all slices, sorted now.
#[tactic(auto, using(crate::proofs::NodeSees::devices_at, crate::proofs::NodeSees::any_at, crate::proofs::NodeSees::none_at, crate::proofs::NodeSees::no_devices_at))]
fn view_of_all<'a>(
    alloc: Global,
    inventory: &'a Inventory,
    node: &Text,
) -> Result<PoolView<'a>, AllocError>
    requires { IsSome (at_name inventory.now.nodes node.now) }
    ensures { IfOk result (λ view. view ≡ record { inventory = inventory.now; devices = node_devices inventory.now node.now; has_broken = has_broken inventory.now node.now }) }
{
    let sorted = sort_all(alloc, inventory)?;
    match inventory.nodes().get(node) {
        Some(stored) => {
            let devices = devices_seen(alloc, &stored.object, sorted.usable.as_slice())?;
            let broken = are_seen(&stored.object, sorted.broken.as_slice());
            view_with(alloc, inventory, devices, broken)
        }
        None => view_with(alloc, inventory, Seq::empty(alloc), false),
    }
}

fn put_place(
    places: &mut Table<DeviceId, usize>,
    id: DeviceId,
    place: usize,
) -> Result<(), AllocError>
    ensures { IfOk result (λ _. places.new ≡ with_place places.old id place) }
{
    if places.contains_key(&id) {
        Ok(())
    } else {
        places.insert(id, place)
    }
}

/// The index of each device by its id.
#[tactic(auto, unfolding(crate::specs::Views::places_from))]
fn places_of(alloc: Global, devices: &[DeviceRef<'_>]) -> Result<Table<DeviceId, usize>, AllocError>
    ensures { IfOk result (λ places. places ≡ places_from 0 devices.now []) }
{
    let mut places = Table::new(alloc);
    for place in 0..devices.len() {
        put_place(&mut places, devices[place].id(alloc)?, place)?;
    }
    Ok(places)
}
