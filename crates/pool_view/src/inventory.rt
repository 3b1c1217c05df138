ghost use Rattle.std.specs.Prelude.{◌≡◌, ◌≤◌, ◌++◌, [], true, filter, IfOk, IfSome, OnOk, OnErr};
ghost use Rattle.pool_view.specs.Sorted.{AreSorted};
ghost use Rattle.std.specs.List.Sorted.{IsStrictlySortedBy};
ghost use Rattle.std.specs.Map.{keys_of};
ghost use Rattle.pool_view.specs.Inventory.{AtOwnNames, device_count, devices_by, devices_most, empty_inventory, has_room_for, with_node, with_slice, without_node, without_slice};
ghost use Rattle.pool_view.specs.Known.{is_sure};
ghost use Rattle.pool_view.specs.Names.{at_name, text_cmp};
ghost use Rattle.pool_view.specs.OnePool.{is_in, only_pool};
ghost use Rattle.pool_view.specs.Usable.{is_counted, usable_slices};

use crate::Stored;
use crate::kept::SortedSlices;
use crate::known::{KnownList, KnownSlices};
use crate::learning::{position, share_lists, with_found};
use crate::one_pool::device_count;
use crate::pool_index::{PoolIndex, index_with, index_without, is_uncounted_in, slices_in};
use crate::sorting::sorted_slices;
use crate::stored::put_named;
use api_cluster::Node;
use api_slice::ResourceSlice;
use device_selector::DeviceSelector;
use dra_values::{Duplicate, Seq, Shared, Text};
use shared_map::SharedMap;
use std::alloc::{AllocError, Global};
use std::marker::Model;
use std::mem;

/// The most devices that all slices may have.
pub const MAX_DEVICES_TOTAL: usize = 65_536;

/// Nodes by their names.
pub type NamedNodes = SharedMap<Text, Stored<Shared<Node>>>;

/// Slices by their names.
pub type Slices = SharedMap<Text, Stored<Shared<ResourceSlice>>>;

/// The nodes and the slices of a cluster, by their names. All slices together have at most 65,536
/// devices.
#[derive(Drop)]
pub struct Inventory {
    nodes: NamedNodes,
    slices: Slices,
    /// The slices of each pool; None if memory ran out while they changed.
    pools: Option<PoolIndex>,
    /// How many devices all slices have.
    devices: usize,
    /// None if the slices aren't sorted, or have changed since they were.
    sorted: Option<Shared<SortedSlices>>,
    /// What was found out of selectors on these slices.
    known: Vec<Shared<KnownList>>,
    /// The names of the nodes; None if they have changed since they were listed.
    names: Option<Shared<Seq<Text>>>,
}

impl Model for Inventory {
    ghost use Rattle.pool_view.specs.Inventory.{InventoryFields, IsKept};

    ghost Value = { InventoryFields };

    ghost view = { λ i. record { nodes = i.nodes; slices = i.slices } };

    ghost use Rattle.pool_view.specs.Sorted.{IsSorted};
    ghost use Rattle.pool_view.specs.Known.{AreKnown, AreNames};
    ghost use Rattle.pool_view.specs.PoolIndexes.{AreIndexed};

    ghost invariant = { λ i. IsKept i.slices i.devices × IsSorted i.slices i.sorted × AreKnown i.slices i.known.items × AreNames i.nodes i.names × AreIndexed i.slices i.pools };
}

impl Inventory {
    /// The inventory of nothing. `AllocError` is returned only if memory runs out.
    pub fn new(alloc: Global) -> Result<Inventory, AllocError>
        ensures { IfOk result (λ inventory. inventory ≡ empty_inventory) }
    {
        let nodes = SharedMap::new(alloc)?;
        let slices = SharedMap::new(alloc)?;
        let pools = Some(SharedMap::new(alloc)?);
        Ok(Inventory {
            nodes,
            slices,
            pools,
            devices: 0,
            sorted: None,
            known: Vec::new(alloc),
            names: None,
        })
    }

    /// The nodes.
    pub fn nodes(&self) -> &NamedNodes
        ensures { result.now ≡ self.now.nodes }
    {
        &self.nodes
    }

    /// The slices.
    pub fn slices(&self) -> &Slices
        ensures { result.now ≡ self.now.slices }
    {
        &self.slices
    }

    /// States that all slices have at most 65,536 devices. Allocates nothing.
    pub fn keeps_limit(&self)
        ensures { device_count self.now.slices ≤ devices_most }
    {
        let _devices = self.devices;
    }

    /// States that each slice is at its own name. Allocates nothing.
    pub fn keeps_names(&self)
        ensures { AtOwnNames self.now.slices }
    {
        let _devices = self.devices;
    }

    /// States that the names of the slices strictly increase from each to the next, so that no name
    /// appears twice. Allocates nothing.
    pub fn keeps_order(&self)
        ensures { IsStrictlySortedBy text_cmp (keys_of self.now.slices) }
    {
        self.slices.in_order();
    }

    /// Whether all slices have at most 65,536 devices with this slice in place of the one of its
    /// name. Allocates nothing, and uses the kept count.
    #[tactic(auto, using(crate::proofs::Counts::count_without))]
    pub fn has_room_for(&self, slice: &ResourceSlice) -> bool
        ensures { result ≡ has_room_for self.now.slices slice.now }
    {
        let replaced = devices_of(&self.slices, &slice.name);
        self.devices - replaced + slice.devices.as_slice().len() <= MAX_DEVICES_TOTAL
    }

    /// Puts a node at its name, by the entry at this index: it is updated and keeps its uid if it
    /// exists, and is created otherwise. `AllocError` is returned only if memory runs out, and then nothing
    /// changed.
    pub fn put_node(
        &mut self,
        alloc: Global,
        place: u64,
        node: Shared<Node>,
    ) -> Result<(), AllocError>
        ensures ok { OnOk result (self.new ≡ with_node place node self.old) }
        ensures err { OnErr result (self.new ≡ self.old) }
    {
        let name = node.name.copy(alloc)?;
        if self.nodes.contains_key(&name) {
            put_named(alloc, &mut self.nodes, place, name, node)
        } else {
            put_named(alloc, &mut self.nodes, place, name, node)?;
            self.names = None;
            Ok(())
        }
    }

    /// Puts a slice that there is room for at its name, by the entry at this index: it is updated and
    /// keeps its uid if it exists, and is created otherwise. `AllocError` is returned only if memory
    /// runs out, and then nothing changed.
    #[tactic(auto, using(crate::proofs::Named::named_with))]
    pub fn put_slice(
        &mut self,
        alloc: Global,
        place: u64,
        slice: Shared<ResourceSlice>,
    ) -> Result<(), AllocError>
        requires { has_room_for self.old.slices slice ≡ true }
        ensures ok { OnOk result (self.new ≡ with_slice place slice self.old) }
        ensures err { OnErr result (self.new ≡ self.old) }
    {
        let name = slice.name.copy(alloc)?;
        let devices = self.devices - devices_of(&self.slices, &name)
            + slice.devices.as_slice().len();
        let pools = mem::replace(&mut self.pools, None);
        let pools = index_with(alloc, pools, &self.slices, place, &slice)?;
        put_named(alloc, &mut self.slices, place, name, slice)?;
        self.pools = pools;
        self.devices = devices;
        self.sorted = None;
        self.known.clear();
        Ok(())
    }

    /// An inventory of the slices of one pool, without nodes, which shares the slices with this one. It costs that pool's
    /// size, or all slices' once memory ran out while they changed. `AllocError` is returned only if memory runs out.
    pub fn pool(&self, alloc: Global, driver: &Text, pool: &Text) -> Result<Inventory, AllocError>
        ensures { IfOk result (λ other. other ≡ only_pool driver.now pool.now self.now) }
    {
        let slices = slices_in(alloc, &self.pools, &self.slices, driver, pool)?;
        let nodes = SharedMap::new(alloc)?;
        let devices = device_count(&slices);
        Ok(Inventory {
            nodes,
            slices,
            pools: None,
            devices,
            sorted: None,
            known: Vec::new(alloc),
            names: None,
        })
    }

    /// Whether it is known that counters are about none of the usable slices of a pool, once the entry at this index
    /// puts a slice. It isn't known where the pool may be complete and has slices that counters are about, nor once
    /// memory ran out while slices changed. It doesn't go over the slices of the pool. `AllocError` is returned only if
    /// memory runs out.
    pub fn is_uncounted_with(
        &self,
        alloc: Global,
        driver: &Text,
        pool: &Text,
        place: u64,
        slice: &Shared<ResourceSlice>,
    ) -> Result<bool, AllocError>
        ensures { IfOk result (λ known. known ≡ true → filter is_counted (filter (is_in driver.now pool.now) (usable_slices (with_slice place slice.now self.now))) ≡ []) }
    {
        let pools = self.pools.duplicate(alloc)?;
        let pools = index_with(alloc, pools, &self.slices, place, slice)?;
        is_uncounted_in(alloc, &pools, driver, pool)
    }

    /// Whether it is known that counters are about none of the usable slices of a pool, once the slice of a name is
    /// removed, if there is one (`is_uncounted_with`). `AllocError` is returned only if memory runs out.
    pub fn is_uncounted_without(
        &self,
        alloc: Global,
        driver: &Text,
        pool: &Text,
        name: &Text,
    ) -> Result<bool, AllocError>
        ensures { IfOk result (λ known. known ≡ true → filter is_counted (filter (is_in driver.now pool.now) (usable_slices (without_slice name.now self.now))) ≡ []) }
    {
        let pools = self.pools.duplicate(alloc)?;
        let pools = index_without(alloc, pools, &self.slices, name)?;
        is_uncounted_in(alloc, &pools, driver, pool)
    }

    /// Removes the node of a name, if there is one. `AllocError` is returned only if memory runs out, and then
    /// nothing changed.
    pub fn remove_node(&mut self, alloc: Global, name: &Text) -> Result<(), AllocError>
        ensures ok { OnOk result (self.new ≡ without_node name.now self.old) }
        ensures err { OnErr result (self.new ≡ self.old) }
    {
        self.nodes.remove(alloc, name)?;
        self.names = None;
        Ok(())
    }

    /// Removes the slice of a name, if there is one. `AllocError` is returned only if memory runs out, and then
    /// nothing changed.
    #[tactic(auto, using(crate::proofs::Named::named_without))]
    pub fn remove_slice(&mut self, alloc: Global, name: &Text) -> Result<(), AllocError>
        ensures ok { OnOk result (self.new ≡ without_slice name.now self.old) }
        ensures err { OnErr result (self.new ≡ self.old) }
    {
        let devices = self.devices - devices_of(&self.slices, name);
        let pools = mem::replace(&mut self.pools, None);
        let pools = index_without(alloc, pools, &self.slices, name)?;
        self.slices.remove(alloc, name)?;
        self.pools = pools;
        self.devices = devices;
        self.sorted = None;
        self.known.clear();
        Ok(())
    }

    /// Whether the slices were sorted since they changed, and the names of the nodes listed since these did.
    /// Allocates nothing.
    pub fn is_sorted(&self) -> bool {
        self.sorted.is_some() && self.names.is_some()
    }

    /// The slices as they are kept, sorted, if they are.
    pub(crate) fn sorted(&self) -> Option<&Shared<SortedSlices>>
        ensures { IfSome result (λ sorted. AreSorted self.now.slices sorted.now) }
    {
        self.sorted.as_ref()
    }

    /// The names of the nodes in order, if they were listed since the nodes changed (`sort`). Allocates
    /// nothing.
    pub fn node_names(&self) -> Option<&Shared<Seq<Text>>>
        ensures { IfSome result (λ names. names.now ≡ keys_of self.now.nodes) }
    {
        self.names.as_ref()
    }

    /// What is known of the selectors of a class and then of a request; `None` if nothing is. Allocates
    /// nothing.
    pub fn known(&self, class: &[DeviceSelector], own: &[DeviceSelector]) -> Option<KnownSlices<'_>>
        ensures { IfSome result (λ k. k ≡ record { slices = self.now.slices; texts = class.now ++ own.now }) }
    {
        match position(&self.known, class, own) {
            Some(at) => Some(KnownSlices::of(&self.slices, self.known[at].value())),
            None => None,
        }
    }

    /// Keeps of the selectors of a class and then of a request whether they have no evaluation error on any
    /// device of the slice of a name, until a slice changes. What is kept of other selectors may be dropped.
    /// The inventory stays the same. `AllocError` only if memory runs out.
    pub fn learn(
        &mut self,
        alloc: Global,
        class: &[DeviceSelector],
        own: &[DeviceSelector],
        slice: &Text,
        sure: bool,
    ) -> Result<(), AllocError>
        requires sure { IfSome (at_name self.old.slices slice.now) (λ stored. is_sure (class.now ++ own.now) stored.object ≡ sure) }
        ensures { self.new ≡ self.old }
    {
        let name = slice.copy(alloc)?;
        let known = mem::replace(&mut self.known, Vec::new(alloc));
        self.known = with_found(alloc, known, class, own, name, sure)?;
        Ok(())
    }

    /// Sorts the slices and lists the names of the nodes, so that searches don't have to, until they change. The
    /// inventory stays the same. `AllocError` only if memory runs out.
    pub fn sort(&mut self, alloc: Global) -> Result<(), AllocError>
        ensures { self.new ≡ self.old }
    {
        if self.sorted.is_none() {
            let sorted = sorted_slices(alloc, self)?;
            self.sorted = Some(Shared::new(alloc, sorted)?);
        }
        if self.names.is_none() {
            let names = names_of(alloc, &self.nodes)?;
            self.names = Some(Shared::new(alloc, names)?);
        }
        Ok(())
    }
}

/// A duplicate shares all entries.
impl Duplicate for Inventory {
    fn duplicate(&self, alloc: Global) -> Result<Inventory, AllocError> {
        let nodes = self.nodes.share()?;
        let slices = self.slices.share()?;
        let pools = self.pools.duplicate(alloc)?;
        let sorted = self.sorted.duplicate(alloc)?;
        let names = self.names.duplicate(alloc)?;
        let known = share_lists(alloc, &self.known)?;
        Ok(Inventory {
            nodes,
            slices,
            pools,
            devices: self.devices,
            sorted,
            known,
            names,
        })
    }
}

/// The names in order.
fn names_of(alloc: Global, nodes: &NamedNodes) -> Result<Seq<Text>, AllocError>
    ensures { IfOk result (λ names. names ≡ keys_of nodes.now) }
{
    let mut names = Seq::new(Vec::with_capacity(alloc, nodes.len())?);
    for (name, _) in nodes.iter() {
        names.push(name.copy(alloc)?)?;
    }
    Ok(names)
}

/// How many devices the slice of a name has, or 0 if there is none.
fn devices_of(slices: &Slices, name: &Text) -> usize
    ensures { result ≡ devices_by (at_name slices.now name.now) }
{
    match slices.get(name) {
        None => 0,
        Some(stored) => stored.object.devices.as_slice().len(),
    }
}
