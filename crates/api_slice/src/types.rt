ghost use Rattle.std.specs.Prelude.{◌≡◌, IfOk};
ghost use Rattle.api_slice.specs.Limits.{IsWithinLimits};

use crate::driver::DriverName;
use crate::properties::Properties;
use device_taints::Taint;
use dra_values::{Duplicate, Seq, Table, Text};
use node_select::Selector;
use quantity::Quantity;
use std::alloc::{AllocError, Global};
use std::marker::Model;

/// A ResourceSlice of `resource.k8s.io/v1`: devices that a driver offers, or counter sets on which the
/// devices of its pool draw, not both.
///
/// Each slice keeps the limits and name rules given at its fields and at those of its parts;
/// contracts see the record of its fields.
#[derive(Drop)]
pub struct ResourceSlice {
    /// `metadata.name`, a DNS subdomain of at most 253 bytes.
    pub name: Text,
    /// `metadata.resourceVersion`, from 0 to 2^64-1.
    pub version: Option<u64>,
    /// `spec.driver`.
    pub driver: DriverName,
    /// `spec.pool`.
    pub pool: Pool,
    /// Where the devices are: the one of `spec.nodeName`, `nodeSelector`, `allNodes` and
    /// `perDeviceNodeSelection` that is set.
    pub nodes: SliceNodes,
    /// `spec.sharedCounters`, with at most 32 counters in all.
    pub counters: Seq<CounterSet>,
    /// `spec.devices`, at most 128.
    pub devices: Seq<Device>,
}

/// `spec.pool` of a ResourceSlice.
#[derive(Drop)]
pub struct Pool {
    /// Unique among the pools of the driver: DNS subdomains joined by `/`, at most 253 bytes in all.
    pub name: Text,
    /// 0 to 2^63-1; only the slices of a pool's highest generation are used.
    pub generation: u64,
    /// `resourceSliceCount`, 1 to 2^63-1: how many slices the pool has at this generation.
    pub slices: u64,
}

/// Where the devices of a slice are.
#[derive(Drop)]
pub enum SliceNodes {
    /// All of them are on the same nodes.
    Nodes(Nodes),
    /// `perDeviceNodeSelection`: each device has its own.
    PerDevice,
}

/// Nodes that devices are on.
#[derive(Drop)]
pub enum Nodes {
    /// `nodeName`: the one node of that name, which isn't empty.
    Named(Text),
    /// `nodeSelector`: the nodes that it selects.
    Selected(Selector),
    /// `allNodes`.
    All,
}

/// A counter set: amounts that the devices of its pool share (KEP 4815).
#[derive(Drop)]
pub struct CounterSet {
    /// A DNS label, which no other set of the slice has.
    pub name: Text,
    /// The amount of each counter by its name, a DNS label; none is negative.
    pub counters: Table<Text, Quantity>,
}

/// A device of a slice.
#[derive(Drop)]
pub struct Device {
    /// A DNS label, which no other device of the slice has.
    pub name: Text,
    /// `attributes` and `capacity`.
    pub properties: Properties,
    /// `consumesCounters`, each set at most once, and at most 32 amounts in all.
    pub consumes: Seq<CounterConsumption>,
    /// Where the device is; set if and only if the slice has `perDeviceNodeSelection`.
    pub nodes: Option<Nodes>,
    /// `taints`, at most 16.
    pub taints: Seq<Taint>,
}

/// The value of an attribute.
#[derive(Drop)]
pub enum Attribute {
    Int(i64),
    Bool(bool),
    /// A text of at most 64 characters.
    Text(Text),
    /// A version of Semantic Versioning 2.0.0, as it is written, of at most 64 characters.
    Version(Text),
}

/// What a device draws from one counter set of its pool (KEP 4815).
#[derive(Drop)]
pub struct CounterConsumption {
    /// The name of a counter set of the pool, any text; that the pool has such a set isn't certain.
    pub set: Text,
    /// The amount from each counter of that set by its name, any text; none is negative.
    pub amounts: Table<Text, Quantity>,
}

impl Model for ResourceSlice {
    ghost use Rattle.api_slice.specs.Fields.{SliceFields};

    ghost Value = { SliceFields };

    ghost view = { λ s. record { name = s.name; version = s.version; driver = s.driver; pool = s.pool; nodes = s.nodes; counters = s.counters; devices = s.devices } };

    ghost use Rattle.api_slice.specs.Limits.{IsWithinLimits};

    ghost invariant = { λ s. IsWithinLimits (record { name = s.name; version = s.version; driver = s.driver; pool = s.pool; nodes = s.nodes; counters = s.counters; devices = s.devices }) };
}

impl ResourceSlice {
    /// Each slice keeps the limits and name rules of the API reference of `resource.k8s.io/v1`, as
    /// `slices_keep_limits` states them. Allocates nothing.
    pub fn keeps_limits(&self)
        ensures { IsWithinLimits self.now }
    {
        let _ = &self.name;
    }

    /// An equal slice.
    pub fn copy(&self, alloc: Global) -> Result<ResourceSlice, AllocError>
        ensures { IfOk result (λ copy. copy ≡ self.now) }
    {
        let (name, driver, pool) = copy_names(alloc, &self.name, &self.driver, &self.pool)?;
        let (nodes, counters, devices) = copy_contents(
            alloc,
            &self.nodes,
            &self.counters,
            &self.devices,
        )?;
        Ok(ResourceSlice {
            name,
            version: self.version,
            driver,
            pool,
            nodes,
            counters,
            devices,
        })
    }
}

/// An equal name, driver and pool.
fn copy_names(
    alloc: Global,
    name: &Text,
    driver: &DriverName,
    pool: &Pool,
) -> Result<(Text, DriverName, Pool), AllocError>
    ensures { IfOk result (λ copy. copy ≡ (name.now, driver.now, pool.now)) }
{
    let name = name.copy(alloc)?;
    let driver = driver.copy(alloc)?;
    Ok((name, driver, pool.copy(alloc)?))
}

/// Equal places, counter sets and devices.
fn copy_contents(
    alloc: Global,
    nodes: &SliceNodes,
    counters: &Seq<CounterSet>,
    devices: &Seq<Device>,
) -> Result<(SliceNodes, Seq<CounterSet>, Seq<Device>), AllocError>
    ensures { IfOk result (λ copy. copy ≡ (nodes.now, counters.now, devices.now)) }
{
    let nodes = nodes.duplicate(alloc)?;
    let counters = counters.copy(alloc)?;
    Ok((nodes, counters, devices.copy(alloc)?))
}

impl Duplicate for ResourceSlice {
    fn duplicate(&self, alloc: Global) -> Result<ResourceSlice, AllocError> {
        self.copy(alloc)
    }
}

impl Pool {
    /// An equal pool.
    pub fn copy(&self, alloc: Global) -> Result<Pool, AllocError>
        ensures { IfOk result (λ copy. copy ≡ self.now) }
    {
        Ok(Pool {
            name: self.name.copy(alloc)?,
            generation: self.generation,
            slices: self.slices,
        })
    }
}

impl Duplicate for SliceNodes {
    fn duplicate(&self, alloc: Global) -> Result<SliceNodes, AllocError> {
        match self {
            SliceNodes::Nodes(nodes) => Ok(SliceNodes::Nodes(nodes.duplicate(alloc)?)),
            SliceNodes::PerDevice => Ok(SliceNodes::PerDevice),
        }
    }
}

impl Duplicate for Nodes {
    fn duplicate(&self, alloc: Global) -> Result<Nodes, AllocError> {
        match self {
            Nodes::Named(name) => Ok(Nodes::Named(name.copy(alloc)?)),
            Nodes::Selected(selector) => Ok(Nodes::Selected(selector.copy(alloc)?)),
            Nodes::All => Ok(Nodes::All),
        }
    }
}

impl Duplicate for CounterSet {
    fn duplicate(&self, alloc: Global) -> Result<CounterSet, AllocError> {
        Ok(CounterSet {
            name: self.name.copy(alloc)?,
            counters: self.counters.copy(alloc)?,
        })
    }
}

impl Duplicate for Device {
    fn duplicate(&self, alloc: Global) -> Result<Device, AllocError> {
        let (name, properties) = copy_kind(alloc, &self.name, &self.properties)?;
        let (consumes, nodes, taints) = copy_terms(
            alloc,
            &self.consumes,
            &self.nodes,
            &self.taints,
        )?;
        Ok(Device {
            name,
            properties,
            consumes,
            nodes,
            taints,
        })
    }
}

/// An equal name and equal properties.
fn copy_kind(
    alloc: Global,
    name: &Text,
    properties: &Properties,
) -> Result<(Text, Properties), AllocError>
    ensures { IfOk result (λ copy. copy ≡ (name.now, properties.now)) }
{
    let name = name.copy(alloc)?;
    Ok((name, properties.copy(alloc)?))
}

/// What a device draws, where it is, and its taints, all of them equal.
fn copy_terms(
    alloc: Global,
    consumes: &Seq<CounterConsumption>,
    nodes: &Option<Nodes>,
    taints: &Seq<Taint>,
) -> Result<(Seq<CounterConsumption>, Option<Nodes>, Seq<Taint>), AllocError>
    ensures { IfOk result (λ copy. copy ≡ (consumes.now, nodes.now, taints.now)) }
{
    let consumes = consumes.copy(alloc)?;
    let nodes = nodes.duplicate(alloc)?;
    Ok((consumes, nodes, taints.copy(alloc)?))
}

impl Duplicate for Attribute {
    fn duplicate(&self, alloc: Global) -> Result<Attribute, AllocError> {
        match self {
            Attribute::Int(number) => Ok(Attribute::Int(*number)),
            Attribute::Bool(truth) => Ok(Attribute::Bool(*truth)),
            Attribute::Text(text) => Ok(Attribute::Text(text.copy(alloc)?)),
            Attribute::Version(text) => Ok(Attribute::Version(text.copy(alloc)?)),
        }
    }
}

impl Duplicate for CounterConsumption {
    fn duplicate(&self, alloc: Global) -> Result<CounterConsumption, AllocError> {
        Ok(CounterConsumption {
            set: self.set.copy(alloc)?,
            amounts: self.amounts.copy(alloc)?,
        })
    }
}
