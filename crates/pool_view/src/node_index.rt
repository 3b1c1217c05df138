ghost use Rattle.std.specs.Prelude.{◌≡◌, ◌≤◌, ◌++◌, ◌||◌, IfOk, drop, length, take};
ghost use Rattle.std.specs.List.{flat_map, list_any};
ghost use Rattle.pool_view.specs.NodeIndexes.{count_before, index_of, merged, own_slices, put_at, slices_in};
ghost use Rattle.pool_view.specs.Visibility.{offered_to, sees_slice};

use crate::device::DeviceRef;
use crate::groups::add;
use crate::nodes::named_node;
use crate::seen::push_seen;
use crate::visible::sees_slice;
use api_cluster::Node;
use api_slice::ResourceSlice;
use dra_values::{Seq, Shared, Table, Text};
use std::alloc::{AllocError, Global};

/// A slice with its position among those of an index.
#[derive(Drop)]
pub struct PlacedSlice {
    pub place: usize,
    pub slice: Shared<ResourceSlice>,
}

/// Slices by the node that they name (`nodeName`), and those that name none, each list in the order of
/// the positions.
#[derive(Drop)]
pub struct NodeIndex {
    pub named: Table<Text, Seq<PlacedSlice>>,
    pub others: Seq<PlacedSlice>,
}

impl NodeIndex {
    /// The index of slices, whose positions are those in the list. `AllocError` is returned only if memory
    /// runs out.
    #[tactic(auto, unfolding(crate::specs::NodeIndexes::with_slices))]
    pub fn of(alloc: Global, slices: &[Shared<ResourceSlice>]) -> Result<NodeIndex, AllocError>
        ensures { IfOk result (λ index. index ≡ index_of slices.now) }
    {
        let mut index = NodeIndex {
            named: Table::new(alloc),
            others: Seq::empty(alloc),
        };
        for place in 0..slices.len() {
            put(&mut index, alloc, place, &slices[place])?;
        }
        Ok(index)
    }
}

fn put(
    index: &mut NodeIndex,
    alloc: Global,
    place: usize,
    slice: &Shared<ResourceSlice>,
) -> Result<(), AllocError>
    ensures { IfOk result (λ _. index.new ≡ put_at place slice.now index.old) }
{
    let placed = PlacedSlice {
        place,
        slice: slice.share()?,
    };
    match named_node(&slice.value().nodes) {
        Some(node) => add(&mut index.named, alloc, node.copy(alloc)?, placed),
        None => index.others.push(placed),
    }
}

/// Puts the devices of slices that a node sees at the end, in order.
fn push_all<'a>(
    out: &mut Seq<DeviceRef<'a>>,
    node: &Node,
    slices: &'a [PlacedSlice],
) -> Result<(), AllocError>
    ensures { IfOk result (λ _. out.new ≡ out.old ++ flat_map (offered_to node.now) (slices_in slices.now)) }
{
    for placed in slices {
        push_seen(out, node, placed.slice.value())?;
    }
    Ok(())
}

/// How many of the first slices are before a position.
fn count_before(slices: &[PlacedSlice], place: usize) -> usize
    ensures is { result ≡ count_before place slices.now }
    ensures within { result ≤ length slices.now }
{
    let mut count = 0;
    while count < slices.len() && slices[count].place < place {
        count += 1;
    }
    count
}

/// Puts the devices of those slices at the end, from an index on, that are before a position, and
/// returns the index of the first that doesn't.
fn push_before<'a>(
    out: &mut Seq<DeviceRef<'a>>,
    node: &Node,
    slices: &'a [PlacedSlice],
    from: usize,
    place: usize,
) -> Result<usize, AllocError>
    requires { from ≤ length slices.now }
    ensures pushed { IfOk result (λ _. out.new ≡ out.old ++ flat_map (offered_to node.now) (slices_in (take (count_before place (drop from slices.now)) (drop from slices.now)))) }
    ensures left { IfOk result (λ next. drop next slices.now ≡ drop (count_before place (drop from slices.now)) (drop from slices.now)) }
    ensures within { IfOk result (λ next. next ≤ length slices.now) }
{
    let left = &slices[from..];
    let count = count_before(left, place);
    push_all(out, node, &left[..count])?;
    Ok(from + count)
}

/// Puts the devices of the slices of two lists at the end, in the order of the slices' positions.
fn push_merged<'a>(
    out: &mut Seq<DeviceRef<'a>>,
    node: &Node,
    own: &'a [PlacedSlice],
    others: &'a [PlacedSlice],
) -> Result<(), AllocError>
    ensures { IfOk result (λ _. out.new ≡ out.old ++ flat_map (offered_to node.now) (merged own.now others.now)) }
{
    let mut next = 0;
    for placed in own {
        next = push_before(out, node, others, next, placed.place)?;
        push_seen(out, node, placed.slice.value())?;
    }
    push_all(out, node, &others[next..])
}

/// How many devices slices have, as room for them.
fn room_for(slices: &[PlacedSlice]) -> usize {
    let mut count: usize = 0;
    for placed in slices {
        count = count.saturating_add(placed.slice.value().devices.as_slice().len());
    }
    count
}

/// The devices that a node sees of slices that name it and of others, in the order of the slices'
/// positions. There is room from the start for those of the slices that name it.
fn devices_among<'a>(
    alloc: Global,
    node: &Node,
    own: &'a [PlacedSlice],
    others: &'a [PlacedSlice],
) -> Result<Seq<DeviceRef<'a>>, AllocError>
    ensures { IfOk result (λ devices. devices ≡ flat_map (offered_to node.now) (merged own.now others.now)) }
{
    let mut out = Seq::new(Vec::with_capacity(alloc, room_for(own))?);
    push_merged(&mut out, node, own, others)?;
    Ok(out)
}

/// The devices that a node sees of the slices that name it and of those that name no node, in the
/// order of the slices' positions.
pub fn devices_of<'a>(
    alloc: Global,
    node: &Node,
    index: &'a NodeIndex,
) -> Result<Seq<DeviceRef<'a>>, AllocError>
    ensures { IfOk result (λ devices. devices ≡ flat_map (offered_to node.now) (merged (own_slices node.now.name index.now) index.now.others)) }
{
    let others = index.others.as_slice();
    match index.named.get(&node.name) {
        Some(own) => devices_among(alloc, node, own.as_slice(), others),
        None => devices_among(alloc, node, &[], others),
    }
}

fn sees_one(node: &Node, slices: &[PlacedSlice]) -> bool
    ensures { result ≡ list_any (sees_slice node.now) (slices_in slices.now) }
{
    for placed in slices {
        if sees_slice(node, placed.slice.value()) {
            return true;
        }
    }
    false
}

/// Whether a node sees one of the slices that name it or of those that name no node.
pub fn sees_any(node: &Node, index: &NodeIndex) -> bool
    ensures { result ≡ (list_any (sees_slice node.now) (slices_in (own_slices node.now.name index.now)) || list_any (sees_slice node.now) (slices_in index.now.others)) }
{
    let own = match index.named.get(&node.name) {
        Some(own) => sees_one(node, own.as_slice()),
        None => false,
    };
    own || sees_one(node, index.others.as_slice())
}
