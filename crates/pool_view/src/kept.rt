ghost use Rattle.std.specs.Prelude.{◌≡◌, IfOk};
ghost use Rattle.std.specs.List.{flat_map, list_any};
ghost use Rattle.pool_view.specs.Visibility.{offered_to, sees_slice};

use crate::device::DeviceRef;
use crate::node_index::{NodeIndex, devices_of, sees_any};
use crate::slice_ref::SliceRef;
use api_cluster::Node;
use api_slice::ResourceSlice;
use dra_values::{Seq, Shared};
use std::alloc::{AllocError, Global};
use std::marker::Model;

/// Slices in order, shared, with an index by the node that they name. Contracts see the slices.
#[derive(Drop)]
pub struct IndexedSlices {
    slices: Seq<Shared<ResourceSlice>>,
    index: NodeIndex,
}

impl Model for IndexedSlices {
    ghost use Rattle.std.specs.Prelude.{◌≡◌, List};
    ghost use Rattle.api_slice.specs.declared.types.ResourceSlice.{ResourceSlice};
    ghost use Rattle.pool_view.specs.NodeIndexes.{index_of};

    ghost Value = { List ResourceSlice };

    ghost view = { λ s. s.slices };

    ghost invariant = { λ s. s.index ≡ index_of s.slices };
}

impl IndexedSlices {
    /// These slices, shared, with their index. `AllocError` is returned only if memory runs out.
    pub fn of(alloc: Global, slices: &[SliceRef<'_>]) -> Result<IndexedSlices, AllocError>
        ensures { IfOk result (λ kept. kept ≡ slices.now) }
    {
        let slices = share_all(alloc, slices)?;
        let index = NodeIndex::of(alloc, slices.as_slice())?;
        Ok(IndexedSlices { slices, index })
    }

    /// The slices.
    pub fn slices(&self) -> &[Shared<ResourceSlice>]
        ensures { result.now ≡ self.now }
    {
        self.slices.as_slice()
    }

    /// The devices of the slices that a node sees, in order. Goes over the slices that name the node and
    /// those that name none. `AllocError` is returned only if memory runs out.
    #[tactic(auto, using(crate::proofs::OfNode::devices_by_index))]
    pub fn devices_for(&self, alloc: Global, node: &Node) -> Result<Seq<DeviceRef<'_>>, AllocError>
        ensures { IfOk result (λ devices. devices ≡ flat_map (offered_to node.now) self.now) }
    {
        devices_of(alloc, node, &self.index)
    }

    /// Whether a node sees one of the slices. Goes over those that name the node and those that name
    /// none, and allocates nothing.
    #[tactic(auto, using(crate::proofs::OfNode::any_by_index))]
    pub fn are_seen(&self, node: &Node) -> bool
        ensures { result ≡ list_any (sees_slice node.now) self.now }
    {
        sees_any(node, &self.index)
    }
}

fn share_all(
    alloc: Global,
    slices: &[SliceRef<'_>],
) -> Result<Seq<Shared<ResourceSlice>>, AllocError>
    ensures { IfOk result (λ shared. shared ≡ slices.now) }
{
    let mut shared = Seq::new(Vec::with_capacity(alloc, slices.len())?);
    for slice in slices {
        shared.push(slice.share()?)?;
    }
    Ok(shared)
}

/// The slices of the highest generation of each pool, those of usable pools apart from those of broken
/// ones, each in the order of driver, pool and slice; and those of usable pools that have counter sets, or
/// whose devices draw from some.
#[derive(Drop)]
pub struct SortedSlices {
    pub usable: IndexedSlices,
    pub broken: IndexedSlices,
    pub counted: Seq<Shared<ResourceSlice>>,
}
