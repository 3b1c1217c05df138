ghost use Rattle.std.specs.Prelude.{◌≡◌, option_map, IfOk, codes, Some};
ghost use Rattle.serde_json.specs.Data.{member, no_members, string};
ghost use Rattle.serde_json.specs.View.{members_view, view};
ghost use Rattle.api_print.specs.Devices.{counter_set_json};
ghost use Rattle.api_print.specs.Shapes.{list_if, member_if};
ghost use Rattle.api_print.specs.Slices.{pool_json, slice_all_nodes, slice_json, slice_node_name, slice_node_selector, slice_per_device, slice_spec_json};

use crate::fields::{Members, before, before_if, before_text, none};
use crate::listing::some_list;
use crate::metadata::{metadata, object};
use crate::selector::{all_nodes, node_name, selector_of_nodes};
use api_slice::{Pool, ResourceSlice, SliceNodes};
use dra_values::Shared;
use pool_view::Stored;
use serde_json::Value;
use std::alloc::{AllocError, Global};

fn pool(alloc: Global, pool: &Pool) -> Result<Value, AllocError>
    ensures { IfOk result (λ v. view v ≡ pool_json pool.now) }
{
    let slices = Value::from(pool.slices);
    let members = before(none(alloc), alloc, "resourceSliceCount", slices)?;
    let members = before_text(members, alloc, "name", pool.name.as_str())?;
    let generation = Value::from(pool.generation);
    let members = before(members, alloc, "generation", generation)?;
    Ok(Value::Object(members))
}

fn all_nodes_of(nodes: &SliceNodes) -> Option<Value>
    ensures { option_map view result ≡ slice_all_nodes nodes.now }
{
    match nodes {
        SliceNodes::Nodes(nodes) => all_nodes(nodes),
        SliceNodes::PerDevice => None,
    }
}

fn node_name_of(alloc: Global, nodes: &SliceNodes) -> Result<Option<Value>, AllocError>
    ensures { IfOk result (λ o. option_map view o ≡ slice_node_name nodes.now) }
{
    match nodes {
        SliceNodes::Nodes(nodes) => node_name(alloc, nodes),
        SliceNodes::PerDevice => Ok(None),
    }
}

fn selector_of(alloc: Global, nodes: &SliceNodes) -> Result<Option<Value>, AllocError>
    ensures { IfOk result (λ o. option_map view o ≡ slice_node_selector nodes.now) }
{
    match nodes {
        SliceNodes::Nodes(nodes) => selector_of_nodes(alloc, nodes),
        SliceNodes::PerDevice => Ok(None),
    }
}

fn per_device_of(nodes: &SliceNodes) -> Option<Value>
    ensures { option_map view result ≡ slice_per_device nodes.now }
{
    match nodes {
        SliceNodes::Nodes(_) => None,
        SliceNodes::PerDevice => Some(Value::Bool(true)),
    }
}

/// The members from `pool` on.
fn pool_and_counters(alloc: Global, slice: &ResourceSlice) -> Result<Members, AllocError>
    ensures { IfOk result (λ m. members_view m.entries ≡ member (codes "pool") (pool_json slice.now.pool)
        (member_if (codes "sharedCounters") (list_if counter_set_json slice.now.counters) no_members)) }
{
    let counters = some_list(alloc, slice.counters.as_slice())?;
    let members = before_if(none(alloc), alloc, "sharedCounters", counters)?;
    let pool = pool(alloc, &slice.pool)?;
    before(members, alloc, "pool", pool)
}

/// The members from `driver` on.
#[tactic(auto, using(crate::proofs::Order::before_member_if))]
fn driver_and_nodes(alloc: Global, slice: &ResourceSlice) -> Result<Members, AllocError>
    ensures { IfOk result (λ m. members_view m.entries ≡ member (codes "driver") (string slice.now.driver)
        (member_if (codes "nodeName") (slice_node_name slice.now.nodes)
        (member_if (codes "nodeSelector") (slice_node_selector slice.now.nodes)
        (member_if (codes "perDeviceNodeSelection") (slice_per_device slice.now.nodes)
        (member (codes "pool") (pool_json slice.now.pool)
        (member_if (codes "sharedCounters") (list_if counter_set_json slice.now.counters) no_members)))))) }
{
    let members = pool_and_counters(alloc, slice)?;
    let per_device = per_device_of(&slice.nodes);
    let members = before_if(members, alloc, "perDeviceNodeSelection", per_device)?;
    let selector = selector_of(alloc, &slice.nodes)?;
    let members = before_if(members, alloc, "nodeSelector", selector)?;
    let node_name = node_name_of(alloc, &slice.nodes)?;
    let members = before_if(members, alloc, "nodeName", node_name)?;
    before_text(members, alloc, "driver", slice.driver.as_text().as_str())
}

/// The spec of a slice.
#[tactic(auto, unfolding(crate::specs::Slices::slice_spec_json))]
fn slice_spec(alloc: Global, slice: &ResourceSlice) -> Result<Value, AllocError>
    ensures { IfOk result (λ v. view v ≡ slice_spec_json slice.now) }
{
    let members = driver_and_nodes(alloc, slice)?;
    let devices = some_list(alloc, slice.devices.as_slice())?;
    let members = before_if(members, alloc, "devices", devices)?;
    let members = before_if(members, alloc, "allNodes", all_nodes_of(&slice.nodes))?;
    Ok(Value::Object(members))
}

/// A slice: its metadata and its spec. `AllocError` only if memory runs out.
#[tactic(auto, unfolding(crate::specs::Slices::slice_json))]
pub fn slice_value(
    alloc: Global,
    stored: &Stored<Shared<ResourceSlice>>,
) -> Result<Value, AllocError>
    ensures { IfOk result (λ v. view v ≡ slice_json stored.now) }
{
    let slice = stored.object.value();
    let metadata = metadata(alloc, None, slice.name.as_str(), stored.version, stored.uid)?;
    let spec = slice_spec(alloc, slice)?;
    object(
        alloc,
        "resource.k8s.io/v1",
        "ResourceSlice",
        metadata,
        Some(spec),
        None,
    )
}
