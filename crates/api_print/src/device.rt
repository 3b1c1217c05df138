ghost use Rattle.std.specs.Prelude.{◌≡◌, option_and_then, option_map, IfOk, codes};
ghost use Rattle.serde_json.specs.Data.{Members, member, no_members, string};
ghost use Rattle.serde_json.specs.View.{members_view, view};
ghost use Rattle.api_print.specs.Devices.{amount_json, attribute_json, consumption_json, device_json, full_name};
ghost use Rattle.api_print.specs.Selectors.{all_nodes_if, node_name_if, node_selector_if};
ghost use Rattle.api_print.specs.Shapes.{list_if, member_if, table_if};
ghost use Rattle.api_print.specs.Taints.{taints_if};

use crate::fields::{Members, before_if, before_text, none};
use crate::listing::{Printed, some_list, some_table};
use crate::selector::{all_nodes, node_name, selector_of_nodes};
use api_slice::{Device, Nodes};
use serde_json::Value;
use std::alloc::{AllocError, Global};

fn own_all_nodes(nodes: &Option<Nodes>) -> Option<Value>
    ensures { option_map view result ≡ option_and_then all_nodes_if nodes.now }
{
    match nodes {
        Some(nodes) => all_nodes(nodes),
        None => None,
    }
}

fn own_node_name(alloc: Global, nodes: &Option<Nodes>) -> Result<Option<Value>, AllocError>
    ensures { IfOk result (λ o. option_map view o ≡ option_and_then node_name_if nodes.now) }
{
    match nodes {
        Some(nodes) => node_name(alloc, nodes),
        None => Ok(None),
    }
}

fn own_selector(alloc: Global, nodes: &Option<Nodes>) -> Result<Option<Value>, AllocError>
    ensures { IfOk result (λ o. option_map view o ≡ option_and_then node_selector_if nodes.now) }
{
    match nodes {
        Some(nodes) => selector_of_nodes(alloc, nodes),
        None => Ok(None),
    }
}

/// `taints`, if there are any.
fn with_taints(alloc: Global, device: &Device) -> Result<Members, AllocError>
    ensures { IfOk result (λ m. members_view m.entries ≡ member_if (codes "taints") (taints_if device.now.taints) no_members) }
{
    let taints = some_list(alloc, device.taints.as_slice())?;
    before_if(none(alloc), alloc, "taints", taints)
}

/// The members from `name` on.
#[tactic(auto, using(crate::proofs::Order::before_member_if))]
fn name_and_nodes(alloc: Global, device: &Device) -> Result<Members, AllocError>
    ensures { IfOk result (λ m. members_view m.entries ≡ member (codes "name") (string device.now.name)
        (member_if (codes "nodeName") (option_and_then node_name_if device.now.nodes)
        (member_if (codes "nodeSelector") (option_and_then node_selector_if device.now.nodes)
        (member_if (codes "taints") (taints_if device.now.taints) no_members)))) }
{
    let members = with_taints(alloc, device)?;
    let selector = own_selector(alloc, &device.nodes)?;
    let members = before_if(members, alloc, "nodeSelector", selector)?;
    let node_name = own_node_name(alloc, &device.nodes)?;
    let members = before_if(members, alloc, "nodeName", node_name)?;
    before_text(members, alloc, "name", device.name.as_str())
}

#[tactic(auto, using(crate::proofs::Order::before_member_if), unfolding(crate::specs::Devices::device_json))]
impl Printed for Device {
    ghost json = { device_json };

    fn value(&self, alloc: Global) -> Result<Value, AllocError> {
        let properties = &self.properties;
        let members = name_and_nodes(alloc, self)?;
        let consumes = some_list(alloc, self.consumes.as_slice())?;
        let members = before_if(members, alloc, "consumesCounters", consumes)?;
        let capacity = some_table(alloc, properties.capacity())?;
        let members = before_if(members, alloc, "capacity", capacity)?;
        let attributes = some_table(alloc, properties.attributes())?;
        let members = before_if(members, alloc, "attributes", attributes)?;
        let members = before_if(members, alloc, "allNodes", own_all_nodes(&self.nodes))?;
        Ok(Value::Object(members))
    }
}
