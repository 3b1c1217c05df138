ghost use Rattle.std.specs.Prelude.{◌≡◌, IfOk};
ghost use Rattle.serde_json.specs.View.{view};
ghost use Rattle.api_print.specs.Nodes.{node_json};

use crate::listing::some_table;
use crate::metadata::{metadata, object};
use api_cluster::Node;
use dra_values::Shared;
use pool_view::Stored;
use serde_json::Value;
use std::alloc::{AllocError, Global};

/// A node: its metadata with its labels, and no spec. `AllocError` only if memory runs out.
#[tactic(auto, unfolding(crate::specs::Nodes::node_json))]
pub fn node_value(alloc: Global, stored: &Stored<Shared<Node>>) -> Result<Value, AllocError>
    ensures { IfOk result (λ v. view v ≡ node_json stored.now) }
{
    let node = stored.object.value();
    let labels = some_table(alloc, &node.labels)?;
    let metadata = metadata(
        alloc,
        labels,
        node.name.as_str(),
        stored.version,
        stored.uid,
    )?;
    object(alloc, "v1", "Node", metadata, None, None)
}
