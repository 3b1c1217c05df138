ghost use Rattle.serde_json.specs.View.{view};
ghost use Rattle.object_fields.specs.Fields.{Reads};
ghost use Rattle.api_cluster.specs.Nodes as fields;

use crate::laws::limits_are_kept;
use crate::types::Node;
use object_fields::{FieldError, ObjectMeta, Scope};
use serde_json::Value;
use std::alloc::Global;

impl Node {
    /// Reads a Node of the API reference of `v1`, whose fields are all in its metadata, in the
    /// order of `ObjectMeta::read`, whose errors are the only ones.
    ///
    /// Fields that this project doesn't know are not looked at. Memory may be returned at any point.
    pub fn read(alloc: Global, value: &Value) -> Result<Node, FieldError>
        ensures { Reads result (fields.node_of (view value.now)) }
    {
        let meta = ObjectMeta::read(alloc, value, Scope::Cluster)?;
        limits_are_kept();
        let key = meta.key;
        Ok(Node {
            name: key.name,
            version: meta.version,
            labels: meta.labels,
        })
    }
}
