ghost use Rattle.serde_json.specs.View.{view};
ghost use Rattle.object_fields.specs.Fields.{Reads};
ghost use Rattle.api_cluster.specs.Classes as fields;

use crate::laws::limits_are_kept;
use crate::types::DeviceClass;
use dra_values::{Seq, Text};
use object_fields::{FieldError, ObjectMeta, Path, Scope, optional_object, read_selectors};
use serde_json::Value;
use std::alloc::Global;

impl DeviceClass {
    /// Reads a DeviceClass of the API reference of `resource.k8s.io/v1`: its metadata, with the
    /// errors of `ObjectMeta::read`, then `spec` (WrongType) and `spec.selectors` (WrongType, TooMany
    /// above 32), which both may be missing. Of each selector it reads `cel.expression`, which is
    /// any text (Missing, then WrongType, at the selector, at `cel` and at `expression`).
    ///
    /// Fields that this project doesn't know, such as `config`, are not looked at. Memory may be returned
    /// at any point.
    pub fn read(alloc: Global, value: &Value) -> Result<DeviceClass, FieldError>
        ensures { Reads result (fields.class_of (view value.now)) }
    {
        let meta = ObjectMeta::read(alloc, value, Scope::Cluster)?;
        let selectors = read_spec(alloc, value)?;
        limits_are_kept();
        let key = meta.key;
        Ok(DeviceClass {
            name: key.name,
            version: meta.version,
            selectors,
        })
    }
}

fn read_spec(alloc: Global, document: &Value) -> Result<Seq<Text>, FieldError>
    ensures { Reads result (fields.spec_at (view document.now)) }
{
    let top = Path::top();
    match optional_object(alloc, document, &top, "spec")? {
        Some(spec) => {
            let path = top.member("spec");
            read_selectors(alloc, spec, &path)
        }
        None => Ok(Seq::empty(alloc)),
    }
}
