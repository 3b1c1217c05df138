ghost use Rattle.std.specs.Prelude.{◌≡◌, option_map, IfOk};
ghost use Rattle.serde_json.specs.View.{view};
ghost use Rattle.api_print.specs.Classes.{class_json, class_spec_json, selector_json, selectors_if};
ghost use Rattle.api_print.specs.Shapes.{list_json};

use crate::fields::{only, only_if};
use crate::metadata::{metadata, object};
use api_cluster::DeviceClass;
use dra_values::{Shared, Text};
use pool_view::Stored;
use ready_objects::ReadyClass;
use serde_json::Value;
use std::alloc::{AllocError, Global};

/// A selector of devices, by its expression.
fn selector(alloc: Global, expression: &Text) -> Result<Value, AllocError>
    ensures { IfOk result (λ v. view v ≡ selector_json expression.now) }
{
    let text = Value::try_from_str(alloc, expression.as_str())?;
    let cel = only(alloc, "expression", text)?;
    only(alloc, "cel", cel)
}

/// A list of selectors of devices, by their expressions.
fn selector_list(alloc: Global, expressions: &[Text]) -> Result<Value, AllocError>
    ensures { IfOk result (λ v. view v ≡ list_json selector_json expressions.now) }
{
    let mut list = Vec::new(alloc);
    for expression in expressions {
        list.push(selector(alloc, expression)?)?;
    }
    Ok(Value::Array(list))
}

/// The same, or `None` if there are none. `AllocError` only if memory runs out.
pub fn some_selectors(alloc: Global, expressions: &[Text]) -> Result<Option<Value>, AllocError>
    ensures { IfOk result (λ o. option_map view o ≡ selectors_if expressions.now) }
{
    if expressions.is_empty() {
        return Ok(None);
    }
    let list = selector_list(alloc, expressions)?;
    Ok(Some(list))
}

/// The spec of a class.
fn class_spec(alloc: Global, class: &DeviceClass) -> Result<Value, AllocError>
    ensures { IfOk result (λ v. view v ≡ class_spec_json class.now) }
{
    let selectors = some_selectors(alloc, class.selectors.as_slice())?;
    only_if(alloc, "selectors", selectors)
}

/// A class: its metadata and its spec. `AllocError` only if memory runs out.
#[tactic(auto, unfolding(crate::specs::Classes::class_json))]
pub fn class_value(alloc: Global, stored: &Stored<Shared<ReadyClass>>) -> Result<Value, AllocError>
    ensures { IfOk result (λ v. view v ≡ class_json stored.now) }
{
    let class = stored.object.class();
    let metadata = metadata(alloc, None, class.name.as_str(), stored.version, stored.uid)?;
    let spec = class_spec(alloc, class)?;
    object(
        alloc,
        "resource.k8s.io/v1",
        "DeviceClass",
        metadata,
        Some(spec),
        None,
    )
}
