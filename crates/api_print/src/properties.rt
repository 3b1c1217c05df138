ghost use Rattle.std.specs.Prelude.{◌≡◌, IfOk};
ghost use Rattle.serde_json.specs.View.{view};
ghost use Rattle.api_print.specs.Devices.{amount_json, attribute_json, full_name};

use crate::fields::only;
use crate::listing::{Named, Printed};
use api_slice::Attribute;
use dra_values::Text;
use object_fields::QualName;
use quantity::Quantity;
use serde_json::Value;
use std::alloc::{AllocError, Global};

/// The full name, `domain/id`.
impl Named for QualName {
    ghost name = { full_name };

    fn name(&self, alloc: Global) -> Result<Text, AllocError> {
        let text = format!(in alloc; "{}/{}", self.domain, self.id)?;
        Text::new(alloc, text)
    }
}

/// The quantity as it prints, at `value`.
impl Printed for Quantity {
    ghost json = { amount_json };

    fn value(&self, alloc: Global) -> Result<Value, AllocError> {
        let text = format!(in alloc; "{self}")?;
        only(alloc, "value", Value::String(text))
    }
}

/// The value at the member of its kind.
impl Printed for Attribute {
    ghost json = { attribute_json };

    fn value(&self, alloc: Global) -> Result<Value, AllocError> {
        match self {
            Attribute::Int(number) => only(alloc, "int", Value::from(*number)),
            Attribute::Bool(truth) => only(alloc, "bool", Value::Bool(*truth)),
            Attribute::Text(text) => only(
                alloc,
                "string",
                Value::try_from_str(alloc, text.as_str())?,
            ),
            Attribute::Version(text) => {
                only(alloc, "version", Value::try_from_str(alloc, text.as_str())?)
            }
        }
    }
}
