ghost use Rattle.std.specs.Prelude.{◌≡◌, IfOk};
ghost use Rattle.serde_json.specs.View.{view};
ghost use Rattle.api_print.specs.Devices.{consumption_json, counter_set_json};

use crate::fields::{before, before_text, none};
use crate::listing::{Printed, table};
use api_slice::{CounterConsumption, CounterSet};
use serde_json::Value;
use std::alloc::{AllocError, Global};

impl Printed for CounterSet {
    ghost json = { counter_set_json };

    fn value(&self, alloc: Global) -> Result<Value, AllocError> {
        let members = before_text(none(alloc), alloc, "name", self.name.as_str())?;
        let counters = table(alloc, &self.counters)?;
        let members = before(members, alloc, "counters", counters)?;
        Ok(Value::Object(members))
    }
}

impl Printed for CounterConsumption {
    ghost json = { consumption_json };

    fn value(&self, alloc: Global) -> Result<Value, AllocError> {
        let amounts = table(alloc, &self.amounts)?;
        let members = before(none(alloc), alloc, "counters", amounts)?;
        let members = before_text(members, alloc, "counterSet", self.set.as_str())?;
        Ok(Value::Object(members))
    }
}
