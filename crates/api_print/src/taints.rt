ghost use Rattle.std.specs.Prelude.{◌≡◌, option_map, IfOk};
ghost use Rattle.serde_json.specs.View.{view};
ghost use Rattle.api_print.specs.Taints.{effect_if, effect_text, operator_name, taint_json, toleration_json, value_if};

use crate::fields::{before_if, before_text, none};
use crate::listing::{Printed, some_text};
use device_taints::{Taint, TaintEffect, Toleration, TolerationOperator};
use serde_json::Value;
use std::alloc::{AllocError, Global};

fn effect_text(effect: TaintEffect) -> &'static str
    ensures { result.now ≡ effect_text effect }
{
    match effect {
        TaintEffect::NoSchedule => "NoSchedule",
        TaintEffect::NoExecute => "NoExecute",
    }
}

#[tactic(auto, using(crate::proofs::Order::before_member_if))]
impl Printed for Taint {
    ghost json = { taint_json };

    fn value(&self, alloc: Global) -> Result<Value, AllocError> {
        let value = some_text(alloc, &self.value)?;
        let members = before_if(none(alloc), alloc, "value", value)?;
        let members = before_text(members, alloc, "key", self.key.as_str())?;
        let members = before_text(members, alloc, "effect", effect_text(self.effect))?;
        Ok(Value::Object(members))
    }
}

fn some_effect(alloc: Global, effect: Option<TaintEffect>) -> Result<Option<Value>, AllocError>
    ensures { IfOk result (λ o. option_map view o ≡ effect_if effect) }
{
    match effect {
        Some(effect) => Ok(Some(Value::try_from_str(alloc, effect_text(effect))?)),
        None => Ok(None),
    }
}

fn operator_name(operator: &TolerationOperator) -> &'static str
    ensures { result.now ≡ operator_name operator.now }
{
    match operator {
        TolerationOperator::Equal(_) => "Equal",
        TolerationOperator::Exists => "Exists",
    }
}

/// The value of Equal, if it isn't empty.
fn some_value(alloc: Global, operator: &TolerationOperator) -> Result<Option<Value>, AllocError>
    ensures { IfOk result (λ o. option_map view o ≡ value_if operator.now) }
{
    match operator {
        TolerationOperator::Equal(value) => some_text(alloc, value),
        TolerationOperator::Exists => Ok(None),
    }
}

#[tactic(auto, using(crate::proofs::Order::before_member_if))]
impl Printed for Toleration {
    ghost json = { toleration_json };

    fn value(&self, alloc: Global) -> Result<Value, AllocError> {
        let value = some_value(alloc, &self.operator)?;
        let members = before_if(none(alloc), alloc, "value", value)?;
        let members = before_text(members, alloc, "operator", operator_name(&self.operator))?;
        let key = some_text(alloc, &self.key)?;
        let members = before_if(members, alloc, "key", key)?;
        let effect = some_effect(alloc, self.effect)?;
        let members = before_if(members, alloc, "effect", effect)?;
        Ok(Value::Object(members))
    }
}
