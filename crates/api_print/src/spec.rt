ghost use Rattle.std.specs.Prelude.{◌≡◌, IfOk, string_bytes};
ghost use Rattle.serde_json.specs.View.{view};
ghost use Rattle.api_print.specs.Claims.{claim_devices_json, claim_spec_json, constraint_json};
ghost use Rattle.api_print.specs.Devices.{full_name};

use crate::fields::{before, before_if, before_text, none, only};
use crate::listing::{Named, Printed, list, some_list};
use api_claim::{DeviceConstraint, ResourceClaim};
use serde_json::Value;
use std::alloc::{AllocError, Global};

#[tactic(auto, using(crate::proofs::Order::before_member_if))]
impl Printed for DeviceConstraint {
    ghost json = { constraint_json };

    fn value(&self, alloc: Global) -> Result<Value, AllocError> {
        let requests = some_list(alloc, self.requests.as_slice())?;
        let members = before_if(none(alloc), alloc, "requests", requests)?;
        let attribute = self.attribute.name(alloc)?;
        let members = before_text(members, alloc, "matchAttribute", attribute.as_str())?;
        Ok(Value::Object(members))
    }
}

fn claim_devices(alloc: Global, claim: &ResourceClaim) -> Result<Value, AllocError>
    ensures { IfOk result (λ v. view v ≡ claim_devices_json claim.now) }
{
    let requests = list(alloc, claim.requests.as_slice())?;
    let members = before(none(alloc), alloc, "requests", requests)?;
    let constraints = some_list(alloc, claim.constraints.as_slice())?;
    let members = before_if(members, alloc, "constraints", constraints)?;
    Ok(Value::Object(members))
}

/// The spec of a claim. `AllocError` only if memory runs out.
#[tactic(auto, unfolding(crate::specs::Claims::claim_spec_json))]
pub fn claim_spec(alloc: Global, claim: &ResourceClaim) -> Result<Value, AllocError>
    ensures { IfOk result (λ v. view v ≡ claim_spec_json claim.now) }
{
    let devices = claim_devices(alloc, claim)?;
    only(alloc, "devices", devices)
}
