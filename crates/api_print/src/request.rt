ghost use Rattle.std.specs.Prelude.{◌≡◌, option_map, IfOk, codes};
ghost use Rattle.serde_json.specs.Data.{member, no_members, string};
ghost use Rattle.serde_json.specs.View.{members_view, view};
ghost use Rattle.api_print.specs.Classes.{selectors_if};
ghost use Rattle.api_print.specs.Claims.{count_if, exactly_json, kind_before, mode_text, request_json, subrequest_json};
ghost use Rattle.api_print.specs.Shapes.{member_if};
ghost use Rattle.api_print.specs.Taints.{tolerations_if};

use crate::class::some_selectors;
use crate::fields::{Members, before, before_if, before_text, none};
use crate::listing::{Printed, flag, list, some_list};
use api_claim::{
    AllocationMode, DeviceAsk, DeviceRequest, DeviceSubRequest, ExactDeviceRequest, RequestKind,
};
use serde_json::Value;
use std::alloc::{AllocError, Global};

fn mode_text(mode: AllocationMode) -> &'static str
    ensures { result.now ≡ mode_text mode }
{
    match mode {
        AllocationMode::ExactCount(_) => "ExactCount",
        AllocationMode::All => "All",
    }
}

fn count(mode: AllocationMode) -> Option<Value>
    ensures { option_map view result ≡ count_if mode }
{
    match mode {
        AllocationMode::ExactCount(count) => Some(Value::from(count)),
        AllocationMode::All => None,
    }
}

/// `selectors` and `tolerations`, each if there are any.
#[tactic(auto, using(crate::proofs::Order::before_member_if))]
fn with_lists(alloc: Global, ask: &DeviceAsk) -> Result<Members, AllocError>
    ensures { IfOk result (λ m. members_view m.entries ≡ member_if (codes "selectors") (selectors_if ask.now.selectors)
        (member_if (codes "tolerations") (tolerations_if ask.now.tolerations) no_members)) }
{
    let tolerations = some_list(alloc, ask.tolerations.as_slice())?;
    let members = before_if(none(alloc), alloc, "tolerations", tolerations)?;
    let selectors = some_selectors(alloc, ask.selectors.as_slice())?;
    before_if(members, alloc, "selectors", selectors)
}

#[tactic(auto, using(crate::proofs::Order::before_member_if))]
fn exactly(alloc: Global, exactly: &ExactDeviceRequest) -> Result<Value, AllocError>
    ensures { IfOk result (λ v. view v ≡ exactly_json exactly.now) }
{
    let ask = &exactly.ask;
    let members = with_lists(alloc, ask)?;
    let members = before_text(members, alloc, "deviceClassName", ask.class.as_str())?;
    let members = before_if(members, alloc, "count", count(ask.mode))?;
    let members = before_text(members, alloc, "allocationMode", mode_text(ask.mode))?;
    let members = before_if(members, alloc, "adminAccess", flag(exactly.admin))?;
    Ok(Value::Object(members))
}

#[tactic(auto, using(crate::proofs::Order::before_member_if))]
impl Printed for DeviceSubRequest {
    ghost json = { subrequest_json };

    fn value(&self, alloc: Global) -> Result<Value, AllocError> {
        let ask = &self.ask;
        let members = with_lists(alloc, ask)?;
        let members = before_text(members, alloc, "name", self.name.as_str())?;
        let members = before_text(members, alloc, "deviceClassName", ask.class.as_str())?;
        let members = before_if(members, alloc, "count", count(ask.mode))?;
        let members = before_text(members, alloc, "allocationMode", mode_text(ask.mode))?;
        Ok(Value::Object(members))
    }
}

/// The member of the request's kind before its name.
fn with_kind(alloc: Global, kind: &RequestKind, name: Value) -> Result<Members, AllocError>
    ensures { IfOk result (λ m. members_view m.entries ≡ kind_before kind.now (member (codes "name") (view name) no_members)) }
{
    let members = before(none(alloc), alloc, "name", name)?;
    match kind {
        RequestKind::Exactly(request) => {
            let request = exactly(alloc, request)?;
            before(members, alloc, "exactly", request)
        }
        RequestKind::FirstAvailable(subrequests) => {
            let subrequests = list(alloc, subrequests.as_slice())?;
            before(members, alloc, "firstAvailable", subrequests)
        }
    }
}

#[tactic(auto, unfolding(crate::specs::Claims::request_json))]
impl Printed for DeviceRequest {
    ghost json = { request_json };

    fn value(&self, alloc: Global) -> Result<Value, AllocError> {
        let name = Value::try_from_str(alloc, self.name.as_str())?;
        let members = with_kind(alloc, &self.kind, name)?;
        Ok(Value::Object(members))
    }
}
