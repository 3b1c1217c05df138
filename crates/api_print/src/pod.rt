ghost use Rattle.std.specs.Prelude.{◌≡◌, IfOk};
ghost use Rattle.serde_json.specs.View.{view};
ghost use Rattle.api_print.specs.Pods.{pod_claim_json, pod_json, pod_spec_json};

use crate::fields::{before_text, none, only_if};
use crate::listing::{Printed, some_list};
use crate::metadata::{key_metadata, object};
use api_cluster::{Pod, PodResourceClaim};
use dra_values::Shared;
use pool_view::Stored;
use serde_json::Value;
use std::alloc::{AllocError, Global};

impl Printed for PodResourceClaim {
    ghost json = { pod_claim_json };

    fn value(&self, alloc: Global) -> Result<Value, AllocError> {
        let members = before_text(none(alloc), alloc, "resourceClaimName", self.claim.as_str())?;
        let members = before_text(members, alloc, "name", self.name.as_str())?;
        Ok(Value::Object(members))
    }
}

fn pod_spec(alloc: Global, pod: &Pod) -> Result<Value, AllocError>
    ensures { IfOk result (λ v. view v ≡ pod_spec_json pod.now) }
{
    let claims = some_list(alloc, pod.claims.as_slice())?;
    only_if(alloc, "resourceClaims", claims)
}

/// A pod: its metadata and its claims. `AllocError` only if memory runs out.
#[tactic(auto, unfolding(crate::specs::Pods::pod_json))]
pub fn pod_value(alloc: Global, stored: &Stored<Shared<Pod>>) -> Result<Value, AllocError>
    ensures { IfOk result (λ v. view v ≡ pod_json stored.now) }
{
    let pod = stored.object.value();
    let metadata = key_metadata(alloc, &pod.key, stored.version, stored.uid)?;
    let spec = pod_spec(alloc, pod)?;
    object(alloc, "v1", "Pod", metadata, Some(spec), None)
}
