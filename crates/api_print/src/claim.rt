ghost use Rattle.std.specs.Prelude.{◌≡◌, IfOk};
ghost use Rattle.serde_json.specs.View.{view};
ghost use Rattle.api_print.specs.Status.{claim_json};

use crate::metadata::{key_metadata, object};
use crate::spec::claim_spec;
use crate::status::some_status;
use cluster::{ClaimState, PodState};
use object_fields::Key;
use serde_json::Value;
use shared_map::SharedMap;
use std::alloc::{AllocError, Global};

/// A claim: its metadata, its spec, and a status if its grant is published, with the written users
/// among these pods. `AllocError` only if memory runs out.
#[tactic(auto, unfolding(crate::specs::Status::claim_json))]
pub fn claim_value(
    alloc: Global,
    pods: &SharedMap<Key, PodState>,
    state: &ClaimState,
) -> Result<Value, AllocError>
    ensures { IfOk result (λ v. view v ≡ claim_json pods.now state.now) }
{
    let stored = &state.claim;
    let claim = stored.object.claim();
    let metadata = key_metadata(alloc, &claim.key, stored.version, stored.uid)?;
    let spec = claim_spec(alloc, claim)?;
    let status = some_status(alloc, pods, &state.grant, state.users.value())?;
    object(
        alloc,
        "resource.k8s.io/v1",
        "ResourceClaim",
        metadata,
        Some(spec),
        status,
    )
}
