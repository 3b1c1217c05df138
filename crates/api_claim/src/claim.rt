ghost use Rattle.std.specs.Prelude.{◌≡◌, ◌++◌, [], ◌∷◌, codes};
ghost use Rattle.serde_json.specs.View.{view};
ghost use Rattle.object_fields.specs.Fields.{Reads, object_at, ◌>>=◌ as ◌and_then◌};
ghost use Rattle.object_fields.specs.declared.path.Step.TheVariants.{Member};
ghost use Rattle.api_claim.specs.Claims as fields;

use crate::constraints::read_constraints;
use crate::laws::limits_are_kept;
use crate::requests::{all_names, read_requests};
use crate::types::{DeviceConstraint, DeviceRequest, ResourceClaim};
use dra_values::Seq;
use object_fields::{FieldError, ObjectMeta, Path, Scope, object};
use serde_json::Value;
use std::alloc::Global;

/// What is read of `spec.devices` of a claim.
#[derive(Drop)]
struct Devices {
    requests: Seq<DeviceRequest>,
    constraints: Seq<DeviceConstraint>,
}

impl ResourceClaim {
    /// Reads a ResourceClaim of the API reference of `resource.k8s.io/v1`. Its fields, in the order
    /// in which they are looked at; if there are several requests, each of the three parts about
    /// them is read over all of them before the next:
    ///
    /// - `metadata`, with the errors of `ObjectMeta::read`; labels are read and not kept
    /// - `spec` and `spec.devices` (Missing, WrongType)
    /// - `spec.devices.requests`, 1 to 32 (Missing, WrongType, TooMany): the `name` of each, a DNS
    ///   label (Missing, WrongType, TooLong, BadName, Doubled), and that it has exactly one of
    ///   `exactly` and `firstAvailable` (NotOne at the request); an empty list of `firstAvailable`
    ///   counts as not there
    /// - of `exactly` and of each subrequest: `deviceClassName`, any text (Missing, WrongType);
    ///   `selectors`, at most 32 of `cel.expression`, any text; `allocationMode`, which is
    ///   `ExactCount` or `All` (NotSupported); `count`, 0 to 2^31-1, where 0 counts as missing and
    ///   with `All` nothing else is taken (WrongType, OutOfRange); of `exactly` alone
    ///   `adminAccess`; `tolerations`, with the errors of `read_tolerations`; and `capacity`, which
    ///   must not be set (NotSupported, this project's own)
    /// - of `firstAvailable` its length, at most 8 (TooMany), and the `name` of each subrequest, a
    ///   DNS label (Doubled within its request)
    /// - `spec.devices.constraints`, at most 32: of each `distinctAttribute`, which must not be set
    ///   (NotSupported, this project's own), `requests`, names of requests or
    ///   `request/subrequest` (Unknown), and `matchAttribute`, a name with its domain (TooLong,
    ///   BadName)
    ///
    /// `status`, and fields that this project doesn't know, such as `config`, are not looked at. Memory
    /// may be returned at any point.
    pub fn read(alloc: Global, value: &Value) -> Result<ResourceClaim, FieldError>
        ensures { Reads result (fields.claim_of (view value.now)) }
    {
        let meta = ObjectMeta::read(alloc, value, Scope::Namespaced)?;
        let devices = read_devices(alloc, value)?;
        limits_are_kept();
        Ok(ResourceClaim {
            key: meta.key,
            version: meta.version,
            requests: devices.requests,
            constraints: devices.constraints,
        })
    }
}

fn read_devices(alloc: Global, document: &Value) -> Result<Devices, FieldError>
    ensures { Reads result (fields.devices_at (view document.now)) }
{
    let top = Path::top();
    let spec = object(alloc, document, &top, "spec")?;
    let path = top.member("spec");
    read_spec(alloc, spec, &path)
}

fn read_spec(alloc: Global, spec: &Value, path: &Path) -> Result<Devices, FieldError>
    ensures { Reads result (object_at path.now (codes "devices") (view spec.now)
        and_then fields.devices_in (path.now ++ Member (codes "devices") ∷ [])) }
{
    let devices = object(alloc, spec, path, "devices")?;
    let path = path.member("devices");
    read_lists(alloc, devices, &path)
}

fn read_lists(alloc: Global, devices: &Value, path: &Path) -> Result<Devices, FieldError>
    ensures { Reads result (fields.devices_in path.now (view devices.now)) }
{
    let requests = read_requests(alloc, devices, path)?;
    with_constraints(alloc, devices, path, requests)
}

fn with_constraints(
    alloc: Global,
    devices: &Value,
    path: &Path,
    requests: Seq<DeviceRequest>,
) -> Result<Devices, FieldError>
    ensures { Reads result (fields.devices_with requests path.now (view devices.now)) }
{
    let constraints = read_known_constraints(alloc, devices, path, requests.as_slice())?;
    Ok(Devices {
        requests,
        constraints,
    })
}

/// The constraints over these requests.
fn read_known_constraints(
    alloc: Global,
    devices: &Value,
    path: &Path,
    requests: &[DeviceRequest],
) -> Result<Seq<DeviceConstraint>, FieldError>
    ensures { Reads result (fields.constraints_over requests.now path.now (view devices.now)) }
{
    let names = all_names(alloc, requests)?;
    read_constraints(alloc, devices, path, names.as_slice())
}
