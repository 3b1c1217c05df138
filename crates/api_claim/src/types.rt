ghost use Rattle.std.specs.Prelude.{◌≡◌, IfOk};
ghost use Rattle.api_claim.specs.Limits.{ClaimKept, StatusKept};

use device_taints::Toleration;
use dra_values::{Duplicate, Seq, Text};
use object_fields::{DeviceId, Key, QualName};
use std::alloc::{AllocError, Global};
use std::marker::Model;

/// A ResourceClaim of `resource.k8s.io/v1`.
///
/// Each claim keeps the limits and name rules that are documented at its fields and at those of its
/// requests and constraints; contracts see the record of its fields.
#[derive(Drop)]
pub struct ResourceClaim {
    /// `metadata.namespace` and `metadata.name`.
    pub key: Key,
    /// `metadata.resourceVersion`, from 0 to 2^64-1.
    pub version: Option<u64>,
    /// `spec.devices.requests`, 1 to 32.
    pub requests: Seq<DeviceRequest>,
    /// `spec.devices.constraints`, at most 32.
    pub constraints: Seq<DeviceConstraint>,
}

/// One request of a claim.
#[derive(Drop)]
pub struct DeviceRequest {
    /// A DNS label, and no other request of the claim has it.
    pub name: Text,
    pub kind: RequestKind,
}

/// What a request asks for.
#[derive(Drop)]
pub enum RequestKind {
    /// `exactly`.
    Exactly(ExactDeviceRequest),
    /// `firstAvailable`, 1 to 8 subrequests, of which the first that can be satisfied is taken.
    FirstAvailable(Seq<DeviceSubRequest>),
}

/// `exactly` of a request.
#[derive(Drop)]
pub struct ExactDeviceRequest {
    pub ask: DeviceAsk,
    /// `adminAccess`: the devices may be in use by others.
    pub admin: bool,
}

/// One of the subrequests of `firstAvailable`.
#[derive(Drop)]
pub struct DeviceSubRequest {
    /// A DNS label, and no other subrequest of the request has it.
    pub name: Text,
    pub ask: DeviceAsk,
}

/// The devices that `exactly` or a subrequest asks for.
#[derive(Drop)]
pub struct DeviceAsk {
    /// `deviceClassName`, any text.
    pub class: Text,
    /// The text of `cel.expression` of each of `selectors`, at most 32.
    pub selectors: Seq<Text>,
    /// `allocationMode` with `count`.
    pub mode: AllocationMode,
    /// `tolerations`, at most 16. Each taint of each device that is given must be tolerated by one of
    /// them.
    pub tolerations: Seq<Toleration>,
}

/// How many devices are asked for.
#[derive(Clone, Copy, Debug, PartialEq, Eq)]
pub enum AllocationMode {
    /// This many, from 1 to 2^31-1.
    ExactCount(u64),
    /// All that the class and the selectors admit.
    All,
}

/// One of `spec.devices.constraints`.
#[derive(Drop)]
pub struct DeviceConstraint {
    /// `requests`: names of requests, or `request/subrequest`. Empty means all.
    pub requests: Seq<Text>,
    /// `matchAttribute`: all devices of the requests have the same value of it.
    pub attribute: QualName,
}

/// What is read of `status` of a ResourceClaim.
///
/// Each has 1 to 32 results; contracts see the record of its fields.
#[derive(Drop)]
pub struct ClaimStatus {
    /// `metadata.resourceVersion`, from 0 to 2^64-1.
    pub version: Option<u64>,
    /// The node that `status.allocation.nodeSelector` names.
    pub node: Text,
    /// `status.allocation.devices.results`, 1 to 32.
    pub results: Seq<StatusResult>,
}

/// One device of an allocation.
#[derive(Drop)]
pub struct StatusResult {
    /// The request, or `request/subrequest`, that the device is for.
    pub request: Text,
    pub device: DeviceId,
    /// `adminAccess`.
    pub admin: bool,
}

impl Model for ResourceClaim {
    ghost use Rattle.api_claim.specs.Fields.{ClaimFields};

    ghost Value = { ClaimFields };

    ghost view = { λ c. record { key = c.key; version = c.version; requests = c.requests; constraints = c.constraints } };

    ghost use Rattle.api_claim.specs.Limits.{ClaimKept};

    ghost invariant = { λ c. ClaimKept (record { key = c.key; version = c.version; requests = c.requests; constraints = c.constraints }) };
}

impl Model for ClaimStatus {
    ghost use Rattle.api_claim.specs.Fields.{StatusFields};

    ghost Value = { StatusFields };

    ghost view = { λ s. record { version = s.version; node = s.node; results = s.results } };

    ghost use Rattle.api_claim.specs.Limits.{StatusKept};

    ghost invariant = { λ s. StatusKept (record { version = s.version; node = s.node; results = s.results }) };
}

impl ResourceClaim {
    /// Each claim keeps the limits and name rules of the API reference of `resource.k8s.io/v1`.
    /// Allocates nothing.
    pub fn keeps_limits(&self)
        ensures { ClaimKept self.now }
    {
        let _ = &self.key;
    }

    /// An equal claim.
    pub fn copy(&self, alloc: Global) -> Result<ResourceClaim, AllocError>
        ensures { IfOk result (λ copy. copy ≡ self.now) }
    {
        Ok(ResourceClaim {
            key: self.key.copy(alloc)?,
            version: self.version,
            requests: self.requests.copy(alloc)?,
            constraints: self.constraints.copy(alloc)?,
        })
    }
}

impl Duplicate for DeviceRequest {
    fn duplicate(&self, alloc: Global) -> Result<DeviceRequest, AllocError> {
        Ok(DeviceRequest {
            name: self.name.copy(alloc)?,
            kind: self.kind.duplicate(alloc)?,
        })
    }
}

impl Duplicate for RequestKind {
    fn duplicate(&self, alloc: Global) -> Result<RequestKind, AllocError> {
        match self {
            RequestKind::Exactly(exactly) => Ok(RequestKind::Exactly(exactly.duplicate(alloc)?)),
            RequestKind::FirstAvailable(subrequests) => {
                Ok(RequestKind::FirstAvailable(subrequests.copy(alloc)?))
            }
        }
    }
}

impl Duplicate for ExactDeviceRequest {
    fn duplicate(&self, alloc: Global) -> Result<ExactDeviceRequest, AllocError> {
        Ok(ExactDeviceRequest {
            ask: self.ask.duplicate(alloc)?,
            admin: self.admin,
        })
    }
}

impl Duplicate for DeviceSubRequest {
    fn duplicate(&self, alloc: Global) -> Result<DeviceSubRequest, AllocError> {
        Ok(DeviceSubRequest {
            name: self.name.copy(alloc)?,
            ask: self.ask.duplicate(alloc)?,
        })
    }
}

impl Duplicate for DeviceAsk {
    fn duplicate(&self, alloc: Global) -> Result<DeviceAsk, AllocError> {
        Ok(DeviceAsk {
            class: self.class.copy(alloc)?,
            selectors: self.selectors.copy(alloc)?,
            mode: self.mode,
            tolerations: self.tolerations.copy(alloc)?,
        })
    }
}

impl Duplicate for DeviceConstraint {
    fn duplicate(&self, alloc: Global) -> Result<DeviceConstraint, AllocError> {
        Ok(DeviceConstraint {
            requests: self.requests.copy(alloc)?,
            attribute: self.attribute.copy(alloc)?,
        })
    }
}

impl ClaimStatus {
    /// Each status keeps the limits of the API reference of `resource.k8s.io/v1`. Allocates nothing.
    pub fn keeps_limits(&self)
        ensures { StatusKept self.now }
    {
        let _ = &self.node;
    }

    /// An equal status.
    pub fn copy(&self, alloc: Global) -> Result<ClaimStatus, AllocError>
        ensures { IfOk result (λ copy. copy ≡ self.now) }
    {
        Ok(ClaimStatus {
            version: self.version,
            node: self.node.copy(alloc)?,
            results: self.results.copy(alloc)?,
        })
    }
}

impl Duplicate for StatusResult {
    fn duplicate(&self, alloc: Global) -> Result<StatusResult, AllocError> {
        Ok(StatusResult {
            request: self.request.copy(alloc)?,
            device: self.device.copy(alloc)?,
            admin: self.admin,
        })
    }
}
