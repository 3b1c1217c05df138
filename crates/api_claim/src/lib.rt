//! ResourceClaims: the devices that a pod asks for, as fields of `resource.k8s.io/v1`.
#![tactic(auto)]

mod asks;
mod claim;
mod constraints;
mod joins;
mod laws;
mod lists;
mod requests;
mod status;
mod types;

pub use laws::{
    claims_have_their_requests, limits_are_kept, request_names_are_new, subrequest_names_are_new,
};
pub use types::{
    AllocationMode, ClaimStatus, DeviceAsk, DeviceConstraint, DeviceRequest, DeviceSubRequest,
    ExactDeviceRequest, RequestKind, ResourceClaim, StatusResult,
};
