ghost use Rattle.std.specs.Prelude.{◌≡◌, IfOk};

use crate::passed::PassedNodes;
use dra_values::{Duplicate, Seq, Text};
use object_fields::{DeviceId, Key};
use std::alloc::{AllocError, Global};

/// A device that was picked for a request of a claim.
#[derive(Drop)]
pub struct DeviceResult {
    /// The request's name.
    pub name: Text,
    pub device: DeviceId,
    /// Whether it was picked with admin access, which neither excludes other claims nor is excluded.
    pub admin: bool,
}

/// What is to be granted to one claim.
#[derive(Drop)]
pub struct Grant {
    pub claim: Key,
    /// In the order of the claim's requests.
    pub results: Seq<DeviceResult>,
}

/// A selector that is neither true nor false of a device of a node.
#[derive(Drop)]
pub struct SelectorFault {
    pub claim: Key,
    /// The name of the result that is expected for the request.
    pub request: Text,
    /// The selector's index among those of the class and then of the request, from 0.
    pub selector: usize,
    pub device: DeviceId,
    pub cause: pool_view::Cause,
}

/// Why a node wasn't taken.
#[derive(Drop)]
pub enum Cause {
    /// It has no allocation for the pod.
    Unsat,
    /// The search of the node ended at a selector's error.
    Fault(SelectorFault),
    /// The search of the node made so many steps, which were all that it might make, without an end.
    Budget(u64),
    /// This claim of the pod has its grant on another node.
    Other(Key),
}

/// A node that wasn't taken: an item of the list as which contracts see `PassedNodes`.
#[derive(Drop)]
pub struct Passed {
    pub node: Text,
    pub cause: Cause,
}

/// What a plan knew of a claim.
#[derive(Drop)]
pub struct KnownClaim {
    pub claim: Key,
    pub uid: u64,
    /// The node of the grant that the claim had, if it had one.
    pub node: Option<Text>,
}

/// What a plan knew of the pod and its claims.
#[derive(Drop)]
pub struct Known {
    /// The pod's uid.
    pub pod: u64,
    pub claims: Seq<KnownClaim>,
}

/// What a search found for a pod at an index of the history.
#[derive(Drop)]
pub struct Plan {
    /// The number of entries that were in the history.
    pub at: u64,
    pub node: Text,
    /// The nodes before this one in the order of names.
    pub passed: PassedNodes,
    /// One for each claim of the pod that had no grant.
    pub grants: Seq<Grant>,
    /// The claims of the pod that had a grant.
    pub joins: Seq<Key>,
    pub known: Known,
}

/// That a pod can't be scheduled at an index of the history.
#[derive(Drop)]
pub struct Verdict {
    /// The number of entries that were in the history.
    pub at: u64,
    pub reason: Reason,
}

/// Why a pod can't be scheduled.
#[derive(Drop)]
pub enum Reason {
    /// This claim of the pod isn't there.
    Missing(Key),
    /// This claim of the pod has 256 users, and the pod isn't one of them.
    Users(Key),
    /// No node can be taken: each node with its cause, in the order of names.
    Nodes(PassedNodes),
}

impl Duplicate for DeviceResult {
    fn duplicate(&self, alloc: Global) -> Result<DeviceResult, AllocError> {
        Ok(DeviceResult {
            name: self.name.copy(alloc)?,
            device: self.device.copy(alloc)?,
            admin: self.admin,
        })
    }
}

impl Duplicate for Grant {
    fn duplicate(&self, alloc: Global) -> Result<Grant, AllocError> {
        Ok(Grant {
            claim: self.claim.copy(alloc)?,
            results: self.results.copy(alloc)?,
        })
    }
}

impl SelectorFault {
    /// An equal error.
    pub fn copy(&self, alloc: Global) -> Result<SelectorFault, AllocError>
        ensures { IfOk result (λ copy. copy ≡ self.now) }
    {
        Ok(SelectorFault {
            claim: self.claim.copy(alloc)?,
            request: self.request.copy(alloc)?,
            selector: self.selector,
            device: self.device.copy(alloc)?,
            cause: self.cause,
        })
    }
}

impl Cause {
    /// An equal cause.
    pub fn copy(&self, alloc: Global) -> Result<Cause, AllocError>
        ensures { IfOk result (λ copy. copy ≡ self.now) }
    {
        match self {
            Cause::Unsat => Ok(Cause::Unsat),
            Cause::Fault(fault) => Ok(Cause::Fault(fault.copy(alloc)?)),
            Cause::Budget(steps) => Ok(Cause::Budget(*steps)),
            Cause::Other(claim) => Ok(Cause::Other(claim.copy(alloc)?)),
        }
    }
}

impl Duplicate for KnownClaim {
    fn duplicate(&self, alloc: Global) -> Result<KnownClaim, AllocError> {
        let node = match &self.node {
            None => None,
            Some(node) => Some(node.copy(alloc)?),
        };
        Ok(KnownClaim {
            claim: self.claim.copy(alloc)?,
            uid: self.uid,
            node,
        })
    }
}

impl Plan {
    /// An equal plan.
    pub fn copy(&self, alloc: Global) -> Result<Plan, AllocError>
        ensures { IfOk result (λ copy. copy ≡ self.now) }
    {
        let (node, passed) = copy_place(alloc, self)?;
        let (grants, joins, known) = copy_claims(alloc, self)?;
        Ok(Plan {
            at: self.at,
            node,
            passed,
            grants,
            joins,
            known,
        })
    }
}

/// Copies of the nodes of a plan.
fn copy_place(alloc: Global, plan: &Plan) -> Result<(Text, PassedNodes), AllocError>
    ensures { IfOk result (λ c. (c.0 ≡ plan.now.node) × (c.1 ≡ plan.now.passed)) }
{
    let node = plan.node.copy(alloc)?;
    let passed = plan.passed.copy(alloc)?;
    Ok((node, passed))
}

/// Copies of what a plan says of claims.
fn copy_claims(alloc: Global, plan: &Plan) -> Result<(Seq<Grant>, Seq<Key>, Known), AllocError>
    ensures { IfOk result (λ c. (c.0 ≡ plan.now.grants) × (c.1 ≡ plan.now.joins) × (c.2 ≡ plan.now.known)) }
{
    let joins = plan.joins.copy(alloc)?;
    let grants = plan.grants.copy(alloc)?;
    let claims = plan.known.claims.copy(alloc)?;
    let pod = plan.known.pod;
    Ok((grants, joins, Known { pod, claims }))
}

impl Verdict {
    /// An equal verdict.
    pub fn copy(&self, alloc: Global) -> Result<Verdict, AllocError>
        ensures { IfOk result (λ copy. copy ≡ self.now) }
    {
        Ok(Verdict {
            at: self.at,
            reason: self.reason.copy(alloc)?,
        })
    }
}

impl Reason {
    /// An equal reason.
    pub fn copy(&self, alloc: Global) -> Result<Reason, AllocError>
        ensures { IfOk result (λ copy. copy ≡ self.now) }
    {
        match self {
            Reason::Missing(claim) => Ok(Reason::Missing(claim.copy(alloc)?)),
            Reason::Users(claim) => Ok(Reason::Users(claim.copy(alloc)?)),
            Reason::Nodes(nodes) => Ok(Reason::Nodes(nodes.copy(alloc)?)),
        }
    }
}
