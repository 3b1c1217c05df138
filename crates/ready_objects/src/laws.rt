//! What selectors decide of the classes and claims that have them.

ghost use Rattle.api_claim.specs.declared.types.ResourceClaim.{ResourceClaim};
ghost use Rattle.api_cluster.specs.declared.types.DeviceClass.{DeviceClass};
ghost use Rattle.ready_objects.specs.InOrder.{AreDecisive, claim_listed, class_listed};
ghost use Rattle.ready_objects.specs.Ready.{claim_ready, class_ready};

/// A class or a claim is ready if and only if each of its selectors compiles. Otherwise it has the
/// error of the first that doesn't, in the order in which they are read: a class's as they are listed,
/// a claim's by its requests, and of each request by the subrequests.
pub fn selectors_decide()
    ensures class { (c : DeviceClass) → AreDecisive (class_listed c) c (class_ready c) }
    ensures claim { (c : ResourceClaim) → AreDecisive (claim_listed c) c (claim_ready c) }
{}
