ghost use Rattle.std.specs.Prelude.{◌≡◌, ◌↔◌, Bool, true};
ghost use Rattle.api_claim.specs.declared.types.ResourceClaim.{ResourceClaim};
ghost use Rattle.api_cluster.specs.declared.types.Pod.{Pod};
ghost use Rattle.std.specs.Cmp.Lexicographic.{pointwise};
ghost use Rattle.cluster.specs.Same.{same_ask, same_constraint, same_effects, same_exactly, same_kind, same_mode, same_operator, same_pod_claim, same_pod_claims, same_request, same_spec, same_subrequest, same_toleration, same_truth};

use api_claim::{
    AllocationMode, DeviceAsk, DeviceConstraint, DeviceRequest, DeviceSubRequest,
    ExactDeviceRequest, RequestKind, ResourceClaim,
};
use api_cluster::{Pod, PodResourceClaim};
use device_taints::{TaintEffect, Toleration, TolerationOperator};

/// Values of which it can be asked whether they are the same.
trait Same: Sized {
    ghost same: { Self → Self → Bool };

    fn is_same(&self, other: &Self) -> bool
        ensures { result ≡ same self.now other.now };
}

/// Whether two lists have the same items in order.
fn are_same<T: Same>(first: &[T], second: &[T]) -> bool
    ensures { result ≡ pointwise T.same first.now second.now }
{
    match first.split_first() {
        None => second.is_empty(),
        Some((item, items)) => match second.split_first() {
            None => false,
            Some((other, others)) => item.is_same(other) && are_same(items, others),
        },
    }
}

impl Same for DeviceSubRequest {
    ghost same = { same_subrequest };

    fn is_same(&self, other: &DeviceSubRequest) -> bool {
        self.name == other.name && is_same_ask(&self.ask, &other.ask)
    }
}

impl Same for DeviceRequest {
    ghost same = { same_request };

    fn is_same(&self, other: &DeviceRequest) -> bool {
        self.name == other.name && is_same_kind(&self.kind, &other.kind)
    }
}

impl Same for DeviceConstraint {
    ghost same = { same_constraint };

    fn is_same(&self, other: &DeviceConstraint) -> bool {
        self.requests == other.requests
            && self.attribute.domain == other.attribute.domain
            && self.attribute.id == other.attribute.id
    }
}

impl Same for Toleration {
    ghost same = { same_toleration };

    fn is_same(&self, other: &Toleration) -> bool {
        self.key == other.key
            && is_same_operator(&self.operator, &other.operator)
            && is_same_effect(self.effect, other.effect)
    }
}

impl Same for PodResourceClaim {
    ghost same = { same_pod_claim };

    fn is_same(&self, other: &PodResourceClaim) -> bool {
        self.name == other.name && self.claim == other.claim
    }
}

/// Whether two claims have the same spec. Allocates nothing.
#[tactic(auto, unfolding(crate::specs::Same::same_spec))]
pub fn same_spec(first: &ResourceClaim, second: &ResourceClaim) -> bool
    ensures { result ≡ same_spec first.now second.now }
{
    are_same(first.requests.as_slice(), second.requests.as_slice())
        && are_same(first.constraints.as_slice(), second.constraints.as_slice())
}

/// Whether two pods name the same claims, in order. Allocates nothing.
#[tactic(auto, unfolding(crate::specs::Same::same_pod_claims))]
pub fn same_pod_claims(first: &Pod, second: &Pod) -> bool
    ensures { result ≡ same_pod_claims first.now second.now }
{
    are_same(first.claims.as_slice(), second.claims.as_slice())
}

fn is_same_kind(first: &RequestKind, second: &RequestKind) -> bool
    ensures { result ≡ same_kind first.now second.now }
{
    match first {
        RequestKind::Exactly(exactly) => match second {
            RequestKind::Exactly(other) => is_same_exactly(exactly, other),
            RequestKind::FirstAvailable(_) => false,
        },
        RequestKind::FirstAvailable(requests) => match second {
            RequestKind::Exactly(_) => false,
            RequestKind::FirstAvailable(others) => {
                are_same(requests.as_slice(), others.as_slice())
            }
        },
    }
}

fn is_same_exactly(first: &ExactDeviceRequest, second: &ExactDeviceRequest) -> bool
    ensures { result ≡ same_exactly first.now second.now }
{
    is_same_ask(&first.ask, &second.ask) && is_same_truth(first.admin, second.admin)
}

fn is_same_truth(first: bool, second: bool) -> bool
    ensures { result ≡ same_truth first second }
{
    if first { second } else { !second }
}

fn is_same_ask(first: &DeviceAsk, second: &DeviceAsk) -> bool
    ensures { result ≡ same_ask first.now second.now }
{
    first.class == second.class
        && first.selectors == second.selectors
        && is_same_mode(first.mode, second.mode)
        && are_same(first.tolerations.as_slice(), second.tolerations.as_slice())
}

fn is_same_operator(first: &TolerationOperator, second: &TolerationOperator) -> bool
    ensures { result ≡ same_operator first.now second.now }
{
    match first {
        TolerationOperator::Equal(value) => match second {
            TolerationOperator::Equal(other) => value == other,
            TolerationOperator::Exists => false,
        },
        TolerationOperator::Exists => match second {
            TolerationOperator::Equal(_) => false,
            TolerationOperator::Exists => true,
        },
    }
}

fn is_same_effect(first: Option<TaintEffect>, second: Option<TaintEffect>) -> bool
    ensures { result ≡ same_effects first second }
{
    match first {
        None => second.is_none(),
        Some(effect) => match second {
            None => false,
            Some(other) => effect == other,
        },
    }
}

fn is_same_mode(first: AllocationMode, second: AllocationMode) -> bool
    ensures { result ≡ same_mode first second }
{
    match first {
        AllocationMode::ExactCount(count) => match second {
            AllocationMode::ExactCount(other) => count == other,
            AllocationMode::All => false,
        },
        AllocationMode::All => match second {
            AllocationMode::ExactCount(_) => false,
            AllocationMode::All => true,
        },
    }
}

/// The specs of two claims are the same if and only if their requests and their constraints are equal,
/// and two pods name the same claims if and only if their lists of claims are equal. A field that is
/// missing counts as its default, which the readers fill in.
pub fn same_is_equal()
    ensures specs { (a b : ResourceClaim) → (same_spec a b ≡ true) ↔ ((a.requests ≡ b.requests) × (a.constraints ≡ b.constraints)) }
    ensures claims { (a b : Pod) → (same_pod_claims a b ≡ true) ↔ (a.claims ≡ b.claims) }
{}
