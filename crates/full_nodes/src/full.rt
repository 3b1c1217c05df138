//! Pods that ask for devices of their own, and nodes that have none left for them.

ghost use Rattle.std.specs.Prelude.{◌≡◌};
ghost use Rattle.std.specs.List.{list_all, list_any};
ghost use Rattle.full_nodes.specs.Full as spec;
ghost use Rattle.full_nodes.specs.Full.{all_held, are_exclusive, asks_some, is_exclusive};

use api_claim::{AllocationMode, DeviceRequest, RequestKind};
use api_slice::ResourceSlice;
use counter_sets::{Held, HeldInPool};
use pool_view::DeviceRef;
use request_rows::WantedClaim;

/// Whether a claim holds each of the devices. A pool is looked up once for its devices that follow
/// each other; the first device that no claim holds ends the search.
#[tactic(auto, unfolding(crate::specs::Full::all_held))]
pub fn all_held(devices: &[DeviceRef], holders: &Held) -> bool
    ensures { result ≡ all_held holders.now devices.now }
{
    match devices.first() {
        None => true,
        Some(device) => all_held_from(devices, pool_of(holders, device.slice())),
    }
}

fn pool_of<'a>(holders: &'a Held, slice: &'a ResourceSlice) -> HeldInPool<'a>
    ensures { result ≡ record { holders = holders.now; driver = slice.now.driver; pool = slice.now.pool.name } }
{
    holders.in_pool(slice.driver.as_text(), &slice.pool.name)
}

#[tactic(auto, unfolding(crate::specs::Full::all_held))]
fn all_held_from<'a>(devices: &[DeviceRef<'a>], pool: HeldInPool<'a>) -> bool
    ensures { result ≡ all_held pool.entry.holders devices.now }
{
    let mut pool = pool;
    for device in devices {
        let slice = device.slice();
        pool = pool.or_in_pool(slice.driver.as_text(), &slice.pool.name);
        if pool.at(&device.device().name).is_none() {
            return false;
        }
    }
    true
}

/// Whether each request of the claims is exclusive, and there is one.
#[tactic(auto, unfolding(crate::specs::Full::are_exclusive))]
pub fn are_exclusive(claims: &[WantedClaim]) -> bool
    ensures { result ≡ are_exclusive claims.now }
{
    each_exclusive(claims) && any_asks(claims)
}

fn each_exclusive(claims: &[WantedClaim]) -> bool
    ensures { result ≡ list_all (λ c. list_all (λ r. is_exclusive r.kind) c.requests) claims.now }
{
    for wanted in claims {
        if !requests_exclusive(wanted.claim.claim().requests.as_slice()) {
            return false;
        }
    }
    true
}

fn requests_exclusive(requests: &[DeviceRequest]) -> bool
    ensures { result ≡ list_all (λ r. is_exclusive r.kind) requests.now }
{
    for request in requests {
        if !is_exclusive(&request.kind) {
            return false;
        }
    }
    true
}

/// Whether it has neither alternatives nor admin access, and asks for a device.
fn is_exclusive(kind: &RequestKind) -> bool
    ensures { result ≡ is_exclusive kind.now }
{
    match kind {
        RequestKind::Exactly(exactly) => !exactly.admin && asks_some(&exactly.ask.mode),
        RequestKind::FirstAvailable(_) => false,
    }
}

fn asks_some(mode: &AllocationMode) -> bool
    ensures { result ≡ asks_some mode.now }
{
    match mode {
        AllocationMode::ExactCount(count) => *count != 0,
        AllocationMode::All => true,
    }
}

fn any_asks(claims: &[WantedClaim]) -> bool
    ensures { result ≡ list_any (λ c. spec.has_any c.requests) claims.now }
{
    for wanted in claims {
        if !wanted.claim.claim().requests.as_slice().is_empty() {
            return true;
        }
    }
    false
}
