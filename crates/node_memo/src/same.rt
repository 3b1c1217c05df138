//! Whether claims ask for the same, one after another.

ghost use Rattle.std.specs.Prelude.{◌≡◌, true, IfOk};
ghost use Rattle.request_rules.specs.Growth.{specs_of};

use api_claim::ResourceClaim;
use cluster::{same_is_equal, same_spec};
use request_rows::WantedClaim;
use std::alloc::{AllocError, Global};

/// Whether claims ask for the same as others, one after another. Allocates nothing.
pub fn ask_the_same(claims: &[WantedClaim], others: &[ResourceClaim]) -> bool
    ensures { result ≡ true → specs_of claims.now ≡ specs_of others.now }
{
    same_is_equal();
    match claims.split_first() {
        None => others.is_empty(),
        Some((claim, claims)) => match others.split_first() {
            None => false,
            Some((other, others)) => {
                same_spec(claim.claim.claim(), other) && ask_the_same(claims, others)
            }
        },
    }
}

/// Copies of claims. `AllocError` only if memory runs out.
pub fn copies_of(alloc: Global, claims: &[WantedClaim]) -> Result<Vec<ResourceClaim>, AllocError>
    ensures { IfOk result (λ copies. specs_of copies.items ≡ specs_of claims.now) }
{
    let mut copies = Vec::with_capacity(alloc, claims.len())?;
    for claim in claims {
        copies.push(claim.claim.claim().copy(alloc)?)?;
    }
    Ok(copies)
}
