ghost use Rattle.std.specs.Prelude.{◌≡◌, ◌+◌, ◌^◌, ◌<◌, ℕ, List, [], ◌∷◌, ◌++◌, length, map, IfOk, OnOk};
ghost use Rattle.std.specs.List.{list_all};
ghost use Rattle.request_rules.specs.Input.{SearchInput};
ghost use Rattle.request_rules.specs.Lists.{Each};
ghost use Rattle.request_rules.specs.Asked.{Rule, rules_from};
ghost use Rattle.request_rules.specs.Rules as rules;
ghost use Rattle.request_rules.specs.Rules.{agrees};
ghost use Rattle.api_claim.specs.declared.types.DeviceConstraint.{DeviceConstraint};
ghost use Rattle.allocator.specs.Agreeing.{Agreed, AreAgreed, EachLeft, EachTook, HaveRoom, Left, Took, result_at};

use api_claim::DeviceConstraint;
use constraints::{Agreement, Picked};
use request_rows::WantedClaim;
use request_rules::joining_is_by_device;
use std::alloc::{AllocError, Global};

/// A constraint of a claim, over the devices that are placed for the claim.
#[derive(Drop)]
pub struct ClaimAgreement<'a> {
    /// The index of the claim.
    pub claim: usize,
    pub agreement: Agreement<'a>,
}

impl<'a> ClaimAgreement<'a> {
    /// Whether a result of the claim agrees with those that are placed.
    fn fits(&self, claim: usize, picked: &Picked<'_>) -> bool
        ensures { (v : SearchInput) (ps : List rules.Pick) (r : Rule) (p : rules.Pick) →
            Agreed v ps r self.now → p.label.claim ≡ claim → result_at v p ≡ picked.now ∷ [] → Each (λ q. q.position < length v.devices) ps → result ≡ agrees v r ps p }
    {
        joining_is_by_device();
        if self.claim != claim {
            return true;
        }
        self.agreement.fits(picked)
    }

    /// Takes a result of the claim that agrees with those that are placed.
    fn take(&mut self, claim: usize, picked: &Picked<'a>)
        requires { self.old.agreement.count + 1 < 2 ^ 64 }
        ensures { Took claim picked.now self.old self.new }
    {
        joining_is_by_device();
        if self.claim != claim {
            return;
        }
        self.agreement.take(picked);
    }

    /// Removes the result of the claim that was taken last.
    fn leave(&mut self, claim: usize, picked: &Picked<'_>)
        ensures { Left claim picked.now self.old self.new }
    {
        if self.claim != claim {
            return;
        }
        self.agreement.leave(picked);
    }
}

/// Whether a result of the claim agrees with those that are placed, constraint by constraint.
pub fn all_fit(agreements: &[ClaimAgreement], claim: usize, picked: &Picked) -> bool
    ensures { (v : SearchInput) (ps : List rules.Pick) (rs : List Rule) (p : rules.Pick) →
        AreAgreed v ps rs agreements.now → p.label.claim ≡ claim → result_at v p ≡ picked.now ∷ [] → Each (λ q. q.position < length v.devices) ps → result ≡ list_all (λ r. agrees v r ps p) rs }
{
    for one in agreements {
        if !one.fits(claim, picked) {
            return false;
        }
    }
    true
}

/// Takes a result of the claim that agrees with those that are placed.
pub fn take_all<'a>(agreements: &mut Vec<ClaimAgreement<'a>>, claim: usize, picked: &Picked<'a>)
    requires { HaveRoom agreements.old.items }
    ensures { EachTook claim picked.now agreements.old.items agreements.new.items }
{
    for at in 0..agreements.len() {
        agreements[at].take(claim, picked);
    }
}

/// Removes the result of the claim that was taken last.
pub fn leave_all(agreements: &mut Vec<ClaimAgreement>, claim: usize, picked: &Picked)
    ensures { EachLeft claim picked.now agreements.old.items agreements.new.items }
{
    for at in 0..agreements.len() {
        agreements[at].leave(claim, picked);
    }
}

fn add_agreements<'a>(
    agreements: &mut Vec<ClaimAgreement<'a>>,
    claim: usize,
    constraints: &'a [DeviceConstraint],
) -> Result<(), AllocError>
    ensures { OnOk result ((v : SearchInput) (rs : List Rule) → AreAgreed v [] rs agreements.old.items →
        AreAgreed v [] (rs ++ map (λ c. record { claim = claim; constraint = c }) constraints.now) agreements.new.items) }
{
    for constraint in constraints {
        agreements.push(ClaimAgreement {
            claim,
            agreement: Agreement::of(constraint),
        })?;
    }
    Ok(())
}

/// The constraints of the claims, with nothing placed. `AllocError` only if memory runs out.
pub fn agreements_of<'a>(
    alloc: Global,
    claims: &'a [WantedClaim<'a>],
) -> Result<Vec<ClaimAgreement<'a>>, AllocError>
    ensures { IfOk result (λ agreements. (v : SearchInput) → AreAgreed v [] (rules_from 0 claims.now) agreements.items) }
{
    let mut agreements = Vec::new(alloc);
    for claim in 0..claims.len() {
        let wanted = &claims[claim];
        let ready = wanted.claim;
        let constraints = ready.claim().constraints.as_slice();
        add_agreements(&mut agreements, claim, constraints)?;
    }
    Ok(agreements)
}
