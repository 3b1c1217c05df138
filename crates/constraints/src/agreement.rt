ghost use Rattle.std.specs.Prelude.{◌≡◌, ◌+◌, ◌^◌, ◌<◌, ◌++◌, ◌∷◌, [], List, None, true, option_copied};
ghost use Rattle.request_rules.specs.Agreeing.{Pick, agrees, is_named};
ghost use Rattle.constraints.specs.Keeping.{IsOf};
ghost use Rattle.constraints.specs.Steps.{fits_by, has_by, left_by, taken_by};

use crate::Picked;
use crate::names::names;
use crate::values::{attribute_of, same_value};
use api_claim::DeviceConstraint;
use api_slice::Attribute;
use std::marker::Model;

/// One constraint of a claim over the results that were taken: how many it names, and the value of the
/// first of them, which all of them have.
///
/// The constraint and the value are borrowed; no call allocates. The clauses are about the list of
/// the results taken: `IsOf constraint taken agreement`.
#[derive(Drop)]
pub struct Agreement<'a> {
    constraint: &'a DeviceConstraint,
    count: usize,
    first: Option<&'a Attribute>,
}

impl<'a> Model for Agreement<'a> {
    ghost use Rattle.std.specs.Prelude.{option_copied};
    ghost use Rattle.constraints.specs.Keeping.{AgreementFields};

    ghost Value = { AgreementFields };

    ghost view = { λ a. record { constraint = a.constraint.now; count = a.count; first = option_copied a.first } };
}

impl<'a> Agreement<'a> {
    /// The agreement of a constraint of which nothing is taken.
    pub fn of(constraint: &'a DeviceConstraint) -> Agreement<'a>
        ensures { IsOf constraint.now [] result }
    {
        Agreement {
            constraint,
            count: 0,
            first: None,
        }
    }

    /// Whether the constraint holds of the results taken and this one: it doesn't name this one, or the
    /// device has its attribute, with the type and the value of those taken that it names. Versions are
    /// compared as they are written.
    pub fn fits(&self, picked: &Picked<'_>) -> bool
        ensures { (c : DeviceConstraint) (taken : List Pick) → IsOf c taken self.now → result ≡ agrees c taken picked.now }
    {
        self.admits(picked)
    }

    /// Takes a result that fits. The count of the results taken must stay below 2^64.
    pub fn take(&mut self, picked: &Picked<'a>)
        requires room { self.old.count + 1 < 2 ^ 64 }
        ensures { (c : DeviceConstraint) (taken : List Pick) → IsOf c taken self.old → agrees c taken picked.now ≡ true → IsOf c (taken ++ picked.now ∷ []) self.new }
    {
        self.add(picked);
    }

    /// Removes the result that was taken last.
    pub fn leave(&mut self, picked: &Picked<'_>)
        ensures { (c : DeviceConstraint) (taken : List Pick) → IsOf c (taken ++ picked.now ∷ []) self.old → IsOf c taken self.new }
    {
        self.remove(picked);
    }

    #[tactic(auto, unfolding(request_rules::specs::Agreeing::is_named))]
    fn names(&self, picked: &Picked<'_>) -> bool
        ensures { result ≡ is_named self.now.constraint picked.now }
    {
        names(self.constraint.requests.as_slice(), picked.request())
    }

    /// Whether a value is that of the results taken, if there are any.
    fn has(&self, value: &Attribute) -> bool
        ensures { result ≡ has_by self.now.count self.now.first value.now }
    {
        if self.count == 0 {
            return true;
        }
        match self.first {
            None => false,
            Some(first) => same_value(first, value),
        }
    }

    fn admits(&self, picked: &Picked<'_>) -> bool
        ensures { result ≡ fits_by self.now picked.now }
    {
        if !self.names(picked) {
            return true;
        }
        match attribute_of(picked.device(), &self.constraint.attribute) {
            None => false,
            Some(value) => self.has(value),
        }
    }

    fn add(&mut self, picked: &Picked<'a>)
        requires room { self.old.count + 1 < 2 ^ 64 }
        ensures { self.new ≡ taken_by self.old picked.now }
    {
        if self.names(picked) {
            if self.count == 0 {
                self.first = attribute_of(picked.device(), &self.constraint.attribute);
            }
            self.count += 1;
        }
    }

    fn remove(&mut self, picked: &Picked<'_>)
        ensures { self.new ≡ left_by self.old picked.now }
    {
        if self.names(picked) {
            self.count = self.count.saturating_sub(1);
        }
    }
}
