ghost use Rattle.std.specs.Prelude.{◌≡◌};

use dra_values::{Shared, Text};
use object_fields::Key;
use pool_view::Stored;
use ready_objects::{ReadyClaim, ReadyClass};
use shared_map::SharedMap;
use std::marker::Model;

/// The classes of a cluster by their names.
pub type Classes = SharedMap<Text, Stored<Shared<ReadyClass>>>;

/// A claim that has no grant yet, under its key. Contracts see the claim.
#[derive(Drop)]
pub struct WantedClaim<'a> {
    pub key: &'a Key,
    pub claim: &'a ReadyClaim,
}

impl<'a> Model for WantedClaim<'a> {
    ghost use Rattle.api_claim.specs.declared.types.ResourceClaim.{ResourceClaim};

    ghost Value = { ResourceClaim };

    ghost view = { λ w. record w.claim.now { key = w.key.now } };
}

/// What a pod's claims without a grant ask for, with the compiled selectors of their classes and
/// requests. Contracts see the claims and the classes.
#[derive(Drop)]
pub struct Wants<'a> {
    /// In the pod's order.
    pub claims: Vec<WantedClaim<'a>>,
    pub classes: &'a Classes,
}

impl<'a> Model for Wants<'a> {
    ghost use Rattle.request_rows.specs.Wanted.{WantsFields};

    ghost Value = { WantsFields };

    ghost view = { λ w. record { claims = w.claims.items; classes = w.classes.now } };
}
