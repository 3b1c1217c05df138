ghost use Rattle.std.specs.Prelude.{◌≡◌, IfSome};
ghost use Rattle.pool_view.specs.Known.{IsKnown, is_sure};
ghost use Rattle.pool_view.specs.Names.{at_name};

use crate::inventory::Slices;
use dra_values::{Duplicate, Seq, Table, Text};
use std::alloc::{AllocError, Global};
use std::marker::Model;

/// The most lists of selectors of which something is kept.
pub const MAX_KNOWN_LISTS: usize = 64;

/// Selectors, with the names of slices and whether the selectors, one after another, have no evaluation
/// error on any device of the slice.
#[derive(Drop)]
pub struct KnownList {
    pub texts: Seq<Text>,
    pub slices: Table<Text, bool>,
}

impl Duplicate for KnownList {
    fn duplicate(&self, alloc: Global) -> Result<KnownList, AllocError> {
        Ok(KnownList {
            texts: self.texts.copy(alloc)?,
            slices: self.slices.copy(alloc)?,
        })
    }
}

/// What an inventory knows of some selectors on its slices.
#[derive(Drop)]
pub struct KnownSlices<'a> {
    slices: &'a Slices,
    list: &'a KnownList,
}

impl<'a> Model for KnownSlices<'a> {
    ghost use Rattle.pool_view.specs.Known.{IsKnown, KnownFields};

    ghost Value = { KnownFields };

    ghost view = { λ k. record { slices = k.slices.now; texts = k.list.now.texts } };

    ghost invariant = { λ k. IsKnown k.slices.now k.list.now };
}

impl<'a> KnownSlices<'a> {
    /// What is kept in a list, of these slices.
    pub(crate) fn of(slices: &'a Slices, list: &'a KnownList) -> KnownSlices<'a>
        requires { IsKnown slices.now list.now }
        ensures { result ≡ record { slices = slices.now; texts = list.now.texts } }
    {
        KnownSlices { slices, list }
    }

    /// Whether the selectors have no evaluation error on any device of the slice of that name; `None` if that
    /// isn't known. Allocates nothing.
    pub fn is_sure(&self, slice: &Text) -> Option<bool>
        ensures { IfSome result (λ sure. IfSome (at_name self.now.slices slice.now) (λ stored. is_sure self.now.texts stored.object ≡ sure)) }
    {
        self.list.slices.get(slice).copied()
    }
}
