//! The slices of one pool, with what is counted of them.

ghost use Rattle.std.specs.Prelude.{◌≡◌, ◌↔◌, [], None, IfOk, OnErr, OnOk, true};
ghost use Rattle.std.specs.Bool.{IsTrue};
ghost use Rattle.std.specs.BTreeMap.{insert_entry, is_at};
ghost use Rattle.std.specs.Map.{remove_entry};
ghost use Rattle.pool_view.specs.Groups.{objects};
ghost use Rattle.pool_view.specs.Names.{at_name, text_cmp};
ghost use Rattle.pool_view.specs.Tally.{AreUncounted};

use crate::Stored;
use crate::inventory::Slices;
use crate::tally::Tally;
use api_slice::ResourceSlice;
use dra_values::{Duplicate, Shared, Text};
use shared_map::SharedMap;
use std::alloc::{AllocError, Global};
use std::marker::Model;

/// The slices of a pool by their names. Contracts see them without what is counted of them.
#[derive(Drop)]
pub struct PoolSlices {
    slices: Slices,
    tally: Tally,
}

impl Model for PoolSlices {
    ghost use Rattle.api_slice.specs.declared.types.ResourceSlice.{ResourceSlice};
    ghost use Rattle.pool_view.specs.Groups.{objects};
    ghost use Rattle.pool_view.specs.Inventory.{Named};
    ghost use Rattle.pool_view.specs.Tally.{IsTally};

    ghost Value = { Named ResourceSlice };

    ghost view = { λ s. s.slices };

    ghost invariant = { λ s. IsTally (objects s.slices) s.tally };
}

impl PoolSlices {
    /// No slices. `AllocError` only if memory runs out.
    pub fn new(alloc: Global) -> Result<PoolSlices, AllocError>
        ensures { IfOk result (λ slices. slices ≡ []) }
    {
        let slices = SharedMap::new(alloc)?;
        Ok(PoolSlices {
            slices,
            tally: Tally::none(),
        })
    }

    /// The slices.
    pub fn slices(&self) -> &Slices
        ensures { result.now ≡ self.now }
    {
        &self.slices
    }

    /// Whether there are none.
    pub fn is_empty(&self) -> bool
        ensures { IsTrue result ↔ (self.now ≡ []) }
    {
        self.slices.is_empty()
    }

    /// Puts a slice at a name that none has. `AllocError` only if memory runs out, and then nothing changed.
    pub fn insert(
        &mut self,
        alloc: Global,
        name: Text,
        stored: Stored<Shared<ResourceSlice>>,
    ) -> Result<(), AllocError>
        requires { at_name self.old name ≡ None }
        ensures ok { OnOk result (self.new ≡ insert_entry text_cmp self.old name stored) }
        ensures err { OnErr result (self.new ≡ self.old) }
    {
        let slice = stored.object.share()?;
        self.slices.insert(alloc, name, stored)?;
        let len = self.slices.len();
        self.tally = self.tally.with(&slice, len);
        Ok(())
    }

    /// Removes the slice of a name, if there is one. `AllocError` only if memory runs out, and then nothing changed.
    pub fn remove(&mut self, alloc: Global, name: &Text) -> Result<(), AllocError>
        ensures ok { OnOk result (self.new ≡ remove_entry (is_at (text_cmp name.now)) self.old) }
        ensures err { OnErr result (self.new ≡ self.old) }
    {
        match self.slices.remove(alloc, name)? {
            None => Ok(()),
            Some(old) => {
                self.tally = self.tally.without(&old.object);
                Ok(())
            }
        }
    }

    /// Whether it is known that counters are about none of the usable slices. Goes over no slices, and allocates
    /// nothing.
    pub fn is_uncounted(&self) -> bool
        ensures { result ≡ true → AreUncounted (objects self.now) }
    {
        self.tally.is_uncounted()
    }
}

/// A duplicate shares all entries.
impl Duplicate for PoolSlices {
    fn duplicate(&self, _alloc: Global) -> Result<PoolSlices, AllocError> {
        Ok(PoolSlices {
            slices: self.slices.share()?,
            tally: self.tally,
        })
    }
}
