//! What is counted of the slices of a pool.

ghost use Rattle.std.specs.Prelude.{◌≡◌, [], ◌∷◌, List, true};
ghost use Rattle.api_slice.specs.declared.types.ResourceSlice.{ResourceSlice};
ghost use Rattle.pool_view.specs.Tally.{AreUncounted, HasRoomBelow, IsTally, one_if};
ghost use Rattle.pool_view.specs.Usable.{is_counted};

use crate::draws::is_counted;
use api_slice::ResourceSlice;

/// What is counted of the slices of a pool, as they are put and removed.
#[derive(Clone, Copy, Drop)]
pub struct Tally {
    /// No slice has a higher generation.
    pub newest: u64,
    /// How many have this one.
    pub at_newest: usize,
    /// How many slices the pool should have, by one of these.
    pub wanted: u64,
    /// At least as many of them say so.
    pub agreeing: usize,
    /// How many have counter sets, or devices that draw from some.
    pub counted: usize,
}

/// 1 for a slice that has counter sets, or devices that draw from some.
fn counted_by(slice: &ResourceSlice) -> usize
    ensures { result ≡ one_if (is_counted slice.now) }
{
    if is_counted(slice) { 1 } else { 0 }
}

impl Tally {
    /// That of no slices.
    pub fn none() -> Tally
        ensures { IsTally [] result }
    {
        Tally {
            newest: 0,
            at_newest: 0,
            wanted: 0,
            agreeing: 0,
            counted: 0,
        }
    }

    /// With a slice more, with which there are `len`.
    pub fn with(&self, slice: &ResourceSlice, len: usize) -> Tally
        requires { HasRoomBelow self.now len }
        ensures { (xs : List ResourceSlice) → IsTally xs self.now → IsTally (slice.now ∷ xs) result }
    {
        let pool = &slice.pool;
        let counted = self.counted + counted_by(slice);
        if self.newest < pool.generation {
            return Tally {
                newest: pool.generation,
                at_newest: 1,
                wanted: pool.slices,
                agreeing: 1,
                counted,
            };
        }
        if pool.generation < self.newest {
            return Tally { counted, ..*self };
        }
        let at_newest = self.at_newest + 1;
        if self.agreeing == 0 {
            return Tally {
                newest: self.newest,
                at_newest,
                wanted: pool.slices,
                agreeing: 1,
                counted,
            };
        }
        if pool.slices == self.wanted {
            return Tally {
                newest: self.newest,
                at_newest,
                wanted: self.wanted,
                agreeing: self.agreeing + 1,
                counted,
            };
        }
        Tally {
            at_newest,
            counted,
            ..*self
        }
    }

    /// Without a slice, which is one of them.
    pub fn without(&self, slice: &ResourceSlice) -> Tally
        ensures { (xs : List ResourceSlice) → IsTally (slice.now ∷ xs) self.now → IsTally xs result }
    {
        let pool = &slice.pool;
        let counted = self.counted.saturating_sub(counted_by(slice));
        if pool.generation != self.newest {
            return Tally { counted, ..*self };
        }
        let at_newest = self.at_newest.saturating_sub(1);
        if pool.slices != self.wanted {
            return Tally {
                at_newest,
                counted,
                ..*self
            };
        }
        Tally {
            newest: self.newest,
            at_newest,
            wanted: self.wanted,
            agreeing: self.agreeing.saturating_sub(1),
            counted,
        }
    }

    /// Whether it shows that counters are about none of the usable slices: there are none that counters are about, or
    /// one of the highest generation says that there should be another number of these than there is.
    pub fn is_uncounted(&self) -> bool
        ensures { result ≡ true → (xs : List ResourceSlice) → IsTally xs self.now → AreUncounted xs }
    {
        if self.counted == 0 {
            return true;
        }
        self.agreeing > 0 && self.at_newest as u64 != self.wanted
    }
}
