ghost use Rattle.std.specs.Prelude.{◌≡◌};

use api_slice::CounterSet;
use std::marker::Model;

/// A counter set, borrowed, which contracts see as the set.
#[derive(Drop)]
pub struct SetRef<'a> {
    set: &'a CounterSet,
}

impl<'a> Model for SetRef<'a> {
    ghost use Rattle.api_slice.specs.declared.types.CounterSet.{CounterSet};

    ghost Value = { CounterSet };

    ghost view = { λ s. s.set.now };
}

impl<'a> SetRef<'a> {
    /// A set, borrowed.
    pub fn of(set: &'a CounterSet) -> SetRef<'a>
        ensures { result ≡ set.now }
    {
        SetRef { set }
    }

    /// The set itself.
    pub fn get(&self) -> &'a CounterSet
        ensures { result.now ≡ self.now }
    {
        self.set
    }
}
