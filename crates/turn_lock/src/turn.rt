ghost use Rattle.std.specs.Prelude.{◌≡◌};
ghost use Rattle.std.specs.Borrow.{sem, Lends};
ghost use Rattle.turn_lock.specs.contracts.turn.Turn.{the_row};

use std::marker::Model;

/// The state of a lock, while a turn lasts. Contracts see it as the state.
///
/// A turn can't be dropped: it ends by `TurnLock::leave` alone, so no state gets lost.
pub struct Turn<T> {
    state: T,
}

impl<T> Model for Turn<T> {
    ghost use Rattle.std.specs.Prelude.{◌≡◌};

    ghost Value = { T };

    ghost coded = { T.code };

    ghost view = { λ t. t.state };
}

impl<T> Turn<T> {
    pub(crate) fn new(state: T) -> Turn<T>
        ensures { result ≡ state }
    {
        Turn { state }
    }

    pub(crate) fn into_state(self) -> T
        ensures { result ≡ self }
    {
        let Turn { state } = self;
        state
    }

    /// The state, to read and to change.
    pub fn state(&mut self) -> &mut T
        ensures* writes_back { sem 𝓛 (Lends (the_row T.row) T.row self.entry result (λ w. w)) }
        ensures value { result.now ≡ self.old }
    {
        &mut self.state
    }
}
