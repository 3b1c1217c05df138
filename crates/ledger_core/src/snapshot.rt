ghost use Rattle.std.specs.Prelude.{◌≡◌};
ghost use Rattle.cluster.specs.Held.{held};
ghost use Rattle.counter_sets.specs.Holding.{AreHeld};
ghost use Rattle.pool_totals.specs.Counting.{AreCounted};
ghost use Rattle.pool_totals.specs.Drawn.{AreDrawn};

use cluster::State;
use counter_sets::{Held, SharedTotals};
use pool_totals::kept_totals_are_drawn;
use std::marker::Model;

/// The state after so many entries, with the holders of its devices and what these draw. It shares them with the
/// ledger, which changes copies of its own as long as the snapshot is there.
#[derive(Drop)]
pub struct Snapshot {
    at: u64,
    state: State,
    holders: Held,
    totals: SharedTotals,
}

impl Model for Snapshot {
    ghost use Rattle.counter_sets.specs.Holding.{AreHeld};
    ghost use Rattle.cluster.specs.Held.{held};
    ghost use Rattle.pool_totals.specs.Counting.{AreCounted};
    ghost use Rattle.ledger_core.specs.Snapshot.{Seen};

    ghost Value = { Seen };

    ghost view = { λ s. record { at = s.at; state = s.state } };

    ghost invariant = { λ s. AreHeld s.holders (held s.state) × AreCounted s.state.inventory s.holders s.totals };
}

impl Snapshot {
    /// The snapshot of a state after so many entries.
    pub(crate) fn of(at: u64, state: State, holders: Held, totals: SharedTotals) -> Snapshot
        requires holders { AreHeld holders (held state) }
        requires totals { AreCounted state.inventory holders totals }
        ensures { result ≡ record { at = at; state = state } }
    {
        Snapshot {
            at,
            state,
            holders,
            totals,
        }
    }

    /// How many entries were in the history.
    pub fn at(&self) -> u64
        ensures { result ≡ self.now.at }
    {
        self.at
    }

    /// The state after them.
    pub fn state(&self) -> &State
        ensures { result.now ≡ self.now.state }
    {
        &self.state
    }

    /// The devices that claims hold in this state, each with its claim.
    pub fn holders(&self) -> &Held
        ensures { AreHeld result.now (held self.now.state) }
    {
        &self.holders
    }

    /// The counters of this state's usable pools, with what the devices draw from each that claims hold.
    pub fn totals(&self) -> &SharedTotals
        ensures { AreDrawn self.now.state.inventory (held self.now.state) result.now }
    {
        kept_totals_are_drawn();
        &self.totals
    }
}
