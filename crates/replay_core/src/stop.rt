ghost use Rattle.std.specs.Prelude.{◌≡◌};
ghost use Rattle.replay_core.specs.declared.stop.Stop.TheVariants.{Memory};

use sched_job::LedgerError;
use std::alloc::{AllocError, AllocFailed};

/// Why a command wasn't done.
#[derive(Clone, Copy, Debug, PartialEq, Eq, Drop)]
pub enum Stop {
    /// The history has so many entries, and one more is expected.
    Full(u64),
    /// Memory ran out.
    Memory,
}

impl From<AllocError> for Stop {
    ghost from_gives = { λ _ s. s ≡ Memory };

    fn from(_: AllocError) -> Self {
        Stop::Memory
    }
}

impl From<LedgerError> for Stop {
    ghost use Rattle.std.specs.Prelude.{◌≡◌};
    ghost use Rattle.replay_core.specs.Stops.{stop_for};

    ghost from_gives = { λ e s. s ≡ stop_for e };

    fn from(error: LedgerError) -> Self {
        match error {
            LedgerError::Full(count) => Stop::Full(count),
            LedgerError::Memory => Stop::Memory,
        }
    }
}
