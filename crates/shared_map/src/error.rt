ghost use Rattle.std.specs.Prelude.{◌≡◌};
ghost use Rattle.shared_map.specs.declared.error.NoValue.TheVariants.{Memory};

use std::alloc::AllocError;

/// Why a map lends no value to be changed.
#[derive(Clone, Copy, Debug, PartialEq, Eq, Drop)]
pub enum NoValue {
    /// The key has no entry.
    Missing,
    /// Out of memory.
    Memory,
}

impl From<AllocError> for NoValue {
    ghost from_gives = { λ _ e. e ≡ Memory };

    fn from(_: AllocError) -> NoValue {
        NoValue::Memory
    }
}
