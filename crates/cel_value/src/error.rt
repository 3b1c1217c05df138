ghost use Rattle.std.specs.Prelude.{◌≡◌};
ghost use Rattle.cel_value.specs.declared.error.EvalError.TheVariants.{Memory};

use std::alloc::AllocError;
use thiserror::Error;

/// Why an expression of the selector language has no value.
#[derive(Clone, Copy, Debug, PartialEq, Eq, Drop, Error)]
pub enum EvalError {
    /// A map has no such key, or the device has no attribute or capacity of that name.
    #[error("no such key")]
    NoKey,
    /// An operator, function or form has no row for values of these types.
    #[error("no such overload")]
    NoOverload,
    /// A whole number is outside -2^63 to 2^63-1, or a quantity's magnitude is over 2^63-1.
    #[error("overflow")]
    Overflow,
    /// A whole number is divided by zero.
    #[error("division by zero")]
    DivByZero,
    /// A list has no element at that index.
    #[error("index out of range")]
    OutOfRange,
    /// A text doesn't read as a quantity or version, or a quantity isn't a whole number.
    #[error("bad conversion")]
    BadConversion,
    /// Out of memory.
    #[error("out of memory")]
    Memory,
}

impl From<AllocError> for EvalError {
    ghost from_gives = { λ _ r. r ≡ Memory };

    fn from(_error: AllocError) -> EvalError {
        EvalError::Memory
    }
}
