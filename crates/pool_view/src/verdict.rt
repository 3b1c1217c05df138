use cel_value::EvalError;
use thiserror::Error;

/// What a selector evaluates to on a device.
#[derive(Clone, Copy, Debug, PartialEq, Eq, Drop)]
pub enum Verdict {
    /// It is true of the device.
    Yes,
    /// It is false of the device.
    No,
    /// It is neither.
    Fault(Cause),
}

/// Why a selector is neither true nor false of a device.
#[derive(Clone, Copy, Debug, PartialEq, Eq, Drop, Error)]
pub enum Cause {
    /// It has no value on the device. The error is never Memory.
    #[error(transparent)]
    Error(EvalError),
    /// It has a value on the device other than true and false, as an expression of type dyn may.
    #[error("neither true nor false")]
    NotBool,
}
