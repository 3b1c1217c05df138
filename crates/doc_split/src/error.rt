ghost use Rattle.std.specs.Prelude.{◌≡◌};
ghost use Rattle.doc_split.specs.declared.error.DocError.TheVariants.{Memory};

use dra_ports::PortError;
use std::alloc::{AllocError, AllocFailed};
use thiserror::Error;

/// Why there is no next document. Offsets are counted from the input's first byte, from 0.
#[derive(Clone, Copy, Debug, PartialEq, Eq, Drop, Error)]
pub enum DocError {
    /// The source failed, and its count of errors rose, or is at its maximum, 2^64-1.
    #[error("the input failed")]
    ReadFault,
    /// The input ends inside the document that begins here.
    #[error("the document at byte {0} isn't closed")]
    Unclosed(u64),
    /// The byte here is between documents, and is neither a blank nor the first byte of a document.
    #[error("the byte at {0} begins no document")]
    Stray(u64),
    /// The document that begins here has more than 2,097,152 bytes.
    #[error("the document at byte {0} is too long")]
    TooLong(u64),
    /// Out of memory.
    #[error("out of memory")]
    Memory,
    /// The input has more than 2^30 bytes.
    #[error("the input is too long")]
    Input,
}

impl From<AllocError> for DocError {
    ghost from_gives = { λ _ e. e ≡ Memory };

    fn from(_: AllocError) -> Self {
        DocError::Memory
    }
}

impl<T: Drop> From<AllocFailed<T>> for DocError {
    ghost from_gives = { λ _ e. e ≡ Memory };

    fn from(_: AllocFailed<T>) -> Self {
        DocError::Memory
    }
}

impl From<PortError> for DocError {
    ghost use Rattle.doc_split.specs.Faults.{error_for};

    ghost from_gives = { λ e d. d ≡ error_for e };

    fn from(error: PortError) -> Self {
        match error {
            PortError::Failed => DocError::ReadFault,
            PortError::Memory => DocError::Memory,
        }
    }
}
