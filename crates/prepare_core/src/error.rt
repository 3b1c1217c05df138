ghost use Rattle.std.specs.Prelude.{◌≡◌};
ghost use Rattle.prepare_core.specs.Causes.{by_driver, by_journal};
ghost use Rattle.prepare_core.specs.declared.error.KubeletError.TheVariants as errors;

use ckpt_journal::JournalError;
use dra_ports::PortError;
use std::alloc::{AllocError, AllocFailed};
use thiserror::Error;

/// Why a call on a kubelet failed.
#[derive(Clone, Copy, Debug, PartialEq, Eq, Drop, Error)]
pub enum KubeletError {
    /// The claim has no allocated devices: its `node` is None.
    #[error("the claim is not allocated")]
    NotAllocated,
    /// The claim isn't reserved for the pod: the pod isn't among its `pods`.
    #[error("the claim is not reserved for the pod")]
    NotReserved,
    /// The claim's devices are on another node.
    #[error("the claim is allocated on another node")]
    OtherNode,
    /// The driver failed: its error count rose, or is at its last value, 2^64-1.
    #[error("the driver failed")]
    DriverFault,
    /// The disk failed: its error count rose, or is at its last value, 2^64-1. The kubelet has ended.
    #[error("the disk failed")]
    DiskFault,
    /// The kubelet has 1,024 claims, or the journal is full.
    #[error("the table of claims is full")]
    Full,
    /// An earlier `DiskFault` has ended the kubelet. Nothing was changed.
    #[error("the kubelet has ended")]
    Closed,
    /// No row of the table is of this claim and has the pod.
    #[error("the claim is not prepared for the pod")]
    NotPrepared,
    /// Out of memory.
    #[error("out of memory")]
    Memory,
    /// The bytes of the disk are no journal, from this offset on.
    #[error("not a journal at byte {0}")]
    NotAJournal(u64),
}

impl From<JournalError> for KubeletError {
    ghost from_gives = { λ j e. e ≡ by_journal j };

    fn from(why: JournalError) -> Self {
        match why {
            JournalError::DiskFault => KubeletError::DiskFault,
            JournalError::NotAJournal(at) => KubeletError::NotAJournal(at),
            JournalError::Full => KubeletError::Full,
            JournalError::Closed => KubeletError::Closed,
            JournalError::Memory => KubeletError::Memory,
        }
    }
}

/// A driver's `Failed` is a `DriverFault`.
impl From<PortError> for KubeletError {
    ghost from_gives = { λ p e. e ≡ by_driver p };

    fn from(why: PortError) -> Self {
        match why {
            PortError::Failed => KubeletError::DriverFault,
            PortError::Memory => KubeletError::Memory,
        }
    }
}

impl From<AllocError> for KubeletError {
    ghost from_gives = { λ _ e. e ≡ errors.Memory };

    fn from(_: AllocError) -> Self {
        KubeletError::Memory
    }
}

impl<T: Drop> From<AllocFailed<T>> for KubeletError {
    ghost from_gives = { λ _ e. e ≡ errors.Memory };

    fn from(_: AllocFailed<T>) -> Self {
        KubeletError::Memory
    }
}
