ghost use Rattle.std.specs.Prelude.{◌≡◌};
ghost use Rattle.ckpt_journal.specs.declared.error.JournalError.TheVariants as errors;
ghost use Rattle.ckpt_journal.specs.declared.error.Unread.TheVariants as unread;

use dra_ports::PortError;
use std::alloc::{AllocError, AllocFailed};
use thiserror::Error;

/// Why a call on a journal failed.
#[derive(Clone, Copy, Debug, PartialEq, Eq, Drop, Error)]
pub enum JournalError {
    /// The disk failed: its error count rose, or is at its last value, 2^64-1. A journal that was
    /// open has ended.
    #[error("the disk failed")]
    DiskFault,
    /// The bytes of the disk are no journal. The offset is that of the first byte of the header that
    /// is wrong or missing, of the first gate or of a half if it is missing, or of the open gate whose record is
    /// cut, has no next gate, or isn't one.
    #[error("not a journal at byte {0}")]
    NotAJournal(u64),
    /// The compacted table and the record do not fit a half, or a text or a count of the record is over
    /// 65,535.
    /// Nothing was changed.
    #[error("the journal is full")]
    Full,
    /// An earlier `DiskFault` of this journal has ended it. Nothing was changed.
    #[error("the journal has ended")]
    Closed,
    /// Memory ran out. Nothing was changed.
    #[error("out of memory")]
    Memory,
}

/// A disk never runs out of memory: it counts that as an error of its own.
impl From<PortError> for JournalError {
    ghost from_gives = { λ _ e. e ≡ errors.DiskFault };

    fn from(_: PortError) -> Self {
        JournalError::DiskFault
    }
}

impl From<AllocError> for JournalError {
    ghost from_gives = { λ _ e. e ≡ errors.Memory };

    fn from(_: AllocError) -> Self {
        JournalError::Memory
    }
}

impl<T: Drop> From<AllocFailed<T>> for JournalError {
    ghost from_gives = { λ _ e. e ≡ errors.Memory };

    fn from(_: AllocFailed<T>) -> Self {
        JournalError::Memory
    }
}

/// Why bytes were not read as a record.
#[derive(Clone, Copy, Drop)]
pub enum Unread {
    /// The bytes are no record.
    NoRecord,
    /// Memory ran out.
    Memory,
}

impl From<AllocError> for Unread {
    ghost from_gives = { λ _ e. e ≡ unread.Memory };

    fn from(_: AllocError) -> Self {
        Unread::Memory
    }
}

impl<T: Drop> From<AllocFailed<T>> for Unread {
    ghost from_gives = { λ _ e. e ≡ unread.Memory };

    fn from(_: AllocFailed<T>) -> Self {
        Unread::Memory
    }
}
