ghost use Rattle.std.specs.Prelude.{◌≡◌, true};
ghost use Rattle.ckpt_journal.specs.Layout.{is_half};

use crate::hex::from_hex;
use ckpt_journal::{Journal, JournalError, Record, Unopened, format as format_disk};
use mem_disk::MemDisk;
use std::alloc::{AllocError, Global};

/// The size of a half that a case asks for.
#[derive(Clone, Copy)]
pub struct Half {
    pub bytes: u32,
    ghost allowed: { is_half bytes ≡ true },
}

impl Half {
    /// The size that a text says, one of those that cases have.
    #[tactic(auto, unfolding(ckpt_journal::specs::Layout::is_half))]
    pub fn of(text: &str) -> Option<Half> {
        match text {
            "4096" => Some(Half { bytes: 4_096 }),
            "8192" => Some(Half { bytes: 8_192 }),
            "131072" => Some(Half { bytes: 131_072 }),
            _ => None,
        }
    }
}

/// What a case begins with.
#[derive(Drop)]
pub struct Start {
    pub half: Half,
    /// The file, or none for a journal that is made anew.
    pub file: Option<Vec<u8>>,
}

impl Start {
    /// The start that a word says: `new`, or a file.
    pub fn of(alloc: Global, half: Half, word: &str) -> Result<Start, AllocError> {
        let file = if word == "new" {
            None
        } else {
            Some(from_hex(alloc, word)?)
        };
        Ok(Start { half, file })
    }
}

/// What became of a start.
#[derive(Drop)]
pub enum Begun {
    Open(Journal<MemDisk>, Vec<Record>),
    NotOpen(Unopened<MemDisk, JournalError>),
    /// The disk failed before the journal was formatted.
    NotMade(JournalError),
}

/// Opens a disk.
pub fn open(alloc: Global, half: Half, disk: MemDisk) -> Begun {
    match Journal::open(alloc, disk, half.bytes) {
        Ok((journal, records)) => Begun::Open(journal, records),
        Err(unopened) => Begun::NotOpen(unopened),
    }
}

/// Begins on a disk whose calls of these numbers fail.
pub fn begin(alloc: Global, start: &Start, failing: Vec<u64>) -> Result<Begun, AllocError> {
    match &start.file {
        Some(bytes) => {
            let disk = MemDisk::new(alloc, bytes.as_slice().to_vec(alloc)?, failing)?;
            Ok(open(alloc, start.half, disk))
        }
        None => {
            let mut disk = MemDisk::new(alloc, Vec::new(alloc), failing)?;
            match format_disk(alloc, &mut disk, start.half.bytes) {
                Ok(()) => Ok(open(alloc, start.half, disk)),
                Err(error) => Ok(Begun::NotMade(error)),
            }
        }
    }
}
