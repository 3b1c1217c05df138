ghost use Rattle.std.specs.Prelude.{◌≡◌, ◌+◌, ◌≤◌, [], ◌∷◌, ◌++◌, IfOk, OnErr, OnOk, get_or, length};
ghost use Rattle.dra_ports.specs.DiskContent.{IsImage};
ghost use Rattle.mem_disk.specs.Stages.{after_cut, after_sync, after_write, begun, gone_on, now_of};

use crate::change::Change;
use crate::image::image_after;
use std::alloc::{AllocError, Global};
use std::marker::Model;

/// What a disk holds, and what changed it from moment to moment, so that what a crash may leave at each of them can be
/// found again. A change costs what it writes.
#[derive(Drop)]
pub struct History {
    /// What the disk held at first, all of it sure.
    first: Vec<u8>,
    changes: Vec<Change>,
    /// What a read returns.
    bytes: Vec<u8>,
}

impl Model for History {
    ghost use Rattle.std.specs.Prelude.{◌≡◌};
    ghost use Rattle.mem_disk.specs.Stages.{Past, begun, stage_after, sures_from};

    ghost Value = { Past };

    ghost view = { λ h. record { stage = stage_after (begun h.first.items) h.changes.items; earlier = sures_from (begun h.first.items) h.changes.items } };

    ghost invariant = { λ h. h.bytes.items ≡ (stage_after (begun h.first.items) h.changes.items).bytes };
}

impl History {
    /// The first moment of a disk with these bytes, all of them sure.
    #[tactic(auto, using(crate::proofs::Past::no_change, crate::proofs::Past::no_sures))]
    pub fn new(alloc: Global, bytes: Vec<u8>) -> Result<History, AllocError>
        ensures { IfOk result (λ h. h ≡ record { stage = begun bytes.items; earlier = [] }) }
    {
        let first = Vec::from_slice(alloc, &bytes)?;
        Ok(History {
            first,
            changes: Vec::new(alloc),
            bytes,
        })
    }

    /// What a read returns.
    pub fn bytes(&self) -> &[u8]
        ensures { result.now ≡ self.now.stage.bytes }
    {
        &self.bytes
    }

    /// How many moments there were, the present one among them.
    #[tactic(auto, using(crate::proofs::Past::length_sures))]
    pub fn moments(&self) -> usize
        ensures { result ≡ length self.now.earlier + 1 }
    {
        self.changes.len() + 1
    }

    /// Goes on to the moment after a change, or leaves all as it is if it is out of memory.
    #[tactic(auto, using(crate::proofs::Past::stage_more, crate::proofs::Past::sures_more, crate::proofs::Past::bytes_after))]
    fn go_on(&mut self, change: Change) -> Result<(), AllocError>
        ensures ok { OnOk result (self.new ≡ gone_on change self.old) }
        ensures err { OnErr result (self.new ≡ self.old) }
    {
        self.changes.reserve(1)?;
        change.apply(&mut self.bytes)?;
        self.changes.push_reserved(change);
        Ok(())
    }

    /// Writes bytes from the offset `at` on.
    pub fn write(&mut self, alloc: Global, at: usize, from: &[u8]) -> Result<(), AllocError>
        ensures ok { OnOk result (self.new ≡ now_of (after_write at from.now self.old.stage) self.old) }
        ensures err { OnErr result (self.new ≡ self.old) }
    {
        let bytes = Vec::from_slice(alloc, from)?;
        self.go_on(Change::Write(at, bytes))
    }

    /// Cuts the bytes to the length `len`, if they are longer.
    pub fn cut(&mut self, len: usize) -> Result<(), AllocError>
        ensures ok { OnOk result (self.new ≡ now_of (after_cut len self.old.stage) self.old) }
        ensures err { OnErr result (self.new ≡ self.old) }
    {
        self.go_on(Change::Cut(len))
    }

    /// Makes all bytes sure.
    pub fn sync(&mut self) -> Result<(), AllocError>
        ensures ok { OnOk result (self.new ≡ now_of (after_sync self.old.stage) self.old) }
        ensures err { OnErr result (self.new ≡ self.old) }
    {
        self.go_on(Change::Sync)
    }

    /// One of the byte lists that a crash at the moment `at`, from 0, may leave, chosen by `pick`.
    #[tactic(auto, using(crate::proofs::Past::sure_at, crate::proofs::Past::length_sures))]
    pub fn image(&self, alloc: Global, at: usize, pick: u64) -> Result<Vec<u8>, AllocError>
        requires { at ≤ length self.now.earlier }
        ensures { IfOk result (λ v. IsImage (get_or (self.now.earlier ++ self.now.stage.sure ∷ []) at self.now.stage.sure) v.items) }
    {
        image_after(alloc, &self.first, &self.changes[..at], pick)
    }
}
