ghost use Rattle.std.specs.Prelude.{◌≡◌, ◌+◌, ◌<◌, ◌≤◌, IfSome, false, length};
ghost use Rattle.std.proofs.Props.{props};
ghost use Rattle.ckpt_journal.specs.Format.{blocks};
ghost use Rattle.ckpt_journal.specs.Layout.{IsSized, start_of};
ghost use Rattle.ckpt_journal.specs.Standing.{IsSettled, recorded};
ghost use Rattle.ckpt_journal.specs.Table.{IsTable, compact};

use crate::Row;
use crate::layout::Halves;
use dra_ports::Disk;

/// A journal that is open. It owns its disk, so nothing else acts on it.
#[derive(Drop)]
pub struct Journal<D: Disk> {
    pub(crate) disk: D,
    /// Where the halves are, and which of them is live.
    pub(crate) halves: Halves,
    /// The offset of the closed gate after the last record.
    pub(crate) end: u64,
    /// The table that the records make.
    pub(crate) rows: Vec<Row>,
    /// Whether an error of the disk has ended the journal.
    pub(crate) ended: bool,
    ghost kept: { ended ≡ false → IfSome (D.content disk) (IsSettled (recorded (D.content disk)) rows.items halves end) } by { Prim.hlevel props },
    ghost sized: { IsSized halves } by { Prim.hlevel props },
    ghost tabled: { IsTable rows.items } by { Prim.hlevel props },
    ghost used: { start_of halves + length (blocks (compact rows.items)) ≤ end },
    ghost within: { end < start_of halves + halves.half },
}
