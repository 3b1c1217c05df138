ghost use Rattle.std.specs.Prelude.{◌≡◌, ◌↔◌, ◌⊎◌, IfErr, IfOk, IfSome, IsErrOf, IsOk, OnErr, OnOk, Ok, Err, ℕ, false, true};
ghost use Rattle.std.specs.List.{AllByRecursion};
ghost use Rattle.std.specs.Option.{option_map};
ghost use Rattle.dra_ports.specs.Causes.{Rose};
ghost use Rattle.dra_ports.specs.DiskContent.{synced};
ghost use Rattle.dra_ports.specs.DiskImages.{AtEachMoment};
ghost use Rattle.ckpt_journal.specs.Format.{ReadsBack};
ghost use Rattle.ckpt_journal.specs.Layout.{is_half, layout_of};
ghost use Rattle.ckpt_journal.specs.Opened.{AfterSync, half_opened};
ghost use Rattle.ckpt_journal.specs.Plan.{is_full};
ghost use Rattle.ckpt_journal.specs.Reading.{records};
ghost use Rattle.ckpt_journal.specs.Standing.{HasHalves, HasTable, IsBeforeOrAfter, Keeps};
ghost use Rattle.ckpt_journal.specs.Table.{compact, row_after, tabled};
ghost use Rattle.prepare_core.specs.Runs.{IsOfJournal, IsOfOpening};
ghost use Rattle.prepare_core.specs.Words.{disk_in, half_in, has_ended, node_in, rows_in};

use crate::{Kubelet, KubeletError};
use ckpt_journal::{Journal, JournalError, Record, Row, Unopened};
use dra_ports::Disk;
use dra_values::Text;
use std::alloc::Global;

impl<D: Disk> Kubelet<D> {
    /// Opens the kubelet of a node over the disk of its checkpoint, which is synced and read, and moved over if it is of
    /// version 1. `half` is the size of a half in bytes of a file that is moved over, a power of two from 4,096 to
    /// 134,217,728. A crash at any moment after the sync leaves the table of the records read.
    ///
    /// `NotAJournal(offset)` is returned only if the bytes are no journal, and if so no call returns `Ok`. `Memory` is
    /// returned only if memory runs out, and `DiskFault` only if the disk's error count rose in this call or is at its
    /// last value. An error hands the disk back; all but `DiskFault` have written nothing to it.
    pub fn open(
        alloc: Global,
        disk: D,
        node: &str,
        half: u32,
    ) -> Result<Kubelet<D>, Unopened<D, KubeletError>>
        requires { is_half half ≡ true }
        ensures node { IfOk result (λ k. node_in k ≡ node.now) }
        ensures going { IfOk result (λ k. has_ended k ≡ false) }
        ensures claims { IfOk result (λ k. IfSome (D.content disk) (λ c. tabled (records c.bytes) ≡ Ok (rows_in k))) }
        ensures kept { IfOk result (λ k. IfSome (D.content (disk_in k)) (Keeps (rows_in k))) }
        ensures half { IfOk result (λ k. IfSome (D.content disk) (λ c. IfOk (layout_of c.bytes) (λ layout. half_in k ≡ half_opened half (rows_in k) layout))) }
        ensures any_moment { IfOk result (λ k. AtEachMoment (HasTable (rows_in k)) (option_map synced (D.content disk)) (D.content (disk_in k))) }
        ensures no_fault { IfOk result (λ k. D.faults (disk_in k) ≡ D.faults disk) }
        ensures bytes { IfErr result (λ e. IfSome (D.content disk) (λ c. (at : ℕ) → e.why ≡ KubeletError.NotAJournal at → records c.bytes ≡ Err at)) }
        ensures fault { IfErr result (λ e. e.why ≡ KubeletError.DiskFault → Rose (D.faults disk) (D.faults e.disk)) }
        ensures other { IfErr result (λ e. (e.why ≡ KubeletError.DiskFault → ⊥) → D.faults e.disk ≡ D.faults disk) }
        ensures only { IfErr result (λ e. IsOfOpening e.why) }
        ensures stopped { IfErr result (λ e. AfterSync (D.content disk) (D.content e.disk)) }
        ensures handed { IfErr result (λ e. (e.why ≡ KubeletError.DiskFault → ⊥) → (D.content e.disk ≡ D.content disk) ⊎ (D.content e.disk ≡ option_map synced (D.content disk))) }
    {
        let Ok(node) = Text::from_str(alloc, node) else {
            let why = KubeletError::Memory;
            return Err(Unopened { disk, why });
        };
        match Journal::open(alloc, disk, half) {
            Ok((journal, _records)) => Ok(Kubelet { journal, node }),
            Err(unopened) => Err(Unopened {
                disk: unopened.disk,
                why: KubeletError::from(unopened.why),
            }),
        }
    }

    /// The rows of the table, in the order in which they were made. After a `DiskFault` they may be those from before
    /// the failed record or those with it. Allocates nothing.
    pub fn claims(&self) -> &[Row]
        ensures { result.now ≡ rows_in self.now }
    {
        self.journal.rows()
    }

    /// The name of the node. Allocates nothing.
    pub fn node(&self) -> &str
        ensures { result.now ≡ node_in self.now }
    {
        self.node.as_str()
    }

    /// Hands the disk back unchanged. Touches nothing and allocates nothing.
    pub fn close(self) -> D
        ensures { result ≡ disk_in self }
    {
        let Kubelet { journal, node: _ } = self;
        journal.close()
    }

    /// States what a kubelet that has not ended keeps: its table, which whatever a crash leaves has, and the size of the
    /// halves of its checkpoint, which is of version 2.
    pub fn keeps(&self)
        ensures table { has_ended self.now ≡ false → IfSome (D.content (disk_in self.now)) (Keeps (rows_in self.now)) }
        ensures readable { AllByRecursion ReadsBack (compact (rows_in self.now)) }
        ensures half { has_ended self.now ≡ false → IfSome (D.content (disk_in self.now)) (HasHalves (half_in self.now)) }
    {
        self.journal.keeps()
    }

    /// Adds a record to the checkpoint.
    pub(crate) fn record(&mut self, alloc: Global, item: &Record) -> Result<(), KubeletError>
        requires { ReadsBack item.now }
        ensures any_moment { has_ended self.old ≡ false → AtEachMoment (IsBeforeOrAfter (rows_in self.old) item.now) (D.content (disk_in self.old)) (D.content (disk_in self.new)) }
        ensures rows { OnOk result (rows_in self.new ≡ row_after (rows_in self.old) item.now) }
        ensures kept { OnErr result (IsErrOf result KubeletError.DiskFault ⊎ rows_in self.new ≡ rows_in self.old) }
        ensures half { half_in self.new ≡ half_in self.old }
        ensures node { node_in self.new ≡ node_in self.old }
        ensures going { OnOk result (has_ended self.new ≡ false) }
        ensures mark { OnErr result (IsErrOf result KubeletError.DiskFault ⊎ has_ended self.new ≡ has_ended self.old) }
        ensures closed { IsErrOf result KubeletError.Closed ↔ (has_ended self.old ≡ true) }
        ensures full { IsErrOf result KubeletError.Full → is_full (half_in self.old) (rows_in self.old) item.now ≡ true }
        ensures room { (IsOk result ⊎ IsErrOf result KubeletError.DiskFault) → is_full (half_in self.old) (rows_in self.old) item.now ≡ false }
        ensures fault { IsErrOf result KubeletError.DiskFault → Rose (D.faults (disk_in self.old)) (D.faults (disk_in self.new)) × (has_ended self.new ≡ true) }
        ensures no_fault { (IsErrOf result KubeletError.DiskFault → ⊥) → D.faults (disk_in self.new) ≡ D.faults (disk_in self.old) }
        ensures only { IfErr result IsOfJournal }
    {
        match self.journal.append(alloc, item) {
            Ok(()) => Ok(()),
            Err(JournalError::DiskFault) => Err(KubeletError::DiskFault),
            Err(JournalError::Full) => Err(KubeletError::Full),
            Err(JournalError::Closed) => Err(KubeletError::Closed),
            Err(JournalError::Memory) => Err(KubeletError::Memory),
            Err(JournalError::NotAJournal(at)) => Err(KubeletError::NotAJournal(at)),
        }
    }

    /// Adds a record to the checkpoint, and lets it go.
    pub(crate) fn record_item(&mut self, alloc: Global, item: Record) -> Result<(), KubeletError>
        requires { ReadsBack item }
        ensures any_moment { has_ended self.old ≡ false → AtEachMoment (IsBeforeOrAfter (rows_in self.old) item) (D.content (disk_in self.old)) (D.content (disk_in self.new)) }
        ensures rows { OnOk result (rows_in self.new ≡ row_after (rows_in self.old) item) }
        ensures kept { OnErr result (IsErrOf result KubeletError.DiskFault ⊎ rows_in self.new ≡ rows_in self.old) }
        ensures half { half_in self.new ≡ half_in self.old }
        ensures node { node_in self.new ≡ node_in self.old }
        ensures going { OnOk result (has_ended self.new ≡ false) }
        ensures mark { OnErr result (IsErrOf result KubeletError.DiskFault ⊎ has_ended self.new ≡ has_ended self.old) }
        ensures closed { IsErrOf result KubeletError.Closed ↔ (has_ended self.old ≡ true) }
        ensures full { IsErrOf result KubeletError.Full → is_full (half_in self.old) (rows_in self.old) item ≡ true }
        ensures room { (IsOk result ⊎ IsErrOf result KubeletError.DiskFault) → is_full (half_in self.old) (rows_in self.old) item ≡ false }
        ensures fault { IsErrOf result KubeletError.DiskFault → Rose (D.faults (disk_in self.old)) (D.faults (disk_in self.new)) × (has_ended self.new ≡ true) }
        ensures no_fault { (IsErrOf result KubeletError.DiskFault → ⊥) → D.faults (disk_in self.new) ≡ D.faults (disk_in self.old) }
        ensures only { IfErr result IsOfJournal }
    {
        let result = self.record(alloc, &item);
        drop(item);
        result
    }
}
