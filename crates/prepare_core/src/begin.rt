ghost use Rattle.std.specs.Prelude.{◌≡◌, ◌⊎◌, ◌&&◌, IfErr, IfOk, IfSome, IsErrOf, IsOk, None, OnErr, OnOk, Some, false, is_none, true};
ghost use Rattle.dra_ports.specs.Causes.{Rose};
ghost use Rattle.dra_ports.specs.DiskImages.{AtEachMoment};
ghost use Rattle.ckpt_journal.specs.Names.{KeyReadsBack};
ghost use Rattle.ckpt_journal.specs.Plan.{is_full};
ghost use Rattle.ckpt_journal.specs.Standing.{IsBeforeOrAfter, Keeps};
ghost use Rattle.ckpt_journal.specs.Table.{row, row_after};
ghost use Rattle.ckpt_journal.specs.declared.record.Record.TheVariants as items;
ghost use Rattle.ckpt_journal.specs.declared.record.RowState.TheVariants as states;
ghost use Rattle.prepare_core.specs.Handed.{IfRecorded, IsRefusal, begun_of, by_begin, claim_of_begun};
ghost use Rattle.prepare_core.specs.Prepare.{begins_full, begun_claim, refusal};
ghost use Rattle.prepare_core.specs.Readable.{IsReadable};
ghost use Rattle.prepare_core.specs.Runs.{IsOfRecord, is_crowded};
ghost use Rattle.prepare_core.specs.Table.{begun_pods, is_prepared, row_of};
ghost use Rattle.prepare_core.specs.Words.{disk_in, half_in, has_ended, node_in, rows_in};

use crate::rows::{claim_for, find_row, is_among, pods_to_begin};
use crate::{Begun, ClaimForNode, Kubelet, KubeletError, Refused};
use ckpt_journal::{Record, Row};
use dra_ports::Disk;
use dra_values::Seq;
use object_fields::Key;
use std::alloc::{AllocError, Global};

/// The most claims of a table to which a further one is added.
const MOST_CLAIMS: usize = 1024;

/// The pods that a claim's preparation begins for, and the record of it.
fn pods_and_record(
    alloc: Global,
    rows: &[Row],
    pod: &Key,
    claim: &ClaimForNode,
) -> Result<(Seq<Key>, Record), AllocError>
    ensures pods { IfOk result (λ x. x.0 ≡ begun_pods pod.now (row_of claim.now.uid rows.now)) }
    ensures item { IfOk result (λ x. x.1 ≡ items.Begun (begun_claim pod.now claim.now rows.now)) }
{
    let pods = pods_to_begin(alloc, rows, claim.uid.as_str(), pod)?;
    let begun = claim_for(alloc, claim, &pods)?;
    Ok((pods, Record::Begun(begun)))
}

/// Whether the claim has no row and the table takes no further one. Allocates nothing.
fn is_crowded_for(rows: &[Row], uid: &str) -> bool
    ensures { result ≡ (is_none (row_of uid.now rows.now) && is_crowded rows.now) }
{
    find_row(rows, uid).is_none() && rows.len() >= MOST_CLAIMS
}

/// An equal claim, the pods that its preparation begins for, and the record of it.
fn begun_parts(
    alloc: Global,
    rows: &[Row],
    pod: &Key,
    claim: &ClaimForNode,
) -> Result<(ClaimForNode, Seq<Key>, Record), KubeletError>
    ensures copied { IfOk result (λ x. x.0 ≡ claim.now) }
    ensures pods { IfOk result (λ x. x.1 ≡ begun_pods pod.now (row_of claim.now.uid rows.now)) }
    ensures item { IfOk result (λ x. x.2 ≡ items.Begun (begun_claim pod.now claim.now rows.now)) }
    ensures room { OnOk result ((is_none (row_of claim.now.uid rows.now) && is_crowded rows.now) ≡ false) }
    ensures full { IsErrOf result KubeletError.Full → (is_none (row_of claim.now.uid rows.now) && is_crowded rows.now) ≡ true }
    ensures only { IfErr result (λ e. (e ≡ KubeletError.Full) ⊎ (e ≡ KubeletError.Memory)) }
{
    if is_crowded_for(rows, claim.uid.as_str()) {
        return Err(KubeletError::Full);
    }
    let copied = claim.copy(alloc)?;
    let (pods, item) = pods_and_record(alloc, rows, pod, claim)?;
    Ok((copied, pods, item))
}

impl<D: Disk> Kubelet<D> {
    /// Why a claim isn't prepared for a pod, before the table is looked at. Allocates nothing.
    pub(crate) fn refusal(&self, pod: &Key, claim: &ClaimForNode) -> Option<KubeletError>
        ensures { result ≡ refusal (has_ended self.now) (node_in self.now) pod.now claim.now }
    {
        if self.journal.has_ended() {
            return Some(KubeletError::Closed);
        }
        let Some(node) = &claim.node else {
            return Some(KubeletError::NotAllocated);
        };
        if !is_among(claim.pods.as_slice(), pod) {
            return Some(KubeletError::NotReserved);
        }
        if *node != self.node {
            return Some(KubeletError::OtherNode);
        }
        None
    }

    /// Records that a claim's preparation has begun, and returns an equal claim and the pods that it is begun for.
    fn record_begun(
        &mut self,
        alloc: Global,
        pod: &Key,
        claim: &ClaimForNode,
    ) -> Result<(ClaimForNode, Seq<Key>), KubeletError>
        requires readable { IsReadable pod.now claim.now }
        requires going { has_ended self.old ≡ false }
        ensures any_moment { AtEachMoment (IsBeforeOrAfter (rows_in self.old) (items.Begun (begun_claim pod.now claim.now (rows_in self.old)))) (D.content (disk_in self.old)) (D.content (disk_in self.new)) }
        ensures copied { IfOk result (λ x. x.0 ≡ claim.now) }
        ensures pods { IfOk result (λ x. x.1 ≡ begun_pods pod.now (row_of claim.now.uid (rows_in self.old))) }
        ensures rows { OnOk result (rows_in self.new ≡ row_after (rows_in self.old) (items.Begun (begun_claim pod.now claim.now (rows_in self.old)))) }
        ensures kept { OnErr result (IsErrOf result KubeletError.DiskFault ⊎ rows_in self.new ≡ rows_in self.old) }
        ensures half { half_in self.new ≡ half_in self.old }
        ensures node { node_in self.new ≡ node_in self.old }
        ensures going { (IsErrOf result KubeletError.DiskFault → ⊥) → has_ended self.new ≡ false }
        ensures full { IsErrOf result KubeletError.Full → begins_full (half_in self.old) pod.now claim.now (rows_in self.old) ≡ true }
        ensures room { (IsOk result ⊎ IsErrOf result KubeletError.DiskFault) → begins_full (half_in self.old) pod.now claim.now (rows_in self.old) ≡ false }
        ensures fault { IsErrOf result KubeletError.DiskFault → Rose (D.faults (disk_in self.old)) (D.faults (disk_in self.new)) × (has_ended self.new ≡ true) }
        ensures no_fault { (IsErrOf result KubeletError.DiskFault → ⊥) → D.faults (disk_in self.new) ≡ D.faults (disk_in self.old) }
        ensures only { IfErr result IsOfRecord }
    {
        self.keeps();
        let (copied, pods, item) = begun_parts(alloc, self.claims(), pod, claim)?;
        match self.record_item(alloc, item) {
            Ok(()) => Ok((copied, pods)),
            Err(why) => {
                drop((copied, pods));
                Err(why)
            }
        }
    }
}

impl<D: Disk> Kubelet<D> {
    /// Records that the preparation of a claim for a pod has begun. From then on the driver may be asked. The claim is
    /// absent, Begun or Leaving. The pods of a row that is Begun stay; those of a row that is Leaving go. Each key and
    /// device id has to be the one that its printed form reads as.
    ///
    /// `Closed`, `NotAllocated`, `NotReserved` and `OtherNode` are looked at first, in this order, and returned if and
    /// only if the kubelet has ended, the claim has no node, the pod isn't among its pods, or its node isn't the
    /// kubelet's. `Full` is returned only if the claim has no row and the table has 1,024, or the journal is full for
    /// the record, and if so no call returns `Ok`. `DiskFault` is returned only if the disk's error count rose in this
    /// call or is at its last value. All errors but `DiskFault` change nothing; that one ends the kubelet.
    pub fn begin(
        self,
        alloc: Global,
        pod: &Key,
        claim: &ClaimForNode,
    ) -> Result<Begun<D>, Refused<D>>
        requires readable { IsReadable pod.now claim.now }
        requires open { is_prepared claim.now.uid (rows_in self) ≡ false }
        ensures any_moment { has_ended self ≡ false → AtEachMoment (IsBeforeOrAfter (rows_in self) (items.Begun (begun_claim pod.now claim.now (rows_in self)))) (D.content (disk_in self)) (D.content (disk_in (by_begin result))) }
        ensures rows { IfOk result (λ b. rows_in b.kubelet ≡ row_after (rows_in self) (items.Begun (begun_claim pod.now claim.now (rows_in self)))) }
        ensures acknowledged { IfOk result (λ b. IfSome (D.content (disk_in b.kubelet)) (Keeps (rows_in b.kubelet))) }
        ensures claim { IfOk result (λ b. claim_of_begun b ≡ claim.now) }
        ensures begun { IfOk result (λ b. begun_of b ≡ begun_claim pod.now claim.now (rows_in self)) }
        ensures half { half_in (by_begin result) ≡ half_in self }
        ensures node { node_in (by_begin result) ≡ node_in self }
        ensures refused { IfSome (refusal (has_ended self) (node_in self) pod.now claim.now) (IsRefusal result) }
        ensures only { IfErr result (λ e. (refusal (has_ended self) (node_in self) pod.now claim.now ≡ Some e.why) ⊎ IsOfRecord e.why) }
        ensures full { IfErr result (λ e. e.why ≡ KubeletError.Full → begins_full (half_in self) pod.now claim.now (rows_in self) ≡ true) }
        ensures room { IfRecorded result (begins_full (half_in self) pod.now claim.now (rows_in self) ≡ false) }
        ensures kept { IfErr result (λ e. (e.why ≡ KubeletError.DiskFault) ⊎ (rows_in e.kubelet ≡ rows_in self)) }
        ensures fault { IfErr result (λ e. e.why ≡ KubeletError.DiskFault → Rose (D.faults (disk_in self)) (D.faults (disk_in e.kubelet)) × (has_ended e.kubelet ≡ true)) }
        ensures no_fault { IfErr result (λ e. (e.why ≡ KubeletError.DiskFault → ⊥) → D.faults (disk_in e.kubelet) ≡ D.faults (disk_in self)) }
        ensures count { IfOk result (λ b. D.faults (disk_in b.kubelet) ≡ D.faults (disk_in self)) }
        ensures going { has_ended self ≡ false → IfErr result (λ e. (e.why ≡ KubeletError.DiskFault → ⊥) → has_ended e.kubelet ≡ false) }
    {
        self.keeps();
        if let Some(why) = self.refusal(pod, claim) {
            return Err(Refused { kubelet: self, why });
        }
        let mut kubelet = self;
        match kubelet.record_begun(alloc, pod, claim) {
            Ok((claim, pods)) => {
                kubelet.keeps();
                Ok(Begun {
                    kubelet,
                    claim,
                    pods,
                })
            }
            Err(why) => Err(Refused { kubelet, why }),
        }
    }
}
