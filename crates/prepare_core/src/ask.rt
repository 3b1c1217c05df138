ghost use Rattle.std.specs.Prelude.{◌≡◌, ◌⊎◌, IfErr, IfOk, IfSome, IsErrOf, IsOk, OnErr, OnOk, Some, false, true};
ghost use Rattle.std.specs.Option.{option_map};
ghost use Rattle.dra_ports.specs.Causes.{Rose};
ghost use Rattle.dra_ports.specs.DiskImages.{AtEachMoment, Leaves};
ghost use Rattle.ckpt_journal.specs.Format.{ClaimReadsBack};
ghost use Rattle.ckpt_journal.specs.Plan.{is_full};
ghost use Rattle.ckpt_journal.specs.Standing.{IsBeforeOrAfter, Keeps};
ghost use Rattle.ckpt_journal.specs.Table.{row, row_after};
ghost use Rattle.ckpt_journal.specs.declared.record.Record.TheVariants as items;
ghost use Rattle.ckpt_journal.specs.declared.record.RowState.TheVariants as states;
ghost use Rattle.prepare_core.specs.Calls.{call};
ghost use Rattle.prepare_core.specs.Handed.{IfRecorded, asked_of, begun_of, by_ask, by_finish, claim_of_asked, claim_of_begun};
ghost use Rattle.prepare_core.specs.Moments.{HasStable};
ghost use Rattle.prepare_core.specs.Names.{names_of};
ghost use Rattle.prepare_core.specs.Runs.{IsOfRecord, called};
ghost use Rattle.prepare_core.specs.Table.{claim_with, row_of};
ghost use Rattle.prepare_core.specs.Words.{disk_in, half_in, has_ended, node_in, rows_in};
ghost use Rattle.prepare_core.specs.declared.driver.CallKind.TheVariants as kinds;

use crate::rows::device_names;
use crate::{Asked, Begun, ClaimForNode, Driver, Kubelet, KubeletError, Names, Refused};
use ckpt_journal::{Claim, Record};
use dra_ports::Disk;
use dra_values::Seq;
use object_fields::Key;
use std::alloc::{AllocError, Global};

impl<D: Disk> Begun<D> {
    /// States what stands while the driver is asked: whatever a crash leaves has the claim as Begun.
    pub fn stands(&self)
        ensures going { has_ended self.now.kubelet ≡ false }
        ensures row { row_of (claim_of_begun self.now).uid (rows_in self.now.kubelet) ≡ Some (row states.Begun (begun_of self.now)) }
        ensures images { IfSome (D.content (disk_in self.now.kubelet)) (HasStable (row states.Begun (begun_of self.now))) }
    {
        self.kubelet.keeps();
        let _pods = &self.pods;
    }

    /// Asks the driver to prepare the claim that was handed in. The disk isn't touched.
    ///
    /// `DriverFault` is returned only if the driver's error count rose in this call or is at its last value, and
    /// `Memory` only if the driver is out of memory. After both the claim stays Begun.
    pub fn ask<V: Driver>(self, driver: &mut V) -> Result<Asked<D>, Refused<D>>
        ensures same { (disk_in (by_ask result) ≡ disk_in self.kubelet) × (rows_in (by_ask result) ≡ rows_in self.kubelet) }
        ensures half { half_in (by_ask result) ≡ half_in self.kubelet }
        ensures node { node_in (by_ask result) ≡ node_in self.kubelet }
        ensures going { has_ended (by_ask result) ≡ false }
        ensures claim { IfOk result (λ a. (claim_of_asked a ≡ claim_of_begun self) × (asked_of a ≡ begun_of self)) }
        ensures asked { IfOk result (λ _. V.calls driver.new ≡ option_map (called kinds.Prepare (claim_of_begun self) true) (V.calls driver.old)) }
        ensures failed { IfErr result (λ e. e.why ≡ KubeletError.DriverFault → (V.calls driver.new ≡ option_map (called kinds.Prepare (claim_of_begun self) false) (V.calls driver.old))
            × Rose (V.faults driver.old) (V.faults driver.new)) }
        ensures memory { IfErr result (λ e. e.why ≡ KubeletError.Memory → V.calls driver.new ≡ V.calls driver.old) }
        ensures only { IfErr result (λ e. (e.why ≡ KubeletError.DriverFault) ⊎ (e.why ≡ KubeletError.Memory)) }
        ensures no_fault { (IfErr result (λ e. e.why ≡ KubeletError.DriverFault → ⊥)) → V.faults driver.new ≡ V.faults driver.old }
    {
        let Begun {
            kubelet,
            claim,
            pods,
        } = self;
        match driver.prepare(&claim) {
            Ok(()) => Ok(Asked {
                kubelet,
                claim,
                pods,
            }),
            Err(why) => Err(Refused {
                kubelet,
                why: KubeletError::from(why),
            }),
        }
    }
}

/// The names of a claim's devices, and the record that it is prepared.
fn names_and_record(alloc: Global, claim: Claim) -> Result<(Names, Record), AllocError>
    ensures { IfOk result (λ x. (x.0 ≡ names_of claim) × (x.1 ≡ items.Prepared claim)) }
{
    let names = device_names(alloc, &claim.uid, claim.devices.as_slice())?;
    Ok((names, Record::Prepared(claim)))
}

impl<D: Disk> Kubelet<D> {
    /// Records that a claim is prepared, and returns the names of its devices.
    pub(crate) fn record_prepared(
        &mut self,
        alloc: Global,
        claim: Claim,
    ) -> Result<Names, KubeletError>
        requires readable { ClaimReadsBack claim }
        requires going { has_ended self.old ≡ false }
        ensures any_moment { AtEachMoment (IsBeforeOrAfter (rows_in self.old) (items.Prepared claim)) (D.content (disk_in self.old)) (D.content (disk_in self.new)) }
        ensures rows { OnOk result (rows_in self.new ≡ row_after (rows_in self.old) (items.Prepared claim)) }
        ensures names { IfOk result (λ names. names ≡ names_of claim) }
        ensures kept { OnErr result (IsErrOf result KubeletError.DiskFault ⊎ rows_in self.new ≡ rows_in self.old) }
        ensures half { half_in self.new ≡ half_in self.old }
        ensures node { node_in self.new ≡ node_in self.old }
        ensures going { (IsErrOf result KubeletError.DiskFault → ⊥) → has_ended self.new ≡ false }
        ensures full { IsErrOf result KubeletError.Full → is_full (half_in self.old) (rows_in self.old) (items.Prepared claim) ≡ true }
        ensures room { (IsOk result ⊎ IsErrOf result KubeletError.DiskFault) → is_full (half_in self.old) (rows_in self.old) (items.Prepared claim) ≡ false }
        ensures fault { IsErrOf result KubeletError.DiskFault → Rose (D.faults (disk_in self.old)) (D.faults (disk_in self.new)) × (has_ended self.new ≡ true) }
        ensures no_fault { (IsErrOf result KubeletError.DiskFault → ⊥) → D.faults (disk_in self.new) ≡ D.faults (disk_in self.old) }
        ensures only { IfErr result IsOfRecord }
    {
        self.keeps();
        let (names, item) = names_and_record(alloc, claim)?;
        match self.record_item(alloc, item) {
            Ok(()) => Ok(names),
            Err(why) => Err(why),
        }
    }
}

/// What is recorded of the claim handed in, for these pods.
fn claim_of(claim: ClaimForNode, pods: Seq<Key>) -> Claim
    ensures { result ≡ claim_with claim pods }
{
    let ClaimForNode {
        uid,
        key,
        node: _,
        pods: _,
        devices,
    } = claim;
    Claim {
        uid,
        key,
        pods,
        devices,
    }
}

impl<D: Disk> Asked<D> {
    /// States what stands until the claim is recorded as Prepared: whatever a crash leaves has it as Begun.
    pub fn stands(&self)
        ensures going { has_ended self.now.kubelet ≡ false }
        ensures row { row_of (claim_of_asked self.now).uid (rows_in self.now.kubelet) ≡ Some (row states.Begun (asked_of self.now)) }
        ensures images { IfSome (D.content (disk_in self.now.kubelet)) (HasStable (row states.Begun (asked_of self.now))) }
        ensures readable { ClaimReadsBack (asked_of self.now) }
    {
        self.kubelet.keeps();
        let _pods = &self.pods;
    }

    /// Records that the claim is prepared, and returns the names of its devices.
    ///
    /// `Full` is returned only if the journal is full for the record, and if so no call returns `Ok`. `DiskFault` is
    /// returned only if the disk's error count rose in this call or is at its last value. After `Full` and `Memory` the
    /// claim stays Begun; `DiskFault` ends the kubelet.
    pub fn finish(self, alloc: Global) -> Result<(Kubelet<D>, Names), Refused<D>>
        ensures any_moment { AtEachMoment (IsBeforeOrAfter (rows_in self.kubelet) (items.Prepared (asked_of self))) (D.content (disk_in self.kubelet)) (D.content (disk_in (by_finish result))) }
        ensures rows { IfOk result (λ x. rows_in x.0 ≡ row_after (rows_in self.kubelet) (items.Prepared (asked_of self))) }
        ensures acknowledged { IfOk result (λ x. IfSome (D.content (disk_in x.0)) (Keeps (rows_in x.0))) }
        ensures names { IfOk result (λ x. x.1 ≡ names_of (asked_of self)) }
        ensures half { half_in (by_finish result) ≡ half_in self.kubelet }
        ensures node { node_in (by_finish result) ≡ node_in self.kubelet }
        ensures only { IfErr result (λ e. IsOfRecord e.why) }
        ensures full { IfErr result (λ e. e.why ≡ KubeletError.Full → is_full (half_in self.kubelet) (rows_in self.kubelet) (items.Prepared (asked_of self)) ≡ true) }
        ensures room { IfRecorded result (is_full (half_in self.kubelet) (rows_in self.kubelet) (items.Prepared (asked_of self)) ≡ false) }
        ensures kept { IfErr result (λ e. (e.why ≡ KubeletError.DiskFault) ⊎ (rows_in e.kubelet ≡ rows_in self.kubelet)) }
        ensures fault { IfErr result (λ e. e.why ≡ KubeletError.DiskFault → Rose (D.faults (disk_in self.kubelet)) (D.faults (disk_in e.kubelet)) × (has_ended e.kubelet ≡ true)) }
        ensures no_fault { IfErr result (λ e. (e.why ≡ KubeletError.DiskFault → ⊥) → D.faults (disk_in e.kubelet) ≡ D.faults (disk_in self.kubelet)) }
        ensures count { IfOk result (λ x. D.faults (disk_in x.0) ≡ D.faults (disk_in self.kubelet)) }
        ensures going { IfOk result (λ x. has_ended x.0 ≡ false) }
        ensures open { IfErr result (λ e. (e.why ≡ KubeletError.DiskFault → ⊥) → has_ended e.kubelet ≡ false) }
    {
        self.stands();
        let Asked {
            mut kubelet,
            claim,
            pods,
        } = self;
        match kubelet.record_prepared(alloc, claim_of(claim, pods)) {
            Ok(names) => {
                kubelet.keeps();
                Ok((kubelet, names))
            }
            Err(why) => Err(Refused { kubelet, why }),
        }
    }
}
