ghost use Rattle.std.specs.Prelude.{◌≡◌, ◌⊎◌, ◌↔◌, ◌∷◌, [], IfErr, IfOk, IfSome, IsErrOf, IsOk, None, OnErr, OnOk, Some, false, true};
ghost use Rattle.dra_ports.specs.Causes.{Rose};
ghost use Rattle.dra_ports.specs.DiskImages.{AtEachMoment};
ghost use Rattle.ckpt_journal.specs.Plan.{is_full};
ghost use Rattle.ckpt_journal.specs.Standing.{IsBeforeOrAfter, Keeps};
ghost use Rattle.ckpt_journal.specs.Table.{row_after, table_from};
ghost use Rattle.ckpt_journal.specs.declared.record.Record.TheVariants as items;
ghost use Rattle.prepare_core.specs.Held.{LosesHeld, WithCalls};
ghost use Rattle.prepare_core.specs.Moments.{HasAdded, HasPrefix};
ghost use Rattle.prepare_core.specs.Runs.{AskedAtMost, Follows, IsOfRecord};
ghost use Rattle.prepare_core.specs.Table.{row_of};
ghost use Rattle.prepare_core.specs.Unprepare.{AskedBack, IsBackRefusal, back_by_row, leave_run, unprepare_records, unprepare_run};
ghost use Rattle.prepare_core.specs.Words.{disk_in, half_in, has_ended, node_in, rows_in};
ghost use Rattle.prepare_core.specs.declared.driver.CallKind.TheVariants as kinds;

use crate::moments::{held_claims_stay, prefixes_join};
use crate::way::{WayBack, way_back_for};
use crate::{ClaimForNode, Driver, Kubelet, KubeletError};
use ckpt_journal::Record;
use dra_ports::Disk;
use dra_values::Text;
use object_fields::Key;
use std::alloc::Global;

impl<D: Disk> Kubelet<D> {
    /// What giving a claim up for a pod does.
    fn back(&self, alloc: Global, pod: &Key, uid: &str) -> Result<WayBack, KubeletError>
        ensures way { IfOk result (λ w. back_by_row (node_in self.now) pod.now (row_of uid.now (rows_in self.now)) ≡ Some w) }
        ensures going { OnOk result (has_ended self.now ≡ false) }
        ensures only { IfErr result (IsBackRefusal (has_ended self.now) (back_by_row (node_in self.now) pod.now (row_of uid.now (rows_in self.now)))) }
    {
        if self.journal.has_ended() {
            return Err(KubeletError::Closed);
        }
        match way_back_for(alloc, &self.node, self.claims(), uid, pod) {
            Ok(Some(way)) => Ok(way),
            Ok(None) => Err(KubeletError::NotPrepared),
            Err(_) => Err(KubeletError::Memory),
        }
    }

    /// Records that a claim is leaving.
    fn record_leaving(&mut self, alloc: Global, uid: &str) -> Result<(), KubeletError>
        requires { has_ended self.old ≡ false }
        ensures any_moment { AtEachMoment (IsBeforeOrAfter (rows_in self.old) (items.Leaving uid.now)) (D.content (disk_in self.old)) (D.content (disk_in self.new)) }
        ensures rows { OnOk result (rows_in self.new ≡ row_after (rows_in self.old) (items.Leaving uid.now)) }
        ensures kept { OnErr result (IsErrOf result KubeletError.DiskFault ⊎ rows_in self.new ≡ rows_in self.old) }
        ensures half { half_in self.new ≡ half_in self.old }
        ensures node { node_in self.new ≡ node_in self.old }
        ensures going { (IsErrOf result KubeletError.DiskFault → ⊥) → has_ended self.new ≡ false }
        ensures full { IsErrOf result KubeletError.Full → is_full (half_in self.old) (rows_in self.old) (items.Leaving uid.now) ≡ true }
        ensures room { (IsOk result ⊎ IsErrOf result KubeletError.DiskFault) → is_full (half_in self.old) (rows_in self.old) (items.Leaving uid.now) ≡ false }
        ensures fault { IsErrOf result KubeletError.DiskFault → Rose (D.faults (disk_in self.old)) (D.faults (disk_in self.new)) × (has_ended self.new ≡ true) }
        ensures no_fault { (IsErrOf result KubeletError.DiskFault → ⊥) → D.faults (disk_in self.new) ≡ D.faults (disk_in self.old) }
        ensures only { IfErr result IsOfRecord }
    {
        self.keeps();
        let uid = Text::from_str(alloc, uid)?;
        match self.record_item(alloc, Record::Leaving(uid)) {
            Ok(()) => Ok(()),
            Err(why) => Err(why),
        }
    }

    /// Records that a claim is gone.
    fn record_gone(&mut self, alloc: Global, uid: &str) -> Result<(), KubeletError>
        requires { has_ended self.old ≡ false }
        ensures any_moment { AtEachMoment (IsBeforeOrAfter (rows_in self.old) (items.Gone uid.now)) (D.content (disk_in self.old)) (D.content (disk_in self.new)) }
        ensures rows { OnOk result (rows_in self.new ≡ row_after (rows_in self.old) (items.Gone uid.now)) }
        ensures kept { OnErr result (IsErrOf result KubeletError.DiskFault ⊎ rows_in self.new ≡ rows_in self.old) }
        ensures half { half_in self.new ≡ half_in self.old }
        ensures node { node_in self.new ≡ node_in self.old }
        ensures going { (IsErrOf result KubeletError.DiskFault → ⊥) → has_ended self.new ≡ false }
        ensures full { IsErrOf result KubeletError.Full → is_full (half_in self.old) (rows_in self.old) (items.Gone uid.now) ≡ true }
        ensures room { (IsOk result ⊎ IsErrOf result KubeletError.DiskFault) → is_full (half_in self.old) (rows_in self.old) (items.Gone uid.now) ≡ false }
        ensures fault { IsErrOf result KubeletError.DiskFault → Rose (D.faults (disk_in self.old)) (D.faults (disk_in self.new)) × (has_ended self.new ≡ true) }
        ensures no_fault { (IsErrOf result KubeletError.DiskFault → ⊥) → D.faults (disk_in self.new) ≡ D.faults (disk_in self.old) }
        ensures only { IfErr result IsOfRecord }
    {
        self.keeps();
        let uid = Text::from_str(alloc, uid)?;
        match self.record_item(alloc, Record::Gone(uid)) {
            Ok(()) => Ok(()),
            Err(why) => Err(why),
        }
    }

    /// Records that a claim is leaving, asks the driver to take it back, and records that it is gone.
    fn take_back<V: Driver>(
        &mut self,
        alloc: Global,
        uid: &str,
        claim: &ClaimForNode,
        driver: &mut V,
    ) -> Result<(), KubeletError>
        requires going { has_ended self.old ≡ false }
        requires uid { claim.now.uid ≡ uid.now }
        ensures any_moment { AtEachMoment (HasPrefix (rows_in self.old) (items.Leaving uid.now ∷ items.Gone uid.now ∷ [])) (D.content (disk_in self.old)) (D.content (disk_in self.new)) }
        ensures follows { Follows (leave_run (half_in self.old) uid.now (rows_in self.old) claim.now) result (rows_in self.new) (V.calls driver.old) (V.calls driver.new) }
        ensures rows { OnOk result (rows_in self.new ≡ row_after (row_after (rows_in self.old) (items.Leaving uid.now)) (items.Gone uid.now)) }
        ensures kept { OnErr result (IsErrOf result KubeletError.DiskFault ⊎ HasAdded (rows_in self.old) (items.Leaving uid.now ∷ items.Gone uid.now ∷ []) (rows_in self.new)) }
        ensures asked { AskedAtMost true kinds.Unprepare claim.now (V.calls driver.old) (V.calls driver.new) }
        ensures half { half_in self.new ≡ half_in self.old }
        ensures node { node_in self.new ≡ node_in self.old }
        ensures going { (IsErrOf result KubeletError.DiskFault → ⊥) → has_ended self.new ≡ false }
        ensures fault { IsErrOf result KubeletError.DiskFault → Rose (D.faults (disk_in self.old)) (D.faults (disk_in self.new)) × (has_ended self.new ≡ true) }
        ensures driver_fault { IsErrOf result KubeletError.DriverFault → Rose (V.faults driver.old) (V.faults driver.new) }
        ensures held { WithCalls (λ before after. LosesHeld (rows_in self.old) before after (D.content (disk_in self.old)) (D.content (disk_in self.new))) (V.calls driver.old) (V.calls driver.new) }
        ensures no_fault { (IsErrOf result KubeletError.DiskFault → ⊥) → D.faults (disk_in self.new) ≡ D.faults (disk_in self.old) }
        ensures no_driver_fault { (IsErrOf result KubeletError.DriverFault → ⊥) → V.faults driver.new ≡ V.faults driver.old }
    {
        prefixes_join();
        held_claims_stay();
        match self.record_leaving(alloc, uid) {
            Ok(()) => {}
            Err(why) => return Err(why),
        }
        match driver.unprepare(claim) {
            Ok(()) => {}
            Err(why) => return Err(KubeletError::from(why)),
        }
        match self.record_gone(alloc, uid) {
            Ok(()) => Ok(()),
            Err(why) => Err(why),
        }
    }

    /// Gives a claim up for a pod.
    ///
    /// If the claim isn't leaving and other pods are left, it is recorded in its present state without this pod. Else it
    /// is recorded as Leaving, the driver is asked to take it back, with the row's uid, key, pods and devices and the
    /// kubelet's node, and it is recorded as Gone, which takes it out of the table; each record is stable before the
    /// next thing is done. After a driver's error the claim stays Leaving, with its pods, and the call may be repeated.
    ///
    /// `Closed` is returned if and only if the kubelet has ended, and else `NotPrepared` if and only if no row of the
    /// uid has the pod. `Full` is returned only if the journal is full for one of the records. `DiskFault` and
    /// `DriverFault` are returned only if the error count of the disk or the driver rose in this call or is at its last
    /// value. What was recorded before an error stays; `DiskFault` ends the kubelet.
    pub fn unprepare<V: Driver>(
        self,
        alloc: Global,
        pod: &Key,
        uid: &str,
        driver: &mut V,
    ) -> (Kubelet<D>, Result<(), KubeletError>)
        // A crash at any moment leaves the table from before and some of the call's own records, none of them skipped.
        ensures any_moment { has_ended self ≡ false → AtEachMoment (HasPrefix (rows_in self) (unprepare_records (node_in self) pod.now uid.now (rows_in self))) (D.content (disk_in self)) (D.content (disk_in result.0)) }
        // The result, the table and the driver's calls are those of the rule.
        ensures follows { Follows (unprepare_run (half_in self) (has_ended self) (node_in self) (rows_in self) pod.now uid.now) result.1 (rows_in result.0) (V.calls driver.old) (V.calls driver.new) }
        ensures rows { OnOk result.1 (rows_in result.0 ≡ table_from (rows_in self) (unprepare_records (node_in self) pod.now uid.now (rows_in self))) }
        ensures acknowledged { OnOk result.1 (IfSome (D.content (disk_in result.0)) (Keeps (rows_in result.0))) }
        ensures kept { OnErr result.1 (IsErrOf result.1 KubeletError.DiskFault ⊎ HasAdded (rows_in self) (unprepare_records (node_in self) pod.now uid.now (rows_in self)) (rows_in result.0)) }
        ensures asked { AskedBack (back_by_row (node_in self) pod.now (row_of uid.now (rows_in self))) (V.calls driver.old) (V.calls driver.new) }
        ensures half { half_in result.0 ≡ half_in self }
        ensures node { node_in result.0 ≡ node_in self }
        ensures fault { IsErrOf result.1 KubeletError.DiskFault → Rose (D.faults (disk_in self)) (D.faults (disk_in result.0)) × (has_ended result.0 ≡ true) }
        ensures driver_fault { IsErrOf result.1 KubeletError.DriverFault → Rose (V.faults driver.old) (V.faults driver.new) }
        // Each claim that the driver holds at the end stands in whatever a crash leaves, if it did at the start.
        ensures held { has_ended self ≡ false → WithCalls (λ before after. LosesHeld (rows_in self) before after (D.content (disk_in self)) (D.content (disk_in result.0))) (V.calls driver.old) (V.calls driver.new) }
        ensures going { has_ended self ≡ false → (IsErrOf result.1 KubeletError.DiskFault → ⊥) → has_ended result.0 ≡ false }
        ensures no_fault { (IsErrOf result.1 KubeletError.DiskFault → ⊥) → D.faults (disk_in result.0) ≡ D.faults (disk_in self) }
        ensures no_driver_fault { (IsErrOf result.1 KubeletError.DriverFault → ⊥) → V.faults driver.new ≡ V.faults driver.old }
    {
        prefixes_join();
        held_claims_stay();
        self.keeps();
        let way = match self.back(alloc, pod, uid) {
            Ok(way) => way,
            Err(why) => return (self, Err(why)),
        };
        let mut kubelet = self;
        match way {
            WayBack::Keep(item) => {
                let result = kubelet.record_item(alloc, item);
                kubelet.keeps();
                (kubelet, result)
            }
            WayBack::Leave(claim) => {
                let result = kubelet.take_back(alloc, uid, &claim, driver);
                drop(claim);
                kubelet.keeps();
                (kubelet, result)
            }
        }
    }
}
