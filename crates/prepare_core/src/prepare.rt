ghost use Rattle.std.specs.Prelude.{◌≡◌, ◌⊎◌, ◌∷◌, [], IfErr, IfOk, IfSome, IsErrOf, None, OnErr, OnOk, Some, false, not, true};
ghost use Rattle.dra_ports.specs.Causes.{Rose};
ghost use Rattle.dra_ports.specs.DiskImages.{AtEachMoment};
ghost use Rattle.ckpt_journal.specs.Standing.{Keeps};
ghost use Rattle.ckpt_journal.specs.Table.{row_after, table_from};
ghost use Rattle.ckpt_journal.specs.declared.record.Record.TheVariants as items;
ghost use Rattle.prepare_core.specs.Handed.{by_finish, returned};
ghost use Rattle.prepare_core.specs.Held.{KeepsHeld, WithCalls};
ghost use Rattle.prepare_core.specs.Moments.{HasAdded, HasPrefix};
ghost use Rattle.prepare_core.specs.Names.{names_of};
ghost use Rattle.prepare_core.specs.Prepare.{IsPrepared, anew_run, begun_claim, prepare_records, prepare_run, refusal, way_by_row};
ghost use Rattle.prepare_core.specs.Readable.{IsReadable};
ghost use Rattle.prepare_core.specs.Runs.{AskedAtMost, Follows};
ghost use Rattle.prepare_core.specs.Table.{is_prepared, row_of};
ghost use Rattle.prepare_core.specs.Words.{disk_in, half_in, has_ended, node_in, rows_in};
ghost use Rattle.prepare_core.specs.declared.driver.CallKind.TheVariants as kinds;

use crate::moments::{held_claims_stay, prefixes_join};
use crate::way::{Way, way_for};
use crate::{ClaimForNode, Driver, Kubelet, KubeletError, Names, Refused};
use dra_ports::Disk;
use object_fields::Key;
use std::alloc::Global;

impl<D: Disk> Kubelet<D> {
    /// What is done to prepare a claim for a pod.
    fn way(&self, alloc: Global, pod: &Key, claim: &ClaimForNode) -> Result<Way, KubeletError>
        ensures refused { IfSome (refusal (has_ended self.now) (node_in self.now) pod.now claim.now) (IsErrOf result) }
        ensures way { IfOk result (λ w. w ≡ way_by_row pod.now (row_of claim.now.uid (rows_in self.now))) }
        ensures only { IfErr result (λ why. (refusal (has_ended self.now) (node_in self.now) pod.now claim.now ≡ Some why) ⊎ (why ≡ KubeletError.Memory)) }
    {
        if let Some(why) = self.refusal(pod, claim) {
            return Err(why);
        }
        let way = way_for(alloc, self.claims(), claim.uid.as_str(), pod)?;
        Ok(way)
    }

    /// Records a claim as Begun, asks the driver, and records it as Prepared.
    fn prepare_anew<V: Driver>(
        self,
        alloc: Global,
        pod: &Key,
        claim: &ClaimForNode,
        driver: &mut V,
    ) -> Result<(Kubelet<D>, Names), Refused<D>>
        requires readable { IsReadable pod.now claim.now }
        requires open { is_prepared claim.now.uid (rows_in self) ≡ false }
        ensures any_moment { has_ended self ≡ false → AtEachMoment (HasPrefix (rows_in self) (items.Begun (begun_claim pod.now claim.now (rows_in self)) ∷ items.Prepared (begun_claim pod.now claim.now (rows_in self)) ∷ []))
            (D.content (disk_in self)) (D.content (disk_in (by_finish result))) }
        ensures follows { Follows (anew_run (half_in self) (refusal (has_ended self) (node_in self) pod.now claim.now) (rows_in self) pod.now claim.now) (returned result) (rows_in (by_finish result)) (V.calls driver.old) (V.calls driver.new) }
        ensures rows { IfOk result (λ x. rows_in x.0 ≡ row_after (row_after (rows_in self) (items.Begun (begun_claim pod.now claim.now (rows_in self)))) (items.Prepared (begun_claim pod.now claim.now (rows_in self)))) }
        ensures names { IfOk result (λ x. x.1 ≡ names_of (begun_claim pod.now claim.now (rows_in self))) }
        ensures acknowledged { IfOk result (λ x. IfSome (D.content (disk_in x.0)) (Keeps (rows_in x.0))) }
        ensures half { half_in (by_finish result) ≡ half_in self }
        ensures node { node_in (by_finish result) ≡ node_in self }
        ensures kept { IfErr result (λ e. (e.why ≡ KubeletError.DiskFault) ⊎ HasAdded (rows_in self) (items.Begun (begun_claim pod.now claim.now (rows_in self)) ∷ items.Prepared (begun_claim pod.now claim.now (rows_in self)) ∷ []) (rows_in e.kubelet)) }
        ensures asked { AskedAtMost true kinds.Prepare claim.now (V.calls driver.old) (V.calls driver.new) }
        ensures fault { IfErr result (λ e. e.why ≡ KubeletError.DiskFault → Rose (D.faults (disk_in self)) (D.faults (disk_in e.kubelet)) × (has_ended e.kubelet ≡ true)) }
        ensures driver_fault { IfErr result (λ e. e.why ≡ KubeletError.DriverFault → Rose (V.faults driver.old) (V.faults driver.new)) }
        ensures held { has_ended self ≡ false → WithCalls (λ before after. KeepsHeld (rows_in self) before after (D.content (disk_in self)) (D.content (disk_in (by_finish result)))) (V.calls driver.old) (V.calls driver.new) }
        ensures going { has_ended self ≡ false → IfErr result (λ e. (e.why ≡ KubeletError.DiskFault → ⊥) → has_ended e.kubelet ≡ false) }
        ensures open { IfOk result (λ x. has_ended x.0 ≡ false) }
        ensures no_fault { IfErr result (λ e. (e.why ≡ KubeletError.DiskFault → ⊥) → D.faults (disk_in e.kubelet) ≡ D.faults (disk_in self)) }
        ensures count { IfOk result (λ x. D.faults (disk_in x.0) ≡ D.faults (disk_in self)) }
        ensures no_driver_fault { IfErr result (λ e. (e.why ≡ KubeletError.DriverFault → ⊥) → V.faults driver.new ≡ V.faults driver.old) }
        ensures driver_count { IfOk result (λ _. V.faults driver.new ≡ V.faults driver.old) }
    {
        prefixes_join();
        held_claims_stay();
        let begun = match self.begin(alloc, pod, claim) {
            Ok(begun) => begun,
            Err(refused) => return Err(refused),
        };
        begun.stands();
        let asked = match begun.ask(driver) {
            Ok(asked) => asked,
            Err(refused) => return Err(refused),
        };
        match asked.finish(alloc) {
            Ok((kubelet, names)) => Ok((kubelet, names)),
            Err(refused) => Err(refused),
        }
    }

    /// Prepares a claim for a pod, and returns the names of its devices.
    ///
    /// If the claim is Prepared with this pod, its names are returned. If it is Prepared with other pods, it is recorded
    /// for this one too. Else it is recorded as Begun, the driver is asked, and it is recorded as Prepared; each record
    /// is stable before the next thing is done. The pods of a row that is Begun stay; those of a row that is Leaving go.
    /// Each key and device id has to be the one that its printed form reads as.
    ///
    /// `Closed`, `NotAllocated`, `NotReserved` and `OtherNode` are looked at first, in this order, and returned if and
    /// only if the kubelet has ended, the claim has no node, the pod isn't among its pods, or its node isn't the
    /// kubelet's. `Full` is returned only if the claim has no row and the table has 1,024, or the journal is full for
    /// one of the records. `DiskFault` and `DriverFault` are returned only if the error count of the disk or the driver
    /// rose in this call or is at its last value. What was recorded before an error stays; `DiskFault` ends the kubelet.
    pub fn prepare<V: Driver>(
        self,
        alloc: Global,
        pod: &Key,
        claim: &ClaimForNode,
        driver: &mut V,
    ) -> (Kubelet<D>, Result<Names, KubeletError>)
        requires { IsReadable pod.now claim.now }
        // A crash at any moment leaves the table from before and some of the call's own records, none of them skipped.
        ensures any_moment { has_ended self ≡ false → AtEachMoment (HasPrefix (rows_in self) (prepare_records pod.now claim.now (rows_in self))) (D.content (disk_in self)) (D.content (disk_in result.0)) }
        // The result, the table and the driver's calls are those of the rule.
        ensures follows { Follows (prepare_run (half_in self) (has_ended self) (node_in self) (rows_in self) pod.now claim.now) result.1 (rows_in result.0) (V.calls driver.old) (V.calls driver.new) }
        ensures rows { OnOk result.1 (rows_in result.0 ≡ table_from (rows_in self) (prepare_records pod.now claim.now (rows_in self))) }
        ensures acknowledged { OnOk result.1 (IfSome (D.content (disk_in result.0)) (Keeps (rows_in result.0))) }
        ensures prepared { IfOk result.1 (λ names. IsPrepared pod.now claim.now.uid names (rows_in result.0)) }
        ensures kept { OnErr result.1 (IsErrOf result.1 KubeletError.DiskFault ⊎ HasAdded (rows_in self) (prepare_records pod.now claim.now (rows_in self)) (rows_in result.0)) }
        ensures asked { AskedAtMost (not (is_prepared claim.now.uid (rows_in self))) kinds.Prepare claim.now (V.calls driver.old) (V.calls driver.new) }
        ensures half { half_in result.0 ≡ half_in self }
        ensures node { node_in result.0 ≡ node_in self }
        ensures fault { IsErrOf result.1 KubeletError.DiskFault → Rose (D.faults (disk_in self)) (D.faults (disk_in result.0)) × (has_ended result.0 ≡ true) }
        ensures driver_fault { IsErrOf result.1 KubeletError.DriverFault → Rose (V.faults driver.old) (V.faults driver.new) }
        // Each claim that the driver holds stands in whatever a crash leaves, if it did at the start.
        ensures held { has_ended self ≡ false → WithCalls (λ before after. KeepsHeld (rows_in self) before after (D.content (disk_in self)) (D.content (disk_in result.0))) (V.calls driver.old) (V.calls driver.new) }
        ensures going { has_ended self ≡ false → (IsErrOf result.1 KubeletError.DiskFault → ⊥) → has_ended result.0 ≡ false }
        ensures no_fault { (IsErrOf result.1 KubeletError.DiskFault → ⊥) → D.faults (disk_in result.0) ≡ D.faults (disk_in self) }
        ensures no_driver_fault { (IsErrOf result.1 KubeletError.DriverFault → ⊥) → V.faults driver.new ≡ V.faults driver.old }
    {
        prefixes_join();
        held_claims_stay();
        self.keeps();
        let way = match self.way(alloc, pod, claim) {
            Ok(way) => way,
            Err(why) => return (self, Err(why)),
        };
        match way {
            Way::Answer(names) => (self, Ok(names)),
            Way::Share(shared) => {
                let mut kubelet = self;
                let result = kubelet.record_prepared(alloc, shared);
                kubelet.keeps();
                (kubelet, result)
            }
            Way::Ask => match self.prepare_anew(alloc, pod, claim, driver) {
                Ok((kubelet, names)) => (kubelet, Ok(names)),
                Err(refused) => {
                    let Refused { kubelet, why } = refused;
                    (kubelet, Err(why))
                }
            },
        }
    }
}
