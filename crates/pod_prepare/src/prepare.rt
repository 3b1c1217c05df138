ghost use Rattle.std.specs.Prelude.{◌≡◌, ℕ, IfErr, IfOk, IsErrOf, None, OnOk, false};
ghost use Rattle.dra_ports.specs.Causes.{Rose};
ghost use Rattle.prepare_core.specs.Prepare.{prepare_run};
ghost use Rattle.prepare_core.specs.Readable.{IsReadable};
ghost use Rattle.prepare_core.specs.Words.{disk_in, half_in, has_ended, node_in, rows_in};
ghost use Rattle.prepare_core.specs.declared.error.KubeletError.TheVariants as errors;
ghost use Rattle.pod_prepare.specs.Commands.{AskedMore, Did, Does, DidFrom, IsTurn, Prepares, asked_of, prepare_turn, turn_of};
ghost use Rattle.pod_prepare.specs.ForNode.{ReadsBack};
ghost use Rattle.pod_prepare.specs.Lines.{EndsCommand};
ghost use Rattle.ckpt_journal.specs.Names.{KeyReadsBack};
ghost use Rattle.pod_prepare.specs.Opening.{IsRefusedDisk};
ghost use Rattle.pod_prepare.specs.Texts.{prepared_text};
ghost use Rattle.pod_prepare.specs.Words.{EndsAny, IsGoing, TellsStill, disk_of, table_of};

use crate::LazyKubelet;
use crate::claim::for_node;
use crate::line::{Line, absent_line, prepared};
use allocations::keys_of_pod;
use cluster::State;
use dra_ports::Disk;
use object_fields::Key;
use prepare_core::{ClaimForNode, Driver, Kubelet, KubeletError};
use std::alloc::Global;

/// Prepares one claim of a pod, which is told to the kubelet like this.
fn prepare_told<D: Disk, V: Driver>(
    alloc: Global,
    kubelet: Kubelet<D>,
    job: u64,
    pod: &Key,
    claim: &Key,
    told: &ClaimForNode,
    driver: &mut V,
) -> (Kubelet<D>, Result<Line, KubeletError>)
    requires going { has_ended kubelet ≡ false }
    requires readable { IsReadable pod.now told.now }
    ensures done { IfOk result.1 (λ l. IsTurn (λ ok. turn_of job (prepared_text pod.now claim.now) (prepare_run (half_in kubelet) false (node_in kubelet) (rows_in kubelet) pod.now told.now ok)) (rows_in result.0) l.text.items l.goes (V.calls driver.old) (V.calls driver.new) (V.faults driver.old) (V.faults driver.new)) }
    ensures stays { OnOk result.1 ((has_ended result.0 ≡ false) × (half_in result.0 ≡ half_in kubelet) × (node_in result.0 ≡ node_in kubelet)) }
    ensures tells { TellsStill (D.content (disk_in kubelet)) (D.content (disk_in result.0)) }
    ensures asked { AskedMore (V.calls driver.old) (V.calls driver.new) (V.faults driver.old) (V.faults driver.new) }
    ensures fault { IsErrOf result.1 errors.DiskFault → Rose (D.faults (disk_in kubelet)) (D.faults (disk_in result.0)) }
    ensures no_fault { (IsErrOf result.1 errors.DiskFault → ⊥) → D.faults (disk_in result.0) ≡ D.faults (disk_in kubelet) }
    ensures only { IfErr result.1 EndsCommand }
{
    kubelet.keeps();
    let (kubelet, outcome) = kubelet.prepare(alloc, pod, told, driver);
    (kubelet, prepared(alloc, job, pod, claim, outcome))
}

/// Prepares one claim of a pod, if it is there.
fn prepare_claim<D: Disk, V: Driver>(
    alloc: Global,
    kubelet: Kubelet<D>,
    state: &State,
    job: u64,
    pod: &Key,
    claim: &Key,
    driver: &mut V,
) -> (Kubelet<D>, Result<Line, KubeletError>)
    requires going { has_ended kubelet ≡ false }
    requires pod { KeyReadsBack pod.now }
    requires readable { ReadsBack state.now }
    ensures done { IfOk result.1 (λ l. IsTurn (prepare_turn (asked_of (half_in kubelet) (node_in kubelet) state.now job) pod.now (rows_in kubelet) claim.now) (rows_in result.0) l.text.items l.goes (V.calls driver.old) (V.calls driver.new) (V.faults driver.old) (V.faults driver.new)) }
    ensures stays { OnOk result.1 ((has_ended result.0 ≡ false) × (half_in result.0 ≡ half_in kubelet) × (node_in result.0 ≡ node_in kubelet)) }
    ensures tells { TellsStill (D.content (disk_in kubelet)) (D.content (disk_in result.0)) }
    ensures asked { AskedMore (V.calls driver.old) (V.calls driver.new) (V.faults driver.old) (V.faults driver.new) }
    ensures fault { IsErrOf result.1 errors.DiskFault → Rose (D.faults (disk_in kubelet)) (D.faults (disk_in result.0)) }
    ensures no_fault { (IsErrOf result.1 errors.DiskFault → ⊥) → D.faults (disk_in result.0) ≡ D.faults (disk_in kubelet) }
    ensures only { IfErr result.1 EndsCommand }
{
    let Some(found) = state.claims.get(claim) else {
        let refused = Err(KubeletError::NotAllocated);
        return (kubelet, prepared(alloc, job, pod, claim, refused));
    };
    let Ok(told) = for_node(alloc, claim, found) else {
        return (kubelet, Err(KubeletError::Memory));
    };
    prepare_told(alloc, kubelet, job, pod, claim, &told, driver)
}

/// Prepares claims of a pod in order, up to the first that is refused.
fn prepare_claims<D: Disk, V: Driver>(
    alloc: Global,
    kubelet: Kubelet<D>,
    state: &State,
    job: u64,
    pod: &Key,
    claims: &[Key],
    driver: &mut V,
) -> (Kubelet<D>, Result<Vec<u8>, KubeletError>)
    requires going { has_ended kubelet ≡ false }
    requires pod { KeyReadsBack pod.now }
    requires readable { ReadsBack state.now }
    ensures done { IfOk result.1 (λ text. Did (Does (prepare_turn (asked_of (half_in kubelet) (node_in kubelet) state.now job) pod.now) claims.now) (rows_in kubelet) (rows_in result.0) text.items (V.calls driver.old) (V.calls driver.new) (V.faults driver.old) (V.faults driver.new)) }
    ensures stays { OnOk result.1 ((has_ended result.0 ≡ false) × (half_in result.0 ≡ half_in kubelet) × (node_in result.0 ≡ node_in kubelet)) }
    ensures tells { TellsStill (D.content (disk_in kubelet)) (D.content (disk_in result.0)) }
    ensures asked { AskedMore (V.calls driver.old) (V.calls driver.new) (V.faults driver.old) (V.faults driver.new) }
    ensures fault { IsErrOf result.1 errors.DiskFault → Rose (D.faults (disk_in kubelet)) (D.faults (disk_in result.0)) }
    ensures no_fault { (IsErrOf result.1 errors.DiskFault → ⊥) → D.faults (disk_in result.0) ≡ D.faults (disk_in kubelet) }
    ensures only { IfErr result.1 EndsCommand }
{
    let mut kubelet = kubelet;
    let mut out = Vec::new(alloc);
    for claim in claims {
        let (next, line) = prepare_claim(alloc, kubelet, state, job, pod, claim, driver);
        kubelet = next;
        match line {
            Ok(line) => {
                if out.extend_from_slice(&line.text).is_err() {
                    return (kubelet, Err(KubeletError::Memory));
                }
                if !line.goes {
                    return (kubelet, Ok(out));
                }
            }
            Err(why) => return (kubelet, Err(why)),
        }
    }
    (kubelet, Ok(out))
}

/// Prepares the claims of a pod, if it is there.
fn prepare_pod<D: Disk, V: Driver>(
    alloc: Global,
    kubelet: Kubelet<D>,
    state: &State,
    job: u64,
    pod: &Key,
    driver: &mut V,
) -> (Kubelet<D>, Result<Vec<u8>, KubeletError>)
    requires going { has_ended kubelet ≡ false }
    requires readable { ReadsBack state.now }
    ensures done { IfOk result.1 (λ text. Did (Prepares (asked_of (half_in kubelet) (node_in kubelet) state.now job) pod.now) (rows_in kubelet) (rows_in result.0) text.items (V.calls driver.old) (V.calls driver.new) (V.faults driver.old) (V.faults driver.new)) }
    ensures stays { OnOk result.1 ((has_ended result.0 ≡ false) × (half_in result.0 ≡ half_in kubelet) × (node_in result.0 ≡ node_in kubelet)) }
    ensures tells { TellsStill (D.content (disk_in kubelet)) (D.content (disk_in result.0)) }
    ensures asked { AskedMore (V.calls driver.old) (V.calls driver.new) (V.faults driver.old) (V.faults driver.new) }
    ensures fault { IsErrOf result.1 errors.DiskFault → Rose (D.faults (disk_in kubelet)) (D.faults (disk_in result.0)) }
    ensures no_fault { (IsErrOf result.1 errors.DiskFault → ⊥) → D.faults (disk_in result.0) ≡ D.faults (disk_in kubelet) }
    ensures only { IfErr result.1 EndsCommand }
{
    let Some(found) = state.pods.get(pod) else {
        return match absent_line(alloc, job, "prepare-refused", pod) {
            Ok(text) => (kubelet, Ok(text)),
            Err(_) => (kubelet, Err(KubeletError::Memory)),
        };
    };
    let Ok(claims) = keys_of_pod(alloc, found.pod.object.value()) else {
        return (kubelet, Err(KubeletError::Memory));
    };
    prepare_claims(alloc, kubelet, state, job, pod, claims.as_slice(), driver)
}

impl<D: Disk> LazyKubelet<D> {
    /// Prepares the claims of a pod, as this state of the cluster has them.
    pub fn prepare<V: Driver>(
        self,
        alloc: Global,
        node: &str,
        state: &State,
        job: u64,
        pod: &Key,
        driver: &mut V,
    ) -> (LazyKubelet<D>, Result<Vec<u8>, KubeletError>)
        requires going { IsGoing node.now self }
        requires readable { ReadsBack state.now }
        // The lines, the table and the driver's calls are those of the rule, from the table that the kubelet has or opens
        // with.
        ensures done { IfOk result.1 (λ text. DidFrom Prepares node.now state.now job pod.now (table_of self) (D.content (disk_of self)) (table_of result.0) text.items (V.calls driver.old) (V.calls driver.new) (V.faults driver.old) (V.faults driver.new)) }
        ensures going { OnOk result.1 (IsGoing node.now result.0) }
        ensures tells { OnOk result.1 (TellsStill (D.content (disk_of self)) (D.content (disk_of result.0))) }
        ensures asked { AskedMore (V.calls driver.old) (V.calls driver.new) (V.faults driver.old) (V.faults driver.new) }
        ensures fault { IsErrOf result.1 errors.DiskFault → Rose (D.faults (disk_of self)) (D.faults (disk_of result.0)) }
        ensures no_fault { (IsErrOf result.1 errors.DiskFault → ⊥) → D.faults (disk_of result.0) ≡ D.faults (disk_of self) }
        ensures bytes { (at : ℕ) → IsErrOf result.1 (errors.NotAJournal at) → IsRefusedDisk at (table_of self) (D.content (disk_of self)) }
        // That is found as the kubelet is opened for its first command, and nobody is asked.
        ensures first { (at : ℕ) → IsErrOf result.1 (errors.NotAJournal at) → (table_of self ≡ None) × (V.calls driver.new ≡ V.calls driver.old) }
        ensures only { IfErr result.1 EndsAny }
    {
        match self.opened(alloc, node) {
            Ok(kubelet) => {
                let (kubelet, text) = prepare_pod(alloc, kubelet, state, job, pod, driver);
                (LazyKubelet::Open(kubelet), text)
            }
            Err(unopened) => (LazyKubelet::Closed(unopened.disk), Err(unopened.why)),
        }
    }
}
