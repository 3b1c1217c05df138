ghost use Rattle.std.specs.Prelude.{◌≡◌, ◌<◌, ◌^◌, [], List, IfErr, IfOk, IfSome, IsErrOf, OnOk, true, ℕ};
ghost use Rattle.cluster.specs.History.{state_of};
ghost use Rattle.ckpt_journal.specs.Standing.{Keeps};
ghost use Rattle.dra_ports.specs.Causes.{Rose};
ghost use Rattle.pod_prepare.specs.ForNode.{ReadsBack};
ghost use Rattle.pod_prepare.specs.Words.{EndsAny, IsGoing, disk_of, table_of};
ghost use Rattle.prepare_core.specs.declared.error.KubeletError.TheVariants as errors;
ghost use Rattle.replay_core.specs.Forms.{is_of_kubelet};
ghost use Rattle.replay_core.specs.Kubelet.{AskedOn, node_with};
ghost use Rattle.replay_core.specs.Lines.{FoundNone, ShownBy};
ghost use Rattle.replay_core.specs.Kubelets.{kubelet_status};

use crate::{ReplayOptions, Status};
use commands::Given;
use dra_ports::Disk;
use pod_prepare::LazyKubelet;
use prepare_core::{Driver, KubeletError};
use sched_job::Ledger;
use std::alloc::Global;

/// Whether a command is one of the kubelet, which has no entries.
pub fn is_of_kubelet(given: &Given) -> bool
    ensures { result ≡ is_of_kubelet given.now }
{
    match given {
        Given::One(_) | Given::Together(_) => false,
        Given::Prepare(_) | Given::Unprepare(_) | Given::Reopen => true,
    }
}

/// The status for an error that ends a command of the kubelet.
pub fn kubelet_status(why: KubeletError) -> Status
    ensures { result ≡ kubelet_status why }
{
    match why {
        KubeletError::DiskFault => Status::Disk,
        KubeletError::NotAJournal(at) => Status::Checkpoint(at),
        _ => Status::Memory,
    }
}

/// States what a kubelet keeps that is open and that no error of the disk has ended: its table, which whatever a crash
/// leaves has.
pub fn keeps<D: Disk>(kubelet: &LazyKubelet<D>)
    ensures { (node : List ℕ) → IsGoing node kubelet.now → IfSome (table_of kubelet.now) (λ t. IfSome (D.content (disk_of kubelet.now)) (Keeps t.rows)) }
{
    match kubelet {
        LazyKubelet::Closed(_) => {}
        LazyKubelet::Open(kubelet) => kubelet.keeps(),
    }
}

/// Does a command of the kubelet, whose number comes after `before`, over the present state, and returns its lines.
pub fn kubelet_text<D: Disk, V: Driver>(
    alloc: Global,
    kubelet: LazyKubelet<D>,
    options: &ReplayOptions,
    ledger: &Ledger,
    before: u64,
    command: &Given,
    driver: &mut V,
) -> (LazyKubelet<D>, Result<Vec<u8>, KubeletError>)
    requires going { IsGoing options.now.node kubelet }
    requires readable { ReadsBack (state_of ledger.now.entries) }
    requires kubelet { is_of_kubelet command.now ≡ true }
    requires number { before < 2 ^ 49 }
    ensures shown { IfOk result.1 (λ text. ShownBy options.now before ledger.now.entries [] command.now (node_with (table_of kubelet) (D.content (disk_of kubelet)) (V.calls driver.old) (V.faults driver.old)) (node_with (table_of result.0) (D.content (disk_of result.0)) (V.calls driver.new) (V.faults driver.new)) text.items) }
    ensures going { OnOk result.1 (IsGoing options.now.node result.0) }
    ensures asked { AskedOn (node_with (table_of kubelet) (D.content (disk_of kubelet)) (V.calls driver.old) (V.faults driver.old)) (node_with (table_of result.0) (D.content (disk_of result.0)) (V.calls driver.new) (V.faults driver.new)) }
    ensures disk { IsErrOf result.1 errors.DiskFault → Rose (D.faults (disk_of kubelet)) (D.faults (disk_of result.0)) }
    ensures no_fault { (IsErrOf result.1 errors.DiskFault → ⊥) → D.faults (disk_of result.0) ≡ D.faults (disk_of kubelet) }
    ensures bytes { (at : ℕ) → IsErrOf result.1 (errors.NotAJournal at) → FoundNone at command.now (node_with (table_of kubelet) (D.content (disk_of kubelet)) (V.calls driver.old) (V.faults driver.old)) (node_with (table_of result.0) (D.content (disk_of result.0)) (V.calls driver.new) (V.faults driver.new)) }
    ensures only { IfErr result.1 EndsAny }
{
    let job = before + 1;
    let node = options.node.as_str();
    match command {
        Given::Prepare(pod) => {
            let (kubelet, text) = kubelet.prepare(alloc, node, ledger.state(), job, pod, driver);
            keeps(&kubelet);
            (kubelet, text)
        }
        Given::Unprepare(pod) => {
            let (kubelet, text) = kubelet.unprepare(alloc, node, ledger.state(), job, pod, driver);
            keeps(&kubelet);
            (kubelet, text)
        }
        Given::Reopen => {
            let (kubelet, text) = kubelet.reopen(alloc, node, job);
            keeps(&kubelet);
            (kubelet, text)
        }
        // These are done by jobs.
        Given::One(_) | Given::Together(_) => (kubelet, Ok(Vec::new(alloc))),
    }
}
