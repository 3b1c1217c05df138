ghost use Rattle.std.specs.Prelude.{◌≡◌, ℕ, IfErr, IfOk, IsErrOf, None, OnOk, false};
ghost use Rattle.dra_ports.specs.Causes.{Rose};
ghost use Rattle.prepare_core.specs.Words.{disk_in, has_ended, node_in};
ghost use Rattle.prepare_core.specs.declared.error.KubeletError.TheVariants as errors;
ghost use Rattle.pod_prepare.specs.Lines.{EndsCommand};
ghost use Rattle.pod_prepare.specs.Opening.{BeginsWith, HasOpened, IsFormatted, IsRefusedDisk};
ghost use Rattle.pod_prepare.specs.Reopening.{DidReopen};
ghost use Rattle.pod_prepare.specs.Words.{EndsAny, IsGoing, TellsStill, disk_of, table_in, table_of};

use crate::LazyKubelet;
use crate::line::reopened_line;
use ckpt_journal::{Unopened, format};
use dra_ports::Disk;
use prepare_core::{Kubelet, KubeletError};
use std::alloc::Global;

/// The size in bytes of a half of a checkpoint that is made, or moved over: 4 MiB.
const HALF: u32 = 4_194_304;

/// Makes a checkpoint without claims of a disk of length 0.
fn format_empty<D: Disk>(alloc: Global, disk: &mut D) -> Result<(), KubeletError>
    ensures formatted { OnOk result (IsFormatted (D.content disk.old) (D.content disk.new)) }
    ensures tells { OnOk result (TellsStill (D.content disk.old) (D.content disk.new)) }
    ensures fault { IsErrOf result errors.DiskFault → Rose (D.faults disk.old) (D.faults disk.new) }
    ensures no_fault { (IsErrOf result errors.DiskFault → ⊥) → D.faults disk.new ≡ D.faults disk.old }
    ensures only { IfErr result EndsCommand }
{
    match disk.len() {
        Ok(0) => match format(alloc, disk, HALF) {
            Ok(()) => Ok(()),
            Err(why) => Err(KubeletError::from(why)),
        },
        Ok(_) => Ok(()),
        Err(_) => Err(KubeletError::DiskFault),
    }
}

/// Opens the kubelet of a node over a disk, which is formatted if its length is 0.
fn open_first<D: Disk>(
    alloc: Global,
    disk: D,
    node: &str,
) -> Result<Kubelet<D>, Unopened<D, KubeletError>>
    ensures begins { IfOk result (λ k. BeginsWith (D.content disk) (table_in k)) }
    ensures going { IfOk result (λ k. (has_ended k ≡ false) × (node_in k ≡ node.now)) }
    ensures tells { IfOk result (λ k. TellsStill (D.content disk) (D.content (disk_in k))) }
    ensures count { IfOk result (λ k. D.faults (disk_in k) ≡ D.faults disk) }
    ensures fault { IfErr result (λ e. e.why ≡ errors.DiskFault → Rose (D.faults disk) (D.faults e.disk)) }
    ensures no_fault { IfErr result (λ e. (e.why ≡ errors.DiskFault → ⊥) → D.faults e.disk ≡ D.faults disk) }
    ensures bytes { IfErr result (λ e. (at : ℕ) → e.why ≡ errors.NotAJournal at → IsRefusedDisk at None (D.content disk)) }
    ensures only { IfErr result (λ e. EndsAny e.why) }
{
    let mut disk = disk;
    match format_empty(alloc, &mut disk) {
        Ok(()) => Kubelet::open(alloc, disk, node, HALF),
        Err(why) => Err(Unopened { disk, why }),
    }
}

impl<D: Disk> LazyKubelet<D> {
    /// The kubelet, which is opened if it wasn't.
    pub(crate) fn opened(
        self,
        alloc: Global,
        node: &str,
    ) -> Result<Kubelet<D>, Unopened<D, KubeletError>>
        requires { IsGoing node.now self }
        ensures opened { IfOk result (λ k. HasOpened (table_of self) (D.content (disk_of self)) (table_in k)) }
        ensures going { IfOk result (λ k. (has_ended k ≡ false) × (node_in k ≡ node.now)) }
        ensures tells { IfOk result (λ k. TellsStill (D.content (disk_of self)) (D.content (disk_in k))) }
        ensures count { IfOk result (λ k. D.faults (disk_in k) ≡ D.faults (disk_of self)) }
        ensures fault { IfErr result (λ e. e.why ≡ errors.DiskFault → Rose (D.faults (disk_of self)) (D.faults e.disk)) }
        ensures no_fault { IfErr result (λ e. (e.why ≡ errors.DiskFault → ⊥) → D.faults e.disk ≡ D.faults (disk_of self)) }
        // Only one that wasn't open can fail to open.
        ensures closed { IfErr result (λ e. table_of self ≡ None) }
        ensures bytes { IfErr result (λ e. (at : ℕ) → e.why ≡ errors.NotAJournal at → IsRefusedDisk at (table_of self) (D.content (disk_of self))) }
        ensures only { IfErr result (λ e. EndsAny e.why) }
    {
        match self {
            LazyKubelet::Closed(disk) => open_first(alloc, disk, node),
            LazyKubelet::Open(kubelet) => Ok(kubelet),
        }
    }

    /// Closes the kubelet, which is opened first if it wasn't, and opens it again.
    pub fn reopen(
        self,
        alloc: Global,
        node: &str,
        job: u64,
    ) -> (LazyKubelet<D>, Result<Vec<u8>, KubeletError>)
        requires { IsGoing node.now self }
        ensures done { IfOk result.1 (λ text. DidReopen job (table_of self) (D.content (disk_of self)) (table_of result.0) text.items) }
        ensures going { OnOk result.1 (IsGoing node.now result.0) }
        ensures tells { OnOk result.1 (TellsStill (D.content (disk_of self)) (D.content (disk_of result.0))) }
        ensures fault { IsErrOf result.1 errors.DiskFault → Rose (D.faults (disk_of self)) (D.faults (disk_of result.0)) }
        ensures no_fault { (IsErrOf result.1 errors.DiskFault → ⊥) → D.faults (disk_of result.0) ≡ D.faults (disk_of self) }
        ensures bytes { (at : ℕ) → IsErrOf result.1 (errors.NotAJournal at) → IsRefusedDisk at (table_of self) (D.content (disk_of self)) }
        ensures only { IfErr result.1 EndsAny }
    {
        let kubelet = match self.opened(alloc, node) {
            Ok(kubelet) => kubelet,
            Err(unopened) => return (LazyKubelet::Closed(unopened.disk), Err(unopened.why)),
        };
        kubelet.keeps();
        match Kubelet::open(alloc, kubelet.close(), node, HALF) {
            Ok(kubelet) => {
                let text = reopened_line(alloc, job, kubelet.claims().len());
                match text {
                    Ok(text) => (LazyKubelet::Open(kubelet), Ok(text)),
                    Err(_) => (LazyKubelet::Open(kubelet), Err(KubeletError::Memory)),
                }
            }
            Err(unopened) => (LazyKubelet::Closed(unopened.disk), Err(unopened.why)),
        }
    }
}
