ghost use Rattle.std.specs.Prelude.{◌≡◌, ◌<◌, ◌≤◌, ◌^◌, ℕ, List, Option, IfErr, OnOk};
ghost use Rattle.std.specs.Io.KnownBytes.{IsAtEnd};
ghost use Rattle.dra_ports.specs.Causes.{Rose};
ghost use Rattle.doc_split.specs.Split.{remaining};
ghost use Rattle.replay_core.specs.Lines.{input_status};
ghost use Rattle.pod_prepare.specs.Words.{IsGoing, disk_of, table_of};
ghost use Rattle.replay_core.specs.Kubelet.{Node, node_with};
ghost use Rattle.replay_core.specs.Progress.{IsReady, Progress};
ghost use Rattle.replay_core.specs.Replay.{Ends, EndsSo, HasNone};
ghost use Rattle.replay_core.specs.Script.{most_input};

use crate::read_back::documents_ask_a_kubelet_once;
use crate::work::{Work, do_document, print_summary};
use crate::{Rejection, ReplayOptions, Status};
use doc_split::{DocError, Splitter};
use dra_ports::{Disk, Gate, Sink, Source};
use engine_ports::Engine;
use histories::histories_grow;
use pod_prepare::LazyKubelet;
use prepare_core::Driver;
use sched_job::Ledger;
use std::alloc::Global;
use std::sync::Wait;
use std::thread::Threads;

/// The most bytes of an input: 1 GiB.
const MOST_INPUT: u64 = 1_073_741_824;

/// Does the next document of the input, or ends.
fn step<
    E: Engine + Send,
    R: Threads + Wait + Sync,
    S: Source,
    K: Sink,
    D: Disk,
    V: Driver,
    G: Gate + Sync,
>(
    rt: &R,
    alloc: Global,
    splitter: &mut Splitter,
    work: &mut Work,
    kubelet: LazyKubelet<D>,
    options: &ReplayOptions,
    input: &mut S,
    output: &mut K,
    driver: &mut V,
    gate: &G,
) -> (LazyKubelet<D>, Result<(), Status>)
    requires ready { IsReady work.old 1 }
    requires going { IsGoing options.now.node kubelet }
    requires workers { (0 < options.now.workers) × (options.now.workers ≤ 64) }
    requires attempts { 0 < options.now.attempts }
    ensures ok { OnOk result.1 ((found : Node) (left before : Option (List ℕ)) → Progress options.now found (node_with (table_of kubelet) (D.content (disk_of kubelet)) (V.calls driver.old) (V.faults driver.old)) left (remaining splitter.old (S.left input.old)) before (K.written output.old) splitter.old.at work.old → Progress options.now found (node_with (table_of result.0) (D.content (disk_of result.0)) (V.calls driver.new) (V.faults driver.new)) left (remaining splitter.new (S.left input.new)) before (K.written output.new) splitter.new.at work.new) }
    ensures moves { OnOk result.1 (splitter.old.at < splitter.new.at) }
    ensures within { OnOk result.1 (splitter.new.at ≤ most_input) }
    ensures ends { IfErr result.1 (λ s. (found : Node) (left before : Option (List ℕ)) → Progress options.now found (node_with (table_of kubelet) (D.content (disk_of kubelet)) (V.calls driver.old) (V.faults driver.old)) left (remaining splitter.old (S.left input.old)) before (K.written output.old) splitter.old.at work.old → Ends options.now left (S.left input.new) before (K.written output.new) found (node_with (table_of result.0) (D.content (disk_of result.0)) (V.calls driver.new) (V.faults driver.new)) s) }
    // A script without commands of the kubelet leaves it as it is.
    ensures quiet { (found : Node) (left before : Option (List ℕ)) → Progress options.now found (node_with (table_of kubelet) (D.content (disk_of kubelet)) (V.calls driver.old) (V.faults driver.old)) left (remaining splitter.old (S.left input.old)) before (K.written output.old) splitter.old.at work.old → HasNone options.now.attempts left → result.0 ≡ kubelet }
    ensures going { OnOk result.1 (IsGoing options.now.node result.0) }
    ensures all_read { IfErr result.1 (λ s. s ≡ Status.Done → IsAtEnd (S.left input.new)) }
    ensures read { IfErr result.1 (λ s. s ≡ Status.Read → Rose (S.faults input.old) (S.faults input.new)) }
    ensures write { IfErr result.1 (λ s. s ≡ Status.Write → Rose (K.faults output.old) (K.faults output.new)) }
    ensures disk { IfErr result.1 (λ s. s ≡ Status.Disk → Rose (D.faults (disk_of kubelet)) (D.faults (disk_of result.0))) }
    ensures ok_faultless_input { OnOk result.1 (S.faults input.new ≡ S.faults input.old) }
    ensures ok_faultless_output { OnOk result.1 (K.faults output.new ≡ K.faults output.old) }
    ensures ok_faultless_disk { OnOk result.1 (D.faults (disk_of result.0) ≡ D.faults (disk_of kubelet)) }
    ensures err_faultless_input { IfErr result.1 (λ s. (s ≡ Status.Read → ⊥) → S.faults input.new ≡ S.faults input.old) }
    ensures err_faultless_output { IfErr result.1 (λ s. (s ≡ Status.Write → ⊥) → K.faults output.new ≡ K.faults output.old) }
    ensures err_faultless_disk { IfErr result.1 (λ s. (s ≡ Status.Disk → ⊥) → D.faults (disk_of result.0) ≡ D.faults (disk_of kubelet)) }
{
    documents_ask_a_kubelet_once();
    match splitter.next_document(alloc, input) {
        Ok(Some(doc)) => do_document::<E, _, _, _, _, _>(
            rt, alloc, gate, work, kubelet, &doc, options, output, driver,
        ),
        Ok(None) => (kubelet, Err(print_summary(alloc, work, output))),
        Err(error) => (kubelet, Err(input_status(error))),
    }
}

/// The status where there is no next document.
fn input_status(error: DocError) -> Status
    ensures { result ≡ input_status error }
{
    match error {
        DocError::ReadFault => Status::Read,
        DocError::Unclosed(at) => Status::Document(at, Rejection::Unclosed),
        DocError::Stray(at) => Status::Document(at, Rejection::Stray),
        DocError::TooLong(at) => Status::Document(at, Rejection::TooLong),
        DocError::Memory => Status::Memory,
        DocError::Input => Status::Limit(MOST_INPUT),
    }
}

/// Does the commands of an input in order, each as a job of a ledger of at most `entries` entries, with
/// searches within the budget, and prints the lines of each once it is done, and the summary at the end.
/// The commands of a Together are done beside each other by as many workers as the options say, and their
/// lines are printed, in order of their indices, once all of them are done. The gate is called as the jobs
/// of a Together go on. Each document is
/// done as soon as it is whole, before more of the input is read.
///
/// A Prepare, an Unprepare and a Reopen have no entries. The kubelet of the node of the options prepares the claims of
/// a pod, or gives them up, as the state is at that command, and asks the driver. It is opened over the disk at the first
/// such command, and a disk of length 0 is formatted then; a script without such commands never touches the disk, which
/// is handed back. A driver that fails is a line, and the run goes on.
///
/// The status says what the script is, if the input exposes its contents, which of its commands were
/// done, what was written, if the output exposes it, and what the kubelet did, if the disk and the driver expose what
/// they hold (`Ends`). With `Done` what was written is the whole text, the summary at its end. With `Memory` and `Write`
/// it is a prefix of the lines of some first commands or of the whole text, perhaps all of it; with every other status
/// none of the summary was written. What the entries of a legal history mean is the laws of `ledger_core`.
///
/// `Document` says why what is at its offset isn't a command. `Disk` is returned only if the disk's count of errors rose
/// or is at its last value, and `Checkpoint` only if the disk isn't empty and its bytes are no journal from that offset
/// on; the lines are those of the commands before the one that met it. Each plan and each verdict is what searches of the
/// nodes within the budget of the options return, at its index. With each status the history has at most `entries`
/// entries, and where one more was expected it has exactly so many.
pub fn replay<
    E: Engine + Send,
    R: AllocGlobal + Threads + Wait + Sync,
    S: Source,
    K: Sink,
    D: Disk,
    V: Driver,
    G: Gate + Sync,
>(
    rt: &R,
    options: &ReplayOptions,
    input: &mut S,
    output: &mut K,
    disk: D,
    driver: &mut V,
    gate: &G,
) -> (D, Status)
    requires workers { (0 < options.now.workers) × (options.now.workers ≤ 64) }
    requires entries { options.now.entries < 2 ^ 48 }
    requires attempts { 0 < options.now.attempts }
    ensures ends { EndsSo options.now (S.left input.old) (S.left input.new) (K.written output.old) (K.written output.new) (D.content disk) (D.content result.0) (V.calls driver.old) (V.calls driver.new) (V.faults driver.old) (V.faults driver.new) result.1 }
    // A script without commands of the kubelet never touches the disk.
    ensures untouched { HasNone options.now.attempts (S.left input.old) → result.0 ≡ disk }
    ensures all_read { result.1 ≡ Status.Done → IsAtEnd (S.left input.new) }
    ensures read { result.1 ≡ Status.Read → Rose (S.faults input.old) (S.faults input.new) }
    ensures faultless_input { (result.1 ≡ Status.Read → ⊥) → S.faults input.new ≡ S.faults input.old }
    ensures write { result.1 ≡ Status.Write → Rose (K.faults output.old) (K.faults output.new) }
    ensures faultless_output { (result.1 ≡ Status.Write → ⊥) → K.faults output.new ≡ K.faults output.old }
    ensures disk { result.1 ≡ Status.Disk → Rose (D.faults disk) (D.faults result.0) }
    ensures faultless_disk { (result.1 ≡ Status.Disk → ⊥) → D.faults result.0 ≡ D.faults disk }
{
    histories_grow();
    let alloc = rt.alloc();
    let Ok(ledger) = Ledger::new(alloc, options.entries) else {
        return (disk, Status::Memory);
    };
    let mut splitter = Splitter::new(alloc);
    let mut work = Work {
        ledger,
        commands: 0,
    };
    let mut kubelet = LazyKubelet::Closed(disk);
    'documents: loop {
        let (next, done) = step::<E, _, _, _, _, _, _>(
            rt,
            alloc,
            &mut splitter,
            &mut work,
            kubelet,
            options,
            input,
            output,
            driver,
            gate,
        );
        kubelet = next;
        if let Err(status) = done {
            return (kubelet.close(), status);
        }
    }
}
