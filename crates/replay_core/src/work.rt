ghost use Rattle.std.specs.Prelude.{◌≡◌, ◌≤◌, ◌<◌, ◌∷◌, [], ℕ, List, IfErr, OnOk, OnErr, drop, false, true};
ghost use Rattle.std.specs.Io.KnownBytes.{Appends};
ghost use Rattle.cluster.specs.History.{state_of};
ghost use Rattle.commands.specs.Readings.{Asks, reading};
ghost use Rattle.commands.specs.declared.given.Given.{Given};
ghost use Rattle.dra_ports.specs.Causes.{HasCause, Rose};
ghost use Rattle.dra_ports.specs.Prefixes.{AppendsPrefix};
ghost use Rattle.journal_text.specs.Journal.{lines_from};
ghost use Rattle.pod_prepare.specs.ForNode.{ReadsBack};
ghost use Rattle.pod_prepare.specs.Words.{IsGoing, disk_of, table_of};
ghost use Rattle.replay_core.specs.Attempts.{AllMayTry, MayTry};
ghost use Rattle.replay_core.specs.Forms.{is_of_kubelet, kubelet_count};
ghost use Rattle.replay_core.specs.Kubelet.{node_with};
ghost use Rattle.replay_core.specs.Lines.{output_status, Did, JobsStop, RanPrinted, Stops, Summarized};
ghost use Rattle.replay_core.specs.Progress.{IsReady, IsSound};
ghost use Rattle.replay_core.specs.Script.{at_each};
ghost use Rattle.replay_core.specs.Turns.{DocumentDid, DocumentStops, StandsOn, StoppedAmong};

use crate::jobs::do_command;
use crate::kubelet::{is_of_kubelet, keeps, kubelet_status, kubelet_text};
use crate::read_back::{documents_ask_a_kubelet_once, legal_states_read_back};
use crate::{Rejection, ReplayOptions, Status, Stop};
use commands::{Given, GivenError, commands};
use doc_split::Doc;
use dra_ports::{Disk, Gate, PortError, Sink, write_all};
use engine_ports::Engine;
use histories::histories_grow;
use journal_text::{lines, summary};
use pod_prepare::LazyKubelet;
use prepare_core::Driver;
use sched_job::Ledger;
use std::alloc::Global;
use std::sync::Wait;
use std::thread::Threads;

/// The ledger, and how many commands were done.
#[derive(Drop)]
pub struct Work {
    pub ledger: Ledger,
    pub commands: u64,
}

/// The status for an error of the output.
pub fn write_status(error: PortError) -> Status
    ensures { result ≡ output_status error }
{
    match error {
        PortError::Failed => Status::Write,
        PortError::Memory => Status::Memory,
    }
}

/// Prints the lines of the entries after the first ones.
pub fn print_from<K: Sink>(
    alloc: Global,
    ledger: &Ledger,
    from: u64,
    output: &mut K,
) -> Result<(), PortError>
    ensures ok { OnOk result (Appends (K.written output.old) (K.written output.new) (lines_from from (drop from ledger.now.entries))) }
    ensures short { OnErr result (AppendsPrefix (K.written output.old) (K.written output.new) (lines_from from (drop from ledger.now.entries))) }
    ensures cause { HasCause (K.faults output.old) (K.faults output.new) result }
{
    let text = lines(alloc, ledger.entries(), from)?;
    write_all(output, &text)
}

/// Does what is asked for as the next jobs, and prints their lines once all are done.
fn do_jobs<E: Engine + Send, R: Threads + Wait + Sync, K: Sink, G: Gate + Sync>(
    rt: &R,
    alloc: Global,
    gate: &G,
    work: &mut Work,
    command: Given,
    options: &ReplayOptions,
    output: &mut K,
) -> Result<(), Status>
    requires ready { IsReady work.old 0 }
    requires workers { (0 < options.now.workers) × (options.now.workers ≤ 64) }
    requires attempts { MayTry command }
    ensures did { OnOk result (RanPrinted options.now command work.old work.new (K.written output.old) (K.written output.new)) }
    ensures stops { IfErr result (JobsStop options.now command work.old work.new (K.written output.old) (K.written output.new)) }
    ensures write { IfErr result (λ s. s ≡ Status.Write → Rose (K.faults output.old) (K.faults output.new)) }
    ensures ok_faultless { OnOk result (K.faults output.new ≡ K.faults output.old) }
    ensures err_faultless { IfErr result (λ s. (s ≡ Status.Write → ⊥) → K.faults output.new ≡ K.faults output.old) }
    ensures sound { IsSound work.new.ledger }
{
    let from = work.ledger.len();
    let done = do_command::<E, _, _>(
        rt,
        alloc,
        gate,
        &mut work.ledger,
        work.commands,
        command,
        options,
    );
    let _entries = work.ledger.len();
    match done {
        Ok(last) => {
            work.commands = last;
            match print_from(alloc, &work.ledger, from, output) {
                Ok(()) => Ok(()),
                Err(error) => Err(write_status(error)),
            }
        }
        Err(Stop::Full(count)) => match print_from(alloc, &work.ledger, from, output) {
            Ok(()) => Err(Status::Limit(count)),
            Err(error) => Err(write_status(error)),
        },
        Err(Stop::Memory) => Err(Status::Memory),
    }
}

/// Does a command of the kubelet, and prints its lines once it is done.
fn do_kubelet<K: Sink, D: Disk, V: Driver>(
    alloc: Global,
    work: &mut Work,
    kubelet: LazyKubelet<D>,
    command: &Given,
    options: &ReplayOptions,
    output: &mut K,
    driver: &mut V,
) -> (LazyKubelet<D>, Result<(), Status>)
    requires ready { IsReady work.old 1 }
    requires readable { ReadsBack (state_of work.old.ledger.entries) }
    requires going { IsGoing options.now.node kubelet }
    requires kubelet { is_of_kubelet command.now ≡ true }
    ensures did { OnOk result.1 (Did options.now command.now work.old work.new (node_with (table_of kubelet) (D.content (disk_of kubelet)) (V.calls driver.old) (V.faults driver.old)) (node_with (table_of result.0) (D.content (disk_of result.0)) (V.calls driver.new) (V.faults driver.new)) (K.written output.old) (K.written output.new)) }
    ensures stops { IfErr result.1 (Stops options.now command.now work.old work.new (node_with (table_of kubelet) (D.content (disk_of kubelet)) (V.calls driver.old) (V.faults driver.old)) (node_with (table_of result.0) (D.content (disk_of result.0)) (V.calls driver.new) (V.faults driver.new)) (K.written output.old) (K.written output.new)) }
    ensures going { OnOk result.1 (IsGoing options.now.node result.0) }
    ensures write { IfErr result.1 (λ s. s ≡ Status.Write → Rose (K.faults output.old) (K.faults output.new)) }
    ensures ok_faultless { OnOk result.1 (K.faults output.new ≡ K.faults output.old) }
    ensures err_faultless { IfErr result.1 (λ s. (s ≡ Status.Write → ⊥) → K.faults output.new ≡ K.faults output.old) }
    ensures disk { IfErr result.1 (λ s. s ≡ Status.Disk → Rose (D.faults (disk_of kubelet)) (D.faults (disk_of result.0))) }
    ensures ok_faultless_disk { OnOk result.1 (D.faults (disk_of result.0) ≡ D.faults (disk_of kubelet)) }
    ensures err_faultless_disk { IfErr result.1 (λ s. (s ≡ Status.Disk → ⊥) → D.faults (disk_of result.0) ≡ D.faults (disk_of kubelet)) }
    ensures same { work.new.ledger ≡ work.old.ledger }
{
    let before = work.commands;
    let (kubelet, text) = kubelet_text(
        alloc,
        kubelet,
        options,
        &work.ledger,
        before,
        command,
        driver,
    );
    match text {
        Ok(text) => {
            work.commands = before + 1;
            match write_all(output, &text) {
                Ok(()) => (kubelet, Ok(())),
                Err(error) => (kubelet, Err(write_status(error))),
            }
        }
        Err(why) => (kubelet, Err(kubelet_status(why))),
    }
}

/// Does what is asked for as the next commands, and prints their lines once all are done.
pub fn do_next<
    E: Engine + Send,
    R: Threads + Wait + Sync,
    K: Sink,
    D: Disk,
    V: Driver,
    G: Gate + Sync,
>(
    rt: &R,
    alloc: Global,
    gate: &G,
    work: &mut Work,
    kubelet: LazyKubelet<D>,
    command: Given,
    options: &ReplayOptions,
    output: &mut K,
    driver: &mut V,
) -> (LazyKubelet<D>, Result<(), Status>)
    requires ready { IsReady work.old (kubelet_count (command ∷ [])) }
    requires going { IsGoing options.now.node kubelet }
    requires workers { (0 < options.now.workers) × (options.now.workers ≤ 64) }
    requires attempts { MayTry command }
    ensures did { OnOk result.1 (Did options.now command work.old work.new (node_with (table_of kubelet) (D.content (disk_of kubelet)) (V.calls driver.old) (V.faults driver.old)) (node_with (table_of result.0) (D.content (disk_of result.0)) (V.calls driver.new) (V.faults driver.new)) (K.written output.old) (K.written output.new)) }
    ensures stops { IfErr result.1 (Stops options.now command work.old work.new (node_with (table_of kubelet) (D.content (disk_of kubelet)) (V.calls driver.old) (V.faults driver.old)) (node_with (table_of result.0) (D.content (disk_of result.0)) (V.calls driver.new) (V.faults driver.new)) (K.written output.old) (K.written output.new)) }
    ensures quiet { is_of_kubelet command ≡ false → result.0 ≡ kubelet }
    ensures going { OnOk result.1 (IsGoing options.now.node result.0) }
    ensures write { IfErr result.1 (λ s. s ≡ Status.Write → Rose (K.faults output.old) (K.faults output.new)) }
    ensures ok_faultless { OnOk result.1 (K.faults output.new ≡ K.faults output.old) }
    ensures err_faultless { IfErr result.1 (λ s. (s ≡ Status.Write → ⊥) → K.faults output.new ≡ K.faults output.old) }
    ensures disk { IfErr result.1 (λ s. s ≡ Status.Disk → Rose (D.faults (disk_of kubelet)) (D.faults (disk_of result.0))) }
    ensures ok_faultless_disk { OnOk result.1 (D.faults (disk_of result.0) ≡ D.faults (disk_of kubelet)) }
    ensures err_faultless_disk { IfErr result.1 (λ s. (s ≡ Status.Disk → ⊥) → D.faults (disk_of result.0) ≡ D.faults (disk_of kubelet)) }
    ensures sound { IsSound work.new.ledger }
{
    if is_of_kubelet(&command) {
        let _entries = work.ledger.len();
        legal_states_read_back();
        do_kubelet(alloc, work, kubelet, &command, options, output, driver)
    } else {
        keeps(&kubelet);
        let done = do_jobs::<E, _, _, _>(rt, alloc, gate, work, command, options, output);
        (kubelet, done)
    }
}

/// Does what is asked for one after another, each as the next commands, and prints the lines of each.
fn do_all<E: Engine + Send, R: Threads + Wait + Sync, K: Sink, D: Disk, V: Driver, G: Gate + Sync>(
    rt: &R,
    alloc: Global,
    gate: &G,
    work: &mut Work,
    kubelet: LazyKubelet<D>,
    commands: Vec<Given>,
    options: &ReplayOptions,
    output: &mut K,
    driver: &mut V,
) -> (LazyKubelet<D>, Result<(), Status>)
    requires ready { IsReady work.old (kubelet_count commands.items) }
    requires going { IsGoing options.now.node kubelet }
    requires workers { (0 < options.now.workers) × (options.now.workers ≤ 64) }
    requires attempts { AllMayTry commands.items }
    ensures did { OnOk result.1 ((at : ℕ) → StandsOn options.now (at_each at commands.items) work.old work.new (node_with (table_of kubelet) (D.content (disk_of kubelet)) (V.calls driver.old) (V.faults driver.old)) (node_with (table_of result.0) (D.content (disk_of result.0)) (V.calls driver.new) (V.faults driver.new)) (K.written output.old) (K.written output.new)) }
    ensures stops { IfErr result.1 (λ s. (at : ℕ) → StoppedAmong options.now at commands.items work.old work.new (node_with (table_of kubelet) (D.content (disk_of kubelet)) (V.calls driver.old) (V.faults driver.old)) (node_with (table_of result.0) (D.content (disk_of result.0)) (V.calls driver.new) (V.faults driver.new)) (K.written output.old) (K.written output.new) s) }
    ensures quiet { kubelet_count commands.items ≡ 0 → result.0 ≡ kubelet }
    ensures going { OnOk result.1 (IsGoing options.now.node result.0) }
    ensures write { IfErr result.1 (λ s. s ≡ Status.Write → Rose (K.faults output.old) (K.faults output.new)) }
    ensures ok_faultless { OnOk result.1 (K.faults output.new ≡ K.faults output.old) }
    ensures err_faultless { IfErr result.1 (λ s. (s ≡ Status.Write → ⊥) → K.faults output.new ≡ K.faults output.old) }
    ensures disk { IfErr result.1 (λ s. s ≡ Status.Disk → Rose (D.faults (disk_of kubelet)) (D.faults (disk_of result.0))) }
    ensures ok_faultless_disk { OnOk result.1 (D.faults (disk_of result.0) ≡ D.faults (disk_of kubelet)) }
    ensures err_faultless_disk { IfErr result.1 (λ s. (s ≡ Status.Disk → ⊥) → D.faults (disk_of result.0) ≡ D.faults (disk_of kubelet)) }
    ensures sound { IsSound work.new.ledger }
{
    histories_grow();
    let _entries = work.ledger.len();
    let mut kubelet = kubelet;
    for command in commands {
        let (next, done) = do_next::<E, _, _, _, _, _>(
            rt, alloc, gate, work, kubelet, command, options, output, driver,
        );
        kubelet = next;
        match done {
            Ok(()) => {}
            Err(status) => return (kubelet, Err(status)),
        }
    }
    (kubelet, Ok(()))
}

/// Does what a document asks for, each as the next commands, and prints the lines of each.
pub fn do_document<
    E: Engine + Send,
    R: Threads + Wait + Sync,
    K: Sink,
    D: Disk,
    V: Driver,
    G: Gate + Sync,
>(
    rt: &R,
    alloc: Global,
    gate: &G,
    work: &mut Work,
    kubelet: LazyKubelet<D>,
    doc: &Doc,
    options: &ReplayOptions,
    output: &mut K,
    driver: &mut V,
) -> (LazyKubelet<D>, Result<(), Status>)
    requires ready { IsReady work.old 1 }
    requires going { IsGoing options.now.node kubelet }
    requires workers { (0 < options.now.workers) × (options.now.workers ≤ 64) }
    requires attempts { 0 < options.now.attempts }
    ensures did { OnOk result.1 (DocumentDid options.now doc.now.at doc.now.bytes.items work.old work.new (node_with (table_of kubelet) (D.content (disk_of kubelet)) (V.calls driver.old) (V.faults driver.old)) (node_with (table_of result.0) (D.content (disk_of result.0)) (V.calls driver.new) (V.faults driver.new)) (K.written output.old) (K.written output.new)) }
    ensures stops { IfErr result.1 (DocumentStops options.now doc.now.at doc.now.bytes.items work.old work.new (node_with (table_of kubelet) (D.content (disk_of kubelet)) (V.calls driver.old) (V.faults driver.old)) (node_with (table_of result.0) (D.content (disk_of result.0)) (V.calls driver.new) (V.faults driver.new)) (K.written output.old) (K.written output.new)) }
    ensures quiet { ((cs : List Given) → reading options.now.attempts doc.now.bytes.items ≡ Asks cs → kubelet_count cs ≡ 0) → result.0 ≡ kubelet }
    ensures going { OnOk result.1 (IsGoing options.now.node result.0) }
    ensures write { IfErr result.1 (λ s. s ≡ Status.Write → Rose (K.faults output.old) (K.faults output.new)) }
    ensures ok_faultless { OnOk result.1 (K.faults output.new ≡ K.faults output.old) }
    ensures err_faultless { IfErr result.1 (λ s. (s ≡ Status.Write → ⊥) → K.faults output.new ≡ K.faults output.old) }
    ensures disk { IfErr result.1 (λ s. s ≡ Status.Disk → Rose (D.faults (disk_of kubelet)) (D.faults (disk_of result.0))) }
    ensures ok_faultless_disk { OnOk result.1 (D.faults (disk_of result.0) ≡ D.faults (disk_of kubelet)) }
    ensures err_faultless_disk { IfErr result.1 (λ s. (s ≡ Status.Disk → ⊥) → D.faults (disk_of result.0) ≡ D.faults (disk_of kubelet)) }
    ensures sound { IsSound work.new.ledger }
{
    documents_ask_a_kubelet_once();
    let _entries = work.ledger.len();
    match commands(alloc, doc, options.attempts) {
        Ok(given) => do_all::<E, _, _, _, _, _>(
            rt, alloc, gate, work, kubelet, given, options, output, driver,
        ),
        Err(GivenError::NotJson) => { (kubelet, Err(Status::Document(doc.at, Rejection::NotJson))) }
        Err(GivenError::NotACommand) => {
            (
                kubelet,
                Err(Status::Document(doc.at, Rejection::NotACommand)),
            )
        }
        Err(GivenError::Memory) => (kubelet, Err(Status::Memory)),
    }
}

/// Prints the summary.
pub fn print_summary<K: Sink>(alloc: Global, work: &Work, output: &mut K) -> Status
    ensures printed { Summarized work.now (K.written output.old) (K.written output.new) result }
    ensures write { result ≡ Status.Write → Rose (K.faults output.old) (K.faults output.new) }
    ensures later { K.faults output.old ≤ K.faults output.new }
    ensures faultless { (result ≡ Status.Write → ⊥) → K.faults output.new ≡ K.faults output.old }
{
    let Ok(text) = summary(alloc, work.ledger.len(), work.ledger.state(), work.commands) else {
        return Status::Memory;
    };
    match write_all(output, &text) {
        Ok(()) => Status::Done,
        Err(error) => write_status(error),
    }
}
