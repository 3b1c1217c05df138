ghost use Rattle.std.specs.Prelude.{◌≡◌, ◌↔◌, ◌⊎◌, ℕ, List, None, Some, map, string_bytes};
ghost use Rattle.std.specs.Io.KnownBytes.{IsAtEnd};
ghost use Rattle.cli_words.specs.declared.command.ExerciseWords.{ExerciseWords};
ghost use Rattle.cli_words.specs.declared.command.ServeWords.{ServeWords};
ghost use Rattle.dra_ports.specs.Causes.{Rose};
ghost use Rattle.dra_cli.specs.Exercise.{Prints};
ghost use Rattle.replay_core.specs.Causes.{EndsBy, FindsNone, HasNoRoom, MayOpen, ReachesFirst, ReachesLimit};
ghost use Rattle.replay_core.specs.Replay.{HasNone};
ghost use Rattle.replay_core.specs.Script.{script_of};
ghost use Rattle.replay_core.specs.declared.options.ReplayOptions.{ReplayOptions};
ghost use Rattle.dra_cli.specs.Causes.{IsQuiet};
ghost use Rattle.dra_cli.specs.Headline.{ReplaysSo};
ghost use Rattle.dra_cli.specs.Program.{exit_number};
ghost use Rattle.dra_cli.specs.Serving.{ServesSo, seen_as, serve_options};
ghost use Rattle.dra_cli.specs.Task.{asked_of};
ghost use Rattle.dra_cli.specs.declared.task.Task.TheVariants.{Exercise, Replay, Serve};

use crate::exercise::exercise;
use crate::headline::runs_are_true;
use crate::serving::serve_words;
use crate::task::{Task, asked};
use default_engine::DefaultEngine;
use door_ports::Doors;
use dra_ports::{Disk, Gate, Sink, Source};
use prepare_core::Driver;
use replay_core::{Status, endings_have_causes, replay};
use std::sync::Wait;
use std::thread::Threads;

/// Does what the arguments of a call, without the program's name, ask for, over the objects that are passed in.
/// `replay`, with its options after it, replays the script that the input is and prints to the output. `serve`, with its
/// options after it, serves connections to an address, and prints the history that came of them. `exercise`, with its
/// options after it, replays a generated script, and prints the summary alone.
///
/// `Usage` is returned if and only if the arguments are no command of this program (`asked_of`), unless memory ran out as
/// they were read; with such arguments nothing was read, written or opened. `Memory` is returned only if memory runs out,
/// `Read`, `Write` and `Disk` only if that object's count of errors rose in this call, or is at its maximum. With every
/// status but `Read` the input's count of errors stays, with every one but `Write` the output's, and with every one but
/// `Disk` the disk's.
///
/// # Replay
///
/// The commands of a Together are done by as many workers as the option says, and what is stated here holds for every
/// number of workers and however their turns interleave. The gate is called as these jobs go on. The kubelet of the node
/// that the option names has its checkpoint on the disk, which is handed back beside the status, and asks the driver.
///
/// If the input exposes its contents: `Document` is returned only if what is at its offset isn't a command,
/// for the reason that it names, and `Limit` only if a history of as many entries as the option says is to have
/// one more or the input has more than 2^30 bytes. If the disk exposes its contents, `Checkpoint` is returned only if a
/// command that opens the kubelet finds a disk that isn't empty, and whose bytes are no journal from its offset on. A
/// script without commands of the kubelet leaves the disk alone.
///
/// If the input exposes its contents, no error of the input, the output or the disk is counted, and memory doesn't run out:
/// where the script can't reach the limit of entries, and needs no disk or finds one that is empty or a journal, all its
/// commands are done, and the status says how it ends, with `Done`, with `Document`, or with `Limit` if the input is too
/// long. Where all its commands have no history within the limit, it is `Limit`, and where its first command of the kubelet
/// finds a disk that isn't empty and is no journal, `Checkpoint`.
///
/// If the output exposes what was written (which statuses print what is this project's own): with
/// `Done` it is the whole text of the run, the summary at its end; with `Document`, `Read`, `Disk` and `Checkpoint` the
/// lines of the commands done before; with `Limit` also those of the entries that the last command still made; with
/// `Memory` and `Write` a prefix of such lines or of the whole text, perhaps all of it.
///
/// The lines of the kubelet's commands are those of its rule over its table, the claims and their users as the state is
/// at that command, the node, and what the driver returned. If the disk exposes its contents, the table begins as that of
/// the bytes that were found. If the driver exposes its calls, they are those that the rule asks for in the commands that
/// were done, in order, and with `Memory` and `Disk` perhaps some more of the command that met the error. There are at
/// most as many lines with `DriverFault` as the driver's count of errors rose by, unless that is at its maximum.
///
/// With each status that prints: the searches are those within the budget of the option, and the history has at most as
/// many entries as the option says. It is legal and true: each grant is an allocation, each verdict is true at its index,
/// and at no index does a device have two holders. Each Schedule that is a single command is never refused by the check
/// of its plan, in conflict or contended, and is complete: if its pod is there and Idle as it begins, the pod is bound to
/// the first node by name that fits within the budget, or its one entry is the verdict that says why not.
///
/// # Serve
///
/// As many connections as the options say are served at their address over an empty history, each by one of as many workers
/// as the options say; a worker has a door, and serves its connections one after another. With `Done` all of them were
/// served, and what was printed is the whole text of the history that came of them, the summary at its end, whose commands
/// are the jobs. With `Limit` the history has as many entries as the option says and a request was to add one more; its
/// lines were printed. `Door` is returned only if the doors' count of errors rose in this call, or is at its maximum, and
/// with it nothing was printed; with `Memory` and `Write` a prefix of such a text, or nothing. If there are several reasons
/// to end, `Memory` comes before `Door`, and `Door` before `Limit`. The doors are closed when this returns. The input, the
/// disk and the driver stay as they were.
///
/// # Exercise
///
/// The script is generated from a number, and has as many pods as the options say; what it asks for is done by one worker
/// with the options that a replay has if none is given. The input, the disk, the driver and the doors stay as they were. If the
/// output exposes what was written: with `Done` it is the summary of a legal history that is the run of the script's
/// commands; with `Memory` and `Write` a prefix of such a summary. There are no other statuses.
pub fn run<
    R: AllocGlobal + Threads + Wait + Sync,
    S: Source,
    K: Sink,
    D: Disk,
    V: Driver,
    O: Doors,
    G: Gate + Sync,
>(
    rt: &R,
    words: &Vec<String>,
    input: &mut S,
    output: &mut K,
    disk: D,
    driver: &mut V,
    doors: &mut O,
    gate: &G,
) -> (D, Status)
    ensures usage { (result.1 ≡ Status.Memory → ⊥) → (result.1 ≡ Status.Usage ↔ asked_of (map string_bytes words.now.items) ≡ None) }
    ensures usage_input { asked_of (map string_bytes words.now.items) ≡ None → input.new ≡ input.old }
    ensures usage_output { asked_of (map string_bytes words.now.items) ≡ None → output.new ≡ output.old }
    ensures usage_disk { asked_of (map string_bytes words.now.items) ≡ None → result.0 ≡ disk }
    ensures usage_driver { asked_of (map string_bytes words.now.items) ≡ None → driver.new ≡ driver.old }
    ensures usage_doors { asked_of (map string_bytes words.now.items) ≡ None → doors.new ≡ doors.old }
    ensures replays { (o : ReplayOptions) → asked_of (map string_bytes words.now.items) ≡ Some (Replay o) → ReplaysSo o (S.left input.old) (S.left input.new) (K.written output.old) (K.written output.new) (D.content disk) (D.content result.0) (V.calls driver.old) (V.calls driver.new) (V.faults driver.old) (V.faults driver.new) result.1 }
    ensures all_read { (o : ReplayOptions) → asked_of (map string_bytes words.now.items) ≡ Some (Replay o) → result.1 ≡ Status.Done → IsAtEnd (S.left input.new) }
    ensures untouched { (o : ReplayOptions) → asked_of (map string_bytes words.now.items) ≡ Some (Replay o) → HasNone o.attempts (S.left input.old) → result.0 ≡ disk }
    ensures complete { (o : ReplayOptions) (bytes : List ℕ) → asked_of (map string_bytes words.now.items) ≡ Some (Replay o) → IsQuiet bytes (S.left input.old) (S.faults input.old) (S.faults input.new) (K.faults output.old) (K.faults output.new) (D.faults disk) (D.faults result.0) → (ReachesLimit o bytes → ⊥) → MayOpen o bytes (D.content disk) → EndsBy (script_of o.attempts bytes).ending result.1 ⊎ (result.1 ≡ Status.Memory) }
    ensures limit { (o : ReplayOptions) (bytes : List ℕ) → asked_of (map string_bytes words.now.items) ≡ Some (Replay o) → IsQuiet bytes (S.left input.old) (S.faults input.old) (S.faults input.new) (K.faults output.old) (K.faults output.new) (D.faults disk) (D.faults result.0) → HasNoRoom o bytes → MayOpen o bytes (D.content disk) → (result.1 ≡ Status.Limit o.entries) ⊎ (result.1 ≡ Status.Memory) }
    ensures checkpoint { (o : ReplayOptions) (bytes : List ℕ) (at : ℕ) → asked_of (map string_bytes words.now.items) ≡ Some (Replay o) → IsQuiet bytes (S.left input.old) (S.faults input.old) (S.faults input.new) (K.faults output.old) (K.faults output.new) (D.faults disk) (D.faults result.0) → FindsNone o bytes at (D.content disk) → (ReachesFirst o bytes → ⊥) → (result.1 ≡ Status.Checkpoint at) ⊎ (result.1 ≡ Status.Memory) }
    ensures replay_doors { (o : ReplayOptions) → asked_of (map string_bytes words.now.items) ≡ Some (Replay o) → doors.new ≡ doors.old }
    ensures exercises { (w : ExerciseWords) → asked_of (map string_bytes words.now.items) ≡ Some (Exercise w) → Prints w.from w.pods (K.written output.old) (K.written output.new) result.1 }
    ensures exercise_complete { (w : ExerciseWords) → asked_of (map string_bytes words.now.items) ≡ Some (Exercise w) → (Rose (K.faults output.old) (K.faults output.new) → ⊥) → (result.1 ≡ Status.Done) ⊎ (result.1 ≡ Status.Memory) }
    ensures exercise_input { (w : ExerciseWords) → asked_of (map string_bytes words.now.items) ≡ Some (Exercise w) → input.new ≡ input.old }
    ensures exercise_disk { (w : ExerciseWords) → asked_of (map string_bytes words.now.items) ≡ Some (Exercise w) → result.0 ≡ disk }
    ensures exercise_driver { (w : ExerciseWords) → asked_of (map string_bytes words.now.items) ≡ Some (Exercise w) → driver.new ≡ driver.old }
    ensures exercise_doors { (w : ExerciseWords) → asked_of (map string_bytes words.now.items) ≡ Some (Exercise w) → doors.new ≡ doors.old }
    ensures serves { (w : ServeWords) → asked_of (map string_bytes words.now.items) ≡ Some (Serve w) → ServesSo (serve_options w) (seen_as (O.served doors.old) (O.ended doors.old)) (seen_as (O.served doors.new) (O.ended doors.new)) (K.written output.old) (K.written output.new) result.1 }
    ensures serve_complete { (w : ServeWords) → asked_of (map string_bytes words.now.items) ≡ Some (Serve w) → (Rose (K.faults output.old) (K.faults output.new) → ⊥) → (Rose (O.faults doors.old) (O.faults doors.new) → ⊥) → ((result.1 ≡ Status.Done) ⊎ (result.1 ≡ Status.Limit w.options.entries)) ⊎ (result.1 ≡ Status.Memory) }
    ensures serve_input { (w : ServeWords) → asked_of (map string_bytes words.now.items) ≡ Some (Serve w) → input.new ≡ input.old }
    ensures serve_disk { (w : ServeWords) → asked_of (map string_bytes words.now.items) ≡ Some (Serve w) → result.0 ≡ disk }
    ensures serve_driver { (w : ServeWords) → asked_of (map string_bytes words.now.items) ≡ Some (Serve w) → driver.new ≡ driver.old }
    ensures read { result.1 ≡ Status.Read → Rose (S.faults input.old) (S.faults input.new) }
    ensures faultless_input { (result.1 ≡ Status.Read → ⊥) → S.faults input.new ≡ S.faults input.old }
    ensures write { result.1 ≡ Status.Write → Rose (K.faults output.old) (K.faults output.new) }
    ensures faultless_output { (result.1 ≡ Status.Write → ⊥) → K.faults output.new ≡ K.faults output.old }
    ensures disk { result.1 ≡ Status.Disk → Rose (D.faults disk) (D.faults result.0) }
    ensures faultless_disk { (result.1 ≡ Status.Disk → ⊥) → D.faults result.0 ≡ D.faults disk }
    ensures door { result.1 ≡ Status.Door → Rose (O.faults doors.old) (O.faults doors.new) }
    ensures faultless_doors { (result.1 ≡ Status.Door → ⊥) → (result.1 ≡ Status.Memory → ⊥) → O.faults doors.new ≡ O.faults doors.old }
{
    runs_are_true();
    endings_have_causes();
    match asked(rt.alloc(), words) {
        Ok(asked) => match asked {
            Some(task) => match task {
                Task::Replay(options) => replay::<DefaultEngine, _, _, _, _, _, _>(
                    rt, &options, input, output, disk, driver, gate,
                ),
                Task::Serve(words) => {
                    let status = serve_words(rt, &words, output, doors, gate);
                    (disk, status)
                }
                Task::Exercise(words) => {
                    let status = exercise(rt, words.from, words.pods, output);
                    (disk, status)
                }
            },
            None => (disk, Status::Usage),
        },
        Err(_) => (disk, Status::Memory),
    }
}

/// The exit status of the program for how its run ended (this project's own numbers).
pub fn exit_number(status: Status) -> u8
    ensures { result ≡ exit_number status }
{
    match status {
        Status::Done => 0,
        Status::Usage => 2,
        Status::Document(_, _) => 3,
        Status::Memory => 4,
        Status::Read => 5,
        Status::Write => 6,
        Status::Disk => 7,
        Status::Limit(_) => 8,
        Status::Checkpoint(_) => 10,
        Status::Door => 9,
    }
}
