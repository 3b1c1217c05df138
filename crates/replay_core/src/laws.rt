ghost use Rattle.std.specs.Prelude.{◌≡◌, ◌+◌, ◌++◌, ◌∷◌, ◌⊎◌, ℕ, List, [], Option, Some, length};
ghost use Rattle.dra_ports.specs.DiskContent.{Content};
ghost use Rattle.object_fields.specs.declared.key.Key.{Key};
ghost use Rattle.cluster.specs.declared.plan.Plan.{Plan};
ghost use Rattle.cluster.specs.declared.plan.Verdict.{Verdict};
ghost use Rattle.cluster.specs.declared.entry.Entry.{Entry};
ghost use Rattle.cluster.specs.declared.entry.Event.{Event};
ghost use Rattle.cluster.specs.History.{state_at};
ghost use Rattle.plan_rules.specs.Plans.{PlanBy, VerdictBy};
ghost use Rattle.commands.specs.declared.command.Command.{Command};
ghost use Rattle.commands.specs.declared.given.Given.{Given};
ghost use Rattle.histories.specs.Alone.{NeverSetBack};
ghost use Rattle.histories.specs.Legal.{Legal};
ghost use Rattle.replay_core.specs.Causes.{EndsBy, FindsNone, HasNoRoom, HasOpen, IsFaultless, IsSettled, MayOpen, ReachesFirst, ReachesLimit};
ghost use Rattle.replay_core.specs.Complete.{Scheduled};
ghost use Rattle.replay_core.specs.Forms.{count_of, members};
ghost use Rattle.replay_core.specs.Jobs.{RunOf, SegmentBegun, SegmentRun};
ghost use Rattle.replay_core.specs.Kubelet.{Node};
ghost use Rattle.replay_core.specs.Replay.{Ends, IsPart, IsRun};
ghost use Rattle.replay_core.specs.Script.{commands_of, script_of};
ghost use Rattle.replay_core.specs.declared.options.ReplayOptions.{ReplayOptions};
ghost use Rattle.replay_core.specs.declared.status.Status.{Status};
ghost use Rattle.replay_core.specs.declared.status.Status.TheVariants as status;

use histories::{histories_grow, legal_steps};
use sched_job::{alone_is_undisturbed, schedules_are_complete};

/// In the run of commands with a budget, each plan and each verdict is what searches of the nodes
/// within that budget return at its index. So it is in the run of commands and then of a part of one more, or of
/// a Together, that reached the limit of the history.
pub fn runs_search_within()
    ensures plans { (budget : ℕ) (commands : List Given) (prefix back : List Entry) (job : ℕ) (pod : Key) (plan : Plan) →
        RunOf budget commands (prefix ++ record { job = job; event = Event.Reserved pod plan } ∷ back) → PlanBy (state_at prefix plan.at) pod budget plan }
    ensures verdicts { (budget : ℕ) (commands : List Given) (prefix back : List Entry) (job : ℕ) (pod : Key) (verdict : Verdict) →
        RunOf budget commands (prefix ++ record { job = job; event = Event.VerdictGiven pod verdict } ∷ back) → VerdictBy (state_at prefix verdict.at) pod budget verdict }
    ensures part_plans { (budget n : ℕ) (commands : List Given) (more : Given) (before segment prefix back : List Entry) (job : ℕ) (pod : Key) (plan : Plan) →
        RunOf budget commands before → SegmentBegun n more budget before segment → before ++ segment ≡ prefix ++ record { job = job; event = Event.Reserved pod plan } ∷ back → PlanBy (state_at prefix plan.at) pod budget plan }
    ensures part_verdicts { (budget n : ℕ) (commands : List Given) (more : Given) (before segment prefix back : List Entry) (job : ℕ) (pod : Key) (verdict : Verdict) →
        RunOf budget commands before → SegmentBegun n more budget before segment → before ++ segment ≡ prefix ++ record { job = job; event = Event.VerdictGiven pod verdict } ∷ back → VerdictBy (state_at prefix verdict.at) pod budget verdict }
{}

/// In a legal history that is the run of commands with a budget, each Schedule that is a single command
/// is complete: none of its entries is a refusal of its plan, a conflict or contended, and if its pod is there and Idle after the entries of the commands before it, the pod is bound
/// to the first node by name that fits in that state within the budget, or the one entry is the verdict
/// that says why not.
pub fn runs_are_complete()
    ensures { (budget : ℕ) (prefix back : List Given) (pod : Key) (attempts : ℕ) (h : List Entry) → Legal h →
        RunOf budget (prefix ++ Given.One (Command.Schedule pod attempts) ∷ back) h → Scheduled budget prefix pod attempts h }
{
    alone_is_undisturbed();
    legal_steps();
    schedules_are_complete();
}

/// A command by itself whose entries are the last of a legal history is never refused by the check of its plan, in
/// conflict or contended, whether it was run whole or reached the limit of the history.
pub fn single_commands_are_undisturbed()
    ensures run { (n : ℕ) (command : Command) (budget : ℕ) (before segment : List Entry) → Legal (before ++ segment) → SegmentRun n (Given.One command) budget before segment → NeverSetBack (n + 1) (before ++ segment) }
    ensures part { (n : ℕ) (command : Command) (budget : ℕ) (before segment : List Entry) → Legal (before ++ segment) → SegmentBegun n (Given.One command) budget before segment → NeverSetBack (n + 1) (before ++ segment) }
{
    alone_is_undisturbed();
}

/// Which status a replay of an input that exposes its contents has, unless an error of the input, the output or the disk
/// ended it, or memory ran out.
///
/// If its script can't reach the limit of the history, and needs no disk or has one that is empty or a journal, all its
/// commands are done, and the status says how the script ends: `Done` at its end, `Document` with the offset and the
/// reason of what isn't a command, `Limit` with the most bytes that an input may have. If all its commands have no history
/// within the limit, the status is `Limit` with the number of entries that a history may have. If its first command of the
/// kubelet finds a disk that isn't empty and is no journal, and the commands before it can't reach the limit, the status
/// is `Checkpoint` with the offset from which on it is none.
pub fn endings_have_causes()
    ensures complete { (options : ReplayOptions) (bytes : List ℕ) (left_now before after : Option (List ℕ)) (found now : Node) (s : Status) →
        Ends options (Some bytes) left_now before after found now s → IsFaultless s → (ReachesLimit options bytes → ⊥) → MayOpen options bytes found.content → EndsBy (script_of options.attempts bytes).ending s ⊎ (s ≡ status.Memory) }
    ensures limit { (options : ReplayOptions) (bytes : List ℕ) (left_now before after : Option (List ℕ)) (found now : Node) (s : Status) →
        Ends options (Some bytes) left_now before after found now s → IsFaultless s → HasNoRoom options bytes → MayOpen options bytes found.content → (s ≡ status.Limit options.entries) ⊎ (s ≡ status.Memory) }
    ensures checkpoint { (options : ReplayOptions) (bytes : List ℕ) (left_now before after : Option (List ℕ)) (found now : Node) (s : Status) (at : ℕ) →
        Ends options (Some bytes) left_now before after found now s → IsFaultless s → FindsNone options bytes at found.content → (ReachesFirst options bytes → ⊥) → (s ≡ status.Checkpoint at) ⊎ (s ≡ status.Memory) }
{}

/// An input without bytes asks for nothing: it can't reach the limit of a history, needs no disk, and is at its end.
///
/// So by the first clause of `endings_have_causes` its replay ends with `Done`, unless an error ends it or memory runs out,
/// and what is said of a replay refuses each other status that is returned at once.
pub fn empty_inputs_are_done()
    ensures within { (options : ReplayOptions) → ReachesLimit options [] → ⊥ }
    ensures opens { (options : ReplayOptions) (disk : Option Content) → MayOpen options [] disk }
    ensures done { (attempts : ℕ) (s : Status) → EndsBy (script_of attempts []).ending s → s ≡ status.Done }
{}

/// Which jobs are ended in the history of a replay.
///
/// In the run of commands each job that has an entry is ended. Where a command reached the limit of the history, one of
/// its jobs isn't.
pub fn runs_end_their_jobs()
    ensures run { (options : ReplayOptions) (done : List (ℕ × Given)) (h : List Entry) → IsRun options done h → (job : ℕ) → IsSettled h job }
    ensures part { (options : ReplayOptions) (done : List (ℕ × Given)) (c : Given) (h : List Entry) → IsPart options done c h → HasOpen (count_of (commands_of done)) (length (members c)) h }
{
    histories_grow();
}
