ghost use Rattle.std.specs.Prelude.{◌≡◌, ◌<◌, ◌+◌, ◌^◌, ◌++◌, ◌∷◌, ℕ, List, Some};
ghost use Rattle.cluster.specs.declared.entry.Entry.{Entry};
ghost use Rattle.commands.specs.declared.given.Given.{Given};
ghost use Rattle.histories.specs.Determined.{RunBy};
ghost use Rattle.journal_text.specs.Journal.{lines_from};
ghost use Rattle.replay_core.specs.declared.options.ReplayOptions.{ReplayOptions};
ghost use Rattle.replay_core.specs.Forms.{count_of, width};
ghost use Rattle.replay_core.specs.Jobs.{AllOwn, RunOf, SegmentBegun};
ghost use Rattle.replay_core.specs.Kubelet.{Node};
ghost use Rattle.replay_core.specs.Replay.{EndsDone, EndsFull, IsDone};
ghost use Rattle.replay_core.specs.Script.{commands_of};
ghost use Rattle.replay_core.specs.Numbered.{command_at};

use journal_laws::{digits_begin_entries, texts_determine_histories};
use journal_text::lines_of_more;

/// In the run of the first of some commands each entry is of the run of its job, whose command is the one with
/// its number, and each job has the number of one of those that were run. So it is in the run of commands and
/// then of a part of one more that reached the limit.
pub fn runs_are_numbered()
    ensures by_commands { (budget : ℕ) (gs more : List Given) (h : List Entry) → RunOf budget gs h → RunBy (command_at (gs ++ more)) budget h }
    ensures jobs { (budget : ℕ) (gs : List Given) (h : List Entry) → RunOf budget gs h → AllOwn 0 (count_of gs) h }
    ensures part { (budget : ℕ) (gs more : List Given) (g : Given) (before segment : List Entry) → RunOf budget gs before → SegmentBegun (count_of gs) g budget before segment → RunBy (command_at (gs ++ g ∷ more)) budget (before ++ segment) }
    ensures part_jobs { (budget : ℕ) (gs : List Given) (g : Given) (before segment : List Entry) → RunOf budget gs before → SegmentBegun (count_of gs) g budget before segment → AllOwn 0 (count_of gs + width g) (before ++ segment) }
{}

/// Of two replays that did the same commands within the same budget, and printed the same text, the histories
/// are equal, whatever their disks and drivers were. So are those of two replays to the end of one script, with
/// the same budget and the same attempts, that wrote the same, and of two that the limit of entries ended. The
/// number of the commands, and that of the entries that one of the histories may have, are of 64 bits.
pub fn texts_determine_runs()
    ensures lines { (options others : ReplayOptions) (done rest : List (ℕ × Given)) (h g : List Entry) (text other : List ℕ) (found left found_also left_also : Node) →
        IsDone options found left done h text → IsDone others found_also left_also rest g other → text ≡ other → lines_from 0 h ≡ lines_from 0 g }
    ensures commands { (options others : ReplayOptions) (done : List (ℕ × Given)) (h g : List Entry) (text other : List ℕ) (found left found_also left_also : Node) →
        options.budget ≡ others.budget → IsDone options found left done h text → IsDone others found_also left_also done g other → text ≡ other →
        count_of (commands_of done) < 2 ^ 64 → options.entries < 2 ^ 64 → h ≡ g }
    ensures script { (options others : ReplayOptions) (bytes before after : List ℕ) (found now found_also now_also : Node)
        (x : EndsDone options (Some bytes) (Some before) (Some after) found now) (y : EndsDone others (Some bytes) (Some before) (Some after) found_also now_also) →
        options.budget ≡ others.budget → options.attempts ≡ others.attempts →
        count_of (commands_of x.done) < 2 ^ 64 → options.entries < 2 ^ 64 → x.history ≡ y.history }
    ensures full { (options others : ReplayOptions) (bytes before after : List ℕ) (m n : ℕ) (found now found_also now_also : Node)
        (x : EndsFull options m (Some bytes) (Some before) (Some after) found now) (y : EndsFull others n (Some bytes) (Some before) (Some after) found_also now_also) →
        options.budget ≡ others.budget → options.attempts ≡ others.attempts →
        count_of (commands_of x.done) + width x.command < 2 ^ 64 → count_of (commands_of y.done) + width y.command < 2 ^ 64 → options.entries < 2 ^ 64 → x.history ≡ y.history }
{
    runs_are_numbered();
    lines_of_more();
    digits_begin_entries();
    texts_determine_histories();
}
