ghost use Rattle.std.specs.Prelude.{◌≡◌, ℕ, List};
ghost use Rattle.cluster.specs.declared.entry.Entry.{Entry};
ghost use Rattle.cluster.specs.declared.entry.Event.{Event};
ghost use Rattle.commands.specs.declared.command.Command.{Command};
ghost use Rattle.histories.specs.Determined.{AllAlike, AreAlike, IsRunOf, RunBy};
ghost use Rattle.histories.specs.JobRuns.{JobStep, Run};
ghost use Rattle.histories.specs.Legal.{Legal, Step};

use plan_rules::decisions_are_unique;

/// A history is determined by the commands of its jobs with their attempts, by the budget, and by what its
/// lines show of each entry beside: the job, the kind, and the index of a plan or a verdict. The entry that
/// follows a history is determined by the same. Entries of each job that are of a run of its command are what
/// is asked for.
pub fn histories_are_determined()
    ensures entry { (before : List Entry) (job budget f g : ℕ) (command : Command) (d e : Event) → Step before (record { job = job; event = d }) → Step before (record { job = job; event = e }) →
        JobStep (record { job = job; command = command; from = f; budget = budget }) before d → JobStep (record { job = job; command = command; from = g; budget = budget }) before e → AreAlike d e → d ≡ e }
    ensures whole { (commands : ℕ → Command) (budget : ℕ) (h g : List Entry) → Legal h → Legal g → RunBy commands budget h → RunBy commands budget g → AllAlike h g → h ≡ g }
    ensures of_runs { (runs : ℕ → Run) (budget : ℕ) (h : List Entry) → ((j : ℕ) → IsRunOf runs budget j h) → RunBy (λ j. (runs j).command) budget h }
{
    decisions_are_unique();
}
