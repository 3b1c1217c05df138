ghost use Rattle.std.specs.Prelude.{◌≡◌, ◌<◌, ◌≤◌, ◌^◌, ℕ, length, map};
ghost use Rattle.commands.specs.Readings.{reading};
ghost use Rattle.doc_split.specs.Limits.{documents_at, the_limits};
ghost use Rattle.script_gen.specs.Laid.{laid_out};
ghost use Rattle.script_gen.specs.Script.{documents_of, script_of};
ghost use Rattle.script_commands.specs.Commands.{asked_alone, commands_of};

use doc_split::documents_lie_in_order;
use script_gen::{documents_are_counted, documents_are_laid};

/// Each document of a script asks for one command: the nodes, the class, the slices, the claims and the pods are
/// objects to be applied, whatever their fields, and a Schedule and a Release are of a pod by its key.
pub fn documents_are_commands()
    ensures { (attempts from pods : ℕ) → pods < 2 ^ 64 → map (reading attempts) (documents_of from pods) ≡ map asked_alone (commands_of attempts from pods) }
{
    documents_are_counted();
}

/// A script of at most 100,000 pods is shorter than an input may be, so its documents are all that the input has, and
/// then it ends.
pub fn scripts_are_inputs()
    ensures short { (from pods : ℕ) → pods ≤ 100000 → length (script_of from pods) < 2 ^ 30 }
    ensures documents { (from pods : ℕ) → pods ≤ 100000 → documents_at the_limits 0 (script_of from pods) ≡ laid_out 0 (documents_of from pods) }
{
    documents_are_counted();
    documents_are_laid();
    documents_lie_in_order();
}
