ghost use Rattle.std.specs.Prelude.{◌≡◌, ◌≤◌, ℕ, map};
ghost use Rattle.commands.specs.declared.given.Given.TheVariants.{One};
ghost use Rattle.replay_core.specs.Script.{Clean, commands_of, script_of};
ghost use Rattle.script_commands.specs.Commands.{commands_of as asked_of};
ghost use Rattle.script_gen.specs.Script.{script_of as generated};

use script_commands::{documents_are_commands, scripts_are_inputs};

/// The script that is generated asks for its commands one by one, and then it ends.
pub fn scripts_are_clean()
    ensures commands { (attempts from pods : ℕ) → pods ≤ 100000 → commands_of (script_of attempts (generated from pods)).commands ≡ map One (asked_of attempts from pods) }
    ensures ending { (attempts from pods : ℕ) → pods ≤ 100000 → (script_of attempts (generated from pods)).ending ≡ Clean }
{
    documents_are_commands();
    scripts_are_inputs();
}
