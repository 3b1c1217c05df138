ghost use Rattle.std.specs.Prelude.{◌≡◌, IfOk, IfSome, map, string_bytes};
ghost use Rattle.dra_cli.specs.Task.{Fits, asked_of, options_of, task_of};

use cli_words::{Command, ExerciseWords, ReplayWords, ServeWords};
use replay_core::ReplayOptions;
use std::alloc::{AllocError, Global};

/// What this program can be asked for.
#[derive(Debug, PartialEq, Eq, Drop)]
pub enum Task {
    /// To replay the script that the input is.
    Replay(ReplayOptions),
    /// To serve connections to an address.
    Serve(ServeWords),
    /// To replay a generated script.
    Exercise(ExerciseWords),
}

/// How a script is replayed that these words ask for.
fn options_of(words: ReplayWords) -> ReplayOptions
    ensures { result ≡ options_of words }
{
    ReplayOptions {
        workers: words.options.workers,
        budget: words.options.budget,
        attempts: words.options.attempts,
        entries: words.options.entries,
        node: words.node,
    }
}

/// The task of a command.
fn task_of(command: Command) -> Task
    ensures { result ≡ task_of command }
{
    match command {
        Command::Replay(words) => Task::Replay(options_of(words)),
        Command::Serve(words) => Task::Serve(words),
        Command::Exercise(words) => Task::Exercise(words),
    }
}

/// What the arguments after the program's name ask for, or `None` if they are no command of this program. The options are
/// in their ranges. `AllocError` is returned only if out of memory.
pub fn asked(alloc: Global, words: &[String]) -> Result<Option<Task>, AllocError>
    ensures asked { IfOk result (λ task. task ≡ asked_of (map string_bytes words.now)) }
    ensures fit { IfOk result (λ task. IfSome task Fits) }
{
    match cli_words::words(alloc, words)? {
        Some(command) => Ok(Some(task_of(command))),
        None => Ok(None),
    }
}
