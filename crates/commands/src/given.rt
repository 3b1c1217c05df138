ghost use Rattle.std.specs.Prelude.{◌≡◌};
ghost use Rattle.commands.specs.declared.given.GivenError.TheVariants.{Memory};

use crate::Command;
use dra_values::Seq;
use object_fields::Key;
use std::alloc::AllocError;
use thiserror::Error;

/// What a document asks for: a command, or what is more than one.
#[derive(Drop)]
pub enum Given {
    /// A command.
    One(Command),
    /// 1 to 256 commands that run at the same time, each a job of its own.
    Together(Seq<Command>),
    /// The node of the pod of that key prepares its claims.
    Prepare(Key),
    /// The node of the pod of that key unprepares its claims.
    Unprepare(Key),
    /// The kubelet is closed and opened again.
    Reopen,
}

/// Why a document asks for nothing.
#[derive(Clone, Copy, Debug, PartialEq, Eq, Drop, Error)]
pub enum GivenError {
    /// Its bytes aren't one JSON object in UTF-8.
    #[error("the document is no JSON object in UTF-8")]
    NotJson,
    /// It is JSON, but no command.
    #[error("the document is no command")]
    NotACommand,
    /// Out of memory.
    #[error("out of memory")]
    Memory,
}

impl From<AllocError> for GivenError {
    ghost from_gives = { λ _ e. e ≡ Memory };

    fn from(_: AllocError) -> Self {
        GivenError::Memory
    }
}
