ghost use Rattle.std.specs.Prelude.{ℕ, List};

/// A state with a history, a list of entries that only grows at its end, and with a number that is
/// fixed from the beginning, such as the limit of a ledger.
///
/// Only contracts mention either: a type defines its history and its number as ghost members, and
/// needs no code for them.
pub trait Recorded {
    /// What the history is a list of.
    type Entry;

    /// The history of the state.
    ghost history: { Self → List Self.Entry };

    /// The number that no turn changes.
    ghost number: { Self → ℕ };
}
