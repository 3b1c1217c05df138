ghost use Rattle.std.specs.Prelude.{◌≡◌, ◌≢◌, ◌<◌, ◌++◌, ◌∷◌, List, Ok, get_or, ℕ};
ghost use Rattle.std.specs.List.{AllByRecursion};
ghost use Rattle.ckpt_journal.specs.Format.{Fits, blocks};
ghost use Rattle.ckpt_journal.specs.Reading.{gates};
ghost use Rattle.ckpt_journal.specs.Standing.{IsSpelled};
ghost use Rattle.ckpt_journal.specs.Table.{compact, table};
ghost use Rattle.ckpt_journal.specs.declared.record.Record.{Record};

/// States what the records from a first gate on are: bytes have these records if and only if they are these records
/// after open gates, a closed gate, and anything.
pub fn records_are_spelled()
    ensures spelled { (rs : List Record) (gate : ℕ) (tail : List ℕ) → AllByRecursion Fits rs → gate ≢ 90 → gates (blocks rs ++ gate ∷ tail) ≡ Ok rs }
    ensures read { (rs : List Record) (bytes : List ℕ) → ((i : ℕ) → get_or bytes i 0 < 256) → gates bytes ≡ Ok rs → IsSpelled rs bytes }
{}

/// States that the records of a compacted table make that table, whatever records made it.
pub fn compacted_is_same()
    ensures { (rs : List Record) → AllByRecursion Fits rs → table (compact (table rs)) ≡ table rs }
{}
