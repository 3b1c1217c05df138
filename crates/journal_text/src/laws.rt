ghost use Rattle.std.specs.Prelude.{◌≡◌, ◌++◌, ◌+◌, ℕ, List, length};
ghost use Rattle.cluster.specs.declared.entry.Entry.{Entry};
ghost use Rattle.journal_text.specs.Journal.{line_of, lines_from};
ghost use Rattle.journal_text.specs.Laws.{IsOneLine};

/// States that a line has one LF, at its end, and no other control character.
pub fn line_is_one_line()
    ensures { (place : ℕ) (entry : Entry) → IsOneLine (line_of place entry) }
{}

/// States that the lines of a history are those of a prefix and then those of the rest.
pub fn lines_of_more()
    ensures { (n : ℕ) (xs ys : List Entry) → lines_from n (xs ++ ys) ≡ lines_from n xs ++ lines_from (n + length xs) ys }
{}
