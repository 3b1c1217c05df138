ghost use Rattle.std.specs.Prelude.{◌≡◌, ◌≤◌, ◌<◌, ◌-◌, ℕ, List, length, take};
ghost use Rattle.doc_split.specs.Documents.{documents_from};
ghost use Rattle.doc_split.specs.Layout.{Lie};
ghost use Rattle.doc_split.specs.Limits.{documents_at, the_limits, with_more};

/// The documents of bytes are in order with only blanks before each, each begins with a brace, is
/// balanced, and has no shorter prefix that is, and what follows the last is what the ending
/// states. For an input that is over its limit they are those of the prefix within the limit.
pub fn documents_lie_in_order()
    ensures lie { (most at : ℕ) (bytes : List ℕ) → Lie most at bytes (documents_from most 0 at bytes).documents (documents_from most 0 at bytes).ending }
    ensures within { (at : ℕ) (bytes : List ℕ) → length bytes ≤ the_limits.input - at → documents_at the_limits at bytes ≡ documents_from the_limits.document 0 at bytes }
    ensures longer { (at : ℕ) (bytes : List ℕ) → the_limits.input - at < length bytes → documents_at the_limits at bytes ≡ with_more (documents_from the_limits.document 0 at (take (the_limits.input - at) bytes)) }
{}
