ghost use Rattle.std.specs.Prelude.{◌≡◌, ◌≤◌, ◌+◌, ◌∷◌, ◌++◌, [], ℕ, List, length, true};
ghost use Rattle.doc_split.specs.Begun.{IsClosed};
ghost use Rattle.doc_split.specs.Documents.{Clean, before, documents_from, is_blank, nothing};
ghost use Rattle.doc_split.specs.Scan.{begun, piece_length, scan_behind};

/// How documents that are known lie in bytes. A text that begins with a brace is a document if, scanned
/// byte by byte behind that brace, no brace is open for the first time at its end. Where such a text comes
/// first, it is the first document; a blank is passed over; and where nothing is left, there is none.
pub fn documents_come_first()
    ensures closed { (tail : List ℕ) → piece_length begun tail ≡ length tail → (scan_behind begun tail).depth ≡ 0 → IsClosed (123 ∷ tail) }
    ensures first { (most at : ℕ) (tail more : List ℕ) → IsClosed (123 ∷ tail) → length tail + 1 ≤ most →
        documents_from most 0 at (123 ∷ (tail ++ more)) ≡ before (record { at = at; bytes = 123 ∷ tail } ∷ []) (documents_from most 0 (at + (length tail + 1)) more) }
    ensures blank { (most at b : ℕ) (bytes : List ℕ) → is_blank b ≡ true → documents_from most 0 at (b ∷ bytes) ≡ documents_from most 0 (at + 1) bytes }
    ensures none { (most at : ℕ) → documents_from most 0 at [] ≡ nothing Clean }
{}
