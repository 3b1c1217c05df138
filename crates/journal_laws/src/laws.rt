ghost use Rattle.std.specs.Prelude.{◌≡◌, ◌<◌, ◌^◌, ◌++◌, ◌∷◌, [], ℕ, List, length, true};
ghost use Rattle.std.specs.List.{list_all};
ghost use Rattle.cluster.specs.declared.entry.Entry.{Entry};
ghost use Rattle.commands.specs.declared.command.Command.{Command};
ghost use Rattle.histories.specs.Determined.{RunBy, decided_at, kind_word};
ghost use Rattle.histories.specs.Legal.{Legal};
ghost use Rattle.journal_text.specs.Journal.{kubelet_line, line_of, lines_from, summary_of, text_of};
ghost use Rattle.journal_laws.specs.Rows.{HasEntries};
ghost use Rattle.journal_laws.specs.Told.{HasClearIndex, JobsFit, SameLines, is_unbroken, names_before_index};

use histories::{histories_are_determined, histories_grow, legal_steps};

/// Equal lines are of one index, one job and one kind, and where the names before the index of a plan or
/// a verdict have no blank, of one such index. Indexes and jobs are numbers of 64 bits.
pub fn lines_tell_entries()
    ensures kind { (p q : ℕ) (d e : Entry) → line_of p d ≡ line_of q e → kind_word d.event ≡ kind_word e.event }
    ensures index { (p q : ℕ) (d e : Entry) → p < 2 ^ 64 → q < 2 ^ 64 → line_of p d ≡ line_of q e → p ≡ q }
    ensures job { (p q : ℕ) (d e : Entry) → d.job < 2 ^ 64 → e.job < 2 ^ 64 → line_of p d ≡ line_of q e → d.job ≡ e.job }
    ensures decided { (p q : ℕ) (d e : Entry) → HasClearIndex d.event → HasClearIndex e.event → line_of p d ≡ line_of q e → decided_at d.event ≡ decided_at e.event }
{}

/// Equal lines of two histories are as many in both, and equal one by one. Equal texts have equal lines
/// before their summaries, and their summaries name the same number of commands, of 64 bits.
pub fn texts_are_lines()
    ensures count { (n : ℕ) (h g : List Entry) → lines_from n h ≡ lines_from n g → length h ≡ length g }
    ensures lines { (n : ℕ) (h g : List Entry) → lines_from n h ≡ lines_from n g → SameLines n h g }
    ensures summaries { (h g : List Entry) (m n : ℕ) → text_of h m ≡ text_of g n → lines_from 0 h ≡ lines_from 0 g }
    ensures commands { (h g : List Entry) (m n : ℕ) → m < 2 ^ 64 → n < 2 ^ 64 → text_of h m ≡ text_of g n → m ≡ n }
{}

/// The lines of entries are those lines of a text that begin with a digit: neither lines of the kubelet nor a
/// summary do. So equal texts of such lines, in whatever order they come, have equal lines of entries.
pub fn digits_begin_entries()
    ensures same { (text other own others : List ℕ) → HasEntries text own → HasEntries other others → text ≡ other → own ≡ others }
    ensures none { HasEntries [] [] }
    ensures more { (text other own others : List ℕ) → HasEntries text own → HasEntries other others → HasEntries (text ++ other) (own ++ others) }
    ensures entries { (n : ℕ) (es : List Entry) → HasEntries (lines_from n es) (lines_from n es) }
    ensures kubelet { (job : ℕ) (text : List ℕ) → HasEntries (kubelet_line job text) [] }
    ensures summary { (h : List Entry) (n : ℕ) → HasEntries (summary_of h n) [] }
{}

/// In a legal history the names of the pod and of the node that stand before the index of a plan or a
/// verdict have no blank.
pub fn names_are_unbroken()
    ensures { (prefix : List Entry) (e : Entry) (back : List Entry) → Legal (prefix ++ e ∷ back) → list_all is_unbroken (names_before_index e.event) ≡ true }
{
    histories_grow();
    legal_steps();
}

/// A legal history whose entries are of the runs of their jobs is determined by the commands of the jobs
/// with their attempts, by the budget, and by its printed lines, and so by its whole text. Its length and
/// the numbers of its jobs are of 64 bits.
pub fn texts_determine_histories()
    ensures lines { (commands : ℕ → Command) (budget : ℕ) (h g : List Entry) → Legal h → Legal g → RunBy commands budget h → RunBy commands budget g →
        length h < 2 ^ 64 → JobsFit h → JobsFit g → lines_from 0 h ≡ lines_from 0 g → h ≡ g }
    ensures texts { (commands : ℕ → Command) (budget : ℕ) (h g : List Entry) (m n : ℕ) → Legal h → Legal g → RunBy commands budget h → RunBy commands budget g →
        length h < 2 ^ 64 → JobsFit h → JobsFit g → text_of h m ≡ text_of g n → h ≡ g }
{
    lines_tell_entries();
    texts_are_lines();
    names_are_unbroken();
    legal_steps();
    histories_are_determined();
}
