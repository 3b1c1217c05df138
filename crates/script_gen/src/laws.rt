ghost use Rattle.std.specs.Prelude.{◌≡◌, ◌≤◌, ◌<◌, ◌+◌, ◌*◌, ℕ, length, true};
ghost use Rattle.script_gen.specs.Script.{documents_of, released_one, releases_one};

/// A script has nine documents for its cluster, and three or four for each pod. The pod that a Release
/// is of comes before the one that it follows.
pub fn documents_are_counted()
    ensures least { (from pods : ℕ) → 9 + 3 * pods ≤ length (documents_of from pods) }
    ensures most { (from pods : ℕ) → length (documents_of from pods) ≤ 9 + 4 * pods }
    ensures earlier { (x i : ℕ) → releases_one x i ≡ true → released_one x i < i }
{}
