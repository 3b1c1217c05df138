ghost use Rattle.std.specs.Prelude.{◌≡◌, ◌<◌, ◌^◌, ℕ};
ghost use Rattle.doc_split.specs.Documents.{documents_from};
ghost use Rattle.doc_split.specs.Limits.{the_limits};
ghost use Rattle.script_gen.specs.Laid.{laid_out};
ghost use Rattle.script_gen.specs.Script.{documents_of, script_of};

use doc_split::documents_come_first;

/// The documents of a script, as inputs are split into documents, are exactly those that it is made of, one
/// after another, and then its text ends.
pub fn documents_are_laid()
    ensures { (from pods : ℕ) → pods < 2 ^ 64 → documents_from the_limits.document 0 0 (script_of from pods) ≡ laid_out 0 (documents_of from pods) }
{
    documents_come_first();
}
