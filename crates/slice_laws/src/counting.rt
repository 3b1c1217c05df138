ghost use Rattle.std.specs.Prelude.{◌≡◌, ◌<◌, ◌≤◌, ◌++◌, ◌∷◌, [], ℕ, List, Ok, Err, codes, length, true};
ghost use Rattle.serde_json.specs.Data.{Items};
ghost use Rattle.object_fields.specs.Fields.{error_at, field_error};
ghost use Rattle.object_fields.specs.Lists.{each};
ghost use Rattle.object_fields.specs.NewNames.{AreNew, is_among};
ghost use Rattle.object_fields.specs.declared.error.FieldError.{FieldError};
ghost use Rattle.object_fields.specs.declared.kind.FieldErrorKind.TheVariants.{Doubled, TooMany};
ghost use Rattle.object_fields.specs.declared.path.Step.{Step};
ghost use Rattle.object_fields.specs.declared.path.Step.TheVariants.{Place};
ghost use Rattle.api_slice.specs.Consumption.{amounts_most, draws_from};
ghost use Rattle.slice_laws.specs.Counted.{IsOverSum, IsRepeated, counted, counted_first, draw_alone, set_alone, set_names, sets_drawn_on};
ghost use Rattle.api_slice.specs.Counters.{counters_most, sets_from};
ghost use Rattle.api_slice.specs.declared.types.CounterConsumption.{CounterConsumption};
ghost use Rattle.api_slice.specs.declared.types.CounterSet.{CounterSet};

use object_fields::labels_are_names;

/// The row of counter sets. Where each set reads by itself and no two have one name, the sets are read
/// if they have at most 32 counters in all, and else the list is TooMany. A set whose name a set before
/// has is Doubled, if those before have no more counters than that. The list is TooMany only if its sets
/// have more than 32 counters in all, and Doubled only where two sets of the document have the same name,
/// at the later of the two.
pub fn counter_sets_are_counted()
    ensures read { (path : List Step) (ds : Items) (sets : List CounterSet) →
        each set_alone path ds ≡ Ok sets → AreNew [] (set_names sets) → counted ds ≤ counters_most → sets_from path 0 0 [] ds ≡ Ok sets }
    ensures many { (path : List Step) (ds : Items) (sets : List CounterSet) →
        each set_alone path ds ≡ Ok sets → AreNew [] (set_names sets) → counters_most < counted ds → sets_from path 0 0 [] ds ≡ Err (error_at path TooMany) }
    ensures doubled { (path : List Step) (ds : Items) (before behind : List CounterSet) (set : CounterSet) →
        each set_alone path ds ≡ Ok (before ++ set ∷ behind) → AreNew [] (set_names before) → counted_first (length before) ds ≤ counters_most → is_among set.name (set_names before) ≡ true →
        sets_from path 0 0 [] ds ≡ Err (field_error (path ++ Place (length before) ∷ []) (codes "name") Doubled) }
    ensures few { (path : List Step) (ds : Items) (sets : List CounterSet) → sets_from path 0 0 [] ds ≡ Ok sets → counted ds ≤ counters_most }
    ensures only_many { (path : List Step) (ds : Items) (e : FieldError) → sets_from path 0 0 [] ds ≡ Err e → e.kind ≡ TooMany → IsOverSum counters_most path ds e }
    ensures only_doubled { (path : List Step) (ds : Items) (e : FieldError) → sets_from path 0 0 [] ds ≡ Err e → e.kind ≡ Doubled → IsRepeated (codes "name") path ds e }
{
    labels_are_names();
}

/// The same of what a device draws from counter sets, of at most 32 amounts in all, where no two items
/// name the same set.
pub fn draws_are_counted()
    ensures read { (path : List Step) (ds : Items) (draws : List CounterConsumption) →
        each draw_alone path ds ≡ Ok draws → AreNew [] (sets_drawn_on draws) → counted ds ≤ amounts_most → draws_from path 0 0 [] ds ≡ Ok draws }
    ensures many { (path : List Step) (ds : Items) (draws : List CounterConsumption) →
        each draw_alone path ds ≡ Ok draws → AreNew [] (sets_drawn_on draws) → amounts_most < counted ds → draws_from path 0 0 [] ds ≡ Err (error_at path TooMany) }
    ensures doubled { (path : List Step) (ds : Items) (before behind : List CounterConsumption) (draw : CounterConsumption) →
        each draw_alone path ds ≡ Ok (before ++ draw ∷ behind) → AreNew [] (sets_drawn_on before) → counted_first (length before) ds ≤ amounts_most → is_among draw.set (sets_drawn_on before) ≡ true →
        draws_from path 0 0 [] ds ≡ Err (field_error (path ++ Place (length before) ∷ []) (codes "counterSet") Doubled) }
    ensures few { (path : List Step) (ds : Items) (draws : List CounterConsumption) → draws_from path 0 0 [] ds ≡ Ok draws → counted ds ≤ amounts_most }
    ensures only_many { (path : List Step) (ds : Items) (e : FieldError) → draws_from path 0 0 [] ds ≡ Err e → e.kind ≡ TooMany → IsOverSum amounts_most path ds e }
    ensures only_doubled { (path : List Step) (ds : Items) (e : FieldError) → draws_from path 0 0 [] ds ≡ Err e → e.kind ≡ Doubled → IsRepeated (codes "counterSet") path ds e }
{
    labels_are_names();
}
