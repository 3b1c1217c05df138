ghost use Rattle.std.specs.Prelude.{◌≡◌, ◌<◌, ◌≤◌, ◌+◌, ◌++◌, ◌∷◌, [], ℕ, ℤ, List, Option, Some, Ok, Err, codes, length, slice_get, true};
ghost use Rattle.std.specs.Result.{is_ok};
ghost use Rattle.serde_json.specs.Data.{Data, Members};
ghost use Rattle.object_fields.specs.Fields.{error_at, field_error, optional_at, table_at};
ghost use Rattle.object_fields.specs.declared.error.FieldError.{FieldError};
ghost use Rattle.object_fields.specs.declared.kind.FieldErrorKind.TheVariants.{Doubled, TooMany};
ghost use Rattle.object_fields.specs.declared.path.Step.{Step};
ghost use Rattle.object_fields.specs.declared.path.Step.TheVariants.{Key};
ghost use Rattle.object_fields.specs.declared.qualified.QualName.{QualName};
ghost use Rattle.api_slice.specs.Attributes.{attribute_of, attributes_with};
ghost use Rattle.api_slice.specs.Capacity.{capacity_of, capacity_with, together_most, value_without_policy};
ghost use Rattle.api_slice.specs.Lists.{count_at};
ghost use Rattle.slice_laws.specs.NewKeys.{AreNewNames, IsOverTogether, IsRepeatedKey, is_name_among, keys_in, names_alone};

/// The names of a device's attributes. Where each key and each value reads by itself, the attributes are
/// read if no two keys mean the same full name, and else the attribute is Doubled at the first key whose
/// name a key before means. It is Doubled only there.
pub fn attribute_names_are_new()
    ensures new { (driver : List ℕ) (path : List Step) (ms : Members) (names : List QualName) →
        names_alone attribute_of driver path ms ≡ Ok names → AreNewNames [] names → is_ok (attributes_with driver path [] ms) ≡ true }
    ensures doubled { (driver : List ℕ) (path : List Step) (ms : Members) (before behind : List QualName) (name : QualName) (key : List ℕ) →
        names_alone attribute_of driver path ms ≡ Ok (before ++ name ∷ behind) → AreNewNames [] before → is_name_among name before ≡ true → slice_get (keys_in ms) (length before) ≡ Some key →
        attributes_with driver path [] ms ≡ Err (error_at (path ++ Key key ∷ []) Doubled) }
    ensures only { (driver : List ℕ) (path : List Step) (ms : Members) (e : FieldError) →
        attributes_with driver path [] ms ≡ Err e → e.kind ≡ Doubled → IsRepeatedKey driver path ms e }
{}

/// The same of the names of a device's capacities. Capacities in a map are TooMany if and only
/// if there are more than 32 attributes and capacities together.
pub fn capacity_names_are_new()
    ensures new { (driver : List ℕ) (path : List Step) (ms : Members) (names : List QualName) →
        names_alone value_without_policy driver path ms ≡ Ok names → AreNewNames [] names → is_ok (capacity_with driver path [] ms) ≡ true }
    ensures doubled { (driver : List ℕ) (path : List Step) (ms : Members) (before behind : List QualName) (name : QualName) (key : List ℕ) →
        names_alone value_without_policy driver path ms ≡ Ok (before ++ name ∷ behind) → AreNewNames [] before → is_name_among name before ≡ true → slice_get (keys_in ms) (length before) ≡ Some key →
        capacity_with driver path [] ms ≡ Err (error_at (path ++ Key key ∷ []) Doubled) }
    ensures only { (driver : List ℕ) (path : List Step) (ms : Members) (e : FieldError) →
        capacity_with driver path [] ms ≡ Err e → e.kind ≡ Doubled → IsRepeatedKey driver path ms e }
    ensures many { (driver : List ℕ) (path : List Step) (d : Data) (ms : Option Members) →
        optional_at table_at path (codes "capacity") d ≡ Ok ms → together_most < count_at (codes "attributes") d + count_at (codes "capacity") d → capacity_of driver path d ≡ Err (field_error path (codes "capacity") TooMany) }
    ensures only_many { (driver : List ℕ) (path : List Step) (d : Data) (e : FieldError) →
        capacity_of driver path d ≡ Err e → e.kind ≡ TooMany → IsOverTogether path d e }
    ensures few { (driver : List ℕ) (path : List Step) (d : Data) (out : List (QualName × ℤ)) →
        capacity_of driver path d ≡ Ok out → count_at (codes "attributes") d + count_at (codes "capacity") d ≤ together_most }
{}
