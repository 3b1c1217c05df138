//! Laws of what is read.

ghost use Rattle.std.specs.Prelude.{◌≡◌, ℕ, ◌<◌, ◌≤◌, ◌++◌, ◌∷◌, [], true, codes, List, length, map, Ok, Err, Result, Some};
ghost use Rattle.serde_json.specs.Data.{Data, Items};
ghost use Rattle.object_fields.specs.Fields.{dns_label_at, field_error, items_length, list_at, object_value, short_list_at};
ghost use Rattle.object_fields.specs.Limits.{MetaKept};
ghost use Rattle.object_fields.specs.Lists.{each, each_at, each_beside};
ghost use Rattle.object_fields.specs.NewNames.{AreNew, IsDoubled, IsNewNameReading, IsOver, doubled_at, is_among, named, names_in};
ghost use Rattle.object_fields.specs.Meta.{meta_at};
ghost use Rattle.object_fields.specs.declared.error.FieldError.{FieldError};
ghost use Rattle.object_fields.specs.declared.kind.FieldErrorKind.TheVariants.{Doubled, TooMany};
ghost use Rattle.object_fields.specs.declared.meta.ObjectMeta.{ObjectMeta};
ghost use Rattle.object_fields.specs.declared.meta.Scope.{Scope};
ghost use Rattle.object_fields.specs.declared.path.Step.{Step};
ghost use Rattle.object_fields.specs.declared.path.Step.TheVariants.{Place};

/// The metadata that is read of an object keeps the limits and name rules of the Kubernetes API
/// reference: the name is a DNS subdomain of at most 253 bytes, the namespace a DNS label if the
/// kind has namespaces and else empty, and the version a number of 64 bits.
pub fn metadata_keeps_limits()
    ensures { (scope : Scope) (d : Data) (meta : ObjectMeta) → meta_at scope d ≡ Ok meta → MetaKept scope meta }
{}

/// A list that is read item by item has at most as many items as it may.
pub fn lists_keep_limits<T>()
    ensures { (most : ℕ) (reading : List Step → Data → Result T FieldError) (path : List Step) (name : List ℕ) (d : Data) (xs : List T) →
        each_at most reading path name d ≡ Ok xs → length xs ≤ most }
{}

/// Lists whose items have names, each of which must be new, read item by item.
///
/// What is read are the names of the document, in order and as many. If each item can be read by
/// itself, the names are read if no two are equal, and else the error is Doubled at the first item
/// whose name an item before it has. It is Doubled only if two items of the document have the same name, at the
/// later of the two.
pub fn names_are_new()
    ensures same { (alone : List Step → Data → Result (List ℕ) FieldError) (reading : List Step → List (List ℕ) → Data → Result (List ℕ) FieldError) → IsNewNameReading alone reading → (path : List Step) (ds : Items) (names : List (List ℕ)) →
        each_beside reading path ds ≡ Ok names → map Some names ≡ names_in ds }
    ensures new { (alone : List Step → Data → Result (List ℕ) FieldError) (reading : List Step → List (List ℕ) → Data → Result (List ℕ) FieldError) → IsNewNameReading alone reading → (path : List Step) (ds : Items) (names : List (List ℕ)) →
        each alone path ds ≡ Ok names → AreNew [] names → each_beside reading path ds ≡ Ok names }
    ensures doubled { (alone : List Step → Data → Result (List ℕ) FieldError) (reading : List Step → List (List ℕ) → Data → Result (List ℕ) FieldError) → IsNewNameReading alone reading → (path : List Step) (ds : Items) (before behind : List (List ℕ)) (name : List ℕ) →
        each alone path ds ≡ Ok (before ++ name ∷ behind) → AreNew [] before → is_among name before ≡ true → each_beside reading path ds ≡ Err (doubled_at (path ++ Place (length before) ∷ [])) }
    ensures only { (alone : List Step → Data → Result (List ℕ) FieldError) (reading : List Step → List (List ℕ) → Data → Result (List ℕ) FieldError) → IsNewNameReading alone reading → (path : List Step) (ds : Items) (e : FieldError) →
        each_beside reading path ds ≡ Err e → e.kind ≡ Doubled → IsDoubled path ds e }
{}

/// The name of an item, a DNS label: it is the text at `name` of the item, an item that is an object is
/// read as itself, and neither reading is Doubled.
pub fn labels_are_names()
    ensures name { (path : List Step) (d : Data) (name : List ℕ) → dns_label_at path (codes "name") d ≡ Ok name → named d ≡ Some name }
    ensures object { (path : List Step) (d v : Data) → object_value path d ≡ Ok v → v ≡ d }
    ensures label_once { (path : List Step) (d : Data) (e : FieldError) → dns_label_at path (codes "name") d ≡ Err e → e.kind ≡ Doubled → ⊥ }
    ensures object_once { (path : List Step) (d : Data) (e : FieldError) → object_value path d ≡ Err e → e.kind ≡ Doubled → ⊥ }
{}

/// A list of at most so many items is TooMany if and only if it is a list of more.
pub fn longer_lists_are_too_many()
    ensures many { (most : ℕ) (path : List Step) (name : List ℕ) (d : Data) (items : Items) →
        list_at path name d ≡ Ok items → most < items_length items → short_list_at most path name d ≡ Err (field_error path name TooMany) }
    ensures only { (most : ℕ) (path : List Step) (name : List ℕ) (d : Data) (e : FieldError) →
        short_list_at most path name d ≡ Err e → e.kind ≡ TooMany → IsOver most path name d }
{}
