ghost use Rattle.std.specs.Prelude.{◌≡◌, ◌++◌, ◌∷◌, [], ℕ, List, Some, Ok, Err, codes, length, map, true};
ghost use Rattle.serde_json.specs.Data.{Data, Items};
ghost use Rattle.object_fields.specs.NewNames.{AreNew, IsDoubled, doubled_at, is_among, label_of, names_in};
ghost use Rattle.object_fields.specs.declared.error.FieldError.{FieldError};
ghost use Rattle.object_fields.specs.declared.kind.FieldErrorKind.TheVariants.{Doubled};
ghost use Rattle.object_fields.specs.declared.path.Step.{Step};
ghost use Rattle.object_fields.specs.declared.path.Step.TheVariants.{Place};
ghost use Rattle.object_fields.specs.Lists.{each, each_beside};
ghost use Rattle.api_slice.specs.Devices.{new_device_name};
ghost use Rattle.api_slice.specs.Documents.{listed};
ghost use Rattle.api_slice.specs.Limits.{IsWithinLimits};
ghost use Rattle.api_slice.specs.Slices.{slice_of};
ghost use Rattle.api_slice.specs.declared.types.CounterSet.{CounterSet};
ghost use Rattle.api_slice.specs.declared.types.Device.{Device};
ghost use Rattle.api_slice.specs.declared.types.ResourceSlice.{ResourceSlice};

use device_taints::taints_keep_limits;
use object_fields::{labels_are_names, metadata_keeps_limits, names_are_new};

/// What each slice keeps that is read (API reference of `resource.k8s.io/v1`):
///
/// - its name is a DNS subdomain of at most 253 bytes, its driver one of at most 63, its version, where
///   it has one, a number of 64 bits, and the pool has a name of such parts and numbers in their ranges
/// - counter sets and devices have DNS labels as names, each once; counters are at most 32 in all,
///   and devices at most 128
/// - of each device the names of attributes and capacities have a DNS subdomain of at most 63 bytes
///   and a C identifier of at most 32, strings and versions have at most 64 characters, a version is
///   one of Semantic Versioning 2.0.0, and attributes and capacities are at most 32 together
/// - it has devices or counter sets, not both
/// - a device draws at most 32 amounts, none negative, and on a counter set at most once
/// - a device has at most 16 taints, each with a key of 1 to 317 bytes and a value of at most 63
/// - a device has nodes of its own if and only if the slice has `perDeviceNodeSelection`
/// - a node's name isn't empty; a node selector has a value for each In and NotIn, and asks of fields
///   only with these, of `metadata.name`
pub fn slices_keep_limits()
    ensures { (d : Data) (s : ResourceSlice) → slice_of d ≡ Ok s → IsWithinLimits s }
{
    metadata_keeps_limits();
    taints_keep_limits();
}

/// A slice that is read has the devices and the counter sets of its document: as many, with their names
/// in order.
pub fn slices_have_their_lists()
    ensures devices { (d : Data) (s : ResourceSlice) → slice_of d ≡ Ok s →
        map (λ (x : Device). Some x.name) s.devices ≡ names_in (listed (codes "devices") d) }
    ensures sets { (d : Data) (s : ResourceSlice) → slice_of d ≡ Ok s →
        map (λ (x : CounterSet). Some x.name) s.counters ≡ names_in (listed (codes "sharedCounters") d) }
{
    labels_are_names();
    names_are_new();
}

/// The row of the names of devices. Where each name reads by itself, the names are read if no two are
/// equal, and else it is Doubled at the first device whose name a device before has. It is Doubled only
/// where two devices of the document have the same name, at the later of the two.
pub fn device_names_are_new()
    ensures new { (path : List Step) (ds : Items) (names : List (List ℕ)) →
        each label_of path ds ≡ Ok names → AreNew [] names → each_beside new_device_name path ds ≡ Ok names }
    ensures doubled { (path : List Step) (ds : Items) (before behind : List (List ℕ)) (name : List ℕ) →
        each label_of path ds ≡ Ok (before ++ name ∷ behind) → AreNew [] before → is_among name before ≡ true →
        each_beside new_device_name path ds ≡ Err (doubled_at (path ++ Place (length before) ∷ [])) }
    ensures only { (path : List Step) (ds : Items) (e : FieldError) →
        each_beside new_device_name path ds ≡ Err e → e.kind ≡ Doubled → IsDoubled path ds e }
{
    labels_are_names();
    names_are_new();
}
