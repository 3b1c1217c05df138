//! Laws of what is read.

ghost use Rattle.std.specs.Prelude.{◌≡◌, ◌++◌, ◌∷◌, [], ℕ, List, Some, Ok, Err, length, map, true};
ghost use Rattle.serde_json.specs.Data.{Data, Items};
ghost use Rattle.object_fields.specs.Lists.{each, each_beside};
ghost use Rattle.object_fields.specs.NewNames.{AreNew, IsDoubled, doubled_at, is_among, label_of, names_in};
ghost use Rattle.object_fields.specs.declared.error.FieldError.{FieldError};
ghost use Rattle.object_fields.specs.declared.kind.FieldErrorKind.TheVariants.{Doubled};
ghost use Rattle.object_fields.specs.declared.path.Step.{Step};
ghost use Rattle.object_fields.specs.declared.path.Step.TheVariants.{Place};
ghost use Rattle.api_claim.specs.Claims.{claim_of};
ghost use Rattle.api_claim.specs.Documents.{listed_requests, request_label};
ghost use Rattle.api_claim.specs.Limits.{ClaimKept, StatusKept};
ghost use Rattle.api_claim.specs.Requests.{request_name_at, subrequest_name_at};
ghost use Rattle.api_claim.specs.Status.{status_of};
ghost use Rattle.api_claim.specs.declared.types.ClaimStatus.{ClaimStatus};
ghost use Rattle.api_claim.specs.declared.types.DeviceRequest.{DeviceRequest};
ghost use Rattle.api_claim.specs.declared.types.ResourceClaim.{ResourceClaim};

use device_taints::tolerations_keep_limits;
use object_fields::{labels_are_names, metadata_keeps_limits, names_are_new};

/// Each claim that is read keeps the limits and name rules of the API reference of
/// `resource.k8s.io/v1`, and each status that is read has 1 to 32 results and a version of 64 bits,
/// if it has one.
pub fn limits_are_kept()
    ensures claim { (d : Data) (claim : ResourceClaim) → claim_of d ≡ Ok claim → ClaimKept claim }
    ensures status { (d : Data) (status : ClaimStatus) → status_of d ≡ Ok status → StatusKept status }
{
    metadata_keeps_limits();
    tolerations_keep_limits();
}

/// A claim that is read has the requests of its document: as many, with their names in order.
pub fn claims_have_their_requests()
    ensures { (d : Data) (claim : ResourceClaim) → claim_of d ≡ Ok claim →
        map (λ (r : DeviceRequest). Some r.name) claim.requests ≡ names_in (listed_requests d) }
{
    labels_are_names();
    names_are_new();
}

/// The row of the names of requests. What is read are the names in the document, in order and as many.
/// If each request reads by itself, the names are read if no two are equal; otherwise the error is
/// Doubled at the first request that has the name of an earlier one. The error is Doubled only if two
/// requests of the document have the same name, at the later of the two.
pub fn request_names_are_new()
    ensures same { (path : List Step) (ds : Items) (names : List (List ℕ)) →
        each_beside request_name_at path ds ≡ Ok names → map Some names ≡ names_in ds }
    ensures new { (path : List Step) (ds : Items) (names : List (List ℕ)) →
        each request_label path ds ≡ Ok names → AreNew [] names → each_beside request_name_at path ds ≡ Ok names }
    ensures doubled { (path : List Step) (ds : Items) (before behind : List (List ℕ)) (name : List ℕ) →
        each request_label path ds ≡ Ok (before ++ name ∷ behind) → AreNew [] before → is_among name before ≡ true →
        each_beside request_name_at path ds ≡ Err (doubled_at (path ++ Place (length before) ∷ [])) }
    ensures only { (path : List Step) (ds : Items) (e : FieldError) →
        each_beside request_name_at path ds ≡ Err e → e.kind ≡ Doubled → IsDoubled path ds e }
{
    labels_are_names();
    names_are_new();
}

/// The row of the names of a request's subrequests, for which the same holds.
pub fn subrequest_names_are_new()
    ensures same { (path : List Step) (ds : Items) (names : List (List ℕ)) →
        each_beside subrequest_name_at path ds ≡ Ok names → map Some names ≡ names_in ds }
    ensures new { (path : List Step) (ds : Items) (names : List (List ℕ)) →
        each label_of path ds ≡ Ok names → AreNew [] names → each_beside subrequest_name_at path ds ≡ Ok names }
    ensures doubled { (path : List Step) (ds : Items) (before behind : List (List ℕ)) (name : List ℕ) →
        each label_of path ds ≡ Ok (before ++ name ∷ behind) → AreNew [] before → is_among name before ≡ true →
        each_beside subrequest_name_at path ds ≡ Err (doubled_at (path ++ Place (length before) ∷ [])) }
    ensures only { (path : List Step) (ds : Items) (e : FieldError) →
        each_beside subrequest_name_at path ds ≡ Err e → e.kind ≡ Doubled → IsDoubled path ds e }
{
    labels_are_names();
    names_are_new();
}
