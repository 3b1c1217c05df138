ghost use Rattle.std.specs.Prelude.{◌≡◌, ◌∷◌, [], ◌++◌};
ghost use Rattle.serde_json.specs.View.{view};
ghost use Rattle.object_fields.specs.Fields.{Reads, dns_label_at, dns_subdomain_at, judged, name_in, pool_name_at};
ghost use Rattle.object_fields.specs.Names.{is_dns_label, is_dns_name, label_most};
ghost use Rattle.object_fields.specs.declared.path.Step.TheVariants.{Member};

use crate::error::{FieldError, or_memory};
use crate::fields::borrowed;
use crate::kind::FieldErrorKind;
use crate::names::{LABEL_MOST, POOL_MOST, dns_label, dns_name, pool_name};
use crate::path::Path;
use dra_values::Text;
use serde_json::Value;
use std::alloc::Global;

/// A field that is a DNS label, at most 63 bytes. Missing, then WrongType, TooLong and BadName.
pub fn read_dns_label(
    alloc: Global,
    object: &Value,
    path: &Path,
    name: &str,
) -> Result<Text, FieldError>
    ensures { Reads result (dns_label_at path.now name.now (view object.now)) }
{
    match borrowed(alloc, object, path, name) {
        Ok(text) => named_field(alloc, path, name, text, LABEL_MOST, dns_label(text)),
        Err(error) => Err(error),
    }
}

/// A field that is a DNS subdomain of at most `most` bytes. Missing, then WrongType, TooLong and
/// BadName.
pub fn read_dns_subdomain(
    alloc: Global,
    object: &Value,
    path: &Path,
    name: &str,
    most: usize,
) -> Result<Text, FieldError>
    ensures { Reads result (dns_subdomain_at most path.now name.now (view object.now)) }
{
    match borrowed(alloc, object, path, name) {
        Ok(text) => named_field(alloc, path, name, text, most, dns_name(text)),
        Err(error) => Err(error),
    }
}

/// A field that is a pool's name: DNS subdomains joined by `/`, at most 253 bytes in all. Missing,
/// then WrongType, TooLong and BadName.
pub fn read_pool_name(
    alloc: Global,
    object: &Value,
    path: &Path,
    name: &str,
) -> Result<Text, FieldError>
    ensures { Reads result (pool_name_at path.now name.now (view object.now)) }
{
    match borrowed(alloc, object, path, name) {
        Ok(text) => named_field(alloc, path, name, text, POOL_MOST, pool_name(text)),
        Err(error) => Err(error),
    }
}

/// A text from outside at its own path, as a map's key, that is a DNS label of at most 63 bytes.
/// TooLong, then BadName.
pub fn label_of(alloc: Global, path: &Path, text: &str) -> Result<Text, FieldError>
    ensures { Reads result (name_in path.now label_most is_dns_label text.now) }
{
    named(alloc, path, text, LABEL_MOST, dns_label(text))
}

/// The name at its own path, or TooLong, or BadName if it isn't `right`.
pub fn named(
    alloc: Global,
    path: &Path,
    text: &str,
    most: usize,
    right: bool,
) -> Result<Text, FieldError>
    ensures { Reads result (judged path.now most right text.now) }
{
    if text.len() > most {
        Err(FieldError::at(alloc, path, FieldErrorKind::TooLong))
    } else if right {
        or_memory(alloc, Text::from_str(alloc, text))
    } else {
        Err(FieldError::at(alloc, path, FieldErrorKind::BadName))
    }
}

/// The same for a member of the value at the path.
fn named_field(
    alloc: Global,
    path: &Path,
    name: &str,
    text: &str,
    most: usize,
    right: bool,
) -> Result<Text, FieldError>
    ensures { Reads result (judged (path.now ++ Member name.now ∷ []) most right text.now) }
{
    if text.len() > most {
        Err(FieldError::of_field(alloc, path, name, FieldErrorKind::TooLong))
    } else if right {
        or_memory(alloc, Text::from_str(alloc, text))
    } else {
        Err(FieldError::of_field(alloc, path, name, FieldErrorKind::BadName))
    }
}
