ghost use Rattle.std.specs.Prelude.{◌≡◌, [], IfOk, option_map};
ghost use Rattle.object_fields.specs.Fields.{Reads};

use crate::error::{FieldError, or_memory};
use crate::kind::FieldErrorKind;
use crate::names::dns_name;
use crate::naming::named;
use crate::path::Path;
use dra_values::{Duplicate, Text};
use std::alloc::{AllocError, Global};

/// The most bytes of a qualified name's domain.
pub const DOMAIN_MOST: usize = 63;

/// The most bytes of a qualified name's id.
pub const ID_MOST: usize = 32;

/// The full name of an attribute or a capacity (API reference of resource.k8s.io/v1): the domain is
/// a DNS subdomain of at most 63 bytes and the id a C identifier of at most 32.
#[derive(Debug, PartialEq, Eq, PartialOrd, Ord, Drop)]
pub struct QualName {
    pub domain: Text,
    pub id: Text,
}

impl QualName {
    ghost use Rattle.object_fields.specs.Qualified.{qual_name_in};

    /// The name that the text means in a slice of that driver: `domain/id`, or `id` alone, whose
    /// domain is the driver. TooLong if the domain or the id is too long, then BadName. Both
    /// have the path of the top.
    pub fn parse(alloc: Global, text: &str, driver: &str) -> Result<QualName, FieldError>
        ensures { Reads result (qual_name_in [] driver.now text.now) }
    {
        QualName::read(alloc, &Path::top(), text, driver)
    }

    /// The same for a text at that path.
    pub fn read(
        alloc: Global,
        path: &Path,
        text: &str,
        driver: &str,
    ) -> Result<QualName, FieldError>
        ensures { Reads result (qual_name_in path.now driver.now text.now) }
    {
        match text.split_once('/') {
            Some((domain, id)) => domain_and_id(alloc, path, domain, id),
            None => id_alone(alloc, path, text, driver),
        }
    }

    /// An equal name.
    pub fn copy(&self, alloc: Global) -> Result<QualName, AllocError>
        ensures { IfOk result (λ q. q ≡ self.now) }
    {
        Ok(QualName {
            domain: self.domain.copy(alloc)?,
            id: self.id.copy(alloc)?,
        })
    }
}

impl Duplicate for QualName {
    fn duplicate(&self, alloc: Global) -> Result<QualName, AllocError> {
        self.copy(alloc)
    }
}

ghost use Rattle.object_fields.specs.Qualified as spec;

fn id_alone(alloc: Global, path: &Path, text: &str, driver: &str) -> Result<QualName, FieldError>
    ensures { Reads result (spec.id_alone path.now driver.now text.now) }
{
    let id = named(alloc, path, text, ID_MOST, c_identifier(text.as_bytes()))?;
    let domain = or_memory(alloc, Text::from_str(alloc, driver))?;
    Ok(QualName { domain, id })
}

fn domain_and_id(alloc: Global, path: &Path, domain: &str, id: &str) -> Result<QualName, FieldError>
    ensures { Reads result (spec.domain_and_id path.now domain.now id.now) }
{
    if domain.len() > DOMAIN_MOST || id.len() > ID_MOST {
        Err(FieldError::at(alloc, path, FieldErrorKind::TooLong))
    } else if dns_name(domain) && c_identifier(id.as_bytes()) {
        let domain = or_memory(alloc, Text::from_str(alloc, domain))?;
        let id = or_memory(alloc, Text::from_str(alloc, id))?;
        Ok(QualName { domain, id })
    } else {
        Err(FieldError::at(alloc, path, FieldErrorKind::BadName))
    }
}

/// Whether the bytes are a C identifier of any length.
fn c_identifier(text: &[u8]) -> bool
    ensures { result ≡ spec.is_c_identifier text.now }
{
    match text.split_first() {
        Some((first, rest)) => word_start(*first) && word(rest),
        None => false,
    }
}

fn word(text: &[u8]) -> bool
    ensures { result ≡ spec.is_word text.now }
{
    for byte in text {
        if !word_start(*byte) && !byte.is_ascii_digit() {
            return false;
        }
    }
    true
}

fn word_start(byte: u8) -> bool
    ensures { result ≡ spec.is_word_start byte }
{
    byte.is_ascii_alphabetic() || byte == b'_'
}
