ghost use Rattle.std.specs.Prelude.{◌≡◌, [], codes, length, option_map};
ghost use Rattle.std.specs.Str.{chars};
ghost use Rattle.serde_json.specs.View.{members_view, view};
ghost use Rattle.object_fields.specs.Fields.{Gives, Reads, optional_at};
ghost use Rattle.api_slice.specs.Attributes as fields;
ghost use Rattle.api_slice.specs.Entries.{attribute_entry, attributes_by};

use crate::qualified::new_name;
use crate::types::Attribute;
use dra_values::{Table, Text};
use object_fields::{
    FieldError, FieldErrorKind, Path, QualName, borrowed, member, optional_signed, optional_table,
    optional_truth, or_memory, value_object,
};
use semver::Version;
use serde_json::{Map, Value};
use std::alloc::{AllocError, Global};

/// The most characters of a string and of a version (API reference of `resource.k8s.io/v1`).
const CHARS_MOST: usize = 64;

/// The attributes of a device by their full names; none where they are missing.
pub(crate) fn read_attributes(
    alloc: Global,
    device: &Value,
    path: &Path,
    driver: &str,
) -> Result<Table<QualName, Attribute>, FieldError>
    ensures { Reads result (fields.attributes_of driver.now path.now (view device.now)) }
{
    let members = optional_table(alloc, device, path, "attributes")?;
    let path = path.member("attributes");
    attributes_in(alloc, members, &path, driver)
}

#[tactic(auto, using(crate::proofs::Entries::attributes_are))]
fn attributes_in(
    alloc: Global,
    members: Option<&Map<String, Value>>,
    path: &Path,
    driver: &str,
) -> Result<Table<QualName, Attribute>, FieldError>
    ensures { Reads result
        (fields.attributes_in driver.now path.now (option_map (λ m. members_view m.now.entries) members.entry)) }
{
    match members {
        Some(members) => attributes_of(alloc, members, path, driver),
        None => Ok(Table::new(alloc)),
    }
}

fn attributes_of(
    alloc: Global,
    members: &Map<String, Value>,
    path: &Path,
    driver: &str,
) -> Result<Table<QualName, Attribute>, FieldError>
    ensures { Reads result
        (attributes_by driver.now path.now [] (members_view members.now.entries)) }
{
    let mut attributes = Table::new(alloc);
    for (key, value) in members {
        let (name, attribute) = read_entry(
            alloc,
            key.as_str(),
            value,
            &*path,
            driver,
            &attributes,
        )?;
        or_memory(alloc, attributes.insert(name, attribute))?;
    }
    Ok(attributes)
}

/// The full name of a member, which none before has, and its value.
fn read_entry<'a>(
    alloc: Global,
    key: &'a str,
    value: &Value,
    path: &'a Path<'a>,
    driver: &str,
    before: &Table<QualName, Attribute>,
) -> Result<(QualName, Attribute), FieldError>
    ensures { Reads result
        (attribute_entry driver.now path.now before.now key.now (view value.now)) }
{
    let at = path.key(key);
    let name = new_name(alloc, key, &at, driver, before)?;
    let attribute = read_attribute(alloc, value, &at)?;
    Ok((name, attribute))
}

/// The one value of an attribute, at its own path.
fn read_attribute(alloc: Global, value: &Value, path: &Path) -> Result<Attribute, FieldError>
    ensures { Reads result (fields.attribute_of path.now (view value.now)) }
{
    let object = value_object(alloc, value, path)?;
    let number = optional_signed(alloc, object, path, "int")?;
    let truth = optional_truth(alloc, object, path, "bool")?;
    let string = read_string(alloc, object, path)?;
    let version = read_version(alloc, object, path)?;
    match one_value(number, truth, string, version) {
        Some(attribute) => Ok(attribute),
        None => Err(FieldError::at(alloc, path, FieldErrorKind::NotOne)),
    }
}

/// The one that is set, if exactly one is.
fn one_value(
    number: Option<i64>,
    truth: Option<bool>,
    string: Option<Text>,
    version: Option<Text>,
) -> Option<Attribute>
    ensures { result ≡ fields.one_value number truth string version }
{
    match (number, truth, string, version) {
        (Some(number), None, None, None) => Some(Attribute::Int(number)),
        (None, Some(truth), None, None) => Some(Attribute::Bool(truth)),
        (None, None, Some(string), None) => Some(Attribute::Text(string)),
        (None, None, None, Some(version)) => Some(Attribute::Version(version)),
        _ => None,
    }
}

fn read_string(alloc: Global, object: &Value, path: &Path) -> Result<Option<Text>, FieldError>
    ensures { Reads result
        (optional_at fields.short_text_at path.now (codes "string") (view object.now)) }
{
    if member(object, "string").is_none() {
        return Ok(None);
    }
    let text = short_text(alloc, object, path, "string")?;
    Ok(Some(or_memory(alloc, Text::from_str(alloc, text))?))
}

fn read_version(alloc: Global, object: &Value, path: &Path) -> Result<Option<Text>, FieldError>
    ensures { Reads result
        (optional_at fields.version_at path.now (codes "version") (view object.now)) }
{
    if member(object, "version").is_none() {
        return Ok(None);
    }
    let text = short_text(alloc, object, path, "version")?;
    check_version(alloc, text, path)?;
    Ok(Some(or_memory(alloc, Text::from_str(alloc, text))?))
}

/// A text of at most 64 characters, borrowed. Missing, then WrongType, then TooLong.
fn short_text<'a>(
    alloc: Global,
    object: &'a Value,
    path: &Path,
    name: &str,
) -> Result<&'a str, FieldError>
    ensures { Gives (λ s. s.now) result
        (fields.short_text_at path.now name.now (view object.now)) }
{
    let text = borrowed(alloc, object, path, name)?;
    if char_count(text) > CHARS_MOST {
        Err(FieldError::of_field(alloc, path, name, FieldErrorKind::TooLong))
    } else {
        Ok(text)
    }
}

fn char_count(text: &str) -> usize
    ensures { result ≡ length (chars text.now) }
{
    text.chars().count()
}

/// Nothing where the text is a version of Semantic Versioning 2.0.0, else BadVersion.
fn check_version(alloc: Global, text: &str, path: &Path) -> Result<(), FieldError>
    ensures { Reads result (fields.version_text path.now text.now) }
{
    match Version::parse(alloc, text) {
        Ok(_) => Ok(()),
        Err(error) => {
            if error == semver::Error::from(AllocError) {
                Err(FieldError::memory(alloc))
            } else {
                Err(FieldError::of_field(alloc, path, "version", FieldErrorKind::BadVersion))
            }
        }
    }
}
