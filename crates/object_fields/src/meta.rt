ghost use Rattle.std.specs.Prelude.{◌≡◌, []};
ghost use Rattle.serde_json.specs.View.{members_view, view};
ghost use Rattle.object_fields.specs.Fields.{Reads};

use crate::error::{FieldError, or_memory};
use crate::fields::object as object_field;
use crate::key::Key;
use crate::kind::FieldErrorKind;
use crate::limits::value_text;
use crate::naming::read_dns_subdomain;
use crate::optional::{optional_dns_label, optional_table, optional_text};
use crate::path::Path;
use dra_values::{Table, Text};
use serde_json::{Map, Value};
use std::alloc::Global;

/// Whether the objects of a kind have a namespace, as the API reference defines for each kind.
#[derive(Clone, Copy, Debug, PartialEq, Eq)]
pub enum Scope {
    /// Each has one.
    Namespaced,
    /// None has one, and `metadata.namespace` is ignored.
    Cluster,
}

/// What is read of an object's metadata (ObjectMeta of the Kubernetes API reference).
#[derive(Drop)]
pub struct ObjectMeta {
    /// The name, and the namespace, which is empty if the kind has none.
    pub key: Key,
    pub labels: Table<Text, Text>,
    /// The `resourceVersion`, from 0 to 2^64-1.
    pub version: Option<u64>,
}

/// The most bytes of an object's name.
pub const NAME_MOST: usize = 253;

impl ObjectMeta {
    ghost use Rattle.object_fields.specs.Meta.{meta_at};

    /// The metadata of a whole document: `metadata` (Missing, WrongType), then its `name` (a DNS
    /// subdomain of at most 253 bytes), its `namespace` (a DNS label, `default` if there is
    /// none), its `labels` (each a text: Missing if one is null, then WrongType) and its
    /// `resourceVersion` (decimal without leading zero, at most 2^64-1, else WrongType; empty is
    /// missing).
    pub fn read(alloc: Global, document: &Value, scope: Scope) -> Result<ObjectMeta, FieldError>
        ensures { Reads result (meta_at scope (view document.now)) }
    {
        let top = Path::top();
        let meta = object_field(alloc, document, &top, "metadata")?;
        let path = top.member("metadata");
        members(alloc, meta, &path, scope)
    }
}

ghost use Rattle.object_fields.specs.Meta as spec;

fn members(alloc: Global, meta: &Value, path: &Path, scope: Scope) -> Result<ObjectMeta, FieldError>
    ensures { Reads result (spec.members_at scope path.now (view meta.now)) }
{
    let key = key(alloc, meta, path, scope)?;
    let labels = labels(alloc, meta, path)?;
    let version = version(alloc, meta, path)?;
    Ok(ObjectMeta {
        key,
        labels,
        version,
    })
}

fn key(alloc: Global, meta: &Value, path: &Path, scope: Scope) -> Result<Key, FieldError>
    ensures { Reads result (spec.key_at scope path.now (view meta.now)) }
{
    let name = read_dns_subdomain(alloc, meta, path, "name", NAME_MOST)?;
    let namespace = namespace(alloc, meta, path, scope)?;
    Ok(Key { namespace, name })
}

fn namespace(alloc: Global, meta: &Value, path: &Path, scope: Scope) -> Result<Text, FieldError>
    ensures { Reads result (spec.namespace_at scope path.now (view meta.now)) }
{
    match scope {
        Scope::Cluster => or_memory(alloc, Text::from_str(alloc, "")),
        Scope::Namespaced => match optional_dns_label(alloc, meta, path, "namespace")? {
            Some(namespace) => Ok(namespace),
            None => or_memory(alloc, Text::from_str(alloc, "default")),
        },
    }
}

fn labels(alloc: Global, meta: &Value, path: &Path) -> Result<Table<Text, Text>, FieldError>
    ensures { Reads result (spec.labels_at path.now (view meta.now)) }
{
    match optional_table(alloc, meta, path, "labels")? {
        Some(members) => {
            let path = path.member("labels");
            texts(alloc, members, &path)
        }
        None => Ok(Table::new(alloc)),
    }
}

/// The members as texts, each at its key.
fn texts<'a>(
    alloc: Global,
    members: &'a Map<String, Value>,
    path: &'a Path<'a>,
) -> Result<Table<Text, Text>, FieldError>
    ensures { Reads result (spec.labels_with path.now [] (members_view members.now.entries)) }
{
    let mut labels = Table::new(alloc);
    for (key, value) in members {
        let at = path.key(key.as_str());
        let text = value_text(alloc, value, &at)?;
        let key = or_memory(alloc, Text::from_str(alloc, key.as_str()))?;
        or_memory(alloc, labels.insert(key, text))?;
    }
    Ok(labels)
}

fn version(alloc: Global, meta: &Value, path: &Path) -> Result<Option<u64>, FieldError>
    ensures { Reads result (spec.version_at path.now (view meta.now)) }
{
    match optional_text(alloc, meta, path, "resourceVersion")? {
        None => Ok(None),
        Some(text) => version_number(alloc, path, text.as_str()),
    }
}

/// The version that a text has, None if it is empty.
fn version_number(alloc: Global, path: &Path, text: &str) -> Result<Option<u64>, FieldError>
    ensures { Reads result (spec.version_text path.now text.now) }
{
    if text.is_empty() {
        return Ok(None);
    }
    match decimal(text) {
        Some(number) => Ok(Some(number)),
        None => Err(FieldError::of_field(
            alloc,
            path,
            "resourceVersion",
            FieldErrorKind::WrongType,
        )),
    }
}

/// The number below 2^64 that decimal digits without a leading zero represent.
fn decimal(text: &str) -> Option<u64>
    ensures { result ≡ spec.version_of text.now }
{
    if plain_decimal(text.as_bytes()) {
        text.parse::<u64>().ok()
    } else {
        None
    }
}

fn plain_decimal(text: &[u8]) -> bool
    ensures { result ≡ spec.is_plain_decimal text.now }
{
    match text {
        [] => false,
        [_] => digits(text),
        [first, ..] => *first != b'0' && digits(text),
    }
}

fn digits(text: &[u8]) -> bool
    ensures { result ≡ spec.are_digits text.now }
{
    for byte in text {
        if !byte.is_ascii_digit() {
            return false;
        }
    }
    true
}
