ghost use Rattle.std.specs.Prelude.{◌≡◌, option_map};
ghost use Rattle.serde_json.specs.View.{view};
ghost use Rattle.api_requests.specs.Bodies as spec;

use api_routes::Kind;
use object_fields::{Key, member};
use serde_json::Value;

/// The `apiVersion` of the objects of a kind.
fn version_word(kind: Kind) -> &'static str
    ensures { result.now ≡ spec.version_word kind }
{
    match kind {
        Kind::Node => "v1",
        Kind::ResourceSlice => "resource.k8s.io/v1",
        Kind::DeviceClass => "resource.k8s.io/v1",
        Kind::ResourceClaim => "resource.k8s.io/v1",
        Kind::Pod => "v1",
    }
}

/// The `kind` of the objects of a kind.
fn kind_word(kind: Kind) -> &'static str
    ensures { result.now ≡ spec.kind_word kind }
{
    match kind {
        Kind::Node => "Node",
        Kind::ResourceSlice => "ResourceSlice",
        Kind::DeviceClass => "DeviceClass",
        Kind::ResourceClaim => "ResourceClaim",
        Kind::Pod => "Pod",
    }
}

/// Whether a value is this text.
fn is_text(value: Option<&Value>, text: &str) -> bool
    ensures { result ≡ spec.is_text (option_map (λ v. view v.now) value.entry) text.now }
{
    match value {
        None => false,
        Some(value) => is_word(value.as_str(), text),
    }
}

fn is_word(word: Option<&str>, text: &str) -> bool
    ensures { result ≡ spec.is_word (option_map (λ w. w.now) word.entry) text.now }
{
    match word {
        None => false,
        Some(word) => word == text,
    }
}

/// Whether a document is an object of this kind, by its `apiVersion` and `kind`.
pub fn is_kind(document: &Value, kind: Kind) -> bool
    ensures { result ≡ spec.is_kind kind (view document.now) }
{
    is_text(document.get("apiVersion"), version_word(kind))
        && is_text(document.get("kind"), kind_word(kind))
}

/// The member of a document's metadata, if it is there and isn't null.
fn meta_member<'a>(document: &'a Value, name: &str) -> Option<&'a Value>
    ensures { option_map (λ v. view v.now) result ≡ spec.meta_member name.now (view document.now) }
{
    match document.get("metadata") {
        None => None,
        Some(metadata) => member(metadata, name),
    }
}

/// Whether a document's `metadata.name` is this one.
fn has_name(document: &Value, name: &str) -> bool
    ensures { result ≡ spec.has_name name.now (view document.now) }
{
    is_text(meta_member(document, "name"), name)
}

/// Whether a document has no `metadata.namespace`.
pub fn lacks_namespace(document: &Value) -> bool
    ensures { result ≡ spec.lacks_namespace (view document.now) }
{
    match meta_member(document, "namespace") {
        None => true,
        Some(_) => false,
    }
}

/// Whether the objects of a kind have a namespace.
pub fn is_namespaced(kind: Kind) -> bool
    ensures { result ≡ spec.is_namespaced kind }
{
    match kind {
        Kind::Node | Kind::ResourceSlice | Kind::DeviceClass => false,
        Kind::ResourceClaim | Kind::Pod => true,
    }
}

/// Whether a document's `metadata.namespace` is this one, if it has one and objects of the kind do.
fn fits_namespace(document: &Value, kind: Kind, namespace: &str) -> bool
    ensures { result ≡ spec.fits_namespace kind namespace.now (view document.now) }
{
    !is_namespaced(kind)
        || lacks_namespace(document)
        || is_text(meta_member(document, "namespace"), namespace)
}

/// Whether a document is an object of this kind, and of this namespace.
pub fn belongs(document: &Value, kind: Kind, namespace: &str) -> bool
    ensures { result ≡ spec.belongs kind namespace.now (view document.now) }
{
    is_kind(document, kind) && fits_namespace(document, kind, namespace)
}

/// Whether a document is the object of this kind and key.
pub fn is_object(document: &Value, kind: Kind, key: &Key) -> bool
    ensures { result ≡ spec.is_object kind key.now (view document.now) }
{
    belongs(document, kind, key.namespace.as_str()) && has_name(document, key.name.as_str())
}
