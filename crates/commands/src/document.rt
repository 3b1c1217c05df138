ghost use Rattle.std.specs.Prelude.{◌≡◌, option_map};
ghost use Rattle.serde_json.specs.View.{view};
ghost use Rattle.commands.specs.Documents.{core_kinds, document_of, kind_of, object_kinds, replay_kinds, resource_kinds, row_of, text_at};

use serde_json::Value;

/// The kinds of the objects that commands apply and delete.
#[derive(Clone, Copy, Debug, PartialEq, Eq)]
pub enum ObjectKind {
    ResourceSlice,
    DeviceClass,
    ResourceClaim,
    Node,
    Pod,
}

/// What a document is, by its apiVersion and kind.
#[derive(Clone, Copy, Debug, PartialEq, Eq)]
pub enum Document {
    /// An object to be applied.
    Object(ObjectKind),
    /// Objects to be applied one after another.
    List,
    /// An object to be deleted.
    Delete,
    /// A pod to be scheduled.
    Schedule,
    /// A pod whose claims are to be released.
    Release,
    /// A pod whose claims a node is to prepare.
    Prepare,
    /// A pod whose claims a node is to unprepare.
    Unprepare,
    /// The kubelet is closed and opened again.
    Reopen,
    /// Commands that run at the same time.
    Together,
}

/// The text of that member, None if it is missing or of another type.
pub fn text_at<'a>(value: &'a Value, name: &str) -> Option<&'a str>
    ensures { option_map (λ s. s.now) result ≡ text_at name.now (view value.now) }
{
    value.get(name).and_then(Value::as_str)
}

/// What the value is as a document, None if it is no object or has another apiVersion or kind.
pub fn document_of(value: &Value) -> Option<Document>
    ensures { result ≡ document_of (view value.now) }
{
    match (text_at(value, "apiVersion"), text_at(value, "kind")) {
        (Some(version), Some(kind)) => kind_of(version, kind),
        _ => None,
    }
}

fn kind_of(version: &str, kind: &str) -> Option<Document>
    ensures { result ≡ kind_of version.now kind.now }
{
    match version {
        "resource.k8s.io/v1" => resource_kind(kind),
        "v1" => core_kind(kind),
        "dra.replay/v1" => replay_kind(kind),
        _ => None,
    }
}

fn resource_kind(kind: &str) -> Option<Document>
    ensures { result ≡ row_of kind.now resource_kinds }
{
    match kind {
        "ResourceSlice" => Some(Document::Object(ObjectKind::ResourceSlice)),
        "DeviceClass" => Some(Document::Object(ObjectKind::DeviceClass)),
        "ResourceClaim" => Some(Document::Object(ObjectKind::ResourceClaim)),
        _ => None,
    }
}

fn core_kind(kind: &str) -> Option<Document>
    ensures { result ≡ row_of kind.now core_kinds }
{
    match kind {
        "Node" => Some(Document::Object(ObjectKind::Node)),
        "Pod" => Some(Document::Object(ObjectKind::Pod)),
        "List" => Some(Document::List),
        _ => None,
    }
}

fn replay_kind(kind: &str) -> Option<Document>
    ensures { result ≡ row_of kind.now replay_kinds }
{
    match kind {
        "Delete" => Some(Document::Delete),
        "Schedule" => Some(Document::Schedule),
        "Release" => Some(Document::Release),
        "Prepare" => Some(Document::Prepare),
        "Unprepare" => Some(Document::Unprepare),
        "Reopen" => Some(Document::Reopen),
        "Together" => Some(Document::Together),
        _ => None,
    }
}

/// The kind of objects of that name.
pub fn object_kind(name: &str) -> Option<ObjectKind>
    ensures { result ≡ row_of name.now object_kinds }
{
    match name {
        "ResourceSlice" => Some(ObjectKind::ResourceSlice),
        "DeviceClass" => Some(ObjectKind::DeviceClass),
        "ResourceClaim" => Some(ObjectKind::ResourceClaim),
        "Node" => Some(ObjectKind::Node),
        "Pod" => Some(ObjectKind::Pod),
        _ => None,
    }
}
