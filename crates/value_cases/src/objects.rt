use crate::input::CaseError;
use crate::shown::{Copied, Out, read, show};
use api_claim::ResourceClaim;
use api_cluster::{DeviceClass, Node, Pod};
use api_slice::ResourceSlice;
use object_fields::FieldError;
use ready_objects::ReadyClass;
use serde_json::Value;
use std::alloc::{AllocError, Global};

/// Appends the fields of a Node, a DeviceClass or a Pod, or the name and the path of the error; of a
/// DeviceClass that is made ready its name and the number of its selectors.
pub fn answer(alloc: Global, out: &mut Out, word: &str, value: &Value) -> Result<(), CaseError> {
    match word {
        "node" => show(alloc, out, Node::read(alloc, value)),
        "class" => show(alloc, out, DeviceClass::read(alloc, value)),
        "ready_class" => ready_class(alloc, out, value),
        "pod" => show(alloc, out, Pod::read(alloc, value)),
        _ => Err(CaseError::BadCase),
    }
}

/// Appends ` @` and the version, if there is one.
fn push_version(out: &mut Out, version: Option<u64>) {
    match version {
        Some(version) => {
            out.show_after(" @", &version);
        }
        None => {}
    }
}

impl Copied for Node {
    fn again(&self, alloc: Global) -> Result<Node, AllocError> {
        self.copy(alloc)
    }

    fn show(&self, out: &mut Out) {
        out.show(&self.name);
        push_version(out, self.version);
        for (key, label) in self.labels.as_map() {
            out.show_after(" ", key);
            out.show_after("=", label);
        }
    }
}

impl Copied for DeviceClass {
    fn again(&self, alloc: Global) -> Result<DeviceClass, AllocError> {
        self.copy(alloc)
    }

    fn show(&self, out: &mut Out) {
        out.show(&self.name);
        push_version(out, self.version);
        for selector in self.selectors.as_slice() {
            out.show_after(" [", selector);
            out.say("]");
        }
    }
}

impl Copied for Pod {
    fn again(&self, alloc: Global) -> Result<Pod, AllocError> {
        self.copy(alloc)
    }

    fn show(&self, out: &mut Out) {
        out.show(&self.key);
        push_version(out, self.version);
        for claim in self.claims.as_slice() {
            out.show_after(" ", &claim.name);
            out.show_after("=", &claim.claim);
        }
    }
}

/// The DeviceClass of a document, made ready.
pub fn read_ready(alloc: Global, value: &Value) -> Result<ReadyClass, FieldError> {
    ReadyClass::of(alloc, DeviceClass::read(alloc, value)?)
}

fn ready_class(alloc: Global, out: &mut Out, value: &Value) -> Result<(), CaseError> {
    let ready = read(alloc, out, read_ready(alloc, value))?;
    out.show(&ready.class().name);
    out.show_after(" ", &ready.selectors().len());
    Ok(())
}

/// Appends `ok` if the object of the kind that it names reads, or the name and the path of the error.
pub fn reads(alloc: Global, out: &mut Out, value: &Value) -> Result<(), CaseError> {
    match value.get("kind").and_then(Value::as_str) {
        Some("Node") => push_ok(alloc, out, Node::read(alloc, value)),
        Some("DeviceClass") => push_ok(alloc, out, DeviceClass::read(alloc, value)),
        Some("Pod") => push_ok(alloc, out, Pod::read(alloc, value)),
        Some("ResourceSlice") => push_ok(alloc, out, ResourceSlice::read(alloc, value)),
        Some("ResourceClaim") => push_ok(alloc, out, ResourceClaim::read(alloc, value)),
        _ => {
            out.say("no object");
            Ok(())
        }
    }
}

fn push_ok<T: Drop>(
    alloc: Global,
    out: &mut Out,
    answer: Result<T, FieldError>,
) -> Result<(), CaseError> {
    read(alloc, out, answer)?;
    out.say("ok");
    Ok(())
}
