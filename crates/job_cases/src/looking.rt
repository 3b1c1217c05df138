use crate::input::{CaseError, cut_at};
use crate::out::Out;
use crate::spelling::key;
use api_slice::ResourceSlice;
use cluster::{Command, Refusal, State, Target};
use dra_values::Text;
use object_fields::Key;
use pool_view::usable;
use std::alloc::{AllocError, Global};

/// Appends the names of the slices of usable pools, in order, or `-` if there are none.
pub fn push_usable(alloc: Global, state: &State, out: &mut Out) -> Result<(), AllocError> {
    let slices = usable(alloc, state.inventory.value())?;
    push_names(slices.as_slice(), out);
    Ok(())
}

fn push_names(slices: &[&ResourceSlice], out: &mut Out) {
    for slice in slices {
        out.show_after(" ", &slice.name);
    }
    if slices.is_empty() {
        out.say(" -");
    }
}

/// Appends a refusal that was looked for.
fn push_found(found: &Result<Option<Refusal>, AllocError>, out: &mut Out) {
    match found {
        Ok(None) => out.say(" ok"),
        Ok(Some(refusal)) => push_word(refusal, out),
        Err(AllocError) => out.fail(),
    }
}

/// Appends the first refusal of a command such as `delete-node n1` or `schedule default/p`.
pub fn push_refusal(
    alloc: Global,
    state: &State,
    text: &str,
    out: &mut Out,
) -> Result<(), CaseError> {
    let (verb, name) = cut_at(text, ' ');
    let command = command_of(alloc, verb, name)?;
    let found = state.first_refusal(alloc, &command);
    drop(command);
    push_found(&found, out);
    drop(found);
    Ok(())
}

fn command_of(alloc: Global, verb: &str, name: &str) -> Result<Command, CaseError> {
    match verb {
        "schedule" | "release" | "delete-claim" | "delete-pod" => {
            Ok(of_key(verb, key(alloc, name)?))
        }
        _ => of_name(verb, Text::from_str(alloc, name)?),
    }
}

fn of_key(verb: &str, key: Key) -> Command {
    match verb {
        "schedule" => Command::Schedule(key),
        "release" => Command::Release(key),
        "delete-claim" => Command::Delete(Target::Claim(key)),
        _ => Command::Delete(Target::Pod(key)),
    }
}

fn of_name(verb: &str, name: Text) -> Result<Command, CaseError> {
    match verb {
        "delete-node" => Ok(Command::Delete(Target::Node(name))),
        "delete-slice" => Ok(Command::Delete(Target::Slice(name))),
        "delete-class" => Ok(Command::Delete(Target::Class(name))),
        _ => Err(CaseError::BadCase),
    }
}

/// Appends the word of a refusal, and with Bound the node.
fn push_word(refusal: &Refusal, out: &mut Out) {
    out.say(" ");
    out.say(word_of(refusal));
    match refusal {
        Refusal::Bound(node) => out.show_after(" ", node),
        _ => {}
    }
}

fn word_of(refusal: &Refusal) -> &'static str {
    match refusal {
        Refusal::Invalid => "Invalid",
        Refusal::NotFound => "NotFound",
        Refusal::Exists => "Exists",
        Refusal::Conflict { .. } => "Conflict",
        Refusal::Immutable => "Immutable",
        Refusal::InUse => "InUse",
        Refusal::Devices => "Devices",
        Refusal::Busy(_) => "Busy",
        Refusal::Bound(_) => "Bound",
        Refusal::NotBound => "NotBound",
        Refusal::Failure(_) => "Failure",
    }
}
