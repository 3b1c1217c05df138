use crate::input::{CaseError, text};
use crate::shown::{Out, put};
use cluster::{Mode, Object, Target};
use commands::{Command, Given, GivenError, commands};
use doc_split::Doc;
use object_fields::Key;
use serde_json::Value;
use std::alloc::Global;

/// Appends what a document asks for. The input is a JSON text that has a character below U+0100 for each byte.
pub fn answer(alloc: Global, out: &mut Out, word: &str, input: &Value) -> Result<(), CaseError> {
    let document = bytes(alloc, text(input)?)?;
    match word {
        "bytes" => asked(alloc, out, document.as_slice()),
        _ => Err(CaseError::BadCase),
    }
}

fn bytes(alloc: Global, text: &str) -> Result<Vec<u8>, CaseError> {
    let mut bytes = Vec::new(alloc);
    for letter in text.chars() {
        match u8::try_from(u32::from(letter)) {
            Ok(byte) => put(&mut bytes, byte)?,
            Err(_) => return Err(CaseError::BadCase),
        }
    }
    Ok(bytes)
}

/// How many attempts a Schedule of a case makes.
const ATTEMPTS: u64 = 32;

/// Appends what the document asks for.
pub fn asked(alloc: Global, out: &mut Out, document: &[u8]) -> Result<(), CaseError> {
    let bytes = document.to_vec(alloc)?;
    let doc = Doc { at: 0, bytes };
    match commands(alloc, &doc, ATTEMPTS) {
        Ok(given) => push_all(given.as_slice(), out),
        Err(GivenError::NotJson) => out.say("not JSON"),
        Err(GivenError::NotACommand) => out.say("no command"),
        Err(GivenError::Memory) => return Err(CaseError::Memory),
    }
    Ok(())
}

/// Appends what is asked for, one after another.
fn push_all(all: &[Given], out: &mut Out) {
    for given in all {
        if !out.is_empty() {
            out.say(", ");
        }
        push_given(given, out);
    }
    if all.is_empty() {
        out.say("nothing");
    }
}

fn push_given(given: &Given, out: &mut Out) {
    match given {
        Given::One(command) => push_command(command, out),
        Given::Together(commands) => push_together(commands.as_slice(), out),
        Given::Prepare(key) => out.show_after("prepare ", key),
        Given::Unprepare(key) => out.show_after("unprepare ", key),
        Given::Reopen => out.say("reopen"),
    }
}

/// Appends the commands that run at the same time, each between brackets.
fn push_together(commands: &[Command], out: &mut Out) {
    out.say("together");
    for command in commands {
        out.say(" [");
        push_command(command, out);
        out.say("]");
    }
}

fn push_command(command: &Command, out: &mut Out) {
    match command {
        Command::Apply(ready, Mode::Apply) => push_object(ready.object(), out),
        Command::Apply(_, _) => out.say("another mode"),
        Command::Invalid(error) => out.show_after("invalid ", error),
        Command::Delete(target) => push_target(target, out),
        Command::Schedule(key, attempts) => push_schedule(key, *attempts, out),
        Command::Release(key) => out.show_after("release ", key),
        Command::Adopt(key, _) => out.show_after("adopt ", key),
    }
}

fn push_schedule(key: &Key, attempts: u64, out: &mut Out) {
    out.show_after("schedule ", key);
    if attempts != ATTEMPTS {
        out.show_after(" in ", &attempts);
    }
}

/// Appends the name of an object that is deleted, after its kind and its namespace if it has one.
fn push_target(target: &Target, out: &mut Out) {
    match target {
        Target::Slice(name) => out.show_after("delete ResourceSlice ", name),
        Target::Class(name) => out.show_after("delete DeviceClass ", name),
        Target::Claim(key) => out.show_after("delete ResourceClaim ", key),
        Target::Node(name) => out.show_after("delete Node ", name),
        Target::Pod(key) => out.show_after("delete Pod ", key),
    }
}

/// Appends the object's name, after its kind and its namespace if it has one.
fn push_object(object: &Object, out: &mut Out) {
    match object {
        Object::Slice(slice) => out.show_after("apply ResourceSlice ", &slice.name),
        Object::Class(class) => out.show_after("apply DeviceClass ", &class.name),
        Object::Claim(claim) => out.show_after("apply ResourceClaim ", &claim.key),
        Object::Node(node) => out.show_after("apply Node ", &node.name),
        Object::Pod(pod) => out.show_after("apply Pod ", &pod.key),
    }
}
