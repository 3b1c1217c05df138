use crate::input::{CaseError, both, cut_at, put};
use api_claim::ClaimStatus;
use cluster::Mode;
use commands::{Command, Given, GivenError, commands};
use doc_split::Doc;
use object_fields::{FieldError, FieldErrorKind, ObjectMeta, Scope};
use serde_json::Value;
use std::alloc::Global;

/// The command, of which an object is applied by the mode.
fn by_mode(command: Command, mode: Mode) -> Command {
    match command {
        Command::Apply(ready, _) => Command::Apply(ready, mode),
        other => other,
    }
}

/// Appends what is asked for, if that is one command.
fn push_given(given: Given, mode: Mode, orders: &mut Vec<Command>) -> Result<(), CaseError> {
    match given {
        Given::One(command) => put(orders, by_mode(command, mode)),
        other => {
            drop(other);
            Err(CaseError::BadCase)
        }
    }
}

/// Appends what a document asks for, if all of it is commands.
fn push_each(given: Vec<Given>, mode: Mode, orders: &mut Vec<Command>) -> Result<(), CaseError> {
    for one in given {
        push_given(one, mode, orders)?;
    }
    Ok(())
}

/// Appends the commands of a document, of which objects are applied by the mode.
fn push_commands(
    alloc: Global,
    document: &str,
    mode: Mode,
    attempts: u64,
    orders: &mut Vec<Command>,
) -> Result<(), CaseError> {
    let doc = Doc {
        at: 0,
        bytes: document.as_bytes().to_vec(alloc)?,
    };
    let given = commands(alloc, &doc, attempts);
    drop(doc);
    match given {
        Ok(given) => push_each(given, mode, orders),
        Err(GivenError::NotJson | GivenError::NotACommand) => Err(CaseError::BadCase),
        Err(GivenError::Memory) => Err(CaseError::Memory),
    }
}

/// The value of a JSON text.
pub fn json(alloc: Global, text: &str) -> Result<Value, CaseError> {
    match Value::from_str(alloc, text) {
        Ok(value) => Ok(value),
        Err(error) => {
            if error.is_memory() {
                Err(CaseError::Memory)
            } else {
                Err(CaseError::BadCase)
            }
        }
    }
}

/// The status write of a claim's document.
fn read_status(alloc: Global, value: &Value) -> Result<Command, FieldError> {
    let status = ClaimStatus::read(alloc, value);
    let meta = ObjectMeta::read(alloc, value, Scope::Namespaced);
    let (status, meta) = both(status, meta)?;
    Ok(Command::Adopt(meta.key, status))
}

/// The command to refuse a document by its first error.
fn invalid(error: FieldError) -> Result<Command, CaseError> {
    if error.kind == FieldErrorKind::Memory {
        drop(error);
        Err(CaseError::Memory)
    } else {
        Ok(Command::Invalid(error))
    }
}

/// The status write of a claim's document, or Invalid with the error.
fn status_order(alloc: Global, document: &str) -> Result<Command, CaseError> {
    let value = json(alloc, document)?;
    let order = read_status(alloc, &value);
    drop(value);
    match order {
        Ok(order) => Ok(order),
        Err(error) => invalid(error),
    }
}

/// Appends what a line asks for.
fn push_line(
    alloc: Global,
    line: &str,
    attempts: u64,
    orders: &mut Vec<Command>,
) -> Result<(), CaseError> {
    let (verb, document) = cut_at(line, ' ');
    match verb {
        "status" => put(orders, status_order(alloc, document)?),
        "create" => push_commands(alloc, document, Mode::Create, attempts, orders),
        "update" => push_commands(alloc, document, Mode::Update, attempts, orders),
        _ => push_commands(alloc, line, Mode::Apply, attempts, orders),
    }
}

/// What the jobs of these lines do.
pub fn read_orders(alloc: Global, lines: &str, attempts: u64) -> Result<Vec<Command>, CaseError> {
    let mut orders = Vec::new(alloc);
    for line in lines.lines() {
        push_line(alloc, line, attempts, &mut orders)?;
    }
    Ok(orders)
}
