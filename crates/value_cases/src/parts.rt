use crate::cel::operator;
use crate::input::{CaseError, text, text_at};
use crate::shown::Out;
use api_slice::Properties;
use cel_meaning::{Connective, connective_of};
use cel_tree::called_of;
use cel_value::{DeviceEnv, EvalError};
use dra_values::{Table, Text};
use serde_json::Value;
use std::alloc::Global;

/// Parts of the selector language that underlie its expressions, and parts of devices.
pub fn answer(alloc: Global, out: &mut Out, kind: &str, input: &Value) -> Result<(), CaseError> {
    match kind {
        "called" => called(out, input),
        "connective" => joined(out, input),
        "device" => device(alloc, out, input),
        "no_properties" => no_properties(alloc, out),
        _ => Err(CaseError::BadCase),
    }
}

/// Appends what a name denotes in a call.
fn called(out: &mut Out, name: &Value) -> Result<(), CaseError> {
    let called = called_of(text(name)?);
    out.debug(&called);
    Ok(())
}

/// Appends what a connective has before its first side, what two sides of it are together, and whether
/// the left one stops it; `none` if the operator is no connective.
fn joined(out: &mut Out, input: &Value) -> Result<(), CaseError> {
    let operator = operator(text_at(input, 0)?)?;
    let left = side(text_at(input, 1)?)?;
    let right = side(text_at(input, 2)?)?;
    match connective_of(operator) {
        Some(connective) => push_joined(out, connective, left, right),
        None => out.say("none"),
    }
    Ok(())
}

fn push_joined(
    out: &mut Out,
    connective: Connective,
    left: Result<bool, EvalError>,
    right: Result<bool, EvalError>,
) {
    out.show(&connective.start());
    out.say(" ");
    out.debug(&connective.join(left, right));
    out.show_after(" ", &connective.stops(left));
}

fn side(word: &str) -> Result<Result<bool, EvalError>, CaseError> {
    match word {
        "true" => Ok(Ok(true)),
        "false" => Ok(Ok(false)),
        "NoKey" => Ok(Err(EvalError::NoKey)),
        "Overflow" => Ok(Err(EvalError::Overflow)),
        "Memory" => Ok(Err(EvalError::Memory)),
        _ => Err(CaseError::BadCase),
    }
}

/// Appends whether a device without properties has no attributes and no capacities.
fn no_properties(alloc: Global, out: &mut Out) -> Result<(), CaseError> {
    let none = Properties::none(alloc);
    out.show(&none.attributes().is_empty());
    out.show_after(" ", &none.capacity().is_empty());
    Ok(())
}

/// Appends the driver of a device with no attributes and no capacities, or `none` if a limit is broken.
fn device(alloc: Global, out: &mut Out, driver: &Value) -> Result<(), CaseError> {
    let driver = Text::from_str(alloc, text(driver)?)?;
    match DeviceEnv::checked(driver, Table::new(alloc), Table::new(alloc)) {
        Some(device) => out.show(device.driver()),
        None => out.say("none"),
    }
    Ok(())
}
