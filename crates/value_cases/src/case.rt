use crate::documents;
use crate::input::{CaseError, json};
use crate::kinds::of_group;
use crate::selectors::{of_selectors, set_devices};
use crate::shown::Out;
use cel_eval::DeviceEnv;
use serde_json::Value;
use std::alloc::{AllocError, Global};

/// The line that is printed for a line of the input. The devices are those that selectors are
/// evaluated on; a case of the kind `selector devices` sets them.
pub fn answer(
    alloc: Global,
    devices: &mut Vec<DeviceEnv>,
    line: &str,
) -> Result<String, AllocError> {
    if line.is_empty() || line.starts_with('#') {
        return String::from_str(alloc, line);
    }
    let mut out = Out::new(alloc);
    match of_case(alloc, &mut out, devices, line) {
        Ok(()) | Err(CaseError::Printed) => printed(alloc, &out),
        Err(CaseError::BadCase) => String::from_str(alloc, "no such case"),
        Err(CaseError::Memory) => Err(AllocError),
    }
}

/// Appends what is printed of a case.
fn of_case(
    alloc: Global,
    out: &mut Out,
    devices: &mut Vec<DeviceEnv>,
    line: &str,
) -> Result<(), CaseError> {
    let (kind, input) = line.split_once('\t').ok_or(CaseError::BadCase)?;
    let (group, word) = kind.split_once(' ').ok_or(CaseError::BadCase)?;
    match kind {
        "commands document" => documents::asked(alloc, out, input.as_bytes()),
        "selector devices" => set_devices(alloc, out, devices, input),
        _ => of_json(alloc, out, devices.as_slice(), group, word, input),
    }
}

fn of_json(
    alloc: Global,
    out: &mut Out,
    devices: &[DeviceEnv],
    group: &str,
    word: &str,
    input: &str,
) -> Result<(), CaseError> {
    let value = json(alloc, input)?;
    of_value(alloc, out, devices, group, word, &value)
}

/// Appends the line of a case of that kind, whose input is this value.
fn of_value(
    alloc: Global,
    out: &mut Out,
    devices: &[DeviceEnv],
    group: &str,
    word: &str,
    input: &Value,
) -> Result<(), CaseError> {
    match group {
        "selector" | "cel" | "token" | "tree" | "part" | "message" => {
            of_selectors(alloc, out, devices, group, word, input)
        }
        _ => of_group(alloc, out, group, word, input),
    }
}

fn printed(alloc: Global, out: &Out) -> Result<String, AllocError> {
    match out.text() {
        Some(text) => one_line(alloc, text),
        None => Err(AllocError),
    }
}

/// The text with `?` for each control character.
fn one_line(alloc: Global, text: &str) -> Result<String, AllocError> {
    let mut line = String::new(alloc);
    for letter in text.chars() {
        line.push(shown(letter))?;
    }
    Ok(line)
}

fn shown(letter: char) -> char {
    if letter < ' ' || letter == '\u{7f}' {
        '?'
    } else {
        letter
    }
}
