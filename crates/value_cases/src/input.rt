use serde_json::Value;
use std::alloc::{AllocError, Global};

/// Why a case has no line of its own.
#[derive(Clone, Copy, Drop)]
pub enum CaseError {
    /// Its kind isn't known, or its input isn't what the kind expects.
    BadCase,
    /// Its object has an error, which is printed.
    Printed,
    /// Memory ran out.
    Memory,
}

impl From<AllocError> for CaseError {
    fn from(_error: AllocError) -> CaseError {
        CaseError::Memory
    }
}

/// The value of a JSON text.
pub fn json(alloc: Global, text: &str) -> Result<Value, CaseError> {
    match Value::from_str(alloc, text) {
        Ok(value) => Ok(value),
        Err(error) => {
            if error.is_memory() {
                Err(CaseError::Memory)
            } else {
                Err(CaseError::BadCase)
            }
        }
    }
}

pub fn text(value: &Value) -> Result<&str, CaseError> {
    value.as_str().ok_or(CaseError::BadCase)
}

/// The items of a list.
pub fn items(value: &Value) -> Result<&[Value], CaseError> {
    match value {
        Value::Array(items) => Ok(items.as_slice()),
        _ => Err(CaseError::BadCase),
    }
}

/// The item of a list at that index.
pub fn item(value: &Value, place: usize) -> Result<&Value, CaseError> {
    items(value)?.get(place).ok_or(CaseError::BadCase)
}

/// The text at that index of a list.
pub fn text_at(value: &Value, place: usize) -> Result<&str, CaseError> {
    text(item(value, place)?)
}

/// The whole number from 0 at that index of a list.
pub fn number_at(value: &Value, place: usize) -> Result<u64, CaseError> {
    item(value, place)?.as_u64().ok_or(CaseError::BadCase)
}
