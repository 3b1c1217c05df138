use crate::input::CaseError;
use object_fields::FieldError;
use serde_json::Value;
use std::alloc::{AllocError, Global};
use std::fmt::{Debug, Display};

/// What is printed of a case. A write says nothing if memory runs out; the text is then not whole.
#[derive(Drop)]
pub struct Out {
    text: String,
    whole: bool,
}

impl Out {
    pub fn new(alloc: Global) -> Out {
        Out {
            text: String::new(alloc),
            whole: true,
        }
    }

    pub fn is_empty(&self) -> bool {
        self.text.is_empty()
    }

    /// The text, if it is whole.
    pub fn text(&self) -> Option<&str> {
        if self.whole {
            Some(self.text.as_str())
        } else {
            None
        }
    }

    fn note(&mut self, written: bool) {
        self.whole = self.whole && written;
    }

    /// Appends a text.
    pub fn say(&mut self, text: &str) {
        let written = self.text.push_str(text);
        self.note(written.is_ok());
    }

    /// Appends a value as it prints.
    pub fn show<T: Display>(&mut self, value: &T) {
        let written = write!(self.text, "{value}");
        self.note(written.is_ok());
    }

    /// Appends a text, and then a value as it prints.
    pub fn show_after<T: Display>(&mut self, text: &str, value: &T) {
        self.say(text);
        self.show(value);
    }

    /// Appends a value as it is debugged.
    pub fn debug<T: Debug>(&mut self, value: &T) {
        let written = write!(self.text, "{value:?}");
        self.note(written.is_ok());
    }

    /// Appends a value as it prints, right-aligned to eight characters.
    pub fn wide<T: Display>(&mut self, value: &T) {
        let written = write!(self.text, "{value:>8}");
        self.note(written.is_ok());
    }

    /// Appends a value as it prints, or `none`.
    pub fn show_or_none<T: Display + Drop>(&mut self, value: Option<T>) {
        match value {
            Some(value) => self.show(&value),
            None => self.say("none"),
        }
    }

    /// Appends the JSON text of a value.
    pub fn json(&mut self, alloc: Global, value: &Value) {
        match value.to_string(alloc) {
            Ok(text) => self.say(text.as_str()),
            Err(AllocError) => self.note(false),
        }
    }

    /// Appends a text as JSON writes it, in quotes.
    pub fn quoted(&mut self, alloc: Global, text: &str) {
        match String::from_str(alloc, text) {
            Ok(text) => self.json(alloc, &Value::String(text)),
            Err(AllocError) => self.note(false),
        }
    }
}

/// What a case reads, copies and prints.
pub trait Copied: Sized + Drop {
    /// An equal value.
    fn again(&self, alloc: Global) -> Result<Self, AllocError>;

    /// Appends the text of the value.
    fn show(&self, out: &mut Out);
}

/// The result of a call that can only run out of memory.
pub fn done<T>(answer: Result<T, AllocError>) -> Result<T, CaseError> {
    match answer {
        Ok(value) => Ok(value),
        Err(AllocError) => Err(CaseError::Memory),
    }
}

/// Appends an item to a list.
pub fn put<T: Drop>(list: &mut Vec<T>, item: T) -> Result<(), CaseError> {
    list.push(item).map_err(AllocError::from)?;
    Ok(())
}

/// Appends the name and the path of an error, by a copy of it.
fn failed(alloc: Global, out: &mut Out, error: &FieldError) -> CaseError {
    match error.copy(alloc) {
        Ok(copy) => {
            out.show(&copy);
            CaseError::Printed
        }
        Err(AllocError) => CaseError::Memory,
    }
}

/// What was read. If it is an error, its name and its path are appended.
pub fn read<T>(
    alloc: Global,
    out: &mut Out,
    answer: Result<T, FieldError>,
) -> Result<T, CaseError> {
    match answer {
        Ok(value) => Ok(value),
        Err(error) => Err(failed(alloc, out, &error)),
    }
}

/// Appends the text of a copy of what was read, or its error.
pub fn show<T: Copied>(
    alloc: Global,
    out: &mut Out,
    answer: Result<T, FieldError>,
) -> Result<(), CaseError> {
    let value = read(alloc, out, answer)?;
    let copy = value.again(alloc)?;
    copy.show(out);
    Ok(())
}
