use crate::input::{CaseError, number, range};
use std::alloc::{AllocError, Global};

/// Lines by the name of their list.
#[derive(Drop)]
struct List {
    name: String,
    lines: String,
}

/// The lists of a container so far. Lines are appended to the last one.
#[derive(Drop)]
pub struct Lists {
    all: Vec<List>,
    /// How many of the next lines of the container are lines of the last list.
    due: u64,
}

impl Lists {
    pub fn new(alloc: Global) -> Self {
        Lists {
            all: Vec::new(alloc),
            due: 0,
        }
    }

    /// Begins a list, which is empty.
    pub fn begin(&mut self, alloc: Global, name: &str) -> Result<(), AllocError> {
        let name = String::from_str(alloc, name)?;
        self.all.push(List {
            name,
            lines: String::new(alloc),
        })?;
        Ok(())
    }

    /// Has as many of the next lines of the container as the text says be lines of the last list.
    pub fn expect(&mut self, count: &str) -> Result<(), CaseError> {
        self.due = number(count)?;
        Ok(())
    }

    /// Whether the next line of the container is one of the last list.
    pub fn is_due(&self) -> bool {
        self.due > 0
    }

    /// Appends the next line of the container to the last list.
    pub fn append_line(&mut self, line: &str) -> Result<(), CaseError> {
        self.due = self.due.saturating_sub(1);
        self.append(line)?;
        self.append("\n")
    }

    /// Appends a text to the last list.
    fn append(&mut self, text: &str) -> Result<(), CaseError> {
        match self.all.last_mut() {
            Some(list) => Ok(list.lines.push_str(text)?),
            None => Err(CaseError::BadCase),
        }
    }

    /// The lines of the first list of that name.
    pub fn get(&self, name: &str) -> Result<&str, CaseError> {
        for list in &self.all {
            if list.name.as_str() == name {
                return Ok(list.lines.as_str());
            }
        }
        Err(CaseError::BadCase)
    }

    /// Appends the copies that a text such as `0 9 NAME` asks for to the last list.
    pub fn append_copies(&mut self, alloc: Global, text: &str) -> Result<(), CaseError> {
        let (from, to, name) = range(text)?;
        for number in from..=to {
            self.append_copy(alloc, name, number)?;
        }
        Ok(())
    }

    fn append_copy(&mut self, alloc: Global, name: &str, number: u64) -> Result<(), CaseError> {
        let copy = copy_of(alloc, self.get(name)?, number)?;
        self.append(copy.as_str())
    }
}

/// A text with the number in place of each `#`.
pub fn copy_of(alloc: Global, text: &str, number: u64) -> Result<String, AllocError> {
    let mut copy = String::new(alloc);
    push_copy(&mut copy, text, number)?;
    Ok(copy)
}

fn push_copy(copy: &mut String, text: &str, number: u64) -> Result<(), AllocError> {
    for letter in text.chars() {
        if letter == '#' {
            write!(copy, "{number}")?;
        } else {
            copy.push(letter)?;
        }
    }
    Ok(())
}
