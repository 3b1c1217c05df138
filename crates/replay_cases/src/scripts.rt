use std::alloc::{AllocError, Global};

/// A script by its name.
#[derive(Drop)]
struct Script {
    name: String,
    bytes: Vec<u8>,
}

/// The scripts of a container so far. Parts are appended to the last one.
#[derive(Drop)]
pub struct Scripts {
    all: Vec<Script>,
}

impl Scripts {
    pub fn new(alloc: Global) -> Self {
        Scripts {
            all: Vec::new(alloc),
        }
    }

    /// Begins a script, which is empty.
    pub fn begin(&mut self, alloc: Global, name: &str) -> Result<(), AllocError> {
        let name = String::from_str(alloc, name)?;
        self.all.push(Script {
            name,
            bytes: Vec::new(alloc),
        })?;
        Ok(())
    }

    /// Appends a part to the last script. Returns false if there is none.
    pub fn append(&mut self, part: &[u8]) -> Result<bool, AllocError> {
        let Some(script) = self.all.last_mut() else {
            return Ok(false);
        };
        script.bytes.extend_from_slice(part)?;
        Ok(true)
    }

    /// The bytes of the first script of that name.
    pub fn get(&self, name: &str) -> Option<&[u8]> {
        for script in &self.all {
            if script.name.as_str() == name {
                return Some(script.bytes.as_slice());
            }
        }
        None
    }
}

/// Appends a pattern with the number in place of each `#`.
fn push_copy(
    alloc: Global,
    all: &mut Vec<u8>,
    pattern: &[u8],
    number: u64,
) -> Result<(), AllocError> {
    let digits = format!(in alloc; "{number}")?;
    for byte in pattern {
        if *byte == b'#' {
            all.extend_from_slice(digits.as_bytes())?;
        } else {
            all.push(*byte)?;
        }
    }
    Ok(())
}

/// Copies of a pattern, one for each of these numbers, with the number in place of each `#`.
pub fn copies(alloc: Global, pattern: &[u8], from: u64, to: u64) -> Result<Vec<u8>, AllocError> {
    let mut all = Vec::new(alloc);
    for number in from..=to {
        push_copy(alloc, &mut all, pattern, number)?;
    }
    Ok(all)
}
