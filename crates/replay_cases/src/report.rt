use std::alloc::{AllocError, Global};

/// Outcomes by their numbers, of which equal ones in a row share one line.
#[derive(Drop)]
pub struct Report {
    first: u64,
    last: u64,
    said: Vec<u8>,
}

impl Report {
    pub fn new(alloc: Global) -> Self {
        Report {
            first: 0,
            last: 0,
            said: Vec::new(alloc),
        }
    }

    /// Adds an outcome, and prints those before it if it differs.
    pub fn add(
        &mut self,
        alloc: Global,
        number: u64,
        said: Vec<u8>,
        out: &mut Vec<u8>,
    ) -> Result<(), AllocError> {
        if self.said.as_slice() != said.as_slice() {
            self.print(alloc, out)?;
            self.first = number;
            self.said = said;
        }
        self.last = number;
        Ok(())
    }

    /// Prints the last outcomes.
    pub fn print(&self, alloc: Global, out: &mut Vec<u8>) -> Result<(), AllocError> {
        if self.said.is_empty() {
            return Ok(());
        }
        let first = self.first;
        let last = self.last;
        let numbers = format!(in alloc; "{first}..{last}: ")?;
        out.extend_from_slice(numbers.as_bytes())?;
        out.extend_from_slice(self.said.as_slice())?;
        out.push(b'\n')?;
        Ok(())
    }
}
