use crate::input::{CaseError, cut_at, number};

/// How jobs are run.
#[derive(Clone, Copy, Drop)]
pub struct Options {
    /// The most entries of the history.
    pub entries: u64,
    /// The most items of a node's walk that a search looks at.
    pub budget: u64,
    /// The most attempts to schedule a pod.
    pub attempts: u64,
}

impl Options {
    /// Changes an option by an argument such as `attempts=2`.
    fn set(&mut self, word: &str) -> Result<(), CaseError> {
        let (key, text) = cut_at(word, '=');
        let number = number(text)?;
        match key {
            "entries" => self.entries = number,
            "budget" => self.budget = number,
            "attempts" => self.attempts = number,
            _ => return Err(CaseError::BadCase),
        }
        Ok(())
    }

    /// Reads options, with a space between two. Those that are missing are the ones of the program `dra`.
    pub fn read(words: &str) -> Result<Self, CaseError> {
        let mut options = Options {
            entries: 1_000_000,
            budget: 100_000,
            attempts: 32,
        };
        for word in words.split(' ') {
            if !word.is_empty() {
                options.set(word)?;
            }
        }
        Ok(options)
    }
}
