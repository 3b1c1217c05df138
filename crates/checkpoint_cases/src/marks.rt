ghost use Rattle.std.specs.List.{AllByRecursion};
ghost use Rattle.ckpt_journal.specs.Format.{ReadsBack};

use crate::files::{listed_rows, word};
use crate::start::{Begun, Half, Start, begin, open};
use ckpt_journal::{Journal, Record, Row};
use mem_disk::MemDisk;
use std::alloc::{AllocError, Global};

/// The letters of tables.
const LETTERS: &[u8; 26] = b"abcdefghijklmnopqrstuvwxyz";

/// The different tables that a journal has while records are appended, in the order in which they come.
#[derive(Drop)]
pub struct Tables {
    texts: Vec<String>,
}

impl Tables {
    /// The tables of a journal on a disk that doesn't fail.
    pub fn of(alloc: Global, start: &Start, items: &[Record]) -> Result<Tables, AllocError>
        requires { AllByRecursion ReadsBack items.now }
    {
        let mut tables = Tables {
            texts: Vec::new(alloc),
        };
        if let Begun::Open(mut journal, _records) = begin(alloc, start, Vec::new(alloc))? {
            tables.note_each(alloc, &mut journal, items)?;
        }
        Ok(tables)
    }

    fn note_each(
        &mut self,
        alloc: Global,
        journal: &mut Journal<MemDisk>,
        items: &[Record],
    ) -> Result<(), AllocError>
        requires { AllByRecursion ReadsBack items.now }
    {
        self.note(listed_rows(alloc, journal.rows())?)?;
        for item in items {
            let _result = journal.append(alloc, item);
            self.note(listed_rows(alloc, journal.rows())?)?;
        }
        Ok(())
    }

    /// Adds a table if it isn't there.
    fn note(&mut self, text: String) -> Result<(), AllocError> {
        if self.index(text.as_str()).is_none() {
            self.texts.push(text)?;
        }
        Ok(())
    }

    /// The index of a table.
    fn index(&self, text: &str) -> Option<usize> {
        for at in 0..self.texts.len() {
            if self.texts[at].as_str() == text {
                return Some(at);
            }
        }
        None
    }

    /// The letter of a table, `a` for the first one, or `!` if it isn't there.
    fn letter(&self, text: &str) -> char {
        match self.index(text) {
            Some(at) if at < LETTERS.len() => LETTERS[at] as char,
            _ => '!',
        }
    }

    /// The number of records and the letter of the table.
    fn mark_of(&self, alloc: Global, rows: &[Row], records: usize) -> Result<String, AllocError> {
        let table = listed_rows(alloc, rows)?;
        let letter = self.letter(table.as_str());
        Ok(format!(in alloc; "{records}{letter}")?)
    }

    /// The number of records of a disk and the letter of its table, or the name of the error.
    pub fn mark(&self, alloc: Global, half: Half, disk: MemDisk) -> Result<String, AllocError> {
        match open(alloc, half, disk) {
            Begun::Open(journal, records) => self.mark_of(alloc, journal.rows(), records.len()),
            Begun::NotOpen(unopened) => word(alloc, unopened.why),
            Begun::NotMade(error) => word(alloc, error),
        }
    }
}
