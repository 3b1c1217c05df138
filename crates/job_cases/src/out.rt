use std::alloc::{AllocError, Global};
use std::fmt::Display;
use std::str;

/// What is printed. A write says nothing if memory runs out; the text is then not whole.
#[derive(Drop)]
pub struct Out {
    text: String,
    whole: bool,
}

impl Out {
    pub fn new(alloc: Global) -> Out {
        Out {
            text: String::new(alloc),
            whole: true,
        }
    }

    /// The text, if it is whole.
    pub fn text(&self) -> Result<&str, AllocError> {
        if self.whole {
            Ok(self.text.as_str())
        } else {
            Err(AllocError)
        }
    }

    /// Says that memory ran out.
    pub fn fail(&mut self) {
        self.whole = false;
    }

    fn note(&mut self, written: bool) {
        self.whole = self.whole && written;
    }

    /// Appends a text.
    pub fn say(&mut self, text: &str) {
        let written = self.text.push_str(text);
        self.note(written.is_ok());
    }

    /// Appends a text, and then a value as it prints.
    pub fn show_after<T: Display>(&mut self, text: &str, value: &T) {
        self.say(text);
        let written = write!(self.text, "{value}");
        self.note(written.is_ok());
    }

    /// Appends a line that has one text after another.
    pub fn line(&mut self, before: &str, text: &str) {
        self.say(before);
        self.say(text);
        self.say("\n");
    }

    /// Appends lines of a journal, if there was memory for them.
    pub fn lines(&mut self, lines: Result<Vec<u8>, AllocError>) {
        match lines {
            Ok(lines) => self.say(str::from_utf8(&lines).unwrap_or("not UTF-8\n")),
            Err(AllocError) => self.fail(),
        }
    }
}
