//! A row, and whether what is compared with it agrees.

use just_path::Utf8PathBuf;
use just_path_text::NoMemory;
use rows_common::{Wrong, is_flag, says};
use std::alloc::{AllocError, Global};

/// A row, and whether all that was compared with it so far agrees: the first fault stays.
#[derive(Drop)]
pub(crate) struct Row<'a> {
    pub(crate) alloc: Global,
    fields: &'a [&'a str],
    found: Result<bool, Wrong>,
}

impl<'a> Row<'a> {
    /// The row of those fields, with which nothing was compared. It promises nothing beyond safety.
    pub(crate) fn new(alloc: Global, fields: &'a [&'a str]) -> Row<'a> {
        Row {
            alloc,
            fields,
            found: Ok(true),
        }
    }

    /// Whether all that was compared agrees. It promises nothing beyond safety.
    pub(crate) fn agrees(&self) -> Result<bool, Wrong> {
        self.found
    }

    /// Notes whether something agrees. It promises nothing beyond safety.
    pub(crate) fn note(&mut self, found: Result<bool, Wrong>) {
        if let Ok(true) = self.found {
            self.found = found;
        }
    }

    /// Notes whether something holds. It promises nothing beyond safety.
    pub(crate) fn holds(&mut self, is_so: bool) {
        self.note(Ok(is_so));
    }

    /// Notes that memory was wanting. It promises nothing beyond safety.
    pub(crate) fn lacks_memory(&mut self) {
        self.note(Err(Wrong::NoMemory));
    }

    /// The field with that number, as it is written; an empty one where there is none, which is noted. It promises nothing
    /// beyond safety.
    pub(crate) fn field(&mut self, number: usize) -> &'a str {
        let fields = self.fields;
        match fields.get(number) {
            Some(field) => *field,
            None => {
                self.note(Err(Wrong::Form));
                ""
            }
        }
    }

    /// Compares a field with an answer: `-` for none, else `=` and the escaped bytes. It promises nothing beyond safety.
    pub(crate) fn says(&mut self, number: usize, answer: Option<&[u8]>) {
        let found = says(self.alloc, self.fields, number, answer);
        self.note(found);
    }

    /// Compares a field with a path. It promises nothing beyond safety.
    pub(crate) fn is_path(&mut self, number: usize, path: Result<Utf8PathBuf, NoMemory>) {
        match path {
            Ok(path) => self.says(number, Some(path.as_str().as_bytes())),
            Err(_) => self.lacks_memory(),
        }
    }

    /// Compares a field with a flag. It promises nothing beyond safety.
    pub(crate) fn is_flag(&mut self, number: usize, flag: bool) {
        let found = is_flag(self.fields, number, flag);
        self.note(found);
    }

    /// Compares a field, as it is written, with a text. It promises nothing beyond safety.
    pub(crate) fn is_written(&mut self, number: usize, text: Result<String, AllocError>) {
        match text {
            Ok(text) => {
                let field = self.field(number);
                self.holds(field == text.as_str());
            }
            Err(_) => self.lacks_memory(),
        }
    }
}
