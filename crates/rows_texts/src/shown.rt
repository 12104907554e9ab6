//! What is shown, as one text.

use rows_common::{Wrong, unescaped_text};
use std::alloc::{AllocError, Global};

/// What is shown, as one text. Where memory was wanting something of it is left out, and it says nothing.
#[derive(Drop)]
pub(crate) struct Shown {
    text: String,
    is_whole: bool,
}

impl Shown {
    /// Nothing shown so far. It promises nothing beyond safety.
    pub(crate) fn new(alloc: Global) -> Shown {
        Shown {
            text: String::new(alloc),
            is_whole: true,
        }
    }

    /// Whether nothing is shown so far. It promises nothing beyond safety.
    pub(crate) fn is_empty(&self) -> bool {
        self.text.is_empty()
    }

    /// Shows a part behind the others. It promises nothing beyond safety.
    pub(crate) fn add(&mut self, part: &str) {
        if self.text.push_str(part).is_err() {
            self.is_whole = false;
        }
    }

    /// Shows a part that was made for it behind the others. It promises nothing beyond safety.
    pub(crate) fn add_made(&mut self, part: Result<String, AllocError>) {
        match part {
            Ok(part) => self.add(part.as_str()),
            Err(_) => self.is_whole = false,
        }
    }

    /// Whether it is what a field says, unescaped. It promises nothing beyond safety.
    pub(crate) fn is_said(&self, alloc: Global, field: &str) -> Result<bool, Wrong> {
        if !self.is_whole {
            return Err(Wrong::NoMemory);
        }
        let wanted = unescaped_text(alloc, field)?;
        Ok(wanted.as_str() == self.text.as_str())
    }
}
