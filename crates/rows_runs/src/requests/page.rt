//! Texts that are written one behind another, as long as there is memory for them.

use rows_common::Wrong;
use std::alloc::Global;

/// A text that grows. Where memory is wanting, a text is left out, and `finished` says so: what is written on a page needs
/// no way out behind each of its texts.
#[derive(Drop)]
pub(crate) struct Page {
    text: String,
    is_whole: bool,
}

impl Page {
    /// The empty page. It promises nothing beyond safety.
    pub(crate) fn new(alloc: Global) -> Page {
        Page {
            text: String::new(alloc),
            is_whole: true,
        }
    }

    /// Adds a text. It promises nothing beyond safety.
    pub(crate) fn push(&mut self, text: &str) {
        if self.text.push_str(text).is_err() {
            self.is_whole = false;
        }
    }

    /// All that was written; none of it, where memory was wanting. It promises nothing beyond safety.
    pub(crate) fn finished(self) -> Result<String, Wrong> {
        if self.is_whole {
            Ok(self.text)
        } else {
            Err(Wrong::NoMemory)
        }
    }
}
