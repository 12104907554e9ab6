//! Texts that are written one behind another, as long as there is memory for them.

use just_lang_types::{CompileKind, Expr, Modulepath};
use rows_common::Wrong;
use std::alloc::Global;

/// A text that grows. Where memory is wanting, a text is left out, and `finished` says so: what is written on a page needs
/// no way out behind each of its texts.
#[derive(Drop)]
pub(crate) struct Page {
    text: String,
    is_whole: bool,
}

impl Page {
    /// The empty page.
    pub(crate) fn new(alloc: Global) -> Page {
        Page {
            text: String::new(alloc),
            is_whole: true,
        }
    }

    /// Adds a text.
    pub(crate) fn push(&mut self, text: &str) {
        if self.text.push_str(text).is_err() {
            self.is_whole = false;
        }
    }

    /// Adds a number.
    pub(crate) fn push_number(&mut self, number: u64) {
        if write!(self.text, "{number}").is_err() {
            self.is_whole = false;
        }
    }

    /// Adds the name of a rule.
    pub(crate) fn push_kind(&mut self, kind: CompileKind) {
        if write!(self.text, "{kind:?}").is_err() {
            self.is_whole = false;
        }
    }

    /// Adds a letter.
    pub(crate) fn push_letter(&mut self, letter: char) {
        if self.text.push(letter).is_err() {
            self.is_whole = false;
        }
    }

    /// Adds an expression.
    pub(crate) fn push_expr(&mut self, value: &Expr) {
        if just_print::push_expr(&mut self.text, value).is_err() {
            self.is_whole = false;
        }
    }

    /// Adds a path, with `::` between its names.
    pub(crate) fn push_path(&mut self, path: &Modulepath) {
        let mut between = "";
        for name in path.components.as_slice() {
            self.push(between);
            self.push(name.as_str());
            between = "::";
        }
    }

    /// All that was written; none of it, where memory was wanting.
    pub(crate) fn finished(self) -> Result<String, Wrong> {
        if self.is_whole {
            Ok(self.text)
        } else {
            Err(Wrong::NoMemory)
        }
    }
}
