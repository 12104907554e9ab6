//! A text that is compared, in parts: each begins with a mark and its name, so that it can be told which of them differs.

use rows_common::Wrong;
use std::alloc::{AllocError, Global};
use std::fmt::Debug;

/// What stands in front of each part. No text of a row holds it.
const MARK: &str = "\u{1}";

/// A text that grows. The first fault stays, and `finished` tells it: what is written on a page needs no way out behind each of its texts.
#[derive(Drop)]
pub(crate) struct Page {
    pub(crate) alloc: Global,
    text: String,
    fault: Option<Wrong>,
}

impl Page {
    /// The empty page. It promises nothing beyond safety.
    pub(crate) fn new(alloc: Global) -> Page {
        Page {
            alloc,
            text: String::new(alloc),
            fault: None,
        }
    }

    /// Notes a fault. It promises nothing beyond safety.
    pub(crate) fn fail(&mut self, wrong: Wrong) {
        if self.fault.is_none() {
            self.fault = Some(wrong);
        }
    }

    /// Adds a text. It promises nothing beyond safety.
    pub(crate) fn push(&mut self, text: &str) {
        if self.text.push_str(text).is_err() {
            self.fail(Wrong::NoMemory);
        }
    }

    /// Adds the text of a row, where it has one. It promises nothing beyond safety.
    pub(crate) fn push_field(&mut self, text: Result<&str, Wrong>) {
        match text {
            Ok(text) => self.push(text),
            Err(wrong) => self.fail(wrong),
        }
    }

    /// Adds a value as developers see it. It promises nothing beyond safety.
    pub(crate) fn push_shown<T: Debug>(&mut self, shown: &T) {
        if write!(self.text, "{shown:?}").is_err() {
            self.fail(Wrong::NoMemory);
        }
    }

    /// Begins a part of that name. It promises nothing beyond safety.
    pub(crate) fn begin(&mut self, name: &str) {
        self.push(MARK);
        self.push(name);
        self.push(" ");
    }

    /// Adds a text in brackets. It promises nothing beyond safety.
    pub(crate) fn push_item(&mut self, text: &str) {
        self.push(" [");
        self.push(text);
        self.push("]");
    }

    /// All that was written; the first fault, where there was one. It promises nothing beyond safety.
    pub(crate) fn finished(self) -> Result<String, Wrong> {
        match self.fault {
            None => Ok(self.text),
            Some(wrong) => Err(wrong),
        }
    }
}

/// The first parts that differ, one beside the other; else both texts.
fn first_unlike<'a>(found: &'a str, wanted: &'a str) -> (&'a str, &'a str) {
    let mut rest = wanted.split(MARK);
    for part in found.split(MARK) {
        let beside = rest.next().unwrap_or("");
        if part != beside {
            return (part, beside);
        }
    }
    (found, wanted)
}

/// What is printed of two texts that differ; none where they don't. It promises nothing beyond safety.
pub(crate) fn unlike(
    alloc: Global,
    found: String,
    wanted: String,
) -> Result<Option<String>, AllocError> {
    let (found, wanted) = (found.as_str(), wanted.as_str());
    if found == wanted {
        return Ok(None);
    }
    let (found, wanted) = first_unlike(found, wanted);
    match format!(in alloc; "{found:?} for {wanted:?}") {
        Ok(told) => Ok(Some(told)),
        Err(refused) => Err(refused),
    }
}
