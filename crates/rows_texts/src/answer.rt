//! Answers as the rows of expansions write them.

use crate::row::Row;
use crate::shown::Shown;
use just_expand::Expand;
use just_expand::path::Expanded;
use just_path_text::NoMemory;
use rows_common::{Wrong, unescaped};
use std::alloc::Global;
use std::borrow::CowStr;

/// Whether a field is the sign and the escaped text.
fn is_behind_sign(alloc: Global, field: &str, sign: char, text: &str) -> Result<bool, Wrong> {
    match field.strip_prefix(sign) {
        Some(rest) => {
            let wanted = unescaped(alloc, rest)?;
            Ok(wanted.as_slice() == text.as_bytes())
        }
        None => Ok(false),
    }
}

/// The text of a path.
fn text_of<E>(answer: Result<Expanded<'_>, E>) -> Result<CowStr<'_, Global>, E> {
    match answer {
        Ok(Expanded::Borrowed(path)) => Ok(CowStr::Borrowed(path.as_str())),
        Ok(Expanded::Owned(path)) => Ok(CowStr::Owned(path.into_string())),
        Err(error) => Err(error),
    }
}

impl Row<'_> {
    /// Compares a field with a sign and a text.
    fn is_signed(&mut self, number: usize, sign: char, text: &str) {
        let field = self.field(number);
        let found = is_behind_sign(self.alloc, field, sign, text);
        self.note(found);
    }

    /// Compares a field with a text. It promises nothing beyond safety.
    pub(crate) fn is_text(&mut self, number: usize, answer: Result<CowStr<'_, Global>, NoMemory>) {
        match answer {
            Ok(text) => self.is_signed(number, '=', text.as_str()),
            Err(_) => self.lacks_memory(),
        }
    }

    /// Compares a field with a text, or with the name that was refused. It promises nothing beyond safety.
    pub(crate) fn is_answer<E: Drop>(
        &mut self,
        number: usize,
        answer: Result<CowStr<'_, Global>, Expand<E>>,
    ) {
        match answer {
            Ok(text) => self.is_signed(number, '=', text.as_str()),
            Err(Expand::Lookup(error)) => self.is_signed(number, '!', error.var_name.as_str()),
            Err(Expand::NoMemory) => self.lacks_memory(),
        }
    }

    /// Compares a field with a path. It promises nothing beyond safety.
    pub(crate) fn is_path_text(&mut self, number: usize, answer: Result<Expanded<'_>, NoMemory>) {
        self.is_text(number, text_of(answer));
    }

    /// Compares a field with a path, or with the name that was refused. It promises nothing beyond safety.
    pub(crate) fn is_path_answer<E: Drop>(
        &mut self,
        number: usize,
        answer: Result<Expanded<'_>, Expand<E>>,
    ) {
        self.is_answer(number, text_of(answer));
    }

    /// Compares a field, unescaped, with what is shown. It promises nothing beyond safety.
    pub(crate) fn is_shown(&mut self, number: usize, shown: Shown) {
        let field = self.field(number);
        let found = shown.is_said(self.alloc, field);
        self.note(found);
    }
}
