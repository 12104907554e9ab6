//! Whether the fields of a row say what is answered.

use rows_common::{Wrong, at, says, unescaped_text};
use std::alloc::Global;

/// The bytes of a text, where there is one.
fn bytes_of(text: Option<&str>) -> Option<&[u8]> {
    match text {
        Some(text) => Some(text.as_bytes()),
        None => None,
    }
}

/// Whether the fields from a number on say those answers, one field each. It promises nothing beyond safety.
pub(crate) fn all_say(
    alloc: Global,
    fields: &[&str],
    first: usize,
    answers: &[Option<&str>],
) -> Result<bool, Wrong> {
    for (n, answer) in answers.iter().enumerate() {
        if !says(alloc, fields, first.saturating_add(n), bytes_of(*answer))? {
            return Ok(false);
        }
    }
    Ok(true)
}

/// The text that the field with that number stands for, which has no `=` before it. It promises nothing beyond safety.
pub(crate) fn plain_text(alloc: Global, fields: &[&str], number: usize) -> Result<String, Wrong> {
    unescaped_text(alloc, at(fields, number)?)
}

/// Whether the field with that number stands for the text that is answered. It promises nothing beyond safety.
pub(crate) fn is_text(
    alloc: Global,
    fields: &[&str],
    number: usize,
    answer: &str,
) -> Result<bool, Wrong> {
    let wanted = plain_text(alloc, fields, number)?;
    Ok(wanted.as_str() == answer)
}
