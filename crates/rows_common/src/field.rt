//! The fields of a row, by their numbers from 0 on.

use super::{Wrong, unescaped, unescaped_text};
use std::alloc::Global;

/// The field with that number, as it is written. It promises nothing beyond safety.
pub fn at<'a>(fields: &[&'a str], number: usize) -> Result<&'a str, Wrong> {
    match fields.get(number) {
        Some(field) => Ok(*field),
        None => Err(Wrong::Form),
    }
}

/// What stands behind the `=` of a field that holds a text.
fn held<'a>(fields: &[&'a str], number: usize) -> Result<&'a str, Wrong> {
    match at(fields, number)?.strip_prefix('=') {
        Some(text) => Ok(text),
        None => Err(Wrong::Form),
    }
}

/// The bytes of a field that holds some. It promises nothing beyond safety.
pub fn bytes(alloc: Global, fields: &[&str], number: usize) -> Result<Vec<u8>, Wrong> {
    unescaped(alloc, held(fields, number)?)
}

/// The text of a field that holds one. It promises nothing beyond safety.
pub fn text(alloc: Global, fields: &[&str], number: usize) -> Result<String, Wrong> {
    unescaped_text(alloc, held(fields, number)?)
}

/// Whether a field holds those bytes.
fn holds(alloc: Global, fields: &[&str], number: usize, answer: &[u8]) -> Result<bool, Wrong> {
    Ok(bytes(alloc, fields, number)?.as_slice() == answer)
}

/// Whether a field says that answer: `-` for none, else `=` and the escaped bytes. It promises nothing beyond safety.
pub fn says(
    alloc: Global,
    fields: &[&str],
    number: usize,
    answer: Option<&[u8]>,
) -> Result<bool, Wrong> {
    let is_none = at(fields, number)? == "-";
    match answer {
        None => Ok(is_none),
        Some(_) if is_none => Ok(false),
        Some(answer) => holds(alloc, fields, number, answer),
    }
}

/// Whether a flag says that answer. It promises nothing beyond safety.
pub fn is_flag(fields: &[&str], number: usize, answer: bool) -> Result<bool, Wrong> {
    let flag = if answer { "1" } else { "0" };
    Ok(at(fields, number)? == flag)
}
