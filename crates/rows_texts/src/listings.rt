//! Compares the answers of the printers with rows of printed texts.
//!
//! A row is one JSON object, and `gives` is the text that is printed: one with `call` is one of `calls`, and one with `files` is what a
//! command prints of the project of these files, which `commands` and `tree_rows` tell of. A field that a row doesn't have is false, has no
//! text, or has none of its texts.

mod calls;
mod commands;
mod project;
mod row_fields;
mod tree_rows;

use crate::language::value_of;
use row_fields::text_of;
use rows_common::{Wrong, at};
use serde_json::Value;
use std::alloc::Global;

/// Whether a file has rows of printed texts.
pub(crate) fn is_read(file: &str) -> bool {
    file.ends_with("printed.jsonl")
}

/// Whether a row says what is printed.
fn agrees_with(alloc: Global, row: &Value) -> Result<bool, Wrong> {
    let printed = if row.get("call").is_some() {
        calls::printed(alloc, row)?
    } else {
        commands::printed(alloc, row)?
    };
    let wanted = text_of(row, "gives")?;
    Ok(printed.as_str() == wanted)
}

/// Whether a row agrees with what the printers answer. It promises nothing beyond safety. The call of `drop` stands in place of a walk
/// through the whole value at the scope's end.
pub(crate) fn agrees(alloc: Global, fields: &[&str]) -> Result<bool, Wrong> {
    let row = value_of(alloc, at(fields, 0)?)?;
    let agrees = agrees_with(alloc, &row);
    drop(row);
    agrees
}
