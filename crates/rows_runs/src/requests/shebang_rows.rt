//! Rows of first lines.
//!
//! A row is a line, the interpreter that it names, its argument, the interpreter's file name, and whether lines that begin with
//! `#!` are kept: a text behind `=`, `-` for none, `1` or `0`.

use super::said::{all_say, plain_text};
use just_exec_work::Shebang;
use rows_common::{Wrong, is_flag, says};
use std::alloc::Global;

/// Whether a row says what a line names. It promises nothing beyond safety.
pub(crate) fn agrees(alloc: Global, fields: &[&str]) -> Result<bool, Wrong> {
    let line = plain_text(alloc, fields, 0)?;
    match Shebang::new(line.as_str()) {
        Some(shebang) => named(alloc, fields, shebang),
        None => says(alloc, fields, 1, None),
    }
}

/// Whether a row says that its line names that.
fn named(alloc: Global, fields: &[&str], shebang: Shebang<'_>) -> Result<bool, Wrong> {
    let answers = [
        Some(shebang.interpreter),
        shebang.argument,
        Some(shebang.interpreter_filename()),
    ];
    if all_say(alloc, fields, 1, &answers)? {
        is_flag(fields, 4, shebang.include_shebang_line())
    } else {
        Ok(false)
    }
}
