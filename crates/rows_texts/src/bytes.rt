//! Rows of bytes, some of which are no text.

use crate::row::Row;
use just_path::{FromPathError, Utf8PathBuf};
use rows_common::{Wrong, bytes};
use std::alloc::{AllocError, Global};

/// Whether the row of some bytes says how the crate reads them. It promises nothing beyond safety.
pub(crate) fn agrees(alloc: Global, fields: &[&str]) -> Result<bool, Wrong> {
    let mut row = Row::new(alloc, fields);
    let given = bytes(alloc, fields, 0)?;
    compare_path(&mut row, given);
    let given = bytes(alloc, fields, 0)?;
    compare_box(&mut row, given);
    let given = bytes(alloc, fields, 0)?;
    compare_string(&mut row, given);
    row.agrees()
}

/// Compares a row whose bytes are that text, and nothing is broken.
fn compare_whole(row: &mut Row<'_>, text: &[u8]) {
    row.is_flag(1, true);
    row.says(2, None);
    row.says(3, None);
    row.says(4, Some(text));
}

/// Compares where a row's bytes are broken.
fn compare_place(row: &mut Row<'_>, place: FromPathError) {
    let alloc = row.alloc;
    row.is_flag(1, false);
    row.is_written(2, format!(in alloc; "{}", place.valid_up_to()));
    match place.error_len() {
        Some(len) => row.is_written(3, format!(in alloc; "{len}")),
        None => row.says(3, None),
    }
}

/// Compares an error's text: that beginning and the text that the row has for broken bytes.
fn compare_text(row: &mut Row<'_>, beginning: &str, text: Result<String, AllocError>) {
    match text {
        Ok(text) => match text.as_str().strip_prefix(beginning) {
            Some(rest) => row.says(4, Some(rest.as_bytes())),
            None => row.holds(false),
        },
        Err(_) => row.lacks_memory(),
    }
}

/// Compares a path of bytes.
fn compare_path(row: &mut Row<'_>, given: Vec<u8>) {
    let alloc = row.alloc;
    match Utf8PathBuf::try_from_path_buf(given) {
        Ok(path) => compare_whole(row, path.as_str().as_bytes()),
        Err(error) => {
            let text = format!(in alloc; "{error}");
            compare_text(row, "PathBuf contains invalid UTF-8: ", text);
            compare_place(row, error.from_path_error());
        }
    }
}

/// Compares a boxed path of bytes.
fn compare_box(row: &mut Row<'_>, given: Vec<u8>) {
    let alloc = row.alloc;
    match Utf8PathBuf::try_from_boxed_path(given) {
        Ok(path) => compare_whole(row, path.as_str().as_bytes()),
        Err(error) => {
            let text = format!(in alloc; "{error}");
            compare_text(row, "Box<Path> contains invalid UTF-8: ", text);
            compare_place(row, error.from_path_error());
        }
    }
}

/// Compares a string of the system.
fn compare_string(row: &mut Row<'_>, given: Vec<u8>) {
    let alloc = row.alloc;
    match Utf8PathBuf::try_from_os_string(given) {
        Ok(path) => {
            let back = path.into_os_string();
            compare_whole(row, back.as_slice());
        }
        Err(error) => {
            let text = format!(in alloc; "{error}");
            compare_text(row, "OsString contains invalid UTF-8: ", text);
        }
    }
}
