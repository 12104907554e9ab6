//! Rows of paths in JSON.

use crate::row::Row;
use just_path::{Utf8Path, Utf8PathBuf};
use rows_common::{Wrong, text};
use std::alloc::Global;

/// Whether the row of a JSON text says which path it is, which has that text again. It promises nothing beyond safety.
pub(crate) fn agrees(alloc: Global, fields: &[&str]) -> Result<bool, Wrong> {
    let json = text(alloc, fields, 0)?;
    let mut row = Row::new(alloc, fields);
    row.is_flag(2, is_lent(alloc, json.as_str()));
    let read: Result<Utf8PathBuf, serde_json::Error> = serde_json::from_str(alloc, json.as_str());
    match read {
        Ok(path) => compare_path(&mut row, &path, json.as_str()),
        Err(_) => row.says(1, None),
    }
    row.agrees()
}

/// Compares the path that a JSON text is, and its own JSON texts with that text.
fn compare_path(row: &mut Row<'_>, path: &Utf8PathBuf, json: &str) {
    let alloc = row.alloc;
    row.says(1, Some(path.as_str().as_bytes()));
    row.holds(is_text(serde_json::to_string(alloc, path), json));
    row.holds(is_text(serde_json::to_string(alloc, &path.as_path()), json));
}

/// Whether a JSON text was written, and is that one.
fn is_text(written: Result<String, serde_json::Error>, json: &str) -> bool {
    match written {
        Ok(text) => text.as_str() == json,
        Err(_) => false,
    }
}

/// Whether a path can be lent by a JSON text.
fn is_lent(alloc: Global, json: &str) -> bool {
    let lent: Result<Utf8Path<'_>, serde_json::Error> = serde_json::from_str(alloc, json);
    lent.is_ok()
}
