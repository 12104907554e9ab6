//! Rows of dotenv files.
//!
//! A row is a text, the line of its refusal and its pairs. Pairs are `NAME=VALUE` with `|` between. `-` stands where
//! there is no line or no pair.

use crate::row::Row;
use just_dotenv::{DotenvError, read};
use just_path_text::{Environ, Text};
use rows_common::{Wrong, text, unescaped_text};
use std::alloc::Global;

/// The environment in which the rows are read, as a row's field.
pub(crate) const ENVIRONMENT: &str = "E=ev|M=|P_1=/bin:/x y|Q=it's $E";

/// Whether a row says what is read of its text over that environment. It promises nothing beyond safety.
pub(crate) fn agrees(alloc: Global, environ: &Environ, fields: &[&str]) -> Result<bool, Wrong> {
    let text = text(alloc, fields, 0)?;
    let mut row = Row::new(alloc, fields);
    match read(alloc, text.as_str(), environ) {
        Ok(found) => {
            row.says(1, None);
            compare_pairs(&mut row, found.as_slice());
        }
        Err(DotenvError::Line(number)) => {
            row.is_written(1, format!(in alloc; "{number}"));
            row.says(2, None);
        }
        Err(DotenvError::NoMemory) => row.lacks_memory(),
    }
    row.agrees()
}

/// Compares the pairs of a row with these.
fn compare_pairs(row: &mut Row<'_>, found: &[(Text, Text)]) {
    let alloc = row.alloc;
    let mut found = found.iter();
    let list = row.field(2);
    if list != "-" {
        for item in list.split('|') {
            row.note(is_pair(alloc, item, found.next()));
        }
    }
    row.holds(found.next().is_none());
}

/// Whether an item of a row is that pair.
fn is_pair(alloc: Global, item: &str, pair: Option<&(Text, Text)>) -> Result<bool, Wrong> {
    let Some(pair) = pair else {
        return Ok(false);
    };
    let (name, value) = (pair.0.as_str(), pair.1.as_str());
    let shown = format!(in alloc; "{name}={value}")?;
    let wanted = unescaped_text(alloc, item)?;
    Ok(shown.as_str() == wanted.as_str())
}
