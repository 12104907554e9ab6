//! The files of rows.

use just_lang_types::Source;
use just_path::Utf8Path;
use just_path_text::Text;
use rows_common::Wrong;
use std::alloc::Global;

/// Adds the source of a file with that text. It promises nothing beyond safety.
pub(crate) fn push_source(
    alloc: Global,
    sources: &mut Vec<Source>,
    path: &str,
    text: &str,
) -> Result<(), Wrong> {
    let path = Utf8Path::new(path);
    let source = Source {
        path: path.to_path_buf(alloc)?,
        root: path.parent().unwrap_or(path).to_path_buf(alloc)?,
        text: Text::from_str(alloc, text)?,
    };
    Ok(sources.push(source)?)
}
