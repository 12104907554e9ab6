//! Rows of the first broken rules of projects.
//!
//! `files` has a text by its path, of which `/p/justfile` is the root. `loaded` lists the
//! files that are loaded, in their order; a row without it has them all, the root first and the others in the order of their paths.
//! `error` is the message of the first rule that is broken; a row without it breaks none. The environment is empty.

use super::message::message;
use super::sources::push_source;
use just_lang::first_broken;
use just_lang_types::Source;
use just_lang_types::project::LangError;
use just_path_text::{Environ, Seq};
use rows_common::Wrong;
use serde_json::Value;
use std::alloc::Global;

/// The root's file.
const ROOT: &str = "/p/justfile";

/// Adds the source of a file with that text.
fn push_file(
    alloc: Global,
    sources: &mut Vec<Source>,
    path: &str,
    text: Option<&Value>,
) -> Result<(), Wrong> {
    match text {
        Some(Value::String(text)) => push_source(alloc, sources, path, text.as_str()),
        _ => Err(Wrong::Form),
    }
}

/// Adds the sources of the files that a row says are loaded, in their order.
fn push_loaded(
    alloc: Global,
    sources: &mut Vec<Source>,
    files: &Value,
    loaded: &[Value],
) -> Result<(), Wrong> {
    for path in loaded {
        let Some(path) = path.as_str() else {
            return Err(Wrong::Form);
        };
        push_file(alloc, sources, path, files.get(path))?;
    }
    Ok(())
}

/// Adds the source of a row's root, or those of its other files.
fn push_files(
    alloc: Global,
    sources: &mut Vec<Source>,
    files: &Value,
    is_root: bool,
) -> Result<(), Wrong> {
    let Value::Object(files) = files else {
        return Err(Wrong::Form);
    };
    for (path, text) in files {
        if (path.as_str() == ROOT) == is_root {
            push_file(alloc, sources, path.as_str(), Some(text))?;
        }
    }
    Ok(())
}

/// Adds the sources of all files of a row, the root first.
fn push_all(alloc: Global, sources: &mut Vec<Source>, files: &Value) -> Result<(), Wrong> {
    push_files(alloc, sources, files, true)?;
    push_files(alloc, sources, files, false)
}

/// The sources of a row. It promises nothing beyond safety.
pub(crate) fn sources(alloc: Global, row: &Value) -> Result<Vec<Source>, Wrong> {
    let Some(files) = row.get("files") else {
        return Err(Wrong::Form);
    };
    let mut sources = Vec::new(alloc);
    match row.get("loaded") {
        None => push_all(alloc, &mut sources, files)?,
        Some(Value::Array(loaded)) => push_loaded(alloc, &mut sources, files, loaded.as_slice())?,
        Some(_) => return Err(Wrong::Form),
    }
    Ok(sources)
}

/// The message of a rule that is broken. The call of `drop` stands in place of a walk through all variants at the scope's end.
fn message_of(alloc: Global, error: LangError) -> Result<Option<String>, Wrong> {
    let message = message(alloc, &error);
    drop(error);
    Ok(Some(message?))
}

/// The message of the first rule that sources break; none, where they break none.
fn found(alloc: Global, sources: &[Source]) -> Result<Option<String>, Wrong> {
    let environ = Environ {
        pairs: Seq::new(alloc),
    };
    match first_broken(alloc, sources, &environ) {
        Ok(()) => Ok(None),
        Err(error) => message_of(alloc, error),
    }
}

/// Whether a row's message is the one that is found.
fn is_wanted(wanted: Option<&Value>, found: &Option<String>) -> bool {
    match found {
        None => wanted.is_none(),
        Some(found) => match wanted {
            Some(Value::String(text)) => text.as_str() == found.as_str(),
            _ => false,
        },
    }
}

/// Whether a row agrees with the first rule that is broken. No clause: what it answers is seen by comparing with the rows, and no
/// theorem stands on it.
pub(crate) fn agrees(alloc: Global, row: &Value) -> Result<bool, Wrong> {
    let sources = sources(alloc, row)?;
    let found = found(alloc, sources.as_slice())?;
    Ok(is_wanted(row.get("error"), &found))
}
