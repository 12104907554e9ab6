//! Rows of the justfiles of projects.
//!
//! A row is the text of the root's file, `/p/justfile`; lines that tell parts of the justfile, with newlines between; and the paths and
//! texts of further files, in turn. Each of the lines must be among those that the program tells of the justfile: `THING.FIELD = VALUE`, where a value
//! that isn't there is `-` and a list has `, ` between its items. The environment has `HOME`, which is `/home/u`.

use super::module::push_module;
use super::page::Page;
use super::sources::push_source;
use just_lang::assemble;
use just_lang_types::project::{Justfile, LangError};
use just_lang_types::{Source, all_modules};
use rows_common::{Wrong, at, environment, unescaped_text};
use std::alloc::Global;

/// Whether the lines of a row are among those that tell its justfile. It promises nothing beyond safety.
pub(crate) fn agrees(alloc: Global, fields: &[&str]) -> Result<bool, Wrong> {
    let wanted = at(fields, 1)?;
    let told = told_of_row(alloc, fields)?;
    let wanted = unescaped_text(alloc, wanted)?;
    Ok(has_all(told.as_str(), wanted.as_str()))
}

/// Adds the source of a file with that text.
fn push_field(
    alloc: Global,
    sources: &mut Vec<Source>,
    path: &str,
    text: &str,
) -> Result<(), Wrong> {
    let text = unescaped_text(alloc, text)?;
    push_source(alloc, sources, path, text.as_str())
}

/// The sources of a row: the root, and at most three others.
fn sources(alloc: Global, fields: &[&str]) -> Result<Vec<Source>, Wrong> {
    let root = at(fields, 0)?;
    let mut sources = Vec::new(alloc);
    push_field(alloc, &mut sources, "/p/justfile", root)?;
    for number in [2, 4, 6] {
        if let (Some(path), Some(text)) = (fields.get(number), fields.get(number + 1)) {
            push_field(alloc, &mut sources, path, text)?;
        }
    }
    Ok(sources)
}

/// Why a row's justfile isn't made.
fn wrong_of(error: &LangError) -> Wrong {
    match error {
        LangError::NoMemory => Wrong::NoMemory,
        _ => Wrong::Form,
    }
}

/// The justfile of sources. The call of `drop` stands in place of a walk through all variants of the error at the scope's end.
fn justfile(alloc: Global, sources: &[Source]) -> Result<Justfile, Wrong> {
    let environ = environment(alloc, "HOME=/home/u")?;
    match assemble(alloc, sources, &environ) {
        Ok(justfile) => Ok(justfile),
        Err(error) => {
            let wrong = wrong_of(&error);
            drop(error);
            Err(wrong)
        }
    }
}

/// The lines that tell a justfile.
fn told(alloc: Global, justfile: &Justfile) -> Result<String, Wrong> {
    let modules = all_modules(alloc, justfile)?;
    let mut page = Page::new(alloc);
    for module in modules.as_slice() {
        push_module(&mut page, module);
    }
    page.finished()
}

/// The lines that tell a row's justfile. The call of `drop` stands in place of a walk through all its fields.
fn told_of_row(alloc: Global, fields: &[&str]) -> Result<String, Wrong> {
    let sources = sources(alloc, fields)?;
    let justfile = justfile(alloc, sources.as_slice())?;
    let told = told(alloc, &justfile);
    drop(justfile);
    told
}

/// Whether a line is among those of a text.
fn has(told: &str, wanted: &str) -> bool {
    for line in told.lines() {
        if line == wanted {
            return true;
        }
    }
    false
}

/// Whether each line of the one text is among those of the other.
fn has_all(told: &str, wanted: &str) -> bool {
    for line in wanted.lines() {
        if !has(told, line) {
            return false;
        }
    }
    true
}
