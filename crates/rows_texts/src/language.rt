//! Compares the answers of the language's crates with rows that an independent reading of it gave. The end of a
//! file's name tells what they are: those of `rules.jsonl` and `shapes.tsv` are told of where they are read. Functions here promise
//! nothing beyond safety: they only call and compare.
//!
//! A row of another file is one JSON object, told by its fields: with `text` and `ok` it is one of `parse`,
//! where `print` is the printed tree and `kind`, `line` and `column` tell a refusal. Beside these stand `unindent` and `gives`; `least`,
//! `greatest` and `gives` of a printed range; and `prefixes`, a text of which each prefix is read or refused at one of its lines.

mod lines;
mod message;
mod module;
mod page;
mod parameter;
mod recipe;
mod rule_rows;
mod settings;
mod shape_rows;
mod sources;
mod text_rows;
mod texts;

use just_lang_types::Source;
use just_lang_types::project::LangError;
use rows_common::{Wrong, at};
use serde_json::{Error, Value};
use std::alloc::Global;

/// Whether a file has rows of the language.
pub(crate) fn is_read(file: &str) -> bool {
    file.ends_with(".jsonl") || file.ends_with("shapes.tsv")
}

/// Whether a row of that file agrees with what the language's crates answer. It promises nothing beyond safety.
pub(crate) fn agrees(alloc: Global, file: &str, fields: &[&str]) -> Result<bool, Wrong> {
    if file.ends_with("shapes.tsv") {
        return shape_rows::agrees(alloc, fields);
    }
    let row = value_of(alloc, at(fields, 0)?)?;
    let agrees = if file.ends_with("rules.jsonl") {
        rule_rows::agrees(alloc, &row)
    } else {
        text_rows::agrees(alloc, &row)
    };
    drop(row);
    agrees
}

/// The sources of a row's `files`, as a row of `rules.jsonl` has them. It promises nothing beyond safety.
pub(crate) fn sources_of(alloc: Global, row: &Value) -> Result<Vec<Source>, Wrong> {
    rule_rows::sources(alloc, row)
}

/// The message of a rule, or of a path that leads nowhere. It promises nothing beyond safety.
pub(crate) fn message_of(alloc: Global, error: &LangError) -> Result<String, Wrong> {
    message::message(alloc, error)
}

/// The value of a row's text. It promises nothing beyond safety.
pub(crate) fn value_of(alloc: Global, row: &str) -> Result<Value, Wrong> {
    match Value::from_str(alloc, row) {
        Ok(value) => Ok(value),
        Err(refused) => Err(if Error::is_memory(&refused) {
            Wrong::NoMemory
        } else {
            Wrong::Form
        }),
    }
}
