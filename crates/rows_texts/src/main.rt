//! Compares the answers of the libraries of texts, `just_path`, `just_expand`, `just_dotenv` and `just_config_words`, of the language
//! (`language`) and of the printers (`listings`) with rows of files: each argument names a file of such rows, and the end of the file's name
//! tells what kind they are.
#![tactic(auto)]

mod answer;
mod bytes;
mod context;
mod dotenv_rows;
mod expansion_rows;
mod json;
mod language;
mod listings;
mod pairs;
mod paths;
mod row;
mod shown;
mod word_rows;
mod words_shown;

use just_path_text::Environ;
use rows_common::{Compare, Wrong, compare_files, environment};
use std::alloc::Global;
use std::io;
use std::process::ExitCode;

/// The rows, and the environments of those calls that take one.
#[derive(Drop)]
struct TextRows {
    expansions: Environ,
    dotenv: Environ,
}

impl Compare for TextRows {
    fn agrees(&self, alloc: Global, file: &str, fields: &[&str]) -> Result<bool, Wrong> {
        if file.ends_with("paths.tsv") {
            paths::agrees(alloc, fields)
        } else if file.ends_with("pairs.tsv") {
            pairs::agrees(alloc, fields)
        } else if file.ends_with("utf8.tsv") {
            bytes::agrees(alloc, fields)
        } else if file.ends_with("json.tsv") {
            json::agrees(alloc, fields)
        } else if file.ends_with("expand.tsv") {
            expansion_rows::agrees(alloc, &self.expansions, fields)
        } else if file.ends_with("dotenv.tsv") {
            dotenv_rows::agrees(alloc, &self.dotenv, fields)
        } else if listings::is_read(file) {
            listings::agrees(alloc, fields)
        } else if language::is_read(file) {
            language::agrees(alloc, file, fields)
        } else {
            word_rows::agrees(alloc, fields)
        }
    }
}

/// The rows, with their environments.
fn rows(alloc: Global) -> Result<TextRows, Wrong> {
    let expansions = environment(alloc, context::ENVIRONMENT)?;
    let dotenv = environment(alloc, dotenv_rows::ENVIRONMENT)?;
    Ok(TextRows { expansions, dotenv })
}

fn main(rt: HostRuntime) -> io::Result<ExitCode> {
    match rows(rt.alloc()) {
        Ok(rows) => compare_files(&rt, &rows),
        Err(_) => Err(io::Error::from(io::ErrorKind::OutOfMemory)),
    }
}
