//! Rows of what a request is made of: the configuration of words, where a justfile is, the justfile in a markdown text,
//! scripts and keys. The end of a file's name tells what its rows are.

mod config_rows;
mod config_shown;
mod configured;
mod found;
mod key;
mod key_rows;
mod location_rows;
mod page;
mod said;
mod script_rows;
mod shebang_rows;
mod tangled_rows;
mod world;

use rows_common::{Compare, Wrong};
use std::alloc::Global;

/// The rows.
#[derive(Drop)]
pub(crate) struct RequestRows;

impl Compare for RequestRows {
    fn agrees(&self, alloc: Global, file: &str, fields: &[&str]) -> Result<bool, Wrong> {
        if file.ends_with("config.tsv") {
            config_rows::agrees(alloc, fields)
        } else if file.ends_with("shebangs.tsv") {
            shebang_rows::agrees(alloc, fields)
        } else if file.ends_with("scripts.tsv") {
            script_rows::agrees(alloc, fields)
        } else if file.ends_with("keys.tsv") {
            key_rows::agrees(alloc, fields)
        } else if file.ends_with("located.tsv") {
            location_rows::agrees(alloc, fields)
        } else if file.ends_with("tangled.tsv") {
            tangled_rows::agrees(alloc, fields)
        } else {
            Err(Wrong::Form)
        }
    }
}
