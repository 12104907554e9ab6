//! Rows of words with the configuration that they give.
//!
//! A row is an environment, words without a fault, and the configuration that they give in the folder `/p`, or its refusal. Pairs of the environment,
//! `NAME=VALUE`, and words have `|` between; `-` stands where there is none. A configuration is how the justfile is found, how much is printed,
//! the overrides and the arguments.

use super::config_shown::config_shown;
use super::configured::Configured;
use super::said::is_text;
use rows_common::{Wrong, at, environment};
use std::alloc::Global;

/// Whether a row says the configuration of its words. It promises nothing beyond safety.
pub(crate) fn agrees(alloc: Global, fields: &[&str]) -> Result<bool, Wrong> {
    let answer = answer(alloc, at(fields, 0)?, at(fields, 1)?)?;
    is_text(alloc, fields, 2, answer.as_str())
}

/// What words give over an environment, as a text.
fn answer(alloc: Global, pairs: &str, words: &str) -> Result<String, Wrong> {
    let environ = environment(alloc, pairs)?;
    let configured = Configured::new(alloc, words, &environ, "/p")?;
    config_shown(alloc, &configured.answer)
}
