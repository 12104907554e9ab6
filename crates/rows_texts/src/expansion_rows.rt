//! Rows of texts with names and home folders in them.
//!
//! A row is a text and the answers of five calls: `env_with_context`, the names that it asks for, `full_with_context`
//! with a home folder and without one, and `tilde_with_context`. An error is `!` and its name. Names are parted by `|`,
//! and `-` stands where there is none. The same calls over paths, those without errors, and those over an environment
//! answer the same, each wherever it may.

use crate::context::{are_known, has_refused, home, value, value_or_refused};
use crate::row::Row;
use crate::shown::Shown;
use just_expand::{
    env, env_with_context, env_with_context_no_errors, full, full_with_context,
    full_with_context_no_errors, path, tilde, tilde_with_context,
};
use just_path::Utf8Path;
use just_path_text::Environ;
use rows_common::{Wrong, text};
use std::alloc::Global;

/// Whether a row says what the calls answer, over that environment where they take one. It promises nothing beyond safety.
pub(crate) fn agrees(alloc: Global, environ: &Environ, fields: &[&str]) -> Result<bool, Wrong> {
    let text = text(alloc, fields, 0)?;
    let given = Utf8Path::new(text.as_str());
    let mut row = Row::new(alloc, fields);
    let names = row.field(2);
    compare_asked(&mut row, given.as_str());
    compare_refusing(&mut row, given);
    if !has_refused(names) {
        compare_without_errors(&mut row, given);
    }
    if are_known(names) {
        compare_over(&mut row, given, environ);
    }
    row.agrees()
}

/// Compares what `env_with_context` answers, and the names that it asks for.
fn compare_asked(row: &mut Row<'_>, text: &str) {
    let alloc = row.alloc;
    let mut asked = Shown::new(alloc);
    let answer = env_with_context(alloc, text, |name: &str| {
        let divider = if asked.is_empty() { "=" } else { "|=" };
        asked.add(divider);
        asked.add(name);
        value_or_refused(alloc, name)
    });
    row.is_answer(1, answer);
    if asked.is_empty() {
        asked.add("-");
    }
    row.is_shown(2, asked);
}

/// Compares the further calls with contexts that may refuse.
fn compare_refusing(row: &mut Row<'_>, given: Utf8Path<'_>) {
    let (alloc, text) = (row.alloc, given.as_str());
    let known = |name: &str| value_or_refused(alloc, name);
    let at_home = || home(alloc);
    row.is_answer(3, full_with_context(alloc, text, at_home, known));
    row.is_answer(4, full_with_context(alloc, text, || None, known));
    row.is_path_answer(1, path::env_with_context(alloc, given, known));
    row.is_path_answer(3, path::full_with_context(alloc, given, at_home, known));
}

/// Compares the calls whose contexts never refuse.
fn compare_without_errors(row: &mut Row<'_>, given: Utf8Path<'_>) {
    let (alloc, text) = (row.alloc, given.as_str());
    let known = |name: &str| value(alloc, name);
    let at_home = || home(alloc);
    row.is_text(1, env_with_context_no_errors(alloc, text, known));
    row.is_text(3, full_with_context_no_errors(alloc, text, at_home, known));
    row.is_text(5, tilde_with_context(alloc, text, at_home));
    row.is_path_text(1, path::env_with_context_no_errors(alloc, given, known));
    row.is_path_text(
        3,
        path::full_with_context_no_errors(alloc, given, at_home, known),
    );
    row.is_path_text(5, path::tilde_with_context(alloc, given, at_home));
}

/// Compares the calls over the environment.
fn compare_over(row: &mut Row<'_>, given: Utf8Path<'_>, environ: &Environ) {
    let (alloc, text) = (row.alloc, given.as_str());
    row.is_answer(1, env(alloc, text, environ));
    row.is_answer(3, full(alloc, text, environ));
    row.is_text(5, tilde(alloc, text, environ));
    row.is_path_answer(1, path::env(alloc, given, environ));
    row.is_path_answer(3, path::full(alloc, given, environ));
    row.is_path_text(5, path::tilde(alloc, given, environ));
}
