//! Rows of words.
//!
//! A row is an environment, words and an answer. Pairs of the environment, `NAME=VALUE`, and words have `|` between; `-` stands where there is none.
//! An answer is `help`, `version`, the kind of a fault and its word, or what is set: options, values behind `=` with `,` between, the
//! command and the positional words, each behind `;`. `words.tsv` has each option, form and rule; `lists.tsv` every list of at most three words
//! out of twenty, with the answers of a second reading of the options in another form.

use crate::row::Row;
use crate::words_shown::read_shown;
use just_config_words::read_words;
use rows_common::{Wrong, environment, words};
use std::alloc::{AllocError, Global};

/// Whether a row says what is read of its words. It promises nothing beyond safety.
pub(crate) fn agrees(alloc: Global, fields: &[&str]) -> Result<bool, Wrong> {
    let mut row = Row::new(alloc, fields);
    let environ = environment(alloc, row.field(0))?;
    let texts = words(alloc, row.field(1))?;
    match lent(alloc, texts.as_slice()) {
        Ok(words) => {
            let answer = read_words(alloc, words.as_slice(), &environ);
            row.is_shown(2, read_shown(alloc, answer));
        }
        Err(_) => row.lacks_memory(),
    }
    row.agrees()
}

/// The words, borrowed.
fn lent(alloc: Global, texts: &[String]) -> Result<Vec<&str>, AllocError> {
    let mut words = Vec::new(alloc);
    for text in texts {
        words.push(text.as_str())?;
    }
    Ok(words)
}
