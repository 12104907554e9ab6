//! Fields that are lists of words, and of the pairs of an environment.

use super::{Wrong, unescaped_text};
use just_path_text::{Environ, Seq, Text};
use std::alloc::Global;

/// The words of a field, with `|` between; `-` is none. It promises nothing beyond safety.
pub fn words(alloc: Global, field: &str) -> Result<Vec<String>, Wrong> {
    let mut words = Vec::new(alloc);
    if field != "-" {
        for word in field.split('|') {
            words.push(unescaped_text(alloc, word)?)?;
        }
    }
    Ok(words)
}

/// The pair of a word `NAME=VALUE`.
fn pair(alloc: Global, word: &str) -> Result<(Text, Text), Wrong> {
    match word.split_once('=') {
        Some((name, value)) => {
            let name = Text::from_str(alloc, name)?;
            Ok((name, Text::from_str(alloc, value)?))
        }
        None => Err(Wrong::Form),
    }
}

/// Adds the pair of a word.
fn push_pair(alloc: Global, pairs: &mut Vec<(Text, Text)>, word: &str) -> Result<(), Wrong> {
    Ok(pairs.push(pair(alloc, word)?)?)
}

/// The environment of a field, whose words are `NAME=VALUE`. It promises nothing beyond safety.
pub fn environment(alloc: Global, field: &str) -> Result<Environ, Wrong> {
    let mut pairs = Vec::new(alloc);
    for word in words(alloc, field)?.as_slice() {
        push_pair(alloc, &mut pairs, word.as_str())?;
    }
    Ok(Environ {
        pairs: Seq::from(pairs),
    })
}
