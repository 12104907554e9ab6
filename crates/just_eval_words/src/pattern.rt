//! Which values match the patterns of a parameter.

ghost use Rattle.std.specs.Prelude.{◌≡◌, ◌++◌, IfOk, OnOk, not, find, string_bytes};
ghost use Rattle.std.specs.List.{list_any};
ghost use Rattle.just_eval_words.specs.Patterns.{whole, matches, matches_built};
ghost use Rattle.just_eval_words.specs.Built.{IsBuilt, AreBuilt};

use just_lang_types::Pattern;
use just_path_text::{NoMemory, Text};
use regex::{Error, Regex};
use std::alloc::Global;

/// A pattern for whole texts.
fn whole(alloc: Global, pattern: &str) -> Result<String, NoMemory>
    ensures { IfOk result (λ s. string_bytes s ≡ whole pattern.now) }
{
    let mut text = String::new(alloc);
    text.push_str("^(?:")?;
    text.push_str(pattern)?;
    text.push_str(")$")?;
    Ok(text)
}

/// A pattern for whole texts, ready to search; none where the text is no pattern. One that is too big wants memory.
#[tactic(auto, using(crate::proofs::Matching::built_is, crate::proofs::Matching::none_is))]
fn built(alloc: Global, pattern: &str) -> Result<Option<Regex>, NoMemory>
    ensures { IfOk result (IsBuilt pattern.now) }
{
    let source = whole(alloc, pattern)?;
    match Regex::new(alloc, source.as_str()) {
        Ok(regex) => Ok(Some(regex)),
        Err(Error::Syntax(_)) => Ok(None),
        Err(Error::CompiledTooBig | Error::Internal | Error::OutOfMemory) => Err(NoMemory),
    }
}

/// Patterns for whole texts, ready to search.
#[tactic(auto, using(crate::proofs::Matching::built_first, crate::proofs::Matching::built_more, crate::proofs::Matching::built_all))]
fn all_built(alloc: Global, patterns: &[Text]) -> Result<Vec<Option<Regex>>, NoMemory>
    ensures { IfOk result (λ all. AreBuilt patterns.now all.items) }
{
    let mut all = Vec::new(alloc);
    'patterns: for pattern in patterns {
        all.push(built(alloc, pattern.as_str())?)?;
    }
    Ok(all)
}

/// Whether a pattern that was built matches a text.
fn matches_built(alloc: Global, regex: &Option<Regex>, text: &str) -> Result<bool, NoMemory>
    ensures { IfOk result (λ b. b ≡ matches_built regex.now text.now) }
{
    let Some(regex) = regex else {
        return Ok(false);
    };
    let mut matcher = regex.matcher(alloc)?;
    let found = matcher.is_match(text);
    drop(matcher);
    Ok(found)
}

/// Whether one of the patterns that were built matches a text.
fn any_built(alloc: Global, all: &[Option<Regex>], text: &str) -> Result<bool, NoMemory>
    ensures { IfOk result (λ b. b ≡ list_any (λ r. matches_built r text.now) all.now) }
{
    'patterns: for regex in all {
        if matches_built(alloc, regex, text)? {
            return Ok(true);
        }
    }
    Ok(false)
}

/// Whether one of the patterns matches a text, where these were built of them.
fn any_matches(
    alloc: Global,
    patterns: &[Text],
    all: &[Option<Regex>],
    text: &str,
) -> Result<bool, NoMemory>
    requires { AreBuilt patterns.now all.now }
    ensures { IfOk result (λ b. b ≡ list_any (λ p. matches p text.now) patterns.now) }
{
    let found = any_built(alloc, all, text)?;
    Ok(found)
}

/// Whether none of the patterns matches a value, where these were built of them.
fn is_mismatch(
    alloc: Global,
    patterns: &[Text],
    all: &[Option<Regex>],
    value: &Text,
) -> Result<bool, NoMemory>
    requires { AreBuilt patterns.now all.now }
    ensures { IfOk result (λ b. b ≡ not (list_any (λ p. matches p value.now) patterns.now)) }
{
    let found = any_matches(alloc, patterns, all, value.as_str())?;
    Ok(!found)
}

/// A copy of the first value that none of the patterns matches.
pub(crate) fn first_mismatch(
    alloc: Global,
    pattern: &Pattern,
    values: &[Text],
) -> Result<Option<Text>, NoMemory>
    ensures { IfOk result (λ o. o ≡ find (λ v. not (list_any (λ p. matches p v) pattern.now.texts)) values.now) }
{
    let patterns = pattern.texts.as_slice();
    let all = all_built(alloc, patterns)?;
    'values: for value in values {
        let wrong = is_mismatch(alloc, patterns, all.as_slice(), value)?;
        if wrong {
            return Ok(Some(value.try_clone()?));
        }
    }
    Ok(None)
}
