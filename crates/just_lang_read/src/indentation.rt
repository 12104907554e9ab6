//! Texts without the indentation that their lines share.
ghost use Rattle.std.specs.Prelude.{◌≡◌, ◌<◌, ◌≤◌, ◌&&◌, not, [], ◌∷◌, ◌++◌, Some, None, length, drop, IfOk, MatchOption, chars, encode_utf8_all, string_bytes, true, false};
ghost use Rattle.std.specs.Option.{option_copied};
ghost use Rattle.just_lang_read.specs.Place.{run};
ghost use Rattle.just_lang_read.specs.Characters.{is_blank};
ghost use Rattle.just_lang_read.specs.Indentation.{lines_of, is_blank_text, common, shared, shared_with, line_gives, has_more, first_length, given, unindented};

use std::alloc::{AllocError, Global};

/// The text of characters.
pub fn string_of(alloc: Global, characters: &[char]) -> Result<String, AllocError>
    ensures { IfOk result (λ t. string_bytes t ≡ encode_utf8_all characters.now) }
{
    let mut text = String::new(alloc);
    'characters: for c in characters {
        text.push(*c)?;
    }
    Ok(text)
}

/// The characters of a text.
pub fn characters_of(alloc: Global, text: &str) -> Result<Vec<char>, AllocError>
    ensures { IfOk result (λ v. v.items ≡ chars text.now) }
{
    let mut characters = Vec::with_capacity(alloc, text.len())?;
    'characters: for character in text.chars() {
        characters.push(character)?;
    }
    Ok(characters)
}

/// The characters of a text without the indentation of its lines.
pub fn unindented(alloc: Global, text: &str) -> Result<Vec<char>, AllocError>
    ensures { IfOk result (λ v. v.items ≡ unindented (chars text.now)) }
{
    let characters = characters_of(alloc, text)?;
    let count = match shared(characters.as_slice()) {
        Some(blanks) => blanks.len(),
        None => 0,
    };
    given(alloc, characters.as_slice(), count)
}

/// What the lines of a text give without so many characters in front.
fn given(alloc: Global, text: &[char], count: usize) -> Result<Vec<char>, AllocError>
    ensures { IfOk result (λ v. v.items ≡ given count true (lines_of text.now)) }
{
    let mut found = Vec::new(alloc);
    let mut rest = text;
    let mut is_first = true;
    'lines: while let Some((line, behind)) = split_line(rest) {
        add_line(&mut found, line, count, is_inner(is_first, behind))?;
        rest = behind;
        is_first = false;
    }
    Ok(found)
}

/// Whether a line is neither the first nor the last.
#[tactic(auto, using(crate::proofs::SharedBlanks::inner_some, crate::proofs::SharedBlanks::inner_none))]
fn is_inner(is_first: bool, behind: &[char]) -> bool
    ensures { result ≡ (not is_first && has_more (lines_of behind.now)) }
{
    if behind.is_empty() {
        return false;
    }
    !is_first
}

/// Adds what a line gives.
fn add_line(
    found: &mut Vec<char>,
    line: &[char],
    count: usize,
    inner: bool,
) -> Result<(), AllocError>
    ensures { IfOk result (λ u. found.new.items ≡ found.old.items ++ line_gives count inner line.now) }
{
    if !is_blank(line) {
        return push_all(found, behind_blanks(line, count));
    }
    if inner {
        found.push('\n')?;
    }
    Ok(())
}

/// What is left of a line behind so many characters.
fn behind_blanks(line: &[char], count: usize) -> &[char]
    ensures { result.now ≡ drop count line.now }
{
    if count <= line.len() {
        &line[count..]
    } else {
        &[]
    }
}

fn push_all(found: &mut Vec<char>, characters: &[char]) -> Result<(), AllocError>
    ensures { IfOk result (λ u. found.new.items ≡ found.old.items ++ characters.now) }
{
    'characters: for c in characters {
        found.push(*c)?;
    }
    Ok(())
}

/// The first line with its line feed, and what follows it.
#[tactic(auto, using(crate::proofs::SharedBlanks::lines_cut, crate::proofs::SharedBlanks::first_some))]
fn split_line(text: &[char]) -> Option<(&[char], &[char])>
    ensures { MatchOption result (text.now ≡ []) (λ s. (length s.1.now < length text.now) × (lines_of text.now ≡ s.0.now ∷ lines_of s.1.now)) }
{
    if text.is_empty() {
        return None;
    }
    let count = line_length(text);
    Some((&text[..count], &text[count..]))
}

/// How many characters the first line has, its line feed too.
#[tactic(auto, using(crate::proofs::SharedBlanks::length_feed, crate::proofs::SharedBlanks::length_more, crate::proofs::SharedBlanks::length_end, crate::proofs::SharedBlanks::first_le))]
fn line_length(text: &[char]) -> usize
    ensures exact { result ≡ first_length text.now }
    ensures within { result ≤ length text.now }
{
    'letters: for at in 0..text.len() {
        if text[at] == '\n' {
            return at + 1;
        }
    }
    text.len()
}

/// Whether a line holds nothing but blanks, carriage returns and line feeds.
fn is_blank(line: &[char]) -> bool
    ensures { result ≡ is_blank_text line.now }
{
    line.iter().all(|c| matches!(*c, ' ' | '\t' | '\r' | '\n'))
}

/// The longest front of blanks that all lines share which aren't blank.
fn shared(text: &[char]) -> Option<&[char]>
    ensures { option_copied result ≡ shared (lines_of text.now) }
{
    let mut shared: Option<&[char]> = None;
    let mut rest = text;
    'lines: while let Some((line, behind)) = split_line(rest) {
        shared = shared_with(shared, line);
        rest = behind;
    }
    shared
}

/// What a line shares with those before it.
fn shared_with<'a>(before: Option<&'a [char]>, line: &'a [char]) -> Option<&'a [char]>
    ensures { option_copied result ≡ shared_with (option_copied before.entry) line.entry.now }
{
    if is_blank(line) {
        return before;
    }
    let blanks = front_blanks(line);
    match before {
        None => Some(blanks),
        Some(shared) => Some(front_common(shared, blanks)),
    }
}

/// The blanks that a line begins with.
#[tactic(auto, using(crate::proofs::SharedBlanks::take_run))]
fn front_blanks(line: &[char]) -> &[char]
    ensures { result.now ≡ run is_blank line.now }
{
    &line[..count_blanks(line)]
}

/// How many these are.
#[tactic(auto, using(crate::proofs::SharedBlanks::run_more, crate::proofs::SharedBlanks::run_stop, crate::proofs::SharedBlanks::run_end, crate::proofs::SharedBlanks::run_le))]
fn count_blanks(line: &[char]) -> usize
    ensures exact { result ≡ length (run is_blank line.now) }
    ensures within { result ≤ length line.now }
{
    'letters: for at in 0..line.len() {
        if !matches!(line[at], ' ' | '\t') {
            return at;
        }
    }
    line.len()
}

/// The front that two texts share.
#[tactic(auto, using(crate::proofs::SharedBlanks::take_common))]
fn front_common<'a>(one: &'a [char], other: &[char]) -> &'a [char]
    ensures { result.now ≡ common one.now other.now }
{
    &one[..count_common(one, other)]
}

/// How long it is.
#[tactic(auto, using(crate::proofs::SharedBlanks::common_more, crate::proofs::SharedBlanks::common_short, crate::proofs::SharedBlanks::common_stop, crate::proofs::SharedBlanks::common_end, crate::proofs::SharedBlanks::common_le))]
fn count_common(one: &[char], other: &[char]) -> usize
    ensures exact { result ≡ length (common one.now other.now) }
    ensures within { result ≤ length one.now }
{
    'letters: for at in 0..one.len() {
        if at >= other.len() {
            return at;
        }
        if one[at] != other[at] {
            return at;
        }
    }
    one.len()
}
