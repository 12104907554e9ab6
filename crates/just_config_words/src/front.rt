//! The options in front of the positional words.
ghost use Rattle.std.specs.Prelude.{◌≡◌, ◌++◌, [], ◌∷◌, length, drop, IfOk, Ok, Err, Some, None};
ghost use Rattle.std.specs.List.{list_any};
ghost use Rattle.just_config_words.specs.Parsed.{is_value, ends_options, parsed_options, words_taken};
ghost use Rattle.just_config_words.specs.Faults.{fault_of, occurrences, asks_for_help, asks_for_version};
ghost use Rattle.just_config_words.specs.Front.{AreOptions, AreSplit, IsFaulty, Asks, has_options, positional_in};
ghost use Rattle.just_config_words.specs.Steps.{IsStep, IsNextWord, IsFront};

use super::fault::{Test, fault_of, has};
use super::parsed::{is_value, parsed_options, words_taken};
use super::word::Word;
use super::{Occurrence, ParsedOption, UsageKind};
use just_path_text::{NoMemory, Text};
use std::alloc::Global;

/// What a word with options comes to.
#[derive(Drop)]
pub(crate) enum Step {
    /// Its options are added; so many of the words behind it are their values.
    Taken(usize),
    /// It has a fault.
    Fault(UsageKind),
    /// It asks for the help.
    Help,
    /// It asks for the version.
    Version,
}

/// What stands next among words.
#[derive(Drop)]
pub(crate) enum Next<'a> {
    /// No more options, and these positional words.
    Positional(&'a [Text]),
    /// A word with options, and the words behind it.
    Word(&'a Text, &'a [Text]),
}

/// What the words come to, up to the first positional one.
#[derive(Drop)]
pub(crate) enum Front<'a> {
    /// The options, and the positional words behind them.
    Split(Vec<Occurrence>, &'a [Text]),
    /// The fault of a word.
    Fault(UsageKind, &'a Text),
    /// The help is asked for.
    Help,
    /// The version is asked for.
    Version,
}

/// Adds the options of a word.
#[tactic(auto, using(crate::proofs::Added::occurrences_more))]
fn add_occurrences(
    given: &mut Vec<Occurrence>,
    word: &Word,
    parsed: Vec<ParsedOption>,
) -> Result<(), NoMemory>
    ensures { IfOk result (λ u. given.new.items ≡ given.old.items ++ occurrences word.now parsed.items) }
{
    'parsed: for one in parsed {
        one.add_to(given, word)?;
    }
    Ok(())
}

/// Reads a word with options.
fn read_word(
    alloc: Global,
    given: &mut Vec<Occurrence>,
    word: &Text,
    behind: &[Text],
) -> Result<Step, NoMemory>
    ensures { IfOk result (λ step. IsStep given.old.items word.now behind.now given.new.items step) }
{
    let parsed = parsed_options(alloc, word.as_str(), behind)?;
    if let Some(kind) = fault_of(given.as_slice(), parsed.as_slice()) {
        return Ok(Step::Fault(kind));
    }
    if has(Test::Help, parsed.as_slice()) {
        return Ok(Step::Help);
    }
    if has(Test::Version, parsed.as_slice()) {
        return Ok(Step::Version);
    }
    let taken = words_taken(parsed.as_slice());
    let shared = Word::new(alloc, word.as_str())?;
    add_occurrences(given, &shared, parsed)?;
    Ok(Step::Taken(taken))
}

/// The words behind the first so many.
fn skip(words: &[Text], count: usize) -> &[Text]
    ensures { result.now ≡ drop count words.now }
{
    if count <= words.len() {
        &words[count..]
    } else {
        &[]
    }
}

/// Where the options end, or else the next word with options and the words behind it.
fn next_word(words: &[Text]) -> Next<'_>
    ensures { IsNextWord words.now result }
{
    match words.split_first() {
        None => Next::Positional(words),
        Some((word, behind)) => {
            if is_value(word.as_str()) {
                Next::Positional(words)
            } else if word.as_str() == "--" {
                Next::Positional(behind)
            } else {
                Next::Word(word, behind)
            }
        }
    }
}

/// Reads the words up to the first positional one.
pub(crate) fn read_front<'a>(alloc: Global, words: &'a [Text]) -> Result<Front<'a>, NoMemory>
    ensures { IfOk result (λ front. IsFront words.now front) }
{
    let mut given = Vec::new(alloc);
    let mut rest = words;
    'words: loop {
        match next_word(rest) {
            Next::Positional(positional) => return Ok(Front::Split(given, positional)),
            Next::Word(word, behind) => match read_word(alloc, &mut given, word, behind)? {
                Step::Taken(count) => rest = skip(behind, count),
                Step::Fault(kind) => return Ok(Front::Fault(kind, word)),
                Step::Help => return Ok(Front::Help),
                Step::Version => return Ok(Front::Version),
            },
        }
    }
}
