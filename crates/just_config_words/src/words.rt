//! What the words of the command line mean.
ghost use Rattle.std.specs.Prelude.{◌≡◌, ℕ, List, map, IfOk, IfErr, Ok, Err};
ghost use Rattle.just_config_words.specs.Front.{AreSplit};
ghost use Rattle.just_config_words.specs.Words.{Means, IsUsage, MeaningsAgree};
ghost use Rattle.just_config_words.specs.Steps.{IsFront, IsJudged, IsOutcome};

use super::cut::add_text;
use super::front::{Front, read_front};
use super::parsed::add_copies;
use super::rule::{conflict, missing};
use super::variable::fill;
use super::{Arguments, Occurrence, Usage, UsageKind};
use just_path_text::{Environ, NoMemory, Seq, Text};
use std::alloc::Global;

/// What the words of the command line ask for.
#[derive(Drop)]
pub enum Read {
    /// A run, or a command in its place.
    Go(Arguments),
    /// The help.
    Help,
    /// The version.
    Version,
}

/// Copies of words.
fn texts(alloc: Global, words: &[&str]) -> Result<Vec<Text>, NoMemory>
    ensures { IfOk result (λ v. v.items ≡ map (λ w. w.now) words.now) }
{
    let mut texts = Vec::new(alloc);
    'words: for word in words {
        add_text(alloc, &mut texts, word)?;
    }
    Ok(texts)
}

/// What is wrong at a word.
fn fault(alloc: Global, kind: UsageKind, word: &str) -> Result<Usage, NoMemory>
    ensures { IfOk result (λ u. u ≡ record { kind = kind; word = word.now }) }
{
    Ok(Usage {
        kind,
        word: Text::from_str(alloc, word)?,
    })
}

/// What options mean, with what variables fill in and the positional words.
fn judged(
    alloc: Global,
    given: &[Occurrence],
    filled: &[Occurrence],
    positional: &[Text],
) -> Result<Result<Read, Usage>, NoMemory>
    ensures { IfOk result (IsJudged given.now filled.now positional.now) }
{
    if let Some(word) = conflict(given, positional) {
        return Ok(Err(fault(alloc, UsageKind::Conflict, word.as_str())?));
    }
    if let Some(word) = missing(given, filled) {
        return Ok(Err(fault(alloc, UsageKind::Requires, word.as_str())?));
    }
    let mut words = Vec::new(alloc);
    add_copies(&mut words, positional)?;
    let arguments = Arguments::new(alloc, filled, Seq::from(words))?;
    Ok(Ok(Read::Go(arguments)))
}

/// What options mean where the text of this variable isn't in its form, or of none.
fn outcome(
    alloc: Global,
    ill: Option<&str>,
    given: &[Occurrence],
    filled: &[Occurrence],
    positional: &[Text],
) -> Result<Result<Read, Usage>, NoMemory>
    ensures { IfOk result (IsOutcome ill.entry given.now filled.now positional.now) }
{
    match ill {
        Some(variable) => Ok(Err(fault(alloc, UsageKind::BadValue, variable)?)),
        None => judged(alloc, given, filled, positional),
    }
}

/// What options and positional words mean in an environment.
fn meaning(
    alloc: Global,
    environ: &Environ,
    given: Vec<Occurrence>,
    positional: &[Text],
) -> Result<Result<Read, Usage>, NoMemory>
    ensures { IfOk result (λ r. (words : List (List ℕ)) → AreSplit words given.items positional.now → Means words environ.now.pairs r) }
{
    let count = given.len();
    let mut filled = given;
    let ill = fill(alloc, environ, &mut filled)?;
    let all = filled.as_slice();
    let meaning = outcome(alloc, ill, &all[..count], all, positional)?;
    Ok(meaning)
}

/// What the words mean that come to this.
fn meaning_of(
    alloc: Global,
    environ: &Environ,
    front: Front<'_>,
) -> Result<Result<Read, Usage>, NoMemory>
    ensures { IfOk result (λ r. (words : List (List ℕ)) → IsFront words front.entry → Means words environ.now.pairs r) }
{
    match front {
        Front::Split(given, positional) => meaning(alloc, environ, given, positional),
        Front::Fault(kind, word) => {
            let usage = fault(alloc, kind, word.as_str())?;
            Ok(Err(usage))
        }
        Front::Help => Ok(Ok(Read::Help)),
        Front::Version => Ok(Ok(Read::Version)),
    }
}

/// What the words mean.
fn answer(alloc: Global, words: &[&str], environ: &Environ) -> Result<Result<Read, Usage>, NoMemory>
    ensures { IfOk result (Means (map (λ w. w.now) words.now) environ.now.pairs) }
{
    let texts = texts(alloc, words)?;
    let front = read_front(alloc, texts.as_slice())?;
    let answer = meaning_of(alloc, environ, front)?;
    Ok(answer)
}

/// Reads the words behind the program's name.
///
/// Options stand before the first positional word, or before `--`, each with its values; what they leave out is filled in by variables of the
/// environment. The first fault is refused: of a single word, in the order of the words and, at one word, of the kinds; of a variable, in the
/// order of the table; of options that don't go together; of an option without one that it needs. `--help` and `--version` are answered where
/// they stand in front of any fault of a word.
///
/// ```
/// // of `-n --set a 1 build x`
/// assert!(matches!(read_words(alloc, &words, &environ), Ok(Read::Go(arguments)) if arguments.dry_run));
/// ```
pub fn read_words(alloc: Global, words: &[&str], environ: &Environ) -> Result<Read, Usage>
    ensures read { IfOk result (λ r. Means (map (λ w. w.now) words.now) environ.now.pairs (Ok r)) }
    ensures refused { IfErr result (IsUsage (map (λ w. w.now) words.now) environ.now.pairs) }
{
    match answer(alloc, words, environ) {
        Ok(answer) => answer,
        Err(NoMemory) => Err(Usage {
            kind: UsageKind::NoMemory,
            word: Text::from(String::new(alloc)),
        }),
    }
}

/// The words mean one thing in an environment: of two meanings both are the same fault, or both ask for the same, by the same options. So a
/// fault is answered exactly where the words mean it. It does nothing; its contract is a law.
pub fn meanings_agree()
    ensures { MeaningsAgree }
{}
