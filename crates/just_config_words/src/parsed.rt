//! What a word says of options: which ones stand in it, and what stands with them.
ghost use Rattle.std.specs.Prelude.{◌≡◌, ◌∷◌, ◌<◌, ◌≤◌, ◌++◌, [], false, length, min, take, IfOk, MatchOption};
ghost use Rattle.just_config_words.specs.Table.{entry_named, entry_lettered};
ghost use Rattle.just_config_words.specs.Parsed.{is_value, run, taken, parsed_option, attached_values, name_in, assigned_in, attached_to, may_go_on, letters, behind_dash, parsed_options, words_taken};
ghost use Rattle.just_config_words.specs.Letters.{begins_with_letter};

use super::cut::{cut, strip};
use super::table::{entry_lettered, entry_named};
use super::word::Word;
use super::{Entry, Occurrence, Values};
use just_path_text::{NoMemory, Seq, Text};
use std::alloc::Global;

/// What stands in the word of an option behind it.
pub enum Attached {
    /// Nothing.
    Nothing,
    /// A text, directly behind a letter: `-xvalue`.
    Joined(Text),
    /// A text behind `=`.
    Assigned(Text),
}

impl Drop for Attached {
    fn drop(self) {
        match self {
            Attached::Joined(_) | Attached::Assigned(_) => {}
            Attached::Nothing => {}
        }
    }
}

/// A long name or a letter of a word, as the option that it names, with its values.
pub struct ParsedOption {
    /// None where there is no such option.
    pub option: Option<Entry>,
    pub attached: Attached,
    /// The value that is attached, and the words behind that are values too.
    pub values: Seq<Text>,
    /// How many of the words behind are values.
    pub taken: usize,
}

impl Drop for ParsedOption {
    fn drop(self) {
        let ParsedOption {
            option: _,
            attached: _,
            values: _,
            taken: _,
        } = self;
    }
}

impl ParsedOption {
    ghost use Rattle.just_config_words.specs.Faults.{occurrence_in};

    /// Adds the option, which stands in this word.
    pub(crate) fn add_to(self, given: &mut Vec<Occurrence>, word: &Word) -> Result<(), NoMemory>
        ensures { IfOk result
            (λ u. given.new.items ≡ given.old.items ++ occurrence_in word.now self) }
    {
        let ParsedOption {
            option,
            attached: _,
            values,
            taken: _,
        } = self;
        match option {
            Some(option) => {
                let word = word.share()?;
                given.push(Occurrence {
                    option,
                    word,
                    values,
                })?;
                Ok(())
            }
            None => Ok(()),
        }
    }
}

impl Attached {
    ghost use Rattle.just_config_words.specs.Parsed.{is_nothing};

    /// Whether nothing is attached.
    pub(crate) fn is_nothing(&self) -> bool
        ensures { result ≡ is_nothing self.now }
    {
        match self {
            Attached::Nothing => true,
            Attached::Joined(_) | Attached::Assigned(_) => false,
        }
    }

    /// A copy of the value that is attached, in a list of none or one.
    fn values(&self, alloc: Global) -> Result<Vec<Text>, NoMemory>
        ensures { IfOk result (λ v. v.items ≡ attached_values self.now) }
    {
        let mut values = Vec::new(alloc);
        match self {
            Attached::Nothing => {}
            Attached::Joined(text) | Attached::Assigned(text) => values.push(text.try_clone()?)?,
        }
        Ok(values)
    }
}

impl Values {
    ghost use Rattle.just_config_words.specs.Parsed.{takes_any, takes_nothing, least, most};

    /// Whether any word may be a value.
    pub(crate) fn takes_any(self) -> bool
        ensures { result ≡ takes_any self }
    {
        match self {
            Values::Any | Values::Rest => true,
            Values::Nothing | Values::One | Values::Two | Values::Following | Values::AtLeastOne =>
                false,
        }
    }

    /// Whether no word is a value.
    pub(crate) fn takes_nothing(self) -> bool
        ensures { result ≡ takes_nothing self }
    {
        match self {
            Values::Nothing => true,
            Values::One
            | Values::Any
            | Values::Two
            | Values::Following
            | Values::AtLeastOne
            | Values::Rest => false,
        }
    }

    /// How many values there are at least.
    pub(crate) fn least(self) -> usize
        ensures { result ≡ least self }
    {
        match self {
            Values::Nothing | Values::Following => 0,
            Values::One | Values::Any | Values::AtLeastOne | Values::Rest => 1,
            Values::Two => 2,
        }
    }

    /// How many words are values at most, where so many values are attached, and so many words stand behind.
    fn most(self, attached: usize, words: usize) -> usize
        ensures { result ≡ most self attached words }
    {
        match self {
            Values::Nothing => 0,
            Values::One | Values::Any => 1usize.saturating_sub(attached),
            Values::Two => 2usize.saturating_sub(attached),
            Values::Following | Values::AtLeastOne | Values::Rest => words,
        }
    }
}

/// Whether a word may be a value and may be positional: it is `-`, or doesn't begin with `-`.
pub(crate) fn is_value(word: &str) -> bool
    ensures { result ≡ is_value word.now }
{
    !matches!(word.as_bytes(), [b'-', _, ..])
}

/// How many words in front are values, counted to the limit.
fn run_length(any: bool, limit: usize, words: &[Text]) -> usize
    ensures { result ≡ min limit (length (run any words.now)) }
{
    let mut count = 0;
    'words: for word in words {
        if count >= limit || !(any || is_value(word.as_str())) {
            return count;
        }
        count += 1;
    }
    count
}

/// How many of the words in front are values, but not more than the limit.
fn count_values(any: bool, limit: usize, words: &[Text]) -> usize
    ensures within { result ≤ length words.now }
    ensures front { take limit (run any words.now) ≡ take result words.now }
{
    run_length(any, limit, words)
}

/// The option of a long name or a letter, with its values.
fn with_values(
    alloc: Global,
    option: Option<Entry>,
    attached: Attached,
    behind: &[Text],
) -> Result<ParsedOption, NoMemory>
    ensures { IfOk result (λ m. m ≡ parsed_option option attached behind.now) }
{
    let Some(entry) = option else {
        return Ok(ParsedOption {
            option: None,
            attached,
            values: Seq::new(alloc),
            taken: 0,
        });
    };
    let mut values = attached.values(alloc)?;
    let limit = entry.values.most(values.len(), behind.len());
    let taken = count_values(entry.values.takes_any(), limit, behind);
    add_copies(&mut values, &behind[..taken])?;
    Ok(ParsedOption {
        option: Some(entry),
        attached,
        values: Seq::from(values),
        taken,
    })
}

/// Adds copies of texts.
pub fn add_copies(texts: &mut Vec<Text>, more: &[Text]) -> Result<(), NoMemory>
    ensures { IfOk result (λ u. texts.new.items ≡ texts.old.items ++ more.now) }
{
    'more: for text in more {
        texts.push(text.try_clone()?)?;
    }
    Ok(())
}

/// The option of a long name that stands behind `--`, with what stands behind a `=`.
fn long_name(alloc: Global, text: &str, behind: &[Text]) -> Result<ParsedOption, NoMemory>
    ensures { IfOk result (λ m. m ≡ parsed_option (entry_named (name_in text.now)) (assigned_in text.now) behind.now) }
{
    match cut(text, '=') {
        Some((name, value)) => {
            let option = entry_named(alloc, name)?;
            let attached = Attached::Assigned(Text::from_str(alloc, value)?);
            with_values(alloc, option, attached, behind)
        }
        None => {
            let option = entry_named(alloc, text)?;
            with_values(alloc, option, Attached::Nothing, behind)
        }
    }
}

/// The first letter of ASCII, and what follows it.
fn split_letter(text: &str) -> Option<(char, &str)>
    ensures { MatchOption result (begins_with_letter text.now ≡ false) (λ x. (text.now ≡ x.0 ∷ x.1.now) × (x.0 < 128)) }
{
    let first = *text.as_bytes().first()?;
    if !first.is_ascii() {
        return None;
    }
    let letter = char::from(first);
    let behind = strip(text, letter)?;
    Some((letter, behind))
}

/// What stands in the word behind a letter of that option.
fn attached_to(alloc: Global, option: &Option<Entry>, behind: &str) -> Result<Attached, NoMemory>
    ensures { IfOk result (λ a. a ≡ attached_to option.now behind.now) }
{
    let Some(entry) = option else {
        return Ok(Attached::Nothing);
    };
    if let Some(value) = strip(behind, '=') {
        return Ok(Attached::Assigned(Text::from_str(alloc, value)?));
    }
    if behind.is_empty() || entry.values.takes_nothing() {
        return Ok(Attached::Nothing);
    }
    Ok(Attached::Joined(Text::from_str(alloc, behind)?))
}

/// Whether further letters may follow a letter.
fn may_go_on(option: &Option<Entry>, attached: &Attached) -> bool
    ensures { result ≡ may_go_on option.now attached.now }
{
    match option {
        Some(entry) => {
            entry.values.takes_nothing()
                && attached.is_nothing()
                && !(entry.kind.is_help() || entry.kind.is_version())
        }
        None => false,
    }
}

/// Adds the option of a letter, with its values among the words behind; and tells whether further letters may follow.
fn add_letter(
    alloc: Global,
    parsed: &mut Vec<ParsedOption>,
    letter: char,
    follows: &str,
    behind: &[Text],
) -> Result<bool, NoMemory>
    requires { letter < 128 }
    ensures { IfOk result
        (λ goes_on. (goes_on
        ≡ may_go_on (entry_lettered letter) (attached_to (entry_lettered letter) follows.now))
        × (parsed.new.items
        ≡ parsed.old.items
        ++ parsed_option (entry_lettered letter) (attached_to (entry_lettered letter) follows.now) behind.now
        ∷ [])) }
{
    let option = entry_lettered(alloc, letter)?;
    let attached = attached_to(alloc, &option, follows)?;
    let goes_on = may_go_on(&option, &attached);
    parsed.push(with_values(alloc, option, attached, behind)?)?;
    Ok(goes_on)
}

/// The options of the letters of a word.
fn letters(alloc: Global, text: &str, behind: &[Text]) -> Result<Vec<ParsedOption>, NoMemory>
    ensures { IfOk result (λ v. v.items ≡ letters text.now behind.now) }
{
    let mut parsed = Vec::new(alloc);
    let mut rest = text;
    'letters: while let Some((letter, follows)) = split_letter(rest) {
        if !add_letter(alloc, &mut parsed, letter, follows, behind)? {
            return Ok(parsed);
        }
        rest = follows;
    }
    if !rest.is_empty() {
        parsed.push(with_values(alloc, None, Attached::Nothing, behind)?)?;
    }
    Ok(parsed)
}

/// The options that stand in a word, with their values among the words behind it.
pub(crate) fn parsed_options(
    alloc: Global,
    word: &str,
    behind: &[Text],
) -> Result<Vec<ParsedOption>, NoMemory>
    ensures { IfOk result (λ v. v.items ≡ parsed_options word.now behind.now) }
{
    let Some(text) = strip(word, '-') else {
        return Ok(Vec::new(alloc));
    };
    match strip(text, '-') {
        Some(name) => {
            let mut parsed = Vec::new(alloc);
            parsed.push(long_name(alloc, name, behind)?)?;
            Ok(parsed)
        }
        None => letters(alloc, text, behind),
    }
}

/// How many of the words behind are values of these options: those of the last one.
pub(crate) fn words_taken(parsed: &[ParsedOption]) -> usize
    ensures { result ≡ words_taken parsed.now }
{
    match parsed.last() {
        Some(one) => one.taken,
        None => 0,
    }
}
