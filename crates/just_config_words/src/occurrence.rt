//! Options as they stand in the words, or are filled in from variables.
ghost use Rattle.std.specs.Prelude.{◌≡◌, ◌++◌, ◌∷◌, [], min, IfOk, MatchOption, Some, None};
ghost use Rattle.std.specs.Option.{option_copied};
ghost use Rattle.just_config_words.specs.Occurrences.{is_of, is_given, times, value_in, values_in, behind};

use super::Entry;
use super::parsed::add_copies;
use super::word::Word;
use just_path_text::{NoMemory, Seq, Text};
use std::alloc::Global;

/// An option that is given: by a word, with its values; or by a variable.
pub struct Occurrence {
    pub option: Entry,
    /// The word that it stands in, or the name of the variable that gives it.
    pub word: Word,
    pub values: Seq<Text>,
}

impl Drop for Occurrence {
    fn drop(self) {
        let Occurrence {
            option: _,
            word: _,
            values: _,
        } = self;
    }
}

impl Occurrence {
    /// Whether it is of the option of that name.
    pub(crate) fn is_of(&self, name: &str) -> bool
        ensures { result ≡ is_of name.now self.now }
    {
        self.option.name.as_str() == name
    }
}

/// Whether the option is given.
pub(crate) fn is_given(name: &str, occurrences: &[Occurrence]) -> bool
    ensures { result ≡ is_given name.now occurrences.now }
{
    'occurrences: for occurrence in occurrences {
        if occurrence.is_of(name) {
            return true;
        }
    }
    false
}

/// How often the option is given, counted to 255.
pub(crate) fn times(name: &str, occurrences: &[Occurrence]) -> u8
    ensures { result ≡ min 255 (times name.now occurrences.now) }
{
    let mut count: u8 = 0;
    'occurrences: for occurrence in occurrences {
        if occurrence.is_of(name) {
            count = count.saturating_add(1);
        }
    }
    count
}

/// The first value of the option's first occurrence.
pub(crate) fn value_in<'a>(name: &str, occurrences: &'a [Occurrence]) -> Option<&'a str>
    ensures { option_copied result ≡ value_in name.now occurrences.now }
{
    'occurrences: for occurrence in occurrences {
        if occurrence.is_of(name) {
            return match occurrence.values.as_slice() {
                [first, ..] => Some(first.as_str()),
                [] => None,
            };
        }
    }
    None
}

/// The values of all occurrences of the option.
pub(crate) fn values_in(
    alloc: Global,
    name: &str,
    occurrences: &[Occurrence],
) -> Result<Seq<Text>, NoMemory>
    ensures { IfOk result (λ v. v ≡ values_in name.now occurrences.now) }
{
    let mut values = Vec::new(alloc);
    'occurrences: for occurrence in occurrences {
        if occurrence.is_of(name) {
            add_copies(&mut values, occurrence.values.as_slice())?;
        }
    }
    Ok(Seq::from(values))
}

/// What stands behind the option's first occurrence; all where there is none.
pub(crate) fn behind<'a>(name: &str, occurrences: &'a [Occurrence]) -> &'a [Occurrence]
    ensures { result.now ≡ behind name.now occurrences.now }
{
    let mut rest = occurrences;
    'rest: while let [occurrence, follows @ ..] = rest {
        if occurrence.is_of(name) {
            return follows;
        }
        rest = follows;
    }
    occurrences
}
