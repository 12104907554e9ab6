//! What positional words are: overrides, then a search folder, then arguments.
ghost use Rattle.std.specs.Prelude.{◌≡◌, ◌++◌, ◌∷◌, [], IfOk};
ghost use Rattle.just_config.specs.Positional.{positional_of, is_dots, folder_of, argument_of, folder_in, arguments_in};

use super::cut::cut_last;
use just_config_words::add_copies;
use just_config_words::cut::cut;
use just_path_text::{NoMemory, Seq, Text};
use std::alloc::Global;

/// What positional words are.
pub struct Positional {
    /// The names of variables with their values: words in front that hold `=`, parted at the first one.
    pub overrides: Seq<(Text, Text)>,
    /// The folder in which a justfile is looked for: the first other word where it is `.` or `..`, else what stands up to its last `/`.
    pub search_directory: Option<Text>,
    /// All else.
    pub arguments: Seq<Text>,
}

impl Drop for Positional {
    fn drop(self) {
        let Positional {
            overrides: _,
            search_directory: _,
            arguments: _,
        } = self;
    }
}

/// Adds copies of a name and of its value.
fn add_pair(
    alloc: Global,
    pairs: &mut Vec<(Text, Text)>,
    name: &str,
    value: &str,
) -> Result<(), NoMemory>
    ensures { IfOk result
        (λ u. pairs.new.items ≡ pairs.old.items ++ (name.now, value.now) ∷ []) }
{
    let first = Text::from_str(alloc, name)?;
    let second = Text::from_str(alloc, value)?;
    pairs.push((first, second))?;
    Ok(())
}

/// Whether a word is `.` or `..`.
fn is_dots(word: &str) -> bool
    ensures { result ≡ is_dots word.now }
{
    word == "." || word == ".."
}

/// The search folder that the first word behind the overrides gives.
fn folder_of(alloc: Global, word: &Text) -> Result<Option<Text>, NoMemory>
    ensures { IfOk result (λ r. r ≡ folder_of word.now) }
{
    if is_dots(word.as_str()) {
        return Ok(Some(word.try_clone()?));
    }
    let Some((front, _)) = cut_last(word.as_str(), '/') else {
        return Ok(None);
    };
    let mut folder = String::from_str(alloc, front)?;
    folder.push('/')?;
    Ok(Some(Text::from(folder)))
}

/// The argument that the first word behind the overrides gives, where it gives one.
#[tactic(auto, using(crate::proofs::LastNames::nothing_empty, crate::proofs::LastNames::one_full))]
fn argument_of(alloc: Global, word: &Text) -> Result<Vec<Text>, NoMemory>
    ensures { IfOk result (λ v. v.items ≡ argument_of word.now) }
{
    let mut arguments = Vec::new(alloc);
    if is_dots(word.as_str()) {
        return Ok(arguments);
    }
    let Some((_, name)) = cut_last(word.as_str(), '/') else {
        arguments.push(word.try_clone()?)?;
        return Ok(arguments);
    };
    if name.is_empty() {
        return Ok(arguments);
    }
    arguments.push(Text::from_str(alloc, name)?)?;
    Ok(arguments)
}

impl Positional {
    /// Parts positional words.
    ///
    /// ```
    /// // of `a=1`, `x/y`, `b=2`: the override of `a`, the folder `x/`, the arguments `y` and `b=2`
    /// ```
    #[tactic(auto, using(crate::proofs::ConfigSteps::override_next, crate::proofs::ConfigSteps::behind_next, crate::proofs::ConfigSteps::override_end, crate::proofs::ConfigSteps::behind_end))]
    pub fn from_values(alloc: Global, words: &[Text]) -> Result<Positional, NoMemory>
        ensures { IfOk result (λ p. p ≡ positional_of words.now) }
    {
        let mut overrides = Vec::new(alloc);
        let mut rest = words;
        'words: while let [word, behind @ ..] = rest {
            let Some((name, value)) = cut(word.as_str(), '=') else {
                return Positional::behind(alloc, overrides, word, behind);
            };
            add_pair(alloc, &mut overrides, name, value)?;
            rest = behind;
        }
        Ok(Positional {
            overrides: Seq::from(overrides),
            search_directory: None,
            arguments: Seq::new(alloc),
        })
    }

    /// The arguments alone.
    pub(crate) fn into_arguments(self) -> Seq<Text>
        ensures { result ≡ self.arguments }
    {
        let Positional {
            overrides: _,
            search_directory: _,
            arguments,
        } = self;
        arguments
    }

    /// What words are behind the overrides: the first of them, and the others.
    fn behind(
        alloc: Global,
        overrides: Vec<(Text, Text)>,
        word: &Text,
        others: &[Text],
    ) -> Result<Positional, NoMemory>
        ensures { IfOk result (λ p. p ≡ record { overrides = overrides.items; search_directory = folder_in (word.now ∷ others.now); arguments = arguments_in (word.now ∷ others.now) }) }
    {
        let search_directory = folder_of(alloc, word)?;
        let mut arguments = argument_of(alloc, word)?;
        add_copies(&mut arguments, others)?;
        Ok(Positional {
            overrides: Seq::from(overrides),
            search_directory,
            arguments: Seq::from(arguments),
        })
    }
}
