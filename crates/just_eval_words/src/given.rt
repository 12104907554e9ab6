//! What each parameter was given.

ghost use Rattle.std.specs.Prelude.{◌≡◌, ◌∷◌, ◌+◌, [], List, IfOk};
ghost use Rattle.just_lang_types.specs.declared.recipe.Parameter.{Parameter};
ghost use Rattle.just_eval_words.specs.Switches.{words_of};
ghost use Rattle.just_eval_words.specs.Tests.{values_for, given_from, given_words};

use super::taken::Taken;
use just_config_words::add_copies;
use just_lang_types::Parameter;
use just_path_text::{NoMemory, Seq, Text};
use just_print::{is_option, is_variadic};
use std::alloc::Global;

/// The values that the option of a number was given.
#[tactic(auto, using(crate::proofs::Values::value_more, crate::proofs::Values::value_less, crate::proofs::Values::values_end))]
fn values_for(
    alloc: Global,
    number: usize,
    options: &[(usize, Text)],
) -> Result<Seq<Text>, NoMemory>
    ensures { IfOk result (λ v. v ≡ values_for number options.now) }
{
    let mut values = Vec::new(alloc);
    'options: for option in options {
        if option.0 == number {
            values.push(option.1.try_clone()?)?;
        }
    }
    Ok(Seq::from(values))
}

/// Copies of words.
fn copies(alloc: Global, words: &[Text]) -> Result<Seq<Text>, NoMemory>
    ensures { IfOk result (λ v. v ≡ words.now) }
{
    let mut copies = Vec::new(alloc);
    add_copies(&mut copies, words)?;
    Ok(Seq::from(copies))
}

/// A word alone.
fn one(alloc: Global, word: &Text) -> Result<Seq<Text>, NoMemory>
    ensures { IfOk result (λ v. v ≡ word.now ∷ []) }
{
    let mut one = Vec::new(alloc);
    one.push(word.try_clone()?)?;
    Ok(Seq::from(one))
}

/// What the parameter of a number is given, and the words that it leaves: an option is given its values, a variadic parameter
/// all words, another one a word.
#[tactic(auto, using(crate::proofs::Shares::option_given, crate::proofs::Shares::all_given, crate::proofs::Shares::one_given, crate::proofs::Shares::none_given))]
fn share<'w>(
    alloc: Global,
    number: usize,
    parameter: &Parameter,
    words: &'w [Text],
    options: &[(usize, Text)],
) -> Result<(Seq<Text>, &'w [Text]), NoMemory>
    ensures { IfOk result
        (λ r. (ps : List Parameter)
        → given_from number (parameter.now ∷ ps) words.now options.now
        ≡ r.0 ∷ given_from (number + 1) ps r.1.now options.now) }
{
    if is_option(parameter) {
        return Ok((values_for(alloc, number, options)?, words));
    }
    if is_variadic(parameter.kind) {
        return Ok((copies(alloc, words)?, &[]));
    }
    match words.split_first() {
        None => Ok((Seq::new(alloc), words)),
        Some((word, rest)) => Ok((one(alloc, word)?, rest)),
    }
}

/// What each parameter was given.
#[tactic(auto, using(crate::proofs::Shares::given_more, crate::proofs::Shares::no_parameter))]
pub(crate) fn given_words(
    alloc: Global,
    parameters: &[Parameter],
    taken: &Taken,
) -> Result<Vec<Seq<Text>>, NoMemory>
    ensures { IfOk result (λ given. given.items ≡ given_words parameters.now (words_of taken.now)) }
{
    let options = taken.options.as_slice();
    let mut left = taken.positional.as_slice();
    let mut given = Vec::new(alloc);
    'parameters: for number in 0..parameters.len() {
        let (words, rest) = share(alloc, number, &parameters[number], left, options)?;
        given.push(words)?;
        left = rest;
    }
    Ok(given)
}
