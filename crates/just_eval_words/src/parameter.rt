//! How the parameters of a recipe take words.

ghost use Rattle.std.specs.Prelude.{◌≡◌, ◌≤◌, Some, None, IfSome, MatchOption, length};
ghost use Rattle.std.specs.List.{list_any, filter};
ghost use Rattle.std.specs.Option.{option_copied};
ghost use Rattle.just_eval_words.specs.Parameters.{is_positional, needs_word, takes_all, least_words, most_words, has_room, has_long, has_short, numbered_from, fixed_value};

use just_lang_types::Parameter;
use just_print::{is_option, is_optional, is_variadic};

/// Whether a parameter is none for switches.
fn is_positional(parameter: &Parameter) -> bool
    ensures { result ≡ is_positional parameter.now }
{
    !is_option(parameter)
}

/// Whether a positional parameter can't go without a word.
fn needs_word(parameter: &Parameter) -> bool
    ensures { result ≡ needs_word parameter.now }
{
    !is_option(parameter) && !is_optional(parameter)
}

/// Whether a positional parameter takes any number of words.
fn takes_all(parameter: &Parameter) -> bool
    ensures { result ≡ takes_all parameter.now }
{
    !is_option(parameter) && is_variadic(parameter.kind)
}

/// How many positional words a recipe with these parameters takes at least.
pub fn least_words(parameters: &[Parameter]) -> usize
    ensures { result ≡ least_words parameters.now }
{
    parameters.iter().filter(|p| needs_word(p)).count()
}

/// How many of the parameters are positional.
fn count_positional(parameters: &[Parameter]) -> usize
    ensures { result ≡ length (filter is_positional parameters.now) }
{
    parameters.iter().filter(|p| is_positional(p)).count()
}

/// Whether a positional parameter takes any number of words.
fn any_takes_all(parameters: &[Parameter]) -> bool
    ensures { result ≡ list_any takes_all parameters.now }
{
    parameters.iter().any(|p| takes_all(p))
}

/// How many positional words a recipe with these parameters takes at most, where there is a bound.
#[tactic(auto, using(crate::proofs::Numbered::unbounded, crate::proofs::Numbered::bounded))]
pub(crate) fn most_words(parameters: &[Parameter]) -> Option<usize>
    ensures { result ≡ most_words parameters.now }
{
    if any_takes_all(parameters) {
        return None;
    }
    Some(count_positional(parameters))
}

/// Whether there is room for a word behind that many.
pub(crate) fn has_room(most: Option<usize>, count: usize) -> bool
    ensures { result ≡ has_room most count }
{
    match most {
        None => true,
        Some(most) => count < most,
    }
}

/// Whether a parameter has that long name.
fn has_long(name: &str, parameter: &Parameter) -> bool
    ensures { result ≡ has_long name.now parameter.now }
{
    match &parameter.long {
        None => false,
        Some(long) => long.as_str() == name,
    }
}

/// Whether a parameter has that letter.
fn has_short(letter: char, parameter: &Parameter) -> bool
    ensures { result ≡ has_short letter parameter.now }
{
    match parameter.short {
        None => false,
        Some(short) => short == letter,
    }
}

/// The first parameter of that long name, with its number.
#[tactic(auto, using(crate::proofs::Numbered::passed, crate::proofs::Numbered::lacking, crate::proofs::Numbered::at_end))]
pub(crate) fn option_named<'p>(
    parameters: &'p [Parameter],
    name: &str,
) -> Option<(usize, &'p Parameter)>
    ensures { MatchOption result (numbered_from (has_long name.now) 0 parameters.now ≡ None) (λ x. numbered_from (has_long name.now) 0 parameters.now ≡ Some (x.0, x.1.now)) }
{
    'parameters: for number in 0..parameters.len() {
        if has_long(name, &parameters[number]) {
            return Some((number, &parameters[number]));
        }
    }
    None
}

/// The first parameter of that letter, with its number.
#[tactic(auto, using(crate::proofs::Numbered::passed, crate::proofs::Numbered::lacking, crate::proofs::Numbered::at_end))]
pub(crate) fn option_lettered(parameters: &[Parameter], letter: char) -> Option<(usize, &Parameter)>
    ensures { MatchOption result (numbered_from (has_short letter) 0 parameters.now ≡ None) (λ x. numbered_from (has_short letter) 0 parameters.now ≡ Some (x.0, x.1.now)) }
{
    'parameters: for number in 0..parameters.len() {
        if has_short(letter, &parameters[number]) {
            return Some((number, &parameters[number]));
        }
    }
    None
}

/// The value of an option that takes none from the words.
pub(crate) fn fixed_value(parameter: &Parameter) -> Option<&str>
    ensures { option_copied result ≡ fixed_value parameter.now }
{
    if parameter.flag {
        return Some("true");
    }
    match &parameter.value {
        None => None,
        Some(value) => Some(value.as_str()),
    }
}
