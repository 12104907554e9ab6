//! What is tested behind all words.

ghost use Rattle.std.specs.Prelude.{◌≡◌, IfOk, length};
ghost use Rattle.just_eval_words.specs.Tests.{switch_of, first_over, count_refusal, lack, miscount, mismatch, refusal, Passes};

use super::copy::copy_parameters;
use super::parameter::least_words;
use super::pattern::first_mismatch;
use just_lang_types::project::LangError;
use just_lang_types::{Parameter, Recipe, Switch};
use just_path_text::{NoMemory, Seq, Text, TryClone};
use std::alloc::Global;

/// The switch of an option, the long one where it has both; none where the parameter is no option.
fn switch_of(parameter: &Parameter) -> Result<Option<Switch>, NoMemory>
    ensures { IfOk result (λ s. s ≡ switch_of parameter.now) }
{
    if let Some(long) = &parameter.long {
        return Ok(Some(Switch::Long(long.try_clone()?)));
    }
    match parameter.short {
        Some(letter) => Ok(Some(Switch::Short(letter))),
        None => Ok(None),
    }
}

/// Refuses too few positional words.
fn check_count(alloc: Global, recipe: &Recipe, count: usize) -> Result<(), LangError>
    ensures { Passes (count_refusal recipe.now count) result }
{
    let parameters = recipe.parameters.as_slice();
    if count < least_words(parameters) {
        return Err(LangError::PositionalArgumentCountMismatch {
            found: count,
            recipe: recipe.name.try_clone()?,
            path: recipe.path.try_clone()?,
            parameters: copy_parameters(alloc, parameters)?,
        });
    }
    Ok(())
}

/// Refuses an option that was given nothing and has no default.
fn check_lack(recipe: &Recipe, parameter: &Parameter, values: &[Text]) -> Result<(), LangError>
    ensures { Passes (lack recipe.now parameter.now values.now) result }
{
    match values {
        [] => {}
        [_, ..] => return Ok(()),
    }
    if parameter.default.is_some() {
        return Ok(());
    }
    match switch_of(parameter)? {
        None => Ok(()),
        Some(switch) => Err(LangError::MissingOption {
            recipe: recipe.name.try_clone()?,
            switch,
        }),
    }
}

/// Refuses fewer values than a parameter takes, or more.
fn check_number(recipe: &Recipe, parameter: &Parameter, values: &[Text]) -> Result<(), LangError>
    ensures { Passes (miscount recipe.now parameter.now values.now) result }
{
    let found = values.len() as u64;
    if let Some(min) = parameter.min {
        if found < min {
            return Err(LangError::ArgumentTooFewValues {
                recipe: recipe.name.try_clone()?,
                parameter: parameter.name.try_clone()?,
                found,
                min,
            });
        }
    }
    if let Some(max) = parameter.max {
        if max < found {
            return Err(LangError::ArgumentTooManyValues {
                recipe: recipe.name.try_clone()?,
                parameter: parameter.name.try_clone()?,
                found,
                max,
            });
        }
    }
    Ok(())
}

/// Refuses a value that no pattern matches.
#[tactic(auto, using(crate::proofs::Firsts::mismatch_told, crate::proofs::Firsts::all_match))]
fn check_pattern(
    alloc: Global,
    recipe: &Recipe,
    parameter: &Parameter,
    values: &[Text],
) -> Result<(), LangError>
    ensures { Passes (mismatch recipe.now parameter.now values.now) result }
{
    let Some(pattern) = &parameter.pattern else {
        return Ok(());
    };
    match first_mismatch(alloc, pattern, values)? {
        None => Ok(()),
        Some(argument) => Err(LangError::ArgumentPatternMismatch {
            pattern: pattern.texts.try_clone()?,
            recipe: recipe.name.try_clone()?,
            parameter: parameter.name.try_clone()?,
            argument,
        }),
    }
}

/// Refuses the first option that was given nothing and has no default.
#[tactic(auto, using(crate::proofs::Firsts::passed, crate::proofs::Firsts::refused, crate::proofs::Firsts::no_parameter, crate::proofs::Firsts::nothing_given))]
fn check_lacks(recipe: &Recipe, given: &[Seq<Text>]) -> Result<(), LangError>
    ensures { Passes (first_over (lack recipe.now) recipe.now.parameters given.now) result }
{
    let parameters = recipe.parameters.as_slice();
    'parameters: for at in 0..parameters.len() {
        if at >= given.len() {
            return Ok(());
        }
        check_lack(recipe, &parameters[at], given[at].as_slice())?;
    }
    Ok(())
}

/// Refuses the first wrong number of values.
#[tactic(auto, using(crate::proofs::Firsts::passed, crate::proofs::Firsts::refused, crate::proofs::Firsts::no_parameter, crate::proofs::Firsts::nothing_given))]
fn check_numbers(recipe: &Recipe, given: &[Seq<Text>]) -> Result<(), LangError>
    ensures { Passes (first_over (miscount recipe.now) recipe.now.parameters given.now) result }
{
    let parameters = recipe.parameters.as_slice();
    'parameters: for at in 0..parameters.len() {
        if at >= given.len() {
            return Ok(());
        }
        check_number(recipe, &parameters[at], given[at].as_slice())?;
    }
    Ok(())
}

/// Refuses the first value that no pattern of its parameter matches.
#[tactic(auto, using(crate::proofs::Firsts::passed, crate::proofs::Firsts::refused, crate::proofs::Firsts::no_parameter, crate::proofs::Firsts::nothing_given))]
fn check_patterns(alloc: Global, recipe: &Recipe, given: &[Seq<Text>]) -> Result<(), LangError>
    ensures { Passes (first_over (mismatch recipe.now) recipe.now.parameters given.now) result }
{
    let parameters = recipe.parameters.as_slice();
    'parameters: for at in 0..parameters.len() {
        if at >= given.len() {
            return Ok(());
        }
        check_pattern(alloc, recipe, &parameters[at], given[at].as_slice())?;
    }
    Ok(())
}

/// Makes the tests, in their order.
#[tactic(auto, using(crate::proofs::Firsts::first_is, crate::proofs::Firsts::second_is, crate::proofs::Firsts::third_is, crate::proofs::Firsts::last_is))]
pub(crate) fn check(
    alloc: Global,
    recipe: &Recipe,
    count: usize,
    given: &[Seq<Text>],
) -> Result<(), LangError>
    ensures { Passes (refusal recipe.now count given.now) result }
{
    check_count(alloc, recipe, count)?;
    check_lacks(recipe, given)?;
    check_numbers(recipe, given)?;
    check_patterns(alloc, recipe, given)?;
    Ok(())
}
