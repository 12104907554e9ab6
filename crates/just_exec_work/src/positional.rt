//! Positional arguments.

ghost use Rattle.std.specs.Prelude.{◌≡◌, ◌++◌, IfOk, OnOk};
ghost use Rattle.just_exec_work.specs.Positional.{is_positional, given_texts, positional_texts};
ghost use Rattle.just_exec_work.specs.Works.{run_of, positional_words};

use super::copies::push_texts;
use super::{RunAttributes, Running};
use just_lang_types::{Parameter, Value};
use just_path_text::{NoMemory, Seq, Text};
use std::alloc::Global;

/// Whether a parameter is no option.
fn is_positional(parameter: &Parameter) -> bool
    ensures { result ≡ is_positional parameter.now }
{
    !parameter.long.is_some() && !parameter.short.is_some()
}

/// Adds what a parameter was given, where it is no option.
fn push_given(texts: &mut Vec<Text>, parameter: &Parameter, value: &Value) -> Result<(), NoMemory>
    ensures { OnOk result (texts.new.items ≡ texts.old.items ++ given_texts parameter.now value.now) }
{
    if !is_positional(parameter) {
        return Ok(());
    }
    push_texts(texts, value.elements.as_slice())
}

/// The elements of the values of the parameters that are no options.
#[tactic(auto, using(crate::proofs::Given::given_more, crate::proofs::Given::no_value, crate::proofs::Given::given_all))]
fn positional_texts(
    alloc: Global,
    parameters: &[Parameter],
    values: &[Value],
) -> Result<Vec<Text>, NoMemory>
    ensures { IfOk result (λ ts. ts.items ≡ positional_texts parameters.now values.now) }
{
    let mut texts = Vec::new(alloc);
    'parameters: for at in 0..parameters.len() {
        if at >= values.len() {
            return Ok(texts);
        }
        push_given(&mut texts, &parameters[at], &values[at])?;
    }
    Ok(texts)
}

/// The positional arguments that a recipe's children are given, where they are given any.
pub(crate) fn positional_words(
    alloc: Global,
    run: &Running<'_>,
    attributes: &RunAttributes,
) -> Result<Option<Seq<Text>>, NoMemory>
    ensures { IfOk result (λ ts. ts ≡ positional_words (run_of run.now) attributes.now) }
{
    if !run.settings.positional_arguments && !attributes.positional_arguments {
        return Ok(None);
    }
    let texts = positional_texts(alloc, run.recipe.parameters.as_slice(), run.values)?;
    Ok(Some(Seq::from(texts)))
}
