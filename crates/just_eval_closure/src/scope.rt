//! What names mean in the scope of a recipe.

ghost use Rattle.std.specs.Prelude.{◌≡◌, ◌++◌, ℕ, List, IfOk, string_bytes};
ghost use Rattle.std.specs.Option.{option_copied};
ghost use Rattle.just_eval_closure.specs.Scopes.{levels_within, parameter_bindings, value_in, value_among, text_of_value, text_or_none, meaning_in, further, pairs_for};
ghost use Rattle.just_eval_closure.specs.Values.{Valued};

use super::expression::Names;
use just_lang_types::{Binding, DotenvOf, Level, Modulepath, Parameter, Value};
use just_path_text::{NoMemory, Text};
use std::alloc::Global;

/// The levels of a module, and behind them parameters with their values.
#[derive(Clone, Copy)]
pub struct View<'s> {
    pub levels: &'s [Level],
    pub parameters: &'s [Parameter],
    pub values: &'s [Value],
}

impl<'s> View<'s> {
    /// The value of a name; none where nothing has that name.
    #[tactic(auto, using(crate::proofs::Bindings::inner_value, crate::proofs::Bindings::outer_value))]
    pub fn value(&self, name: &str) -> Option<&'s Value>
        ensures { option_copied result ≡ value_among (levels_within self.now.levels.now self.now.parameters.now self.now.values.now) name.now }
    {
        match parameter_value(self.parameters, self.values, name) {
            Some(value) => Some(value),
            None => level_value(self.levels, name),
        }
    }
}

impl Names for View<'_> {
    ghost meaning = { λ s name. meaning_in (record { levels = levels_within s.levels.now s.parameters.now s.values.now }) name };

    fn meaning(&self, alloc: Global, name: &Text) -> Result<Result<Text, Text>, NoMemory> {
        match self.value(name.as_str()) {
            Some(value) => Ok(Ok(text_of(alloc, value)?)),
            None => Ok(Ok(Text::from(String::new(alloc)))),
        }
    }
}

/// The value of the parameter of that name.
#[tactic(auto, using(crate::proofs::Bindings::parameter_found, crate::proofs::Bindings::parameter_passed, crate::proofs::Bindings::parameters_end, crate::proofs::Bindings::values_end))]
fn parameter_value<'s>(
    parameters: &'s [Parameter],
    values: &'s [Value],
    name: &str,
) -> Option<&'s Value>
    ensures { option_copied result ≡ value_in (parameter_bindings parameters.now values.now) name.now }
{
    'parameters: for at in 0..parameters.len() {
        if at >= values.len() {
            return None;
        }
        if parameters[at].name.as_str() == name {
            return Some(&values[at]);
        }
    }
    None
}

/// The value of a name in levels: an inner level hides those outside of it.
#[tactic(auto, using(crate::proofs::Bindings::level_found, crate::proofs::Bindings::level_passed))]
fn level_value<'s>(levels: &'s [Level], name: &str) -> Option<&'s Value>
    ensures { option_copied result ≡ value_among levels.now name.now }
{
    let mut found: Option<&Value> = None;
    'levels: for level in levels {
        if let Some(value) = binding_value(level.bindings.as_slice(), name) {
            found = Some(value);
        }
    }
    found
}

/// The value of the binding of that name.
fn binding_value<'s>(bindings: &'s [Binding], name: &str) -> Option<&'s Value>
    ensures { option_copied result ≡ value_in bindings.now name.now }
{
    'bindings: for binding in bindings {
        if binding.name.as_str() == name {
            return Some(&binding.value);
        }
    }
    None
}

/// The text of a value: its elements with a blank between them.
#[tactic(auto, using(crate::proofs::Bindings::joined_at))]
pub fn text_of(alloc: Global, value: &Value) -> Result<Text, NoMemory>
    ensures { IfOk result (λ t. t ≡ text_of_value value.now) }
{
    let mut text = String::new(alloc);
    match value.elements.as_slice() {
        [] => Ok(Text::from(text)),
        [first, others @ ..] => {
            text.push_str(first.as_str())?;
            push_further(&mut text, others)?;
            Ok(Text::from(text))
        }
    }
}

/// Adds elements, each behind a blank.
fn push_further(text: &mut String, elements: &[Text]) -> Result<(), NoMemory>
    ensures { IfOk result (λ _. string_bytes text.new ≡ string_bytes text.old ++ further elements.now) }
{
    'elements: for element in elements {
        text.push_str(" ")?;
        text.push_str(element.as_str())?;
    }
    Ok(())
}

/// The dotenv pairs of a module.
pub fn pairs_for<'p>(dotenv: &'p [DotenvOf], path: &Modulepath) -> &'p [(Text, Text)]
    ensures { result.now ≡ pairs_for dotenv.now path.now }
{
    'dotenv: for of_module in dotenv {
        if of_module.module.same(path) {
            return of_module.pairs.as_slice();
        }
    }
    &[]
}
