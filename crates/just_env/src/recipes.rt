//! What changes for the children of a recipe.

ghost use Rattle.std.specs.Prelude.{◌≡◌, false, IfOk};
ghost use Rattle.just_eval_closure.specs.Scopes.{parameter_bindings, levels_within};
ghost use Rattle.just_env.specs.Changes.{changes, change, AreChanges};

use super::changes::in_order;
use super::levels::{put_level, put_levels, put_pairs};
use just_eval_closure::View;
use just_lang_types::{Binding, Level, Parameter, Settings, Value};
use just_path_text::{NoMemory, Seq, Text, TryClone};
use std::alloc::Global;
use std::collections::BTreeMap;

/// A parameter with its value.
fn binding(parameter: &Parameter, value: &Value) -> Result<Binding, NoMemory>
    ensures { IfOk result (λ b. b ≡ record { name = parameter.now.name; value = value.now; export = parameter.now.export }) }
{
    Ok(Binding {
        name: parameter.name.try_clone()?,
        value: Value {
            elements: value.elements.try_clone()?,
        },
        export: parameter.export,
    })
}

/// The level of parameters with their values.
#[tactic(auto, using(crate::proofs::Bound::bound_more, crate::proofs::Bound::bound_end, crate::proofs::Bound::values_end))]
fn parameter_level(
    alloc: Global,
    parameters: &[Parameter],
    values: &[Value],
) -> Result<Level, NoMemory>
    ensures { IfOk result (λ l. l ≡ record { bindings = parameter_bindings parameters.now values.now; prelude = false }) }
{
    let mut bindings = Vec::new(alloc);
    'parameters: for at in 0..parameters.len() {
        if at < values.len() {
            bindings.push(binding(&parameters[at], &values[at])?)?;
        }
    }
    Ok(Level {
        bindings: Seq::from(bindings),
        prelude: false,
    })
}

/// What changes for the children of a recipe that sees that, in a module with these dotenv pairs, settings and unexports: the changes of
/// `Environment::new` for the recipe's scope, in the order of the names' bytes.
#[tactic(auto, using(crate::proofs::Put::all_recipe_put))]
pub fn changes_of_recipe(
    alloc: Global,
    dotenv: &[(Text, Text)],
    sees: View<'_>,
    settings: &Settings,
    unexports: &[Text],
) -> Result<Seq<(Text, Option<Text>)>, NoMemory>
    ensures changes { IfOk result (λ list. list ≡ changes dotenv.now settings.now.export unexports.now (levels_within sees.entry.levels.now sees.entry.parameters.now sees.entry.values.now)) }
    // So at each name the innermost level that says something of it decides, and where none does the dotenv pairs.
    ensures innermost { IfOk result (AreChanges (change dotenv.now settings.now.export unexports.now (levels_within sees.entry.levels.now sees.entry.parameters.now sees.entry.values.now))) }
{
    let mut made = BTreeMap::new(alloc);
    put_pairs(&mut made, dotenv)?;
    let all = settings.export;
    put_levels(alloc, &mut made, all, unexports, sees.levels)?;
    let level = parameter_level(alloc, sees.parameters, sees.values)?;
    put_level(alloc, &mut made, all, unexports, &level)?;
    let list = in_order(alloc, made)?;
    Ok(list)
}
