//! The values of a recipe's parameters: what is given, else the defaults.

ghost use Rattle.std.specs.Prelude.{◌≡◌, ◌≢◌, Ok, Err, IfOk, IfErr};
ghost use Rattle.just_lang_types.specs.declared.project.LangError.{LangError};
ghost use Rattle.just_eval_closure.specs.Answers.{Gives};
ghost use Rattle.just_eval_closure.specs.Dependencies.{default_value, value_from, values_given};
ghost use Rattle.just_eval_closure.specs.Entries.{located_of, Sees};

use super::argument::{text_in_recipe, value_of_text};
use super::entry::Entry;
use just_lang_syntax::Expr;
use just_lang_types::project::LangError;
use just_lang_types::{Parameter, ParameterKind, Scopes, Value};
use just_path_text::{Seq, Text, TryClone};
use std::alloc::Global;

/// The value of a default, which sees the parameters whose values are there; no element without one.
fn default_value(
    alloc: Global,
    scopes: &Scopes,
    to: &Entry<'_>,
    default: &Option<Expr>,
    done: &[Value],
) -> Result<Value, LangError>
    requires { Sees scopes.now to.now }
    ensures { Gives (default_value scopes.now (located_of to.now) default.now done.now) result }
{
    match default {
        None => Ok(Value {
            elements: Seq::new(alloc),
        }),
        Some(expr) => {
            let text = text_in_recipe(alloc, scopes, to, done, expr)?;
            Ok(value_of_text(alloc, text)?)
        }
    }
}

/// The value of a parameter: what it is given, else its default. A `+` that is given no element is refused.
fn value_from(
    alloc: Global,
    scopes: &Scopes,
    to: &Entry<'_>,
    parameter: &Parameter,
    given: &Option<Seq<Text>>,
    done: &[Value],
) -> Result<Value, LangError>
    requires { Sees scopes.now to.now }
    ensures { Gives (value_from scopes.now (located_of to.now) parameter.now parameter.now.kind given.now done.now) result }
{
    let Some(elements) = given else {
        return default_value(alloc, scopes, to, &parameter.default, done);
    };
    if elements.is_empty() && parameter.kind == ParameterKind::Plus {
        return Err(LangError::EmptyListArgument {
            recipe: to.recipe.name.try_clone()?,
            parameter: parameter.name.try_clone()?,
        });
    }
    Ok(Value {
        elements: elements.try_clone()?,
    })
}

/// The values of a recipe's parameters, of which each is given that or nothing.
#[tactic(auto, using(crate::proofs::GivenValues::value_more, crate::proofs::GivenValues::value_refused, crate::proofs::GivenValues::no_parameter, crate::proofs::GivenValues::nothing_given))]
pub fn values_given(
    alloc: Global,
    scopes: &Scopes,
    to: &Entry<'_>,
    given: &[Option<Seq<Text>>],
) -> Result<Vec<Value>, LangError>
    requires { Sees scopes.now to.now }
    ensures values { IfOk result (λ values. values_given scopes.now (located_of to.now) given.now ≡ Ok values.items) }
    ensures refused { IfErr result (λ e. e ≢ LangError.NoMemory → values_given scopes.now (located_of to.now) given.now ≡ Err e) }
{
    let parameters = to.recipe.parameters.as_slice();
    let mut done = Vec::new(alloc);
    'parameters: for at in 0..parameters.len() {
        if at >= given.len() {
            return Ok(done);
        }
        let value = value_from(
            alloc,
            scopes,
            to,
            &parameters[at],
            &given[at],
            done.as_slice(),
        )?;
        done.push(value)?;
    }
    Ok(done)
}
