//! The values of arguments, and what each parameter takes of them.

ghost use Rattle.std.specs.Prelude.{◌≡◌, ◌≢◌, ◌++◌, [], ◌∷◌, Ok, Err, IfOk, IfErr, OnOk};
ghost use Rattle.std.specs.List.{flat_map};
ghost use Rattle.std.specs.Option.{option_copied};
ghost use Rattle.just_lang_types.specs.ParameterKinds.{is_variadic};
ghost use Rattle.just_lang_types.specs.declared.project.LangError.{LangError};
ghost use Rattle.just_eval_closure.specs.Scopes.{text_of_value, value_of_text, value_among, levels_within, found_in};
ghost use Rattle.just_eval_closure.specs.Values.{value};
ghost use Rattle.just_eval_closure.specs.Answers.{told, each, Gives};
ghost use Rattle.just_eval_closure.specs.Dependencies.{names_variadic, bare_name, text_in_recipe, value_or_none, argument, shares};
ghost use Rattle.just_eval_closure.specs.Entries.{located_of, Sees};

use super::entry::Entry;
use crate::{Env, Names, View, text_of, value};
use just_lang_syntax::Expr;
use just_lang_types::project::LangError;
use just_lang_types::{Parameter, Scopes, Value, is_variadic};
use just_path_text::{NoMemory, Seq, Text, TryClone};
use std::alloc::Global;

/// Whether one of the parameters has that name and takes several values.
fn names_variadic(parameters: &[Parameter], name: &str) -> bool
    ensures { result ≡ names_variadic parameters.now name.now }
{
    parameters
        .iter()
        .any(|p| p.name.as_str() == name && is_variadic(p.kind))
}

/// The name that an expression is.
fn bare_name(expr: &Expr) -> Option<&str>
    ensures { option_copied result ≡ bare_name expr.now }
{
    match expr {
        Expr::Variable(name) => Some(name.text.as_str()),
        Expr::If { .. }
        | Expr::Root(_)
        | Expr::Join(..)
        | Expr::Concat(..)
        | Expr::Literal(_)
        | Expr::Group(_)
        | Expr::Env { .. } => None,
    }
}

/// The text of an expression; a variable of the environment that isn't there refuses it.
pub(crate) fn text_within<N: Names>(
    alloc: Global,
    names: &N,
    env: &Env<'_>,
    expr: &Expr,
) -> Result<Text, LangError>
    ensures { Gives (told (value (N.meaning names.now) (found_in env.now.pairs.now env.now.environ.now.pairs) expr.now)) result }
{
    match value(alloc, names, env, expr)? {
        Ok(text) => Ok(text),
        Err(name) => Err(LangError::FunctionCall { name }),
    }
}

/// The text of an expression in a recipe whose parameters have these values.
pub fn text_in_recipe(
    alloc: Global,
    scopes: &Scopes,
    from: &Entry<'_>,
    arguments: &[Value],
    expr: &Expr,
) -> Result<Text, LangError>
    requires { Sees scopes.now from.now }
    ensures { Gives (text_in_recipe scopes.now (located_of from.now) arguments.now expr.now) result }
{
    let names = View {
        levels: from.levels,
        parameters: from.recipe.parameters.as_slice(),
        values: arguments,
    };
    let env = Env {
        pairs: from.pairs,
        environ: &scopes.environ,
    };
    text_within(alloc, &names, &env, expr)
}

/// A value of one text.
pub fn value_of_text(alloc: Global, text: Text) -> Result<Value, NoMemory>
    ensures { IfOk result (λ value. value ≡ value_of_text text) }
{
    let mut elements = Vec::with_capacity(alloc, 1)?;
    elements.push(text)?;
    Ok(Value {
        elements: Seq::from(elements),
    })
}

/// The value of an argument in a recipe whose parameters have these values: the bare name of a parameter that takes
/// several values has its elements, anything else is one text.
fn argument(
    alloc: Global,
    scopes: &Scopes,
    from: &Entry<'_>,
    arguments: &[Value],
    expr: &Expr,
) -> Result<Value, LangError>
    requires { Sees scopes.now from.now }
    ensures { Gives (argument scopes.now (located_of from.now) arguments.now expr.now) result }
{
    if let Some(name) = bare_name(expr) {
        if names_variadic(from.recipe.parameters.as_slice(), name) {
            return Ok(elements_of(alloc, from, arguments, name)?);
        }
    }
    let text = text_in_recipe(alloc, scopes, from, arguments, expr)?;
    Ok(value_of_text(alloc, text)?)
}

/// The value of a name; none where nothing has that name.
fn elements_of(
    alloc: Global,
    from: &Entry<'_>,
    arguments: &[Value],
    name: &str,
) -> Result<Value, NoMemory>
    ensures { IfOk result (λ v. v ≡ value_or_none (value_among (levels_within from.now.levels.now from.now.recipe.now.parameters arguments.now) name.now)) }
{
    let names = View {
        levels: from.levels,
        parameters: from.recipe.parameters.as_slice(),
        values: arguments,
    };
    match names.value(name) {
        Some(value) => value.try_clone(),
        None => Ok(Value {
            elements: Seq::new(alloc),
        }),
    }
}

/// The values of arguments in a recipe whose parameters have these values.
#[tactic(auto, using(crate::proofs::Each::each_more, crate::proofs::Each::each_end, crate::proofs::Each::each_refused))]
pub(crate) fn arguments(
    alloc: Global,
    scopes: &Scopes,
    from: &Entry<'_>,
    values: &[Value],
    exprs: &[Expr],
) -> Result<Vec<Value>, LangError>
    requires { Sees scopes.now from.now }
    ensures given { IfOk result (λ found. each (argument scopes.now (located_of from.now) values.now) exprs.now ≡ Ok found.items) }
    ensures refused { IfErr result (λ e. e ≢ LangError.NoMemory → each (argument scopes.now (located_of from.now) values.now) exprs.now ≡ Err e) }
{
    let mut found = Vec::new(alloc);
    'exprs: for expr in exprs {
        found.push(argument(alloc, scopes, from, values, expr)?)?;
    }
    Ok(found)
}

/// The elements of some values, one behind the other.
fn all_elements(alloc: Global, values: &[Value]) -> Result<Seq<Text>, NoMemory>
    ensures { IfOk result (λ elements. elements ≡ flat_map (λ v. v.elements) values.now) }
{
    let mut all = Vec::new(alloc);
    'values: for value in values {
        push_elements(&mut all, value.elements.as_slice())?;
    }
    Ok(Seq::from(all))
}

/// Adds copies of elements.
fn push_elements(all: &mut Vec<Text>, elements: &[Text]) -> Result<(), NoMemory>
    ensures { OnOk result (all.new.items ≡ all.old.items ++ elements.now) }
{
    'elements: for element in elements {
        all.push(element.try_clone()?)?;
    }
    Ok(())
}

/// The one element that a parameter takes of a value: its text.
fn one_element(alloc: Global, value: &Value) -> Result<Seq<Text>, NoMemory>
    ensures { IfOk result (λ elements. elements ≡ text_of_value value.now ∷ []) }
{
    let mut one = Vec::new(alloc);
    one.push(text_of(alloc, value)?)?;
    Ok(Seq::from(one))
}

/// What each parameter takes of some arguments in their order: one that takes several values all that are left.
#[tactic(auto, using(crate::proofs::Shares::no_argument, crate::proofs::Shares::all_arguments, crate::proofs::Shares::one_argument, crate::proofs::Shares::no_parameter))]
pub(crate) fn shares(
    alloc: Global,
    parameters: &[Parameter],
    arguments: &[Value],
) -> Result<Vec<Option<Seq<Text>>>, NoMemory>
    ensures { IfOk result (λ given. given.items ≡ shares parameters.now arguments.now) }
{
    let mut given = Vec::new(alloc);
    let mut at = 0;
    'parameters: for parameter in parameters {
        if at >= arguments.len() {
            given.push(None)?;
        } else if is_variadic(parameter.kind) {
            given.push(Some(all_elements(alloc, &arguments[at..])?))?;
            at = arguments.len();
        } else {
            given.push(Some(one_element(alloc, &arguments[at])?))?;
            at += 1;
        }
    }
    Ok(given)
}
