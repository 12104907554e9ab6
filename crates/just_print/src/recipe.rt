//! The lines of recipes as texts.
ghost use Rattle.std.specs.Prelude.{◌≡◌, ◌++◌, IfOk, string_bytes};
ghost use Rattle.just_print.specs.Printed.{kind_sign, printed_default, printed_parameter, printed_parameters, printed_dependency, printed_dependencies, printed_subsequents, printed_signature, printed_recipe_line};

use super::attribute::push_end;
use super::expr::{push_behind, push_if, push_path, push_values};
use just_lang_syntax::{AstDependency, AstParameter, AstRecipe, Expr, ParameterKind};
use just_path_text::Text;
use std::alloc::AllocError;

/// Adds a recipe without its attributes and its body.
pub fn push_recipe_line(out: &mut String, recipe: &AstRecipe) -> Result<(), AllocError>
    ensures { IfOk result (λ _. string_bytes out.new ≡ string_bytes out.old ++ printed_recipe_line recipe.now) }
{
    push_commented(out, recipe, &recipe.comment)
}

/// Adds a recipe without its attributes and its body, with this comment behind its line in place of its own.
pub fn push_commented(
    out: &mut String,
    recipe: &AstRecipe,
    comment: &Option<Text>,
) -> Result<(), AllocError>
    ensures { IfOk result (λ _. string_bytes out.new ≡ string_bytes out.old ++ printed_recipe_line (record recipe.now { comment = comment.now })) }
{
    push_signature(out, recipe)?;
    out.push_str(":")?;
    push_dependencies(out, recipe.priors.as_slice())?;
    push_subsequents(out, recipe.subsequents.as_slice())?;
    push_end(out, comment)
}

/// Adds the name and the parameters of a recipe.
fn push_signature(out: &mut String, recipe: &AstRecipe) -> Result<(), AllocError>
    ensures { IfOk result (λ _. string_bytes out.new ≡ string_bytes out.old ++ printed_signature recipe.now) }
{
    push_if(out, recipe.quiet, "@")?;
    out.push_str(recipe.name.text.as_str())?;
    push_parameters(out, recipe.parameters.as_slice())
}

/// Adds parameters, each behind a blank.
pub fn push_parameters(out: &mut String, parameters: &[AstParameter]) -> Result<(), AllocError>
    ensures { IfOk result (λ _. string_bytes out.new ≡ string_bytes out.old ++ printed_parameters parameters.now) }
{
    'parameters: for parameter in parameters {
        out.push_str(" ")?;
        push_parameter(out, parameter)?;
    }
    Ok(())
}

/// The sign before a parameter of the kind.
fn sign_of(kind: ParameterKind) -> &'static str
    ensures { result.now ≡ kind_sign kind }
{
    match kind {
        ParameterKind::Singular => "",
        ParameterKind::Plus => "+",
        ParameterKind::Star => "*",
    }
}

fn push_parameter(out: &mut String, parameter: &AstParameter) -> Result<(), AllocError>
    ensures { IfOk result (λ _. string_bytes out.new ≡ string_bytes out.old ++ printed_parameter parameter.now) }
{
    out.push_str(sign_of(parameter.kind))?;
    push_if(out, parameter.export, "$")?;
    out.push_str(parameter.name.text.as_str())?;
    push_default(out, &parameter.default)
}

/// Adds the value of a parameter that isn't given, if there is one.
fn push_default(out: &mut String, default: &Option<Expr>) -> Result<(), AllocError>
    ensures { IfOk result (λ _. string_bytes out.new ≡ string_bytes out.old ++ printed_default default.now) }
{
    match default {
        Some(value) => push_behind(out, "=", value),
        None => Ok(()),
    }
}

/// Adds dependencies, each behind a blank.
fn push_dependencies(out: &mut String, dependencies: &[AstDependency]) -> Result<(), AllocError>
    ensures { IfOk result (λ _. string_bytes out.new ≡ string_bytes out.old ++ printed_dependencies dependencies.now) }
{
    'dependencies: for dependency in dependencies {
        out.push_str(" ")?;
        push_dependency(out, dependency)?;
    }
    Ok(())
}

fn push_dependency(out: &mut String, dependency: &AstDependency) -> Result<(), AllocError>
    ensures { IfOk result (λ _. string_bytes out.new ≡ string_bytes out.old ++ printed_dependency dependency.now) }
{
    if !dependency.grouped {
        return push_path(out, dependency.path.as_slice());
    }
    out.push_str("(")?;
    push_path(out, dependency.path.as_slice())?;
    push_values(out, dependency.arguments.as_slice())?;
    out.push_str(")")
}

/// Adds the dependencies that run behind the recipe, if there are some.
fn push_subsequents(out: &mut String, dependencies: &[AstDependency]) -> Result<(), AllocError>
    ensures { IfOk result (λ _. string_bytes out.new ≡ string_bytes out.old ++ printed_subsequents dependencies.now) }
{
    match dependencies {
        [] => Ok(()),
        [_first, ..] => {
            out.push_str(" &&")?;
            push_dependencies(out, dependencies)
        }
    }
}
