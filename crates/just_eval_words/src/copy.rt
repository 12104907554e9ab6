//! Copies of parameters.

ghost use Rattle.std.specs.Prelude.{◌≡◌, Ok, true, IfOk};

use just_lang_syntax::copy_expr;
use just_lang_types::{Expr, Parameter, Pattern};
use just_path_text::{NoMemory, Seq, TryClone};
use std::alloc::Global;

/// A copy of an expression, where there is one.
fn copy_default(alloc: Global, default: &Option<Expr>) -> Result<Option<Expr>, NoMemory>
    ensures { IfOk result (λ d. d ≡ default.now) }
{
    match default {
        None => Ok(None),
        Some(expr) => Ok(Some(copy_expr(alloc, expr)?)),
    }
}

/// A copy of patterns, where there are some.
fn copy_pattern(pattern: &Option<Pattern>) -> Result<Option<Pattern>, NoMemory>
    ensures { IfOk result (λ p. p ≡ pattern.now) }
{
    match pattern {
        None => Ok(None),
        Some(pattern) => Ok(Some(Pattern {
            texts: pattern.texts.try_clone()?,
        })),
    }
}

/// What was copied. Where memory was wanting it is none, and `is_whole` turns false: who copies much needs no way out behind
/// each copy.
fn kept<T>(copied: Result<Option<T>, NoMemory>, is_whole: &mut bool) -> Option<T>
    ensures { (is_whole.new ≡ true) → (is_whole.old ≡ true) × (copied ≡ Ok result) }
{
    match copied {
        Ok(copy) => copy,
        Err(NoMemory) => {
            *is_whole = false;
            None
        }
    }
}

/// A copy of a parameter.
fn copy_parameter(alloc: Global, parameter: &Parameter) -> Result<Parameter, NoMemory>
    ensures { IfOk result (λ p. p ≡ parameter.now) }
{
    let name = parameter.name.try_clone()?;
    let mut is_whole = true;
    let copy = Parameter {
        name,
        kind: parameter.kind,
        export: parameter.export,
        short: parameter.short,
        flag: parameter.flag,
        multiple: parameter.multiple,
        min: parameter.min,
        max: parameter.max,
        pattern: kept(copy_pattern(&parameter.pattern), &mut is_whole),
        long: kept(parameter.long.try_clone(), &mut is_whole),
        value: kept(parameter.value.try_clone(), &mut is_whole),
        help: kept(parameter.help.try_clone(), &mut is_whole),
        default: kept(copy_default(alloc, &parameter.default), &mut is_whole),
    };
    if is_whole {
        Ok(copy)
    } else {
        drop(copy);
        Err(NoMemory)
    }
}

/// A copy of parameters.
pub(crate) fn copy_parameters(
    alloc: Global,
    parameters: &[Parameter],
) -> Result<Seq<Parameter>, NoMemory>
    ensures { IfOk result (λ s. s ≡ parameters.now) }
{
    let mut copies = Vec::new(alloc);
    'parameters: for parameter in parameters {
        copies.push(copy_parameter(alloc, parameter)?)?;
    }
    Ok(Seq::from(copies))
}
