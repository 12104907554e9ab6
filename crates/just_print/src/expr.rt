//! Strings, names and expressions as texts.
ghost use Rattle.std.specs.Prelude.{◌≡◌, ◌++◌, map, codes, IfOk, string_bytes};
ghost use Rattle.std.specs.Option.{option_map};
ghost use Rattle.just_lang_read.specs.Quotes.{mark};
ghost use Rattle.just_print.specs.Printed.{led, only_if, otherwise, printed_name, printed_string, printed_path, printed_comparison, printed_expr, printed_second, printed_values};

use just_lang_read::Boxed;
use just_lang_syntax::{Comparison, Expr, Name, Quote, StringLiteral};
use std::alloc::AllocError;

/// The characters before and behind a string.
fn mark_of(quote: Quote) -> &'static str
    ensures { result.now ≡ mark quote }
{
    match quote {
        Quote::Single => "'",
        Quote::Double => "\"",
        Quote::SingleBlock => "'''",
        Quote::DoubleBlock => "\"\"\"",
    }
}

/// Adds a text where it is wanted.
pub fn push_if(out: &mut String, wanted: bool, text: &str) -> Result<(), AllocError>
    ensures { IfOk result (λ _. string_bytes out.new ≡ string_bytes out.old ++ only_if wanted text.now) }
{
    if wanted { out.push_str(text) } else { Ok(()) }
}

/// Adds a text, and another one behind it.
pub fn push_two(out: &mut String, first: &str, second: &str) -> Result<(), AllocError>
    ensures { IfOk result
        (λ _. string_bytes out.new ≡ string_bytes out.old ++ (first.now ++ second.now)) }
{
    out.push_str(first)?;
    out.push_str(second)
}

/// Adds three texts, one behind the other.
pub fn push_three(
    out: &mut String,
    first: &str,
    second: &str,
    third: &str,
) -> Result<(), AllocError>
    ensures { IfOk result
        (λ _. string_bytes out.new
        ≡ string_bytes out.old ++ (first.now ++ (second.now ++ third.now))) }
{
    push_two(out, first, second)?;
    out.push_str(third)
}

/// Adds a string as it was written.
pub fn push_string(out: &mut String, string: &StringLiteral) -> Result<(), AllocError>
    ensures { IfOk result (λ _. string_bytes out.new ≡ string_bytes out.old ++ printed_string string.now) }
{
    push_if(out, string.expands, "x")?;
    let sign = mark_of(string.quote);
    push_three(out, sign, string.raw.as_str(), sign)
}

/// Adds a path: its names with `::` between them.
pub fn push_path(out: &mut String, path: &[Name]) -> Result<(), AllocError>
    ensures { IfOk result (λ _. string_bytes out.new ≡ string_bytes out.old ++ printed_path path.now) }
{
    match path {
        [] => Ok(()),
        [first, others @ ..] => {
            out.push_str(first.text.as_str())?;
            push_further_names(out, others)
        }
    }
}

/// Adds names, each behind `::`.
fn push_further_names(out: &mut String, names: &[Name]) -> Result<(), AllocError>
    ensures { IfOk result (λ _. string_bytes out.new ≡ string_bytes out.old ++ led (codes "::") (map printed_name names.now)) }
{
    'names: for name in names {
        push_two(out, "::", name.text.as_str())?;
    }
    Ok(())
}

/// Adds an expression, with one blank on each side of an operator.
#[cycle(print)]
#[tactic(auto, using(crate::proofs::Exprs::if_behind, crate::proofs::Exprs::root_behind, crate::proofs::Exprs::join_behind, crate::proofs::Exprs::concat_behind, crate::proofs::Exprs::literal_is, crate::proofs::Exprs::variable_is, crate::proofs::Exprs::group_behind, crate::proofs::Exprs::env_behind))]
pub fn push_expr(out: &mut String, expr: &Expr) -> Result<(), AllocError>
    ensures { IfOk result (λ _. string_bytes out.new ≡ string_bytes out.old ++ printed_expr expr.now) }
{
    match expr {
        Expr::If {
            left,
            comparison,
            right,
            consequent,
            chained,
            alternative,
        } => {
            push_behind(out, "if ", left.get())?;
            push_behind(out, sign_of(*comparison), right.get())?;
            push_between(out, " { ", consequent.get(), " } else ")?;
            push_otherwise(out, *chained, alternative.get())
        }
        Expr::Root(inside) => push_behind(out, "/ ", inside.get()),
        Expr::Join(first, second) => {
            push_expr(out, first.get())?;
            push_behind(out, " / ", second.get())
        }
        Expr::Concat(first, second) => {
            push_expr(out, first.get())?;
            push_behind(out, " + ", second.get())
        }
        Expr::Literal(string) => push_string(out, string),
        Expr::Variable(name) => out.push_str(name.text.as_str()),
        Expr::Group(inside) => push_between(out, "(", inside.get(), ")"),
        Expr::Env { key, default, .. } => {
            push_behind(out, "env(", key.get())?;
            push_second(out, default)?;
            out.push_str(")")
        }
    }
}

/// Adds an expression behind a text.
#[cycle(print)]
pub fn push_behind(out: &mut String, before: &str, expr: &Expr) -> Result<(), AllocError>
    ensures { IfOk result
        (λ _. string_bytes out.new ≡ (string_bytes out.old ++ before.now) ++ printed_expr expr.now) }
{
    out.push_str(before)?;
    push_expr(out, expr)
}

/// Adds an expression between two texts.
#[cycle(print)]
pub fn push_between(
    out: &mut String,
    before: &str,
    expr: &Expr,
    behind: &str,
) -> Result<(), AllocError>
    ensures { IfOk result
        (λ _. string_bytes out.new
        ≡ ((string_bytes out.old ++ before.now) ++ printed_expr expr.now) ++ behind.now) }
{
    push_behind(out, before, expr)?;
    out.push_str(behind)
}

/// Adds what follows an `else`.
#[cycle(print)]
fn push_otherwise(out: &mut String, chained: bool, expr: &Expr) -> Result<(), AllocError>
    ensures { IfOk result (λ _. string_bytes out.new ≡ string_bytes out.old ++ otherwise chained (printed_expr expr.now)) }
{
    if chained {
        push_expr(out, expr)
    } else {
        push_between(out, "{ ", expr, " }")
    }
}

/// Adds the second argument of `env`, if there is one.
#[cycle(print)]
fn push_second(out: &mut String, default: &Option<Boxed<Expr>>) -> Result<(), AllocError>
    ensures { IfOk result (λ _. string_bytes out.new ≡ string_bytes out.old ++ printed_second (option_map printed_expr default.now)) }
{
    match default {
        Some(inside) => push_behind(out, ", ", inside.get()),
        None => Ok(()),
    }
}

/// A comparison with its blanks.
fn sign_of(comparison: Comparison) -> &'static str
    ensures { result.now ≡ printed_comparison comparison }
{
    match comparison {
        Comparison::Equal => " == ",
        Comparison::Unequal => " != ",
    }
}

/// Adds expressions, each behind a blank.
pub fn push_values(out: &mut String, values: &[Expr]) -> Result<(), AllocError>
    ensures { IfOk result (λ _. string_bytes out.new ≡ string_bytes out.old ++ printed_values values.now) }
{
    'values: for value in values {
        push_behind(out, " ", value)?;
    }
    Ok(())
}
