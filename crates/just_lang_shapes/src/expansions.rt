//! Copies of what stands in items, where each string with an `x` in front gives way to the text that it expands to.
ghost use Rattle.std.specs.Prelude.{◌≡◌, map, IfOk};
ghost use Rattle.just_lang_shapes.specs.Expansions.{literal_with, expanded_literal, expanded_expr, expanded_exprs, expanded_default};

use just_lang_read::Boxed;
use just_lang_syntax::{Expr, Quote, StringLiteral};
use just_lang_types::Texts;
use just_path_text::{NoMemory, Seq, Text, TryClone};
use std::alloc::Global;

/// What has strings in it that may expand.
pub(crate) trait Expand: Drop {
    ghost use Rattle.std.specs.Prelude.{◌≡◌, IfOk, List, Option, ℕ};
    ghost use Rattle.just_lang_syntax.specs.declared.ast.StringLiteral.{StringLiteral};

    /// The copy, by the texts of strings.
    ghost expansion: { (StringLiteral → Option (List ℕ)) → Self → Self };

    /// A copy with its strings expanded.
    fn expanded<T: Texts>(&self, alloc: Global, texts: &T) -> Result<Self, NoMemory>
        ensures { IfOk result (λ x. x ≡ expansion (T.text_of texts.now) self.now) };
}

/// Copies of some things with their strings expanded.
pub(crate) fn expanded_each<T: Texts, X: Expand>(
    alloc: Global,
    texts: &T,
    things: &[X],
) -> Result<Seq<X>, NoMemory>
    ensures { IfOk result (λ all. all ≡ map (X.expansion (T.text_of texts.now)) things.now) }
{
    let mut all = Vec::with_capacity(alloc, things.len())?;
    'things: for thing in things {
        let expanded = thing.expanded(alloc, texts)?;
        all.push(expanded)?;
    }
    Ok(Seq::from(all))
}

/// A string of that text, at the place of another.
fn literal_with(literal: &StringLiteral, text: Text) -> StringLiteral
    ensures { result ≡ literal_with literal.now text }
{
    StringLiteral {
        expands: false,
        quote: Quote::Single,
        raw: text,
        line: literal.line,
        column: literal.column,
    }
}

/// A string, or the text that it expands to where it has an `x` in front.
fn expanded_literal<T: Texts>(
    alloc: Global,
    texts: &T,
    literal: &StringLiteral,
) -> Result<StringLiteral, NoMemory>
    ensures { IfOk result (λ x. x ≡ expanded_literal (T.text_of texts.now) literal.now) }
{
    if !literal.expands {
        return literal.try_clone();
    }
    match texts.text(alloc, literal)? {
        Some(text) => Ok(literal_with(literal, text)),
        None => literal.try_clone(),
    }
}

/// Moves an expression to the heap.
fn boxed(alloc: Global, expr: Expr) -> Result<Boxed<Expr>, NoMemory>
    ensures { IfOk result (λ b. b ≡ expr) }
{
    Ok(Boxed::new(alloc, expr)?)
}

/// An expression inside another, on the heap, with its strings expanded.
#[cycle(expanding)]
fn expanded_inside<T: Texts>(
    alloc: Global,
    texts: &T,
    inside: &Boxed<Expr>,
) -> Result<Boxed<Expr>, NoMemory>
    ensures { IfOk result (λ b. b ≡ expanded_expr (T.text_of texts.now) inside.now) }
{
    let expanded = expanded_expr(alloc, texts, inside.get())?;
    boxed(alloc, expanded)
}

/// An expression with its strings expanded.
#[cycle(expanding)]
pub fn expanded_expr<T: Texts>(alloc: Global, texts: &T, expr: &Expr) -> Result<Expr, NoMemory>
    ensures { IfOk result (λ x. x ≡ expanded_expr (T.text_of texts.now) expr.now) }
{
    match expr {
        Expr::If {
            left,
            comparison,
            right,
            consequent,
            chained,
            alternative,
        } => {
            let left = expanded_inside(alloc, texts, left)?;
            let right = expanded_inside(alloc, texts, right)?;
            let consequent = expanded_inside(alloc, texts, consequent)?;
            let alternative = expanded_inside(alloc, texts, alternative)?;
            Ok(Expr::If {
                left,
                comparison: *comparison,
                right,
                consequent,
                chained: *chained,
                alternative,
            })
        }
        Expr::Root(inside) => Ok(Expr::Root(expanded_inside(alloc, texts, inside)?)),
        Expr::Join(first, second) => {
            let first = expanded_inside(alloc, texts, first)?;
            let second = expanded_inside(alloc, texts, second)?;
            Ok(Expr::Join(first, second))
        }
        Expr::Concat(first, second) => {
            let first = expanded_inside(alloc, texts, first)?;
            let second = expanded_inside(alloc, texts, second)?;
            Ok(Expr::Concat(first, second))
        }
        Expr::Literal(literal) => Ok(Expr::Literal(expanded_literal(alloc, texts, literal)?)),
        Expr::Variable(name) => Ok(Expr::Variable(name.try_clone()?)),
        Expr::Group(inside) => Ok(Expr::Group(expanded_inside(alloc, texts, inside)?)),
        Expr::Env {
            line,
            column,
            key,
            default,
        } => {
            let key = expanded_inside(alloc, texts, key)?;
            match default {
                None => Ok(Expr::Env {
                    line: *line,
                    column: *column,
                    key,
                    default: None,
                }),
                Some(default) => {
                    let default = expanded_inside(alloc, texts, default)?;
                    Ok(Expr::Env {
                        line: *line,
                        column: *column,
                        key,
                        default: Some(default),
                    })
                }
            }
        }
    }
}

impl Expand for Expr {
    ghost use Rattle.just_lang_shapes.specs.Expansions.{expanded_expr};

    ghost expansion = { λ text_of x. expanded_expr text_of x };

    fn expanded<T: Texts>(&self, alloc: Global, texts: &T) -> Result<Expr, NoMemory> {
        expanded_expr(alloc, texts, self)
    }
}

/// Expressions with their strings expanded.
pub fn expanded_exprs<T: Texts>(
    alloc: Global,
    texts: &T,
    exprs: &[Expr],
) -> Result<Seq<Expr>, NoMemory>
    ensures { IfOk result (λ all. all ≡ expanded_exprs (T.text_of texts.now) exprs.now) }
{
    expanded_each(alloc, texts, exprs)
}

/// The default of a parameter with its strings expanded, where there is one.
pub(crate) fn expanded_default<T: Texts>(
    alloc: Global,
    texts: &T,
    default: &Option<Expr>,
) -> Result<Option<Expr>, NoMemory>
    ensures { IfOk result (λ x. x ≡ expanded_default (T.text_of texts.now) default.now) }
{
    match default {
        None => Ok(None),
        Some(expr) => Ok(Some(expanded_expr(alloc, texts, expr)?)),
    }
}
