//! Copies of names, strings and expressions.
ghost use Rattle.std.specs.Prelude.{◌≡◌, IfOk};
ghost use Rattle.just_lang_syntax.specs.declared.ast.Expr.TheVariants as variant;

use super::expr::boxed;
use super::{Expr, Name, StringLiteral};
use just_lang_read::Boxed;
use just_path_text::{NoMemory, TryClone};
use std::alloc::Global;

impl TryClone for Name {
    fn try_clone(&self) -> Result<Name, NoMemory> {
        let text = self.text.try_clone()?;
        Ok(Name {
            text,
            line: self.line,
            column: self.column,
        })
    }
}

impl TryClone for StringLiteral {
    fn try_clone(&self) -> Result<StringLiteral, NoMemory> {
        let raw = self.raw.try_clone()?;
        Ok(StringLiteral {
            expands: self.expands,
            quote: self.quote,
            raw,
            line: self.line,
            column: self.column,
        })
    }
}

/// A copy of an expression.
#[cycle(copy)]
pub fn copy_expr(alloc: Global, expr: &Expr) -> Result<Expr, NoMemory>
    ensures { IfOk result (λ e. e ≡ expr.now) }
{
    match expr {
        Expr::If {
            left,
            comparison,
            right,
            consequent,
            chained,
            alternative,
        } => {
            let left = copied(alloc, left)?;
            let right = copied(alloc, right)?;
            let consequent = copied(alloc, consequent)?;
            let alternative = copied(alloc, alternative)?;
            Ok(Expr::If {
                left,
                comparison: *comparison,
                right,
                consequent,
                chained: *chained,
                alternative,
            })
        }
        Expr::Root(inside) => Ok(Expr::Root(copied(alloc, inside)?)),
        Expr::Join(first, second) => {
            let first = copied(alloc, first)?;
            let second = copied(alloc, second)?;
            Ok(Expr::Join(first, second))
        }
        Expr::Concat(first, second) => {
            let first = copied(alloc, first)?;
            let second = copied(alloc, second)?;
            Ok(Expr::Concat(first, second))
        }
        Expr::Literal(string) => Ok(Expr::Literal(string.try_clone()?)),
        Expr::Variable(name) => Ok(Expr::Variable(name.try_clone()?)),
        Expr::Group(inside) => Ok(Expr::Group(copied(alloc, inside)?)),
        Expr::Env {
            line,
            column,
            key,
            default,
        } => {
            let key = copied(alloc, key)?;
            match default {
                None => Ok(env_of(*line, *column, key, None)),
                Some(default) => {
                    let default = copied(alloc, default)?;
                    Ok(env_of(*line, *column, key, Some(default)))
                }
            }
        }
    }
}

/// A copy of an expression on the heap.
#[cycle(copy)]
pub fn copied(alloc: Global, expr: &Boxed<Expr>) -> Result<Boxed<Expr>, NoMemory>
    ensures { IfOk result (λ b. b ≡ expr.now) }
{
    let copy = copy_expr(alloc, expr.get())?;
    Ok(boxed(alloc, copy)?)
}

/// The call of `env` at that place.
fn env_of(line: usize, column: usize, key: Boxed<Expr>, default: Option<Boxed<Expr>>) -> Expr
    ensures { result ≡ variant.Env line column key default }
{
    Expr::Env {
        line,
        column,
        key,
        default,
    }
}
