//! Expressions. The number `left` is how many levels may still open.
ghost use Rattle.std.specs.Prelude.{◌≡◌, IfOk};
ghost use Rattle.just_lang_read.specs.Reader.{Reads};
ghost use Rattle.just_lang_syntax.specs.Exprs.{begins_expr, begins_condition, is_call};
ghost use Rattle.just_lang_syntax.specs.Readers as read;

use super::string::string;
use super::token::name;
use super::{Comparison, Expr};
use just_lang_read::{
    Boxed, Cursor, NameStart, QuoteMark, ReadError, begins_string, behind_word, is_word, token,
    word,
};
use std::alloc::{AllocError, Global};

/// How many levels may be open at a place of an expression.
pub const LEVELS: usize = 256;

/// Whether an expression may begin here.
fn begins_expr(cursor: &Cursor<'_>) -> bool
    ensures { result ≡ begins_expr cursor.now }
{
    cursor.starts::<NameStart>()
        || cursor.starts::<QuoteMark>()
        || cursor.begins(b"(")
        || cursor.begins(b"/")
}

/// Whether the word `if` stands here before an expression; else it is a name.
fn begins_condition(cursor: &Cursor<'_>) -> bool
    ensures { result ≡ begins_condition cursor.now }
{
    is_word(cursor, b"if") && begins_expr(&behind_word(cursor))
}

/// Whether a call stands here: a name with a parenthesis behind it.
fn is_call(cursor: &Cursor<'_>) -> bool
    ensures { result ≡ is_call cursor.now }
{
    cursor.starts::<NameStart>() && behind_word(cursor).begins(b"(")
}

/// An expression on the heap, where its drop is one call.
pub(crate) fn boxed(alloc: Global, inside: Expr) -> Result<Boxed<Expr>, AllocError>
    ensures { IfOk result (λ x. x ≡ inside) }
{
    Ok(Boxed::new(alloc, inside)?)
}

/// An expression, as long as it goes.
#[cycle(expr)]
#[tactic(auto, unfolding(crate::specs::Readers::level))]
pub fn expr(alloc: Global, cursor: &mut Cursor<'_>, left: usize) -> Result<Expr, ReadError>
    ensures { Reads (read.level (read.inner left) cursor.old) result cursor.new }
{
    if begins_condition(cursor) {
        return conditional(alloc, cursor, left);
    }
    if cursor.begins(b"/") {
        return root(alloc, cursor, left);
    }
    let first = value(alloc, cursor, left)?;
    tail(alloc, cursor, left, first)
}

/// An expression a level further in.
#[cycle(expr)]
#[tactic(auto, using(crate::proofs::Levels::inner_none, crate::proofs::Levels::inner_more))]
fn inner(alloc: Global, cursor: &mut Cursor<'_>, left: usize) -> Result<Boxed<Expr>, ReadError>
    ensures { Reads (read.inner left cursor.old) result cursor.new }
{
    if left == 0 {
        return Err(ReadError::Depth);
    }
    let inside = expr(alloc, cursor, left - 1)?;
    Ok(boxed(alloc, inside)?)
}

/// A token, and an expression behind it.
#[cycle(expr)]
fn operand(
    alloc: Global,
    cursor: &mut Cursor<'_>,
    left: usize,
    text: &[u8],
) -> Result<Boxed<Expr>, ReadError>
    ensures { Reads (read.operand (read.inner left) text.now cursor.old) result cursor.new }
{
    token(cursor, text)?;
    inner(alloc, cursor, left)
}

/// `/ EXPR`
#[cycle(expr)]
#[tactic(auto, unfolding(crate::specs::Readers::root))]
fn root(alloc: Global, cursor: &mut Cursor<'_>, left: usize) -> Result<Expr, ReadError>
    ensures { Reads (read.root (read.inner left) cursor.old) result cursor.new }
{
    let inside = operand(alloc, cursor, left, b"/")?;
    Ok(Expr::Root(inside))
}

/// `if LEFT == RIGHT { CONSEQUENT } else ..`
#[cycle(expr)]
#[tactic(auto, unfolding(crate::specs::Readers::conditional))]
fn conditional(alloc: Global, cursor: &mut Cursor<'_>, left: usize) -> Result<Expr, ReadError>
    ensures { Reads (read.conditional (read.inner left) cursor.old) result cursor.new }
{
    token(cursor, b"if")?;
    let condition = condition(alloc, cursor, left)?;
    branches(alloc, cursor, left, condition)
}

/// What stands behind the condition of an `if`.
#[cycle(expr)]
fn branches(
    alloc: Global,
    cursor: &mut Cursor<'_>,
    left: usize,
    condition: (Boxed<Expr>, Comparison, Boxed<Expr>),
) -> Result<Expr, ReadError>
    ensures { Reads (read.branches (read.inner left) condition cursor.old) result cursor.new }
{
    let consequent = block(alloc, cursor, left)?;
    let alternative = alternative(alloc, cursor, left)?;
    Ok(join_if(condition, consequent, alternative))
}

/// `else`, and what stands behind it.
#[cycle(expr)]
fn alternative(
    alloc: Global,
    cursor: &mut Cursor<'_>,
    left: usize,
) -> Result<(bool, Boxed<Expr>), ReadError>
    ensures { Reads (read.alternative (read.inner left) cursor.old) result cursor.new }
{
    word(cursor, b"else")?;
    otherwise(alloc, cursor, left)
}

/// `LEFT == RIGHT` or `LEFT != RIGHT`
#[cycle(expr)]
#[tactic(auto, unfolding(crate::specs::Readers::condition))]
fn condition(
    alloc: Global,
    cursor: &mut Cursor<'_>,
    left: usize,
) -> Result<(Boxed<Expr>, Comparison, Boxed<Expr>), ReadError>
    ensures { Reads (read.condition (read.inner left) cursor.old) result cursor.new }
{
    let first = inner(alloc, cursor, left)?;
    let comparison = comparison(cursor)?;
    let second = inner(alloc, cursor, left)?;
    Ok((first, comparison, second))
}

#[tactic(auto, unfolding(crate::specs::Readers::comparison))]
fn comparison(cursor: &mut Cursor<'_>) -> Result<Comparison, ReadError>
    ensures { Reads (read.comparison cursor.old) result cursor.new }
{
    if cursor.begins(b"==") {
        token(cursor, b"==")?;
        Ok(Comparison::Equal)
    } else {
        token(cursor, b"!=")?;
        Ok(Comparison::Unequal)
    }
}

/// `{ EXPR }`
#[cycle(expr)]
#[tactic(auto, unfolding(crate::specs::Readers::block))]
fn block(alloc: Global, cursor: &mut Cursor<'_>, left: usize) -> Result<Boxed<Expr>, ReadError>
    ensures { Reads (read.block (read.inner left) cursor.old) result cursor.new }
{
    let inside = operand(alloc, cursor, left, b"{")?;
    token(cursor, b"}")?;
    Ok(inside)
}

/// What stands behind `else`: a further `if`, or a block.
#[cycle(expr)]
#[tactic(auto, unfolding(crate::specs::Readers::otherwise))]
fn otherwise(
    alloc: Global,
    cursor: &mut Cursor<'_>,
    left: usize,
) -> Result<(bool, Boxed<Expr>), ReadError>
    ensures { Reads (read.otherwise (read.inner left) cursor.old) result cursor.new }
{
    if begins_condition(cursor) {
        let further = inner(alloc, cursor, left)?;
        Ok((true, further))
    } else {
        let last = block(alloc, cursor, left)?;
        Ok((false, last))
    }
}

/// The `if` of its parts.
fn join_if(
    condition: (Boxed<Expr>, Comparison, Boxed<Expr>),
    consequent: Boxed<Expr>,
    alternative: (bool, Boxed<Expr>),
) -> Expr
    ensures { result ≡ Expr.If condition.0 condition.1 condition.2
        consequent alternative.0 alternative.1 }
{
    let (left, comparison, right) = condition;
    let (chained, alternative) = alternative;
    Expr::If {
        left,
        comparison,
        right,
        consequent,
        chained,
        alternative,
    }
}

/// A value: what an operator may join.
#[cycle(expr)]
#[tactic(auto, unfolding(crate::specs::Readers::value))]
pub fn value(alloc: Global, cursor: &mut Cursor<'_>, left: usize) -> Result<Expr, ReadError>
    ensures { Reads (read.value (read.inner left) cursor.old) result cursor.new }
{
    if begins_string(cursor) {
        let text = string(alloc, cursor)?;
        return Ok(Expr::Literal(text));
    }
    if cursor.begins(b"(") {
        return group(alloc, cursor, left);
    }
    if is_call(cursor) {
        return env(alloc, cursor, left);
    }
    let name = name(alloc, cursor)?;
    Ok(Expr::Variable(name))
}

/// `(EXPR)`
#[cycle(expr)]
#[tactic(auto, unfolding(crate::specs::Readers::group))]
fn group(alloc: Global, cursor: &mut Cursor<'_>, left: usize) -> Result<Expr, ReadError>
    ensures { Reads (read.group (read.inner left) cursor.old) result cursor.new }
{
    let inside = operand(alloc, cursor, left, b"(")?;
    token(cursor, b")")?;
    Ok(Expr::Group(inside))
}

/// `env(KEY)` or `env(KEY, DEFAULT)`
#[cycle(expr)]
#[tactic(auto, unfolding(crate::specs::Readers::env))]
fn env(alloc: Global, cursor: &mut Cursor<'_>, left: usize) -> Result<Expr, ReadError>
    ensures { Reads (read.env (read.inner left) cursor.old) result cursor.new }
{
    let line = cursor.line();
    let column = cursor.column();
    word(cursor, b"env")?;
    let key = operand(alloc, cursor, left, b"(")?;
    let default = default(alloc, cursor, left)?;
    token(cursor, b")")?;
    Ok(Expr::Env {
        line,
        column,
        key,
        default,
    })
}

/// What stands behind the comma of `env`, if there is one.
#[cycle(expr)]
#[tactic(auto, unfolding(crate::specs::Readers::default))]
fn default(
    alloc: Global,
    cursor: &mut Cursor<'_>,
    left: usize,
) -> Result<Option<Boxed<Expr>>, ReadError>
    ensures { Reads (read.default (read.inner left) cursor.old) result cursor.new }
{
    if !cursor.begins(b",") {
        return Ok(None);
    }
    let inside = operand(alloc, cursor, left, b",")?;
    Ok(Some(inside))
}

/// What follows the first value of an expression.
#[cycle(expr)]
#[tactic(auto, unfolding(crate::specs::Readers::tail))]
fn tail(alloc: Global, cursor: &mut Cursor<'_>, left: usize, first: Expr) -> Result<Expr, ReadError>
    ensures { Reads (read.tail (read.inner left) first cursor.old) result cursor.new }
{
    if cursor.begins(b"/") {
        return join(alloc, cursor, left, first);
    }
    if cursor.begins(b"+") {
        return concat(alloc, cursor, left, first);
    }
    Ok(first)
}

/// `/ EXPR` behind a value.
#[cycle(expr)]
fn join(alloc: Global, cursor: &mut Cursor<'_>, left: usize, first: Expr) -> Result<Expr, ReadError>
    ensures { Reads (read.join (read.inner left) first cursor.old) result cursor.new }
{
    let first = boxed(alloc, first)?;
    let second = operand(alloc, cursor, left, b"/")?;
    Ok(Expr::Join(first, second))
}

/// `+ EXPR` behind a value.
#[cycle(expr)]
fn concat(
    alloc: Global,
    cursor: &mut Cursor<'_>,
    left: usize,
    first: Expr,
) -> Result<Expr, ReadError>
    ensures { Reads (read.concat (read.inner left) first cursor.old) result cursor.new }
{
    let first = boxed(alloc, first)?;
    let second = operand(alloc, cursor, left, b"+")?;
    Ok(Expr::Concat(first, second))
}
