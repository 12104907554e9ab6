//! The values of expressions.

ghost use Rattle.std.specs.Prelude.{◌≡◌, ◌++◌, ℕ, List, Ok, IfOk};
ghost use Rattle.std.specs.Option.{option_copied};
ghost use Rattle.just_path_text.specs.Environ.{value_of};
ghost use Rattle.just_eval_closure.specs.Scopes.{found_in};
ghost use Rattle.just_eval_closure.specs.Values.{Valued, value, asked_value, literal_text, compares, compared_by, rooted_value, joined_value};
ghost use Rattle.just_eval_closure.specs.Asked.{AsksFor};

use just_lang_read::{Boxed, ReadError};
use just_lang_syntax::{Comparison, Expr, StringLiteral};
use just_path_text::{Environ, NoMemory, Text};
use std::alloc::Global;

/// What names mean.
pub trait Names {
    /// What each name means.
    ghost meaning: { Self → List ℕ → Valued };

    /// What a name means: a text, or the variable that its value asks the environment for and that isn't there.
    fn meaning(&self, alloc: Global, name: &Text) -> Result<Result<Text, Text>, NoMemory>
        ensures { IfOk result (λ v. v ≡ meaning self.now name.now) };
}

/// What `env` asks: dotenv pairs, and then the environment.
#[derive(Clone, Copy)]
pub struct Env<'e> {
    pub pairs: &'e [(Text, Text)],
    pub environ: &'e Environ,
}

impl Env<'_> {
    /// The value of that name.
    fn get(&self, name: &str) -> Option<&str>
        ensures { option_copied result ≡ found_in self.now.pairs.now self.now.environ.now.pairs name.now }
    {
        match last_value(self.pairs, name) {
            Some(value) => Some(value),
            None => self.environ.get(name),
        }
    }
}

/// The value of the last pair of that name.
fn last_value<'p>(pairs: &'p [(Text, Text)], name: &str) -> Option<&'p str>
    ensures { option_copied result ≡ value_of name.now pairs.now }
{
    let mut found: Option<&str> = None;
    'pairs: for pair in pairs {
        if pair.0.as_str() == name {
            found = Some(pair.1.as_str());
        }
    }
    found
}

/// The value of an expression: a text, or the first variable that it asks the environment for and that isn't there.
#[cycle(value)]
#[tactic(auto, using(crate::proofs::Exprs::is_then, crate::proofs::Exprs::is_else, crate::proofs::Exprs::is_condition_refused, crate::proofs::Exprs::is_root, crate::proofs::Exprs::is_join, crate::proofs::Exprs::is_concat, crate::proofs::Exprs::is_literal, crate::proofs::Exprs::is_variable, crate::proofs::Exprs::is_group, crate::proofs::Exprs::is_env))]
pub fn value<N: Names>(
    alloc: Global,
    names: &N,
    env: &Env<'_>,
    expr: &Expr,
) -> Result<Result<Text, Text>, NoMemory>
    ensures { IfOk result (λ v. v ≡ value (N.meaning names.now) (found_in env.now.pairs.now env.now.environ.now.pairs) expr.now) }
{
    match expr {
        Expr::If {
            left,
            comparison,
            right,
            consequent,
            alternative,
            ..
        } => {
            let left = value(alloc, names, env, left.get())?;
            match holds(*comparison, left, value(alloc, names, env, right.get()))? {
                Ok(true) => value(alloc, names, env, consequent.get()),
                Ok(false) => value(alloc, names, env, alternative.get()),
                Err(name) => Ok(Err(name)),
            }
        }
        Expr::Root(inside) => rooted(alloc, value(alloc, names, env, inside.get())),
        Expr::Join(first, second) => {
            let first = value(alloc, names, env, first.get())?;
            joined(alloc, first, "/", value(alloc, names, env, second.get()))
        }
        Expr::Concat(first, second) => {
            let first = value(alloc, names, env, first.get())?;
            joined(alloc, first, "", value(alloc, names, env, second.get()))
        }
        Expr::Literal(string) => literal(alloc, string),
        Expr::Variable(name) => names.meaning(alloc, &name.text),
        Expr::Group(inside) => value(alloc, names, env, inside.get()),
        Expr::Env { key, default, .. } => {
            let key = value(alloc, names, env, key.get())?;
            asked_value(alloc, names, env, key, default)
        }
    }
}

/// What `env` gives for the value of its key and its second argument, if there is one.
#[cycle(value)]
#[tactic(auto, using(crate::proofs::Exprs::asked_found, crate::proofs::Exprs::asked_default, crate::proofs::Exprs::asked_absent, crate::proofs::Exprs::asked_refused))]
fn asked_value<N: Names>(
    alloc: Global,
    names: &N,
    env: &Env<'_>,
    key: Result<Text, Text>,
    default: &Option<Boxed<Expr>>,
) -> Result<Result<Text, Text>, NoMemory>
    ensures { IfOk result (λ v. v ≡ asked_value (N.meaning names.now)
        (found_in env.now.pairs.now env.now.environ.now.pairs) key default.now) }
{
    match (found(alloc, env, key)?, default) {
        (Asked::Found(text), _) => Ok(Ok(text)),
        (Asked::Refused(name), _) => Ok(Err(name)),
        (Asked::Absent(_), Some(expr)) => value(alloc, names, env, expr.get()),
        (Asked::Absent(name), None) => Ok(Err(name)),
    }
}

/// What the environment says of the variable that a value names.
#[derive(Drop)]
enum Asked {
    /// It has that value.
    Found(Text),
    /// It isn't there.
    Absent(Text),
    /// The value that would name it is refused: this variable isn't there.
    Refused(Text),
}

/// What the environment says of the variable that a value names.
fn found(alloc: Global, env: &Env<'_>, key: Result<Text, Text>) -> Result<Asked, NoMemory>
    ensures { IfOk result (λ asked. AsksFor (found_in env.now.pairs.now env.now.environ.now.pairs) key asked) }
{
    let name = match key {
        Ok(name) => name,
        Err(name) => return Ok(Asked::Refused(name)),
    };
    match env.get(name.as_str()) {
        Some(text) => Ok(Asked::Found(Text::from_str(alloc, text)?)),
        None => Ok(Asked::Absent(name)),
    }
}

/// Whether two values compare so, where there are both; the second one is that of a call, which may want memory.
fn holds(
    comparison: Comparison,
    left: Result<Text, Text>,
    right: Result<Result<Text, Text>, NoMemory>,
) -> Result<Result<bool, Text>, NoMemory>
    ensures { IfOk result (λ c. (r : Valued) × (right ≡ Ok r) × (c ≡ compared_by comparison left r)) }
{
    match (left, right?) {
        (Ok(left), Ok(right)) => Ok(Ok(compares(comparison, left.as_str(), right.as_str()))),
        (Ok(_), Err(name)) => Ok(Err(name)),
        (Err(name), _) => Ok(Err(name)),
    }
}

/// Whether two texts compare so.
fn compares(comparison: Comparison, some: &str, other: &str) -> bool
    ensures { result ≡ compares comparison some.now other.now }
{
    match comparison {
        Comparison::Equal => some == other,
        Comparison::Unequal => some != other,
    }
}

/// The value of a call behind a slash, where there is one.
fn rooted(
    alloc: Global,
    inside: Result<Result<Text, Text>, NoMemory>,
) -> Result<Result<Text, Text>, NoMemory>
    ensures { IfOk result (λ v. (s : Valued) × (inside ≡ Ok s) × (v ≡ rooted_value s)) }
{
    match inside? {
        Ok(text) => Ok(Ok(concatenation(alloc, "", "/", text.as_str())?)),
        Err(name) => Ok(Err(name)),
    }
}

/// Two values with a text between them, where there are both; the second one is that of a call, which may want memory.
fn joined(
    alloc: Global,
    first: Result<Text, Text>,
    between: &str,
    second: Result<Result<Text, Text>, NoMemory>,
) -> Result<Result<Text, Text>, NoMemory>
    ensures { IfOk result (λ v. (s : Valued) × (second ≡ Ok s) × (v ≡ joined_value first between.now s)) }
{
    match (first, second?) {
        (Ok(first), Ok(second)) => {
            let text = concatenation(alloc, first.as_str(), between, second.as_str())?;
            Ok(Ok(text))
        }
        (Ok(_), Err(name)) => Ok(Err(name)),
        (Err(name), _) => Ok(Err(name)),
    }
}

/// Three texts, one behind the other.
fn concatenation(alloc: Global, first: &str, second: &str, third: &str) -> Result<Text, NoMemory>
    ensures { IfOk result (λ t. t ≡ first.now ++ (second.now ++ third.now)) }
{
    let mut text = String::new(alloc);
    text.push_str(first)?;
    text.push_str(second)?;
    text.push_str(third)?;
    Ok(Text::from(text))
}

/// The text of a string; the empty text where it means none, which no string of a sound justfile does.
fn literal(alloc: Global, string: &StringLiteral) -> Result<Result<Text, Text>, NoMemory>
    ensures { IfOk result (λ v. v ≡ Ok (literal_text string.now)) }
{
    match string.text(alloc) {
        Ok(text) => Ok(Ok(text)),
        Err(ReadError::NoMemory) => Err(NoMemory),
        Err(ReadError::Syntax | ReadError::Depth) => Ok(Ok(Text::from(String::new(alloc)))),
    }
}
