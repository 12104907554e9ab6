//! The texts of constant expressions.
ghost use Rattle.std.specs.Prelude.{◌≡◌, ◌++◌, if◌then◌else◌, IfOk, Some};
ghost use Rattle.std.specs.Option.{option_and_then};
ghost use Rattle.just_lang_types.specs.ConstantTexts.{is_comparison, with_slash, with_both, const_text};
ghost use Rattle.just_lang_types.specs.Constants.{constant_of};

use super::constants::constant;
use super::texts::Texts;
use just_lang_syntax::{Comparison, Expr};
use just_path_text::{NoMemory, Text};
use std::alloc::Global;

/// Whether a condition holds of two texts.
fn holds(comparison: Comparison, left: &str, right: &str) -> bool
    ensures { result ≡ is_comparison comparison left.now right.now }
{
    match comparison {
        Comparison::Equal => left == right,
        Comparison::Unequal => left != right,
    }
}

/// Three texts, one behind the other.
fn joined(alloc: Global, first: &str, between: &str, second: &str) -> Result<Text, NoMemory>
    ensures { IfOk result (λ t. t ≡ first.now ++ (between.now ++ second.now)) }
{
    let mut text = String::from_str(alloc, between)?;
    text.push_str(second)?;
    let mut whole = String::from_str(alloc, first)?;
    whole.push_str(text.as_str())?;
    Ok(Text::from(whole))
}

/// A constant's text.
fn constant_text(alloc: Global, name: &str) -> Result<Option<Text>, NoMemory>
    ensures { IfOk result (λ t. t ≡ constant_of name.now) }
{
    match constant(name) {
        None => Ok(None),
        Some(text) => Ok(Some(Text::from_str(alloc, text)?)),
    }
}

/// The text of a constant expression; none where it isn't constant, or a string in it has none.
pub fn const_text<T: Texts>(alloc: Global, texts: &T, expr: &Expr) -> Result<Option<Text>, NoMemory>
    ensures { IfOk result (λ t. t ≡ const_text (T.text_of texts.now) expr.now) }
{
    match expr {
        Expr::If {
            left,
            comparison,
            right,
            consequent,
            alternative,
            ..
        } => {
            let left = const_text(alloc, texts, left.get())?;
            let right = const_text(alloc, texts, right.get())?;
            let test = compared(*comparison, left, right);
            let consequent = const_text(alloc, texts, consequent.get())?;
            let alternative = const_text(alloc, texts, alternative.get())?;
            Ok(chosen(test, consequent, alternative))
        }
        Expr::Root(inside) => {
            let inside = const_text(alloc, texts, inside.get())?;
            with_slash(alloc, inside)
        }
        Expr::Join(first, second) => {
            let first = const_text(alloc, texts, first.get())?;
            let second = const_text(alloc, texts, second.get())?;
            both(alloc, first, "/", second)
        }
        Expr::Concat(first, second) => {
            let first = const_text(alloc, texts, first.get())?;
            let second = const_text(alloc, texts, second.get())?;
            both(alloc, first, "", second)
        }
        Expr::Literal(literal) => texts.text(alloc, literal),
        Expr::Variable(name) => constant_text(alloc, name.text.as_str()),
        Expr::Group(inside) => const_text(alloc, texts, inside.get()),
        Expr::Env { .. } => Ok(None),
    }
}

/// Whether a condition holds of two texts, where there are both.
fn compared(comparison: Comparison, left: Option<Text>, right: Option<Text>) -> Option<bool>
    ensures { result ≡ with_both (λ a b. Some (is_comparison comparison a b)) left right }
{
    match left {
        None => None,
        Some(left) => match right {
            None => None,
            Some(right) => Some(holds(comparison, left.as_str(), right.as_str())),
        },
    }
}

/// The one or the other text, by what a condition came to.
fn chosen(test: Option<bool>, consequent: Option<Text>, alternative: Option<Text>) -> Option<Text>
    ensures { result ≡ option_and_then (λ b. if b then consequent else alternative) test }
{
    match test {
        None => None,
        Some(true) => consequent,
        Some(false) => alternative,
    }
}

/// A text behind `/`.
fn with_slash(alloc: Global, inside: Option<Text>) -> Result<Option<Text>, NoMemory>
    ensures { IfOk result (λ t. t ≡ with_slash inside) }
{
    match inside {
        None => Ok(None),
        Some(inside) => Ok(Some(joined(alloc, "", "/", inside.as_str())?)),
    }
}

/// Two texts with another between them.
fn both(
    alloc: Global,
    first: Option<Text>,
    between: &str,
    second: Option<Text>,
) -> Result<Option<Text>, NoMemory>
    ensures { IfOk result (λ t. t ≡ with_both (λ a b. Some (a ++ (between.now ++ b))) first second) }
{
    match (first, second) {
        (Some(first), Some(second)) => Ok(Some(joined(
            alloc,
            first.as_str(),
            between,
            second.as_str(),
        )?)),
        _ => Ok(None),
    }
}
