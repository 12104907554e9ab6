//! Attributes, and the ends of items' lines, as texts.
ghost use Rattle.std.specs.Prelude.{◌≡◌, ◌++◌, map, codes, IfOk, string_bytes};
ghost use Rattle.just_print.specs.Printed.{led, printed_end, printed_key, printed_argument, printed_arguments, behind_attribute, printed_attribute, printed_attributes};
ghost use Rattle.just_print.specs.Shown.{plain_attribute};

use super::expr::{push_expr, push_three, push_two};
use just_lang_syntax::{Argument, Attribute, Name};
use just_path_text::Text;
use std::alloc::AllocError;

/// Adds the end of an item's line, with the comment behind it.
pub fn push_end(out: &mut String, comment: &Option<Text>) -> Result<(), AllocError>
    ensures { IfOk result (λ _. string_bytes out.new ≡ string_bytes out.old ++ printed_end comment.now) }
{
    match comment {
        Some(text) => push_three(out, " ", text.as_str(), "\n"),
        None => out.push_str("\n"),
    }
}

/// Adds attributes, each on a line of its own.
pub fn push_attributes(out: &mut String, attributes: &[Attribute]) -> Result<(), AllocError>
    ensures { IfOk result (λ _. string_bytes out.new ≡ string_bytes out.old ++ printed_attributes attributes.now) }
{
    'attributes: for attribute in attributes {
        push_attribute(out, attribute)?;
    }
    Ok(())
}

/// Adds attributes, each on a line of its own, without the comments behind them.
pub fn push_plain_attributes(out: &mut String, attributes: &[Attribute]) -> Result<(), AllocError>
    ensures { IfOk result (λ _. string_bytes out.new ≡ string_bytes out.old ++ printed_attributes (map plain_attribute attributes.now)) }
{
    'attributes: for attribute in attributes {
        push_commented(out, attribute, &None)?;
    }
    Ok(())
}

fn push_attribute(out: &mut String, attribute: &Attribute) -> Result<(), AllocError>
    ensures { IfOk result (λ _. string_bytes out.new ≡ string_bytes out.old ++ printed_attribute attribute.now) }
{
    push_commented(out, attribute, &attribute.comment)
}

/// Adds an attribute with this comment behind it in place of its own.
fn push_commented(
    out: &mut String,
    attribute: &Attribute,
    comment: &Option<Text>,
) -> Result<(), AllocError>
    ensures { IfOk result (λ _. string_bytes out.new ≡ string_bytes out.old ++ printed_attribute (record attribute.now { comment = comment.now })) }
{
    push_two(out, "[", attribute.name.text.as_str())?;
    push_behind_name(out, attribute.colon, attribute.arguments.as_slice())?;
    out.push_str("]")?;
    push_end(out, comment)
}

/// Adds what stands behind an attribute's name.
fn push_behind_name(out: &mut String, colon: bool, arguments: &[Argument]) -> Result<(), AllocError>
    ensures { IfOk result (λ _. string_bytes out.new ≡ string_bytes out.old ++ behind_attribute colon arguments.now) }
{
    if colon {
        out.push_str(": ")?;
        return push_arguments(out, arguments);
    }
    match arguments {
        [] => Ok(()),
        [_first, ..] => {
            out.push_str("(")?;
            push_arguments(out, arguments)?;
            out.push_str(")")
        }
    }
}

/// Adds arguments with commas between them.
fn push_arguments(out: &mut String, arguments: &[Argument]) -> Result<(), AllocError>
    ensures { IfOk result (λ _. string_bytes out.new ≡ string_bytes out.old ++ printed_arguments arguments.now) }
{
    match arguments {
        [] => Ok(()),
        [first, others @ ..] => {
            push_argument(out, first)?;
            push_further_arguments(out, others)
        }
    }
}

/// Adds arguments, each behind a comma.
fn push_further_arguments(out: &mut String, arguments: &[Argument]) -> Result<(), AllocError>
    ensures { IfOk result (λ _. string_bytes out.new ≡ string_bytes out.old ++ led (codes ", ") (map printed_argument arguments.now)) }
{
    'arguments: for argument in arguments {
        out.push_str(", ")?;
        push_argument(out, argument)?;
    }
    Ok(())
}

fn push_argument(out: &mut String, argument: &Argument) -> Result<(), AllocError>
    ensures { IfOk result (λ _. string_bytes out.new ≡ string_bytes out.old ++ printed_argument argument.now) }
{
    push_key(out, &argument.key)?;
    push_expr(out, &argument.value)
}

fn push_key(out: &mut String, key: &Option<Name>) -> Result<(), AllocError>
    ensures { IfOk result (λ _. string_bytes out.new ≡ string_bytes out.old ++ printed_key key.now) }
{
    match key {
        Some(name) => push_two(out, name.text.as_str(), "="),
        None => Ok(()),
    }
}
