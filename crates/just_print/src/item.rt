//! Items as texts.
ghost use Rattle.std.specs.Prelude.{◌≡◌, ◌++◌, map, codes, IfOk, string_bytes};
ghost use Rattle.just_print.specs.Printed.{led, only_if, printed_string, printed_strings, printed_expr, printed_value, printed_end, printed_attributes, printed_setting, printed_word, printed_file, printed_recipe, printed_item};

use super::attribute::{push_attributes, push_end};
use super::body::push_body;
use super::expr::{push_expr, push_if, push_path, push_string, push_three, push_two};
use super::recipe::push_recipe_line;
use just_lang_syntax::{AstItem, AstRecipe, Attribute, Expr, Name, SettingValue, StringLiteral};
use just_path_text::Text;
use std::alloc::{AllocError, Global};

/// Adds an item.
pub fn push_item(
    alloc: Global,
    out: &mut String,
    item: &AstItem,
    indentation: &str,
) -> Result<(), AllocError>
    ensures { IfOk result (λ _. string_bytes out.new ≡ string_bytes out.old ++ printed_item indentation.now item.now) }
{
    match item {
        AstItem::Blank => out.push_str("\n"),
        AstItem::Comment(text) => push_two(out, text.as_str(), "\n"),
        AstItem::Alias {
            name,
            target,
            comment,
        } => {
            push_three(out, "alias ", name.text.as_str(), " := ")?;
            push_path(out, target.as_slice())?;
            push_end(out, comment)
        }
        AstItem::Import {
            optional,
            path,
            comment,
        } => {
            push_word(out, "import", *optional)?;
            push_string(out, path)?;
            push_end(out, comment)
        }
        AstItem::Module {
            attributes,
            optional,
            name,
            path,
            comment,
        } => push_module(out, attributes.as_slice(), *optional, name, path, comment),
        AstItem::Assignment {
            export,
            name,
            value,
            comment,
        } => push_assignment(out, *export, name, value, comment),
        AstItem::Unexport { name, comment } => {
            push_two(out, "unexport ", name.text.as_str())?;
            push_end(out, comment)
        }
        AstItem::Setting {
            name,
            value,
            comment,
        } => {
            push_two(out, "set ", name.text.as_str())?;
            push_setting(out, value)?;
            push_end(out, comment)
        }
        AstItem::Recipe(recipe) => push_recipe(alloc, out, recipe.get(), indentation),
    }
}

/// Adds a module, with its attributes and its file.
fn push_module(
    out: &mut String,
    attributes: &[Attribute],
    optional: bool,
    name: &Name,
    path: &Option<StringLiteral>,
    comment: &Option<Text>,
) -> Result<(), AllocError>
    ensures { IfOk result
        (λ _. string_bytes out.new
        ≡ string_bytes out.old
        ++ (printed_attributes attributes.now
        ++ (printed_word (codes "mod") optional
        ++ (name.now.text ++ (printed_file path.now ++ printed_end comment.now))))) }
{
    push_attributes(out, attributes)?;
    push_word(out, "mod", optional)?;
    out.push_str(name.text.as_str())?;
    push_file(out, path)?;
    push_end(out, comment)
}

/// Adds an assignment.
fn push_assignment(
    out: &mut String,
    export: bool,
    name: &Name,
    value: &Expr,
    comment: &Option<Text>,
) -> Result<(), AllocError>
    ensures { IfOk result
        (λ _. string_bytes out.new
        ≡ string_bytes out.old
        ++ (only_if export (codes "export ")
        ++ (name.now.text
        ++ (codes " := " ++ (printed_expr value.now ++ printed_end comment.now))))) }
{
    push_if(out, export, "export ")?;
    push_two(out, name.text.as_str(), " := ")?;
    push_expr(out, value)?;
    push_end(out, comment)
}

/// Adds a word, with a `?` where it is optional that the file is there.
fn push_word(out: &mut String, word: &str, optional: bool) -> Result<(), AllocError>
    ensures { IfOk result (λ _. string_bytes out.new ≡ string_bytes out.old ++ printed_word word.now optional) }
{
    out.push_str(word)?;
    push_if(out, optional, "?")?;
    out.push_str(" ")
}

/// Adds a recipe, with its attributes and its body.
fn push_recipe(
    alloc: Global,
    out: &mut String,
    recipe: &AstRecipe,
    indentation: &str,
) -> Result<(), AllocError>
    ensures { IfOk result (λ _. string_bytes out.new ≡ string_bytes out.old ++ printed_recipe indentation.now recipe.now) }
{
    push_attributes(out, recipe.attributes.as_slice())?;
    push_recipe_line(out, recipe)?;
    push_body(alloc, out, recipe.body.as_slice(), indentation)
}

/// Adds the file of a module, if it has one.
fn push_file(out: &mut String, path: &Option<StringLiteral>) -> Result<(), AllocError>
    ensures { IfOk result (λ _. string_bytes out.new ≡ string_bytes out.old ++ printed_file path.now) }
{
    match path {
        Some(string) => {
            out.push_str(" ")?;
            push_string(out, string)
        }
        None => Ok(()),
    }
}

/// Adds the value of a setting, if it has one.
fn push_setting(out: &mut String, value: &Option<SettingValue>) -> Result<(), AllocError>
    ensures { IfOk result (λ _. string_bytes out.new ≡ string_bytes out.old ++ printed_setting value.now) }
{
    match value {
        Some(value) => {
            out.push_str(" := ")?;
            push_value(out, value)
        }
        None => Ok(()),
    }
}

fn push_value(out: &mut String, value: &SettingValue) -> Result<(), AllocError>
    ensures { IfOk result (λ _. string_bytes out.new ≡ string_bytes out.old ++ printed_value value.now) }
{
    match value {
        SettingValue::Bool(is_set) => {
            if *is_set {
                out.push_str("true")
            } else {
                out.push_str("false")
            }
        }
        SettingValue::Text(text) => push_expr(out, text),
        SettingValue::List(strings) => push_strings(out, strings.as_slice()),
    }
}

/// Adds strings in brackets.
fn push_strings(out: &mut String, strings: &[StringLiteral]) -> Result<(), AllocError>
    ensures { IfOk result (λ _. string_bytes out.new ≡ string_bytes out.old ++ printed_strings strings.now) }
{
    match strings {
        [] => out.push_str("[]"),
        [first, others @ ..] => {
            out.push_str("[")?;
            push_string(out, first)?;
            push_further_strings(out, others)?;
            out.push_str("]")
        }
    }
}

/// Adds strings, each behind a comma.
fn push_further_strings(out: &mut String, strings: &[StringLiteral]) -> Result<(), AllocError>
    ensures { IfOk result (λ _. string_bytes out.new ≡ string_bytes out.old ++ led (codes ", ") (map printed_string strings.now)) }
{
    'strings: for string in strings {
        out.push_str(", ")?;
        push_string(out, string)?;
    }
    Ok(())
}
