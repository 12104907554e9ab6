//! A recipe by itself, as a text.
ghost use Rattle.std.specs.Prelude.{◌≡◌, ◌++◌, IfOk, string_bytes};
ghost use Rattle.std.specs.List.{list_any};
ghost use Rattle.just_print.specs.Printed.{printed_recipe};
ghost use Rattle.just_print.specs.Shown.{is_doc, plain_recipe, doc_line, shown_text};

use super::attribute::push_plain_attributes;
use super::body::push_body;
use super::expr::push_three;
use super::recipe::push_commented;
use just_lang_syntax::{AstRecipe, Attribute};
use just_path_text::NoMemory;
use std::alloc::{AllocError, Global};

/// Whether an attribute is a doc.
fn is_doc(attribute: &Attribute) -> bool
    ensures { result ≡ is_doc attribute.now }
{
    attribute.name.text.as_str() == "doc"
}

/// Whether there is a doc among attributes.
fn has_doc(attributes: &[Attribute]) -> bool
    ensures { result ≡ list_any is_doc attributes.now }
{
    attributes.iter().any(is_doc)
}

/// Adds a doc on a line, unless it is empty or an attribute has it.
fn push_doc(out: &mut String, has_attribute: bool, doc: &str) -> Result<(), AllocError>
    ensures { IfOk result (λ _. string_bytes out.new ≡ string_bytes out.old ++ doc_line has_attribute doc.now) }
{
    if has_attribute {
        return Ok(());
    }
    match doc.as_bytes() {
        [] => Ok(()),
        [_first, ..] => push_three(out, "# ", doc, "\n"),
    }
}

/// Adds a recipe as `print` does, but no comment behind a line.
fn push_plain(
    alloc: Global,
    out: &mut String,
    recipe: &AstRecipe,
    indentation: &str,
) -> Result<(), AllocError>
    ensures { IfOk result (λ _. string_bytes out.new ≡ string_bytes out.old ++ printed_recipe indentation.now (plain_recipe recipe.now)) }
{
    push_plain_attributes(out, recipe.attributes.as_slice())?;
    push_commented(out, recipe, &None)?;
    push_body(alloc, out, recipe.body.as_slice(), indentation)
}

/// A recipe as `--show` prints it behind the line of an alias: its doc, unless an attribute has it, and the recipe. An empty
/// doc is none.
pub fn shown_recipe(
    alloc: Global,
    doc: &str,
    recipe: &AstRecipe,
    indentation: &str,
) -> Result<String, NoMemory>
    ensures { IfOk result (λ t. string_bytes t ≡ shown_text doc.now indentation.now recipe.now) }
{
    let mut out = String::new(alloc);
    push_doc(&mut out, has_doc(recipe.attributes.as_slice()), doc)?;
    push_plain(alloc, &mut out, recipe, indentation)?;
    Ok(out)
}
