//! The patterns of parameters.
ghost use Rattle.std.specs.Prelude.{◌≡◌, ◌++◌, IfOk, OnOk, option_map, map, filter_map};
ghost use Rattle.std.specs.List.{flat_map};
ghost use Rattle.just_lang_rulebook.specs.Patterns.{pattern_pair, pattern_text, patterns_of_attribute, patterns_of};

use just_lang_spots::{Spot, argument_spot, push_some};
use just_lang_syntax::{Argument, AstItem, Attribute};
use just_lang_types::{Texts, text_at};
use just_path_text::{NoMemory, Text};
use std::alloc::Global;

/// A pattern, with the place of its value.
#[derive(Drop)]
pub struct PatternText {
    pub text: Text,
    pub spot: Spot,
}

/// The text of an argument that is a `pattern`, with its value's place.
fn pattern_text<T: Texts>(
    alloc: Global,
    texts: &T,
    file: usize,
    argument: &Argument,
) -> Result<Option<PatternText>, NoMemory>
    ensures { IfOk result (λ p. option_map pattern_pair p ≡ pattern_text (T.text_of texts.now) file argument.now) }
{
    match text_at(alloc, texts, "pattern", argument)? {
        None => Ok(None),
        Some(text) => Ok(Some(PatternText {
            text,
            spot: argument_spot(file, argument),
        })),
    }
}

/// Adds the patterns among the arguments of an `arg`.
fn push_of_arguments<T: Texts>(
    alloc: Global,
    texts: &T,
    file: usize,
    arguments: &[Argument],
    found: &mut Vec<PatternText>,
) -> Result<(), NoMemory>
    ensures { OnOk result (map pattern_pair found.new.items ≡ map pattern_pair found.old.items ++ filter_map (pattern_text (T.text_of texts.now) file) arguments.now) }
{
    'arguments: for argument in arguments {
        let pattern = pattern_text(alloc, texts, file, argument)?;
        push_some(found, pattern)?;
    }
    Ok(())
}

/// Adds the patterns of an attribute.
fn push_of_attribute<T: Texts>(
    alloc: Global,
    texts: &T,
    file: usize,
    attribute: &Attribute,
    found: &mut Vec<PatternText>,
) -> Result<(), NoMemory>
    ensures { OnOk result (map pattern_pair found.new.items ≡ map pattern_pair found.old.items ++ patterns_of_attribute (T.text_of texts.now) file attribute.now) }
{
    if attribute.name.text.as_str() != "arg" {
        return Ok(());
    }
    push_of_arguments(alloc, texts, file, attribute.arguments.as_slice(), found)
}

/// Adds the patterns of some attributes.
fn push_of_attributes<T: Texts>(
    alloc: Global,
    texts: &T,
    file: usize,
    attributes: &[Attribute],
    found: &mut Vec<PatternText>,
) -> Result<(), NoMemory>
    ensures { OnOk result (map pattern_pair found.new.items ≡ map pattern_pair found.old.items ++ flat_map (patterns_of_attribute (T.text_of texts.now) file) attributes.now) }
{
    'attributes: for attribute in attributes {
        push_of_attribute(alloc, texts, file, attribute, found)?;
    }
    Ok(())
}

/// Adds the patterns of the parameters of an item.
pub(crate) fn push_of_item<T: Texts>(
    alloc: Global,
    texts: &T,
    file: usize,
    item: &AstItem,
    found: &mut Vec<PatternText>,
) -> Result<(), NoMemory>
    ensures { OnOk result (map pattern_pair found.new.items ≡ map pattern_pair found.old.items ++ patterns_of (T.text_of texts.now) file item.now) }
{
    match item {
        AstItem::Recipe(recipe) => {
            let attributes = recipe.get().attributes.as_slice();
            push_of_attributes(alloc, texts, file, attributes, found)
        }
        _ => Ok(()),
    }
}

/// The patterns of the parameters of an item.
pub fn patterns_of<T: Texts>(
    alloc: Global,
    texts: &T,
    file: usize,
    item: &AstItem,
) -> Result<Vec<PatternText>, NoMemory>
    ensures { IfOk result (λ v. map pattern_pair v.items ≡ patterns_of (T.text_of texts.now) file item.now) }
{
    let mut found = Vec::new(alloc);
    push_of_item(alloc, texts, file, item, &mut found)?;
    Ok(found)
}
