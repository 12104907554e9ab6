//! The attributes of recipes, and the texts that they hold.

ghost use Rattle.std.specs.Prelude.{◌≡◌, IfOk, map, option_map};
ghost use Rattle.just_exec_work.specs.Attributes.{attribute_named, has_attribute, argument_text, attribute_texts, attribute_text, first_text, prints_code, run_attributes};

use super::RunAttributes;
use just_lang_read::ReadError;
use just_lang_syntax::{Argument, Attribute, StringLiteral};
use just_lang_types::{Recipe, Settings, Texts, const_text};
use just_path_text::{NoMemory, Seq, Text};
use std::alloc::Global;

/// What strings mean behind the assembly of a justfile, which has expanded those with an `x` in front.
#[derive(Clone, Copy, Drop)]
struct Assembled;

impl Texts for Assembled {
    ghost use Rattle.just_lang_syntax.specs.Meanings.{text_of as meant};

    ghost text_of = { λ _ s. meant s };

    fn text(&self, alloc: Global, literal: &StringLiteral) -> Result<Option<Text>, NoMemory> {
        match literal.text(alloc) {
            Ok(text) => Ok(Some(text)),
            Err(ReadError::NoMemory) => Err(NoMemory),
            Err(ReadError::Syntax | ReadError::Depth) => Ok(None),
        }
    }
}

/// The attribute of that name: the first.
pub fn attribute_named<'a>(attributes: &'a [Attribute], name: &str) -> Option<&'a Attribute>
    ensures { option_map (λ a. a.now) result ≡ attribute_named attributes.now name.now }
{
    'attributes: for attribute in attributes {
        if attribute.name.text.as_str() == name {
            return Some(attribute);
        }
    }
    None
}

/// Whether there is an attribute of that name.
pub fn has_attribute(attributes: &[Attribute], name: &str) -> bool
    ensures { result ≡ has_attribute attributes.now name.now }
{
    attribute_named(attributes, name).is_some()
}

/// The text of an argument; the empty text where it isn't constant, which no argument of a sound justfile is.
fn argument_text(alloc: Global, argument: &Argument) -> Result<Text, NoMemory>
    ensures { IfOk result (λ t. t ≡ argument_text argument.now) }
{
    match const_text(alloc, &Assembled, &argument.value)? {
        Some(text) => Ok(text),
        None => Ok(Text::from(String::new(alloc))),
    }
}

/// The texts of arguments.
#[tactic(auto, using(crate::proofs::Lists::mapped_more, crate::proofs::Lists::mapped_all))]
fn argument_texts(alloc: Global, arguments: &[Argument]) -> Result<Seq<Text>, NoMemory>
    ensures { IfOk result (λ ts. ts ≡ map argument_text arguments.now) }
{
    let mut texts = Vec::new(alloc);
    'arguments: for argument in arguments {
        texts.push(argument_text(alloc, argument)?)?;
    }
    Ok(Seq::from(texts))
}

/// The texts of the arguments of the attribute of that name.
fn attribute_texts(
    alloc: Global,
    attributes: &[Attribute],
    name: &str,
) -> Result<Option<Seq<Text>>, NoMemory>
    ensures { IfOk result (λ ts. ts ≡ attribute_texts attributes.now name.now) }
{
    match attribute_named(attributes, name) {
        Some(attribute) => Ok(Some(argument_texts(alloc, attribute.arguments.as_slice())?)),
        None => Ok(None),
    }
}

/// The text of the first of arguments.
fn first_text(alloc: Global, arguments: &[Argument]) -> Result<Option<Text>, NoMemory>
    ensures { IfOk result (λ t. t ≡ first_text arguments.now) }
{
    match arguments {
        [first, ..] => Ok(Some(argument_text(alloc, first)?)),
        [] => Ok(None),
    }
}

/// The text of the first argument of the attribute of that name; none where there is no such attribute, and where it has no argument.
pub fn attribute_text(
    alloc: Global,
    attributes: &[Attribute],
    name: &str,
) -> Result<Option<Text>, NoMemory>
    ensures { IfOk result (λ t. t ≡ attribute_text attributes.now name.now) }
{
    match attribute_named(attributes, name) {
        Some(attribute) => first_text(alloc, attribute.arguments.as_slice()),
        None => Ok(None),
    }
}

/// How the attributes of a recipe ask it to be run.
pub fn read_attributes(alloc: Global, recipe: &Recipe) -> Result<RunAttributes, NoMemory>
    ensures { IfOk result (λ r. r ≡ run_attributes recipe.now.attributes) }
{
    let attributes = recipe.attributes.as_slice();
    Ok(RunAttributes {
        script: attribute_texts(alloc, attributes, "script")?,
        extension: attribute_text(alloc, attributes, "extension")?,
        working_directory: attribute_text(alloc, attributes, "working-directory")?,
        no_cd: has_attribute(attributes, "no-cd"),
        no_quiet: has_attribute(attributes, "no-quiet"),
        positional_arguments: has_attribute(attributes, "positional-arguments"),
    })
}

/// Whether the error of a recipe that failed by a code is printed: not where it has `no-exit-message`; and where its module's setting of
/// that name is on, only where it has `exit-message`.
pub fn prints_code(settings: &Settings, recipe: &Recipe) -> bool
    ensures { result ≡ prints_code settings.now recipe.now.attributes }
{
    let attributes = recipe.attributes.as_slice();
    !has_attribute(attributes, "no-exit-message")
        && (has_attribute(attributes, "exit-message") || !settings.no_exit_message)
}
