//! The parameters that are options.
ghost use Rattle.std.specs.Prelude.{◌≡◌, IfOk, codes};
ghost use Rattle.just_lang_types.specs.Options.{is_text, is_named_key, has_character, text_at, first_text, names_option, makes_option, is_option_by, is_option};

use super::expr_text::const_text;
use super::texts::Texts;
use just_lang_syntax::{Argument, AstParameter, Attribute, Name, has_key};
use just_path_text::{NoMemory, Text};
use std::alloc::Global;

/// Whether the text is that name.
fn is_text(name: &str, text: &Option<Text>) -> bool
    ensures { result ≡ is_text name.now text.now }
{
    match text {
        None => false,
        Some(text) => text.as_str() == name,
    }
}

/// Whether the name is that key.
fn is_named_key(key: &str, name: &Option<Name>) -> bool
    ensures { result ≡ is_named_key key.now name.now }
{
    match name {
        None => false,
        Some(name) => name.text.as_str() == key,
    }
}

/// The text of an argument with that key.
pub fn text_at<T: Texts>(
    alloc: Global,
    texts: &T,
    key: &str,
    argument: &Argument,
) -> Result<Option<Text>, NoMemory>
    ensures { IfOk result (λ t. t ≡ text_at (T.text_of texts.now) key.now argument.now) }
{
    if !is_named_key(key, &argument.key) {
        return Ok(None);
    }
    const_text(alloc, texts, &argument.value)
}

/// The first text of that key.
fn first_text<T: Texts>(
    alloc: Global,
    texts: &T,
    key: &str,
    arguments: &[Argument],
) -> Result<Option<Text>, NoMemory>
    ensures { IfOk result (λ t. t ≡ first_text (T.text_of texts.now) key.now arguments.now) }
{
    'arguments: for argument in arguments {
        if let Some(text) = text_at(alloc, texts, key, argument)? {
            return Ok(Some(text));
        }
    }
    Ok(None)
}

/// Whether there is a text, and it isn't empty.
fn has_character(text: &Option<Text>) -> bool
    ensures { result ≡ has_character text.now }
{
    match text {
        None => false,
        Some(text) => text.as_str().chars().next().is_some(),
    }
}

/// Whether keys of `arg` give its parameter a name as an option: `long` is among them, or `short` with a text that isn't empty.
pub fn names_option<T: Texts>(alloc: Global, texts: &T, keys: &[Argument]) -> Result<bool, NoMemory>
    ensures { IfOk result (λ b. b ≡ names_option (T.text_of texts.now) keys.now) }
{
    if has_key(keys, "long") {
        return Ok(true);
    }
    let short = first_text(alloc, texts, "short", keys)?;
    Ok(has_character(&short))
}

/// Whether arguments of `arg` make the parameter of that name an option.
fn makes_option<T: Texts>(
    alloc: Global,
    texts: &T,
    name: &str,
    arguments: &[Argument],
) -> Result<bool, NoMemory>
    ensures { IfOk result (λ b. b ≡ makes_option (T.text_of texts.now) name.now arguments.now) }
{
    match arguments {
        [] => Ok(false),
        [first, keys @ ..] => {
            if !names_option(alloc, texts, keys)? {
                return Ok(false);
            }
            let text = const_text(alloc, texts, &first.value)?;
            Ok(is_text(name, &text))
        }
    }
}

/// Whether the attribute makes the parameter of that name an option.
fn is_option_by<T: Texts>(
    alloc: Global,
    texts: &T,
    name: &str,
    attribute: &Attribute,
) -> Result<bool, NoMemory>
    ensures { IfOk result (λ b. b ≡ is_option_by (T.text_of texts.now) name.now attribute.now) }
{
    if attribute.name.text.as_str() != "arg" {
        return Ok(false);
    }
    makes_option(alloc, texts, name, attribute.arguments.as_slice())
}

/// Whether a parameter of a recipe with these attributes is an option: an `arg` for it has `long`, or a `short` that isn't empty.
pub fn is_option<T: Texts>(
    alloc: Global,
    texts: &T,
    attributes: &[Attribute],
    parameter: &AstParameter,
) -> Result<bool, NoMemory>
    ensures { IfOk result (λ b. b ≡ is_option (T.text_of texts.now) attributes.now parameter.now) }
{
    let name = parameter.name.text.as_str();
    'attributes: for attribute in attributes {
        if is_option_by(alloc, texts, name, attribute)? {
            return Ok(true);
        }
    }
    Ok(false)
}
