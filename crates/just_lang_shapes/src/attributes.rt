//! What attributes say in texts.
ghost use Rattle.std.specs.Prelude.{◌≡◌, IfOk};
ghost use Rattle.std.specs.Option.{option_copied};
ghost use Rattle.just_lang_shapes.specs.Attributes.{first_of, has_attribute, begins_underscore, is_private, first_text, text_behind, texts_behind, doc_of, groups_of};

use just_lang_spots::push_some;
use just_lang_syntax::{Argument, Attribute};
use just_lang_types::{Texts, const_text};
use just_path_text::{NoMemory, Seq, Text};
use std::alloc::Global;

/// Whether one of the attributes has that name.
fn has_attribute(attributes: &[Attribute], name: &str) -> bool
    ensures { result ≡ has_attribute name.now attributes.now }
{
    'attributes: for attribute in attributes {
        if attribute.name.text.as_str() == name {
            return true;
        }
    }
    false
}

fn begins_underscore(name: &str) -> bool
    ensures { result ≡ begins_underscore name.now }
{
    match name.as_bytes() {
        [first, ..] => *first == b'_',
        [] => false,
    }
}

/// Whether listings leave out what has these attributes and that name.
pub fn is_private(attributes: &[Attribute], name: &str) -> bool
    ensures { result ≡ is_private attributes.now name.now }
{
    begins_underscore(name) || has_attribute(attributes, "private")
}

/// The text of the first argument.
fn first_text<T: Texts>(
    alloc: Global,
    texts: &T,
    arguments: &[Argument],
) -> Result<Option<Text>, NoMemory>
    ensures { IfOk result (λ t. t ≡ first_text (T.text_of texts.now) arguments.now) }
{
    match arguments {
        [] => Ok(None),
        [first, ..] => const_text(alloc, texts, &first.value),
    }
}

/// The text behind an attribute of that name.
fn text_behind<T: Texts>(
    alloc: Global,
    texts: &T,
    name: &str,
    attribute: &Attribute,
) -> Result<Option<Text>, NoMemory>
    ensures { IfOk result (λ t. t ≡ text_behind (T.text_of texts.now) name.now attribute.now) }
{
    if attribute.name.text.as_str() != name {
        return Ok(None);
    }
    first_text(alloc, texts, attribute.arguments.as_slice())
}

/// The first text behind an attribute of that name.
fn first_behind<T: Texts>(
    alloc: Global,
    texts: &T,
    name: &str,
    attributes: &[Attribute],
) -> Result<Option<Text>, NoMemory>
    ensures { IfOk result (λ t. t ≡ first_of (texts_behind (T.text_of texts.now) name.now attributes.now)) }
{
    'attributes: for attribute in attributes {
        if let Some(text) = text_behind(alloc, texts, name, attribute)? {
            return Ok(Some(text));
        }
    }
    Ok(None)
}

/// The texts behind the attributes of that name, in their order.
fn texts_behind<T: Texts>(
    alloc: Global,
    texts: &T,
    name: &str,
    attributes: &[Attribute],
) -> Result<Seq<Text>, NoMemory>
    ensures { IfOk result (λ all. all ≡ texts_behind (T.text_of texts.now) name.now attributes.now) }
{
    let mut all = Vec::new(alloc);
    'attributes: for attribute in attributes {
        let text = text_behind(alloc, texts, name, attribute)?;
        push_some(&mut all, text)?;
    }
    Ok(Seq::from(all))
}

/// What a listing says of what has these attributes: what `doc` has, where it stands, else the comment directly above.
pub fn doc_of<T: Texts>(
    alloc: Global,
    texts: &T,
    attributes: &[Attribute],
    above: Option<&str>,
) -> Result<Option<Text>, NoMemory>
    ensures { IfOk result (λ doc. doc ≡ doc_of (T.text_of texts.now) attributes.now (option_copied above.entry)) }
{
    if has_attribute(attributes, "doc") {
        return first_behind(alloc, texts, "doc", attributes);
    }
    match above {
        None => Ok(None),
        Some(text) => Ok(Some(Text::from_str(alloc, text)?)),
    }
}

/// The groups that the attributes name.
pub fn groups_of<T: Texts>(
    alloc: Global,
    texts: &T,
    attributes: &[Attribute],
) -> Result<Seq<Text>, NoMemory>
    ensures { IfOk result (λ groups. groups ≡ groups_of (T.text_of texts.now) attributes.now) }
{
    texts_behind(alloc, texts, "group", attributes)
}
