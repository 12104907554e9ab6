//! The keys of `arg`.
ghost use Rattle.std.specs.Prelude.{◌≡◌, ℕ, List, IfOk, OnOk};
ghost use Rattle.std.specs.Option.{option_copied};
ghost use Rattle.just_lang_shapes.specs.Attributes.{first_of};
ghost use Rattle.just_lang_shapes.specs.Parameters.{is_alone, stands_alone, keys_behind, keys_for, or_earlier, found_at, keys_in, AreKeys, values_of, value_of};

use just_lang_spots::push_some;
use just_lang_syntax::{Argument, Attribute, Expr};
use just_lang_types::{Texts, const_text, text_at};
use just_path_text::{NoMemory, Seq, Text};
use std::alloc::Global;
use std::collections::BTreeMap;

/// The keys of `arg`, by the parameters that they are for.
#[derive(Drop)]
pub struct Keys<'a> {
    table: BTreeMap<Text, &'a [Argument]>,
}

/// Adds the keys among arguments of `arg`, for the parameter that the first one names.
fn add_behind<'a, T: Texts>(
    alloc: Global,
    texts: &T,
    table: &mut BTreeMap<Text, &'a [Argument]>,
    arguments: &'a [Argument],
) -> Result<(), NoMemory>
    ensures { OnOk result ((name : List ℕ) → found_at table.new name ≡ or_earlier (found_at table.old name) (keys_behind (T.text_of texts.now) name arguments.now)) }
{
    match arguments {
        [] => Ok(()),
        [first, keys @ ..] => match const_text(alloc, texts, &first.value)? {
            None => Ok(()),
            Some(name) => {
                table.insert(name, keys)?;
                Ok(())
            }
        },
    }
}

/// Adds the keys of the attribute, where it is an `arg`.
fn add<'a, T: Texts>(
    alloc: Global,
    texts: &T,
    table: &mut BTreeMap<Text, &'a [Argument]>,
    attribute: &'a Attribute,
) -> Result<(), NoMemory>
    ensures { OnOk result ((name : List ℕ) → found_at table.new name ≡ or_earlier (found_at table.old name) (keys_for (T.text_of texts.now) name attribute.now)) }
{
    if attribute.name.text.as_str() != "arg" {
        return Ok(());
    }
    add_behind(alloc, texts, table, attribute.arguments.as_slice())
}

/// The keys of the `arg`s among some attributes.
pub fn keys_of<'a, T: Texts>(
    alloc: Global,
    texts: &T,
    attributes: &'a [Attribute],
) -> Result<Keys<'a>, NoMemory>
    ensures { IfOk result (λ keys. AreKeys (T.text_of texts.now) attributes.now keys) }
{
    let mut table = BTreeMap::new(alloc);
    'attributes: for attribute in attributes {
        add(alloc, texts, &mut table, attribute)?;
    }
    Ok(Keys { table })
}

impl<'a> Keys<'a> {
    /// The keys for the parameter of that name.
    pub fn keys(&self, name: &Text) -> &'a [Argument]
        ensures { result.now ≡ keys_in self.now name.now }
    {
        match self.table.get(name) {
            Some(keys) => *keys,
            None => &[],
        }
    }
}

/// Whether the argument is that key alone.
fn is_alone(key: &str, argument: &Argument) -> bool
    ensures { result ≡ is_alone key.now argument.now }
{
    match &argument.key {
        Some(_) => false,
        None => match &argument.value {
            Expr::Variable(name) => name.text.as_str() == key,
            _ => false,
        },
    }
}

/// Whether that key stands alone among some.
pub fn stands_alone(key: &str, arguments: &[Argument]) -> bool
    ensures { result ≡ stands_alone key.now arguments.now }
{
    'arguments: for argument in arguments {
        if is_alone(key, argument) {
            return true;
        }
    }
    false
}

/// The texts of that key, in their order.
pub fn values_of<T: Texts>(
    alloc: Global,
    texts: &T,
    key: &str,
    arguments: &[Argument],
) -> Result<Seq<Text>, NoMemory>
    ensures { IfOk result (λ all. all ≡ values_of (T.text_of texts.now) key.now arguments.now) }
{
    let mut all = Vec::new(alloc);
    'arguments: for argument in arguments {
        let text = text_at(alloc, texts, key, argument)?;
        push_some(&mut all, text)?;
    }
    Ok(Seq::from(all))
}

/// The first text of that key.
pub fn value_of<T: Texts>(
    alloc: Global,
    texts: &T,
    key: &str,
    arguments: &[Argument],
) -> Result<Option<Text>, NoMemory>
    ensures { IfOk result (λ t. t ≡ value_of (T.text_of texts.now) key.now arguments.now) }
{
    'arguments: for argument in arguments {
        if let Some(text) = text_at(alloc, texts, key, argument)? {
            return Ok(Some(text));
        }
    }
    Ok(None)
}
