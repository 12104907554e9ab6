//! The parameters of a recipe that are options, as a set.
ghost use Rattle.std.specs.Prelude.{◌≡◌, ◌||◌, ℕ, List, IfOk, OnOk};
ghost use Rattle.just_lang_types.specs.Options.{is_text};
ghost use Rattle.just_lang_names.specs.Arities.{option_of_arguments, option_of, has_option_name, AreOptions};

use just_lang_syntax::{Argument, Attribute};
use just_lang_types::{Texts, const_text, names_option};
use just_path_text::{NoMemory, Text};
use std::alloc::Global;
use std::collections::BTreeSet;

/// The names of the parameters that attributes make options.
#[derive(Drop)]
pub(crate) struct Options {
    names: BTreeSet<Text>,
}

/// The name of the parameter that these arguments of `arg` make an option: its keys give it a name as one.
fn option_of_arguments<T: Texts>(
    alloc: Global,
    texts: &T,
    arguments: &[Argument],
) -> Result<Option<Text>, NoMemory>
    ensures { IfOk result (λ t. t ≡ option_of_arguments (T.text_of texts.now) arguments.now) }
{
    match arguments {
        [] => Ok(None),
        [first, keys @ ..] => {
            if !names_option(alloc, texts, keys)? {
                return Ok(None);
            }
            const_text(alloc, texts, &first.value)
        }
    }
}

/// The name of the parameter that an attribute makes an option.
fn option_of<T: Texts>(
    alloc: Global,
    texts: &T,
    attribute: &Attribute,
) -> Result<Option<Text>, NoMemory>
    ensures { IfOk result (λ t. t ≡ option_of (T.text_of texts.now) attribute.now) }
{
    if attribute.name.text.as_str() != "arg" {
        return Ok(None);
    }
    option_of_arguments(alloc, texts, attribute.arguments.as_slice())
}

/// The names of the parameters that attributes make options.
pub(crate) fn options_of<T: Texts>(
    alloc: Global,
    texts: &T,
    attributes: &[Attribute],
) -> Result<Options, NoMemory>
    ensures { IfOk result (AreOptions (T.text_of texts.now) attributes.now) }
{
    let mut options = Options {
        names: BTreeSet::new(alloc),
    };
    'attributes: for attribute in attributes {
        let name = option_of(alloc, texts, attribute)?;
        options.add(name)?;
    }
    Ok(options)
}

impl Options {
    /// Whether the parameter of that name is among them.
    pub(crate) fn has(&self, name: &Text) -> bool
        ensures { result ≡ has_option_name self.now name.now }
    {
        self.names.contains(name)
    }

    /// Adds a name, where there is one.
    fn add(&mut self, name: Option<Text>) -> Result<(), NoMemory>
        ensures { OnOk result ((q : List ℕ) → has_option_name self.new q ≡ (is_text q name || has_option_name self.old q)) }
    {
        match name {
            None => Ok(()),
            Some(name) => {
                self.names.insert(name)?;
                Ok(())
            }
        }
    }
}
