//! The rule that an attribute comes once.
ghost use Rattle.std.specs.Prelude.{◌≡◌, IfOk, option_map, map, filter_map};
ghost use Rattle.just_lang_spots.specs.Spots.{first_spot};
ghost use Rattle.just_lang_spots.specs.Repeated.{named};
ghost use Rattle.just_lang_rules.specs.AttributeSpots.{arg_name, arg_pair, duplicate_among};

use just_lang_spots::{
    Named, Naming, Rule, Spot, earlier, first_repeated, first_repeated_among, name_spot, push_some,
};
use just_lang_syntax::{AstItem, Attribute};
use just_lang_types::{Texts, const_text};
use just_path_text::{NoMemory, Text};
use std::alloc::{AllocError, Global};

/// The parameter that an `arg` is for, with the attribute's place.
#[derive(Drop)]
struct ArgName {
    name: Text,
    spot: Spot,
}

/// The names of attributes that may come once.
#[derive(Clone, Copy, Drop)]
struct Single;

impl Naming<Attribute> for Single {
    ghost use Rattle.just_lang_rules.specs.AttributeSpots.{single_name};

    ghost name_of = { λ _ file a. single_name file a };

    fn name_of<'a>(&self, file: usize, thing: &'a Attribute) -> Option<Named<'a>> {
        let name = thing.name.text.as_str();
        if name == "group" || name == "arg" {
            return None;
        }
        Some(Named {
            name,
            spot: name_spot(file, &thing.name),
        })
    }
}

/// The parameter that an attribute is for, where it is an `arg`.
fn arg_name<T: Texts>(
    alloc: Global,
    texts: &T,
    file: usize,
    attribute: &Attribute,
) -> Result<Option<ArgName>, NoMemory>
    ensures { IfOk result (λ n. option_map arg_pair n ≡ arg_name (T.text_of texts.now) file attribute.now) }
{
    if attribute.name.text.as_str() != "arg" {
        return Ok(None);
    }
    match attribute.arguments.as_slice() {
        [] => Ok(None),
        [argument, ..] => match const_text(alloc, texts, &argument.value)? {
            None => Ok(None),
            Some(name) => Ok(Some(ArgName {
                name,
                spot: name_spot(file, &attribute.name),
            })),
        },
    }
}

/// The parameters that the attributes are for.
fn arg_names<T: Texts>(
    alloc: Global,
    texts: &T,
    file: usize,
    attributes: &[Attribute],
) -> Result<Vec<ArgName>, NoMemory>
    ensures { IfOk result (λ v. map arg_pair v.items ≡ filter_map (arg_name (T.text_of texts.now) file) attributes.now) }
{
    let mut names = Vec::new(alloc);
    'attributes: for attribute in attributes {
        let name = arg_name(alloc, texts, file, attribute)?;
        push_some(&mut names, name)?;
    }
    Ok(names)
}

/// The same names, borrowed.
#[tactic(auto, using(just_lang_spots::proofs::Names::one_more))]
fn borrowed(alloc: Global, names: &[ArgName]) -> Result<Vec<Named<'_>>, AllocError>
    ensures { IfOk result (λ v. map named v.items ≡ map arg_pair names.now) }
{
    let mut found = Vec::new(alloc);
    'names: for name in names {
        found.push(Named {
            name: name.name.as_str(),
            spot: name.spot,
        })?;
    }
    Ok(found)
}

/// The first of the attributes whose name another one before it has; of `arg`, whose parameter.
#[tactic(auto, using(just_lang_spots::proofs::Spots::first_spot_append))]
fn first_duplicate<T: Texts>(
    alloc: Global,
    texts: &T,
    file: usize,
    attributes: &[Attribute],
) -> Result<Option<Spot>, NoMemory>
    ensures { IfOk result (λ s. s ≡ first_spot (duplicate_among (T.text_of texts.now) file attributes.now)) }
{
    let found = first_repeated_among(alloc, &Single, file, attributes)?;
    let args = arg_names(alloc, texts, file, attributes)?;
    let names = borrowed(alloc, args.as_slice())?;
    let further = first_repeated(alloc, names.as_slice())?;
    Ok(earlier(found, further))
}

/// The rule that an attribute of an item comes once, but `group`, and `arg` for each parameter. Its place is the name that comes
/// again.
#[derive(Clone, Copy, Drop)]
pub struct DuplicateAttribute<'a, T> {
    pub texts: &'a T,
}

impl<'a, T: Texts> Rule<AstItem> for DuplicateAttribute<'a, T> {
    ghost use Rattle.just_lang_rules.specs.AttributeSpots.{duplicate_attribute_of};

    ghost spots = { λ r file x. duplicate_attribute_of (T.text_of r.texts.now) file x };

    fn first(&self, alloc: Global, file: usize, thing: &AstItem) -> Result<Option<Spot>, NoMemory> {
        match thing {
            AstItem::Module { attributes, .. } => {
                first_duplicate(alloc, self.texts, file, attributes.as_slice())
            }
            AstItem::Recipe(recipe) => {
                first_duplicate(alloc, self.texts, file, recipe.get().attributes.as_slice())
            }
            _ => Ok(None),
        }
    }
}
