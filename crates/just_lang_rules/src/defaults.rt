//! The rule that one recipe of a module at most is the default one.
ghost use Rattle.std.specs.Prelude.{◌≡◌, ◌++◌, map, filter, IfOk, OnOk};
ghost use Rattle.std.specs.List.{flat_map};
ghost use Rattle.just_lang_spots.specs.Spots.{first_spot};
ghost use Rattle.just_lang_spots.specs.Entries.{entries};
ghost use Rattle.just_lang_rules.specs.DefaultSpots.{default_attributes, default_spots};

use just_lang_spots::{Entry, ModuleRule, Spot, first_of, name_spot};
use just_lang_syntax::{AstItem, Attribute};
use just_path_text::NoMemory;
use std::alloc::{AllocError, Global};

/// Adds the places of the attribute `default` among some attributes.
fn push_among(
    spots: &mut Vec<Spot>,
    file: usize,
    attributes: &[Attribute],
) -> Result<(), AllocError>
    ensures { OnOk result (spots.new.items ≡ spots.old.items ++ default_attributes file attributes.now) }
{
    'attributes: for attribute in attributes {
        if attribute.name.text.as_str() == "default" {
            spots.push(name_spot(file, &attribute.name))?;
        }
    }
    Ok(())
}

/// Adds those of an item.
fn push_of(spots: &mut Vec<Spot>, file: usize, item: &AstItem) -> Result<(), AllocError>
    ensures { OnOk result (spots.new.items ≡ spots.old.items ++ default_spots file item.now) }
{
    match item {
        AstItem::Recipe(recipe) => push_among(spots, file, recipe.get().attributes.as_slice()),
        _ => Ok(()),
    }
}

/// Those of some items.
fn spots_of(alloc: Global, items: &[Entry<'_>]) -> Result<Vec<Spot>, AllocError>
    ensures { IfOk result (λ v. v.items ≡ flat_map (λ x. default_spots x.0 x.1) (entries items.now)) }
{
    let mut spots = Vec::new(alloc);
    'items: for one in items {
        push_of(&mut spots, one.file, one.item)?;
    }
    Ok(spots)
}

/// The rule, asked of the recipes that stand in a module, that one at most has the attribute `default`. Its place is the second
/// such attribute.
#[derive(Clone, Copy, Drop)]
pub struct DuplicateDefault;

impl ModuleRule for DuplicateDefault {
    ghost use Rattle.just_lang_rules.specs.DefaultSpots.{duplicate_default_spots};

    ghost spots = { λ _ items. duplicate_default_spots items };

    fn first(&self, alloc: Global, items: &[Entry<'_>]) -> Result<Option<Spot>, NoMemory> {
        let spots = spots_of(alloc, items)?;
        match spots.as_slice() {
            [] => Ok(None),
            [_, further @ ..] => Ok(first_of(further)),
        }
    }
}
