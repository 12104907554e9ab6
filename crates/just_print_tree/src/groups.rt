//! The groups that a module's public recipes and modules name.
ghost use Rattle.std.specs.Prelude.{◌≡◌, ◌++◌, [], ◌∷◌, IfOk, OnOk};
ghost use Rattle.std.specs.List.{list_any};
ghost use Rattle.just_lang_spots.specs.Entries.{entry, entries};
ghost use Rattle.just_print_tree.specs.Groups.{spot_in, is_spot, is_at, recipe_spots, groups_at, groups_where, each_once, groups_among};
ghost use Rattle.just_print_tree.specs.Kept.{told, tolds};

use super::told::Told;
use just_lang_shapes::groups_of;
use just_lang_spots::{Entry, Spot, name_spot};
use just_lang_syntax::AstItem;
use just_lang_types::Texts;
use just_path_text::{NoMemory, Seq, Text, TryClone};
use just_print_lists::has_name;
use std::alloc::Global;

/// The place of the name of a recipe or a module.
pub(crate) fn spot_in(one: &Entry<'_>) -> Option<Spot>
    ensures { result ≡ spot_in (entry one.now) }
{
    match one.item {
        AstItem::Recipe(recipe) => Some(name_spot(one.file, &recipe.get().name)),
        AstItem::Module { name, .. } => Some(name_spot(one.file, name)),
        _ => None,
    }
}

/// Whether two places are one.
fn is_spot(some: Spot, other: Spot) -> bool
    ensures { result ≡ is_spot some other }
{
    some.file == other.file && some.line == other.line && some.column == other.column
}

/// Whether a place is one of some.
fn is_among(spots: &[Spot], spot: Spot) -> bool
    ensures { result ≡ list_any (is_spot spot) spots.now }
{
    'spots: for other in spots {
        if is_spot(spot, *other) {
            return true;
        }
    }
    false
}

/// Whether an item stands at one of some places.
fn is_at(spots: &[Spot], spot: Option<Spot>) -> bool
    ensures { result ≡ is_at spots.now spot }
{
    match spot {
        None => false,
        Some(spot) => is_among(spots, spot),
    }
}

/// Adds the place of a recipe, where it is public.
fn push_spot(spots: &mut Vec<Spot>, one: Told<'_>) -> Result<(), NoMemory>
    ensures { OnOk result (spots.new.items ≡ spots.old.items ++ recipe_spots
        (told one.entry ∷ [])) }
{
    if one.recipe.private {
        return Ok(());
    }
    Ok(spots.push(name_spot(one.file, &one.written.name))?)
}

/// Adds the places of the public ones among recipes.
#[tactic(auto, using(crate::proofs::GroupLaws::spots_more))]
pub(crate) fn push_spots(spots: &mut Vec<Spot>, recipes: &[Told<'_>]) -> Result<(), NoMemory>
    ensures { OnOk result (spots.new.items ≡ spots.old.items ++ recipe_spots (tolds recipes.now)) }
{
    'recipes: for one in recipes {
        push_spot(spots, *one)?;
    }
    Ok(())
}

/// The groups that the attributes of a recipe or a module name.
fn groups_at<T: Texts>(alloc: Global, texts: &T, item: &AstItem) -> Result<Seq<Text>, NoMemory>
    ensures { IfOk result (λ groups. groups ≡ groups_at (T.text_of texts.now) item.now) }
{
    match item {
        AstItem::Recipe(recipe) => groups_of(alloc, texts, recipe.get().attributes.as_slice()),
        AstItem::Module { attributes, .. } => groups_of(alloc, texts, attributes.as_slice()),
        _ => Ok(Seq::new(alloc)),
    }
}

/// The groups of an item at one of some places; they are looked for there where there are groups.
#[tactic(auto, using(crate::proofs::GroupLaws::where_none))]
fn groups_where<T: Texts>(
    alloc: Global,
    texts: &T,
    spots: &[Spot],
    one: &Entry<'_>,
) -> Result<Seq<Text>, NoMemory>
    ensures { IfOk result (λ groups. groups ≡ groups_where (T.text_of texts.now) spots.now
        (entry one.now)) }
{
    let groups = groups_at(alloc, texts, one.item)?;
    if groups.is_empty() {
        return Ok(groups);
    }
    if !is_at(spots, spot_in(one)) {
        return Ok(Seq::new(alloc));
    }
    Ok(groups)
}

/// Adds a text, unless it is there.
fn push_new(found: &mut Vec<Text>, text: &Text) -> Result<(), NoMemory>
    ensures { OnOk result (found.new.items ≡ found.old.items ++ each_once found.old.items
        (text.now ∷ [])) }
{
    if has_name(found.as_slice(), text.as_str()) {
        return Ok(());
    }
    let copy = text.try_clone()?;
    Ok(found.push(copy)?)
}

/// Adds texts, each unless it is there.
#[tactic(auto, using(crate::proofs::GroupLaws::once_more))]
fn push_each_new(found: &mut Vec<Text>, texts: &[Text]) -> Result<(), NoMemory>
    ensures { OnOk result (found.new.items ≡ found.old.items ++ each_once found.old.items
        texts.now) }
{
    'texts: for text in texts {
        push_new(found, text)?;
    }
    Ok(())
}

/// The groups that items at some places name, each once, in the order of the items.
pub(crate) fn groups_among<T: Texts>(
    alloc: Global,
    texts: &T,
    spots: &[Spot],
    items: &[Entry<'_>],
) -> Result<Seq<Text>, NoMemory>
    ensures { IfOk result (λ names. names ≡ groups_among (T.text_of texts.now) spots.now
        (entries items.now)) }
{
    let mut found = Vec::new(alloc);
    'items: for one in items {
        let groups = groups_where(alloc, texts, spots, one)?;
        push_each_new(&mut found, groups.as_slice())?;
    }
    Ok(Seq::from(found))
}
