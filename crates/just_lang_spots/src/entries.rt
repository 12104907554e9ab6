//! The items of a module, each with the number of its file.
ghost use Rattle.std.specs.Prelude.{◌≡◌, ◌++◌, [], ◌∷◌, if◌then◌else◌, map, filter, IfOk, OnOk};
ghost use Rattle.std.specs.List.{list_any};
ghost use Rattle.just_lang_spots.specs.Entries.{entry, entries};
ghost use Rattle.just_lang_spots.specs.Items.{item_name, has_attribute, is_here, is_recipe_here, is_assignment, is_set_by, sets, is_set};

use just_lang_syntax::{AstItem, Attribute, SettingValue, is_one_of};
use just_path_text::NoMemory;
use std::alloc::{AllocError, Global};

/// An item, with the number of its file.
#[derive(Clone, Copy)]
pub struct Entry<'a> {
    pub file: usize,
    pub item: &'a AstItem,
}

/// The text of the name that an item gives to something; empty for one that gives none.
pub fn item_name(item: &AstItem) -> &str
    ensures { result.now ≡ item_name item.now }
{
    match item {
        AstItem::Alias { name, .. } => name.text.as_str(),
        AstItem::Module { name, .. } => name.text.as_str(),
        AstItem::Assignment { name, .. } => name.text.as_str(),
        AstItem::Unexport { name, .. } => name.text.as_str(),
        AstItem::Setting { name, .. } => name.text.as_str(),
        AstItem::Recipe(recipe) => recipe.get().name.text.as_str(),
        AstItem::Blank | AstItem::Comment(_) | AstItem::Import { .. } => "",
    }
}

/// The names of the attributes for this platform.
const THESE_PLATFORMS: [&str; 2] = ["linux", "unix"];

/// The names of the attributes for other platforms.
const OTHER_PLATFORMS: [&str; 7] = [
    "macos",
    "windows",
    "openbsd",
    "freebsd",
    "netbsd",
    "dragonfly",
    "android",
];

/// Whether one of some attributes has one of these names.
fn has_attribute(names: &[&str], attributes: &[Attribute]) -> bool
    ensures { result ≡ has_attribute (map (λ n. n.now) names.now) attributes.now }
{
    'attributes: for attribute in attributes {
        if is_one_of(names, attribute.name.text.as_str()) {
            return true;
        }
    }
    false
}

/// Whether this platform has what these attributes stand on.
pub fn is_here(attributes: &[Attribute]) -> bool
    ensures { result ≡ is_here attributes.now }
{
    has_attribute(&THESE_PLATFORMS, attributes) || !has_attribute(&OTHER_PLATFORMS, attributes)
}

fn is_recipe_here(one: &Entry<'_>) -> bool
    ensures { result ≡ is_recipe_here (entry one.now) }
{
    match one.item {
        AstItem::Recipe(recipe) => is_here(recipe.get().attributes.as_slice()),
        _ => false,
    }
}

fn is_assignment(one: &Entry<'_>) -> bool
    ensures { result ≡ is_assignment (entry one.now) }
{
    matches!(one.item, AstItem::Assignment { .. })
}

/// Adds the item, where the test holds.
#[tactic(auto, using(crate::proofs::ListLaws::entries_end))]
pub(crate) fn keep_where<'a>(
    kept: &mut Vec<Entry<'a>>,
    test: bool,
    one: Entry<'a>,
) -> Result<(), AllocError>
    ensures { OnOk result (entries kept.new.items ≡ entries kept.old.items ++ (if test then entry one.entry ∷ [] else [])) }
{
    if test {
        kept.push(one)?;
    }
    Ok(())
}

/// The recipes among some items that this platform has.
pub fn recipe_items<'a>(alloc: Global, items: &[Entry<'a>]) -> Result<Vec<Entry<'a>>, NoMemory>
    ensures { IfOk result (λ v. entries v.items ≡ filter is_recipe_here (entries items.now)) }
{
    let mut kept = Vec::new(alloc);
    'items: for one in items {
        let is_recipe = is_recipe_here(one);
        keep_where(&mut kept, is_recipe, *one)?;
    }
    Ok(kept)
}

/// The assignments among some items.
pub fn variable_items<'a>(alloc: Global, items: &[Entry<'a>]) -> Result<Vec<Entry<'a>>, NoMemory>
    ensures { IfOk result (λ v. entries v.items ≡ filter is_assignment (entries items.now)) }
{
    let mut kept = Vec::new(alloc);
    'items: for one in items {
        let is_variable = is_assignment(one);
        keep_where(&mut kept, is_variable, *one)?;
    }
    Ok(kept)
}

fn is_set_by(value: &Option<SettingValue>) -> bool
    ensures { result ≡ is_set_by value.now }
{
    match value {
        None => true,
        Some(SettingValue::Bool(value)) => *value,
        Some(SettingValue::Text(_) | SettingValue::List(_)) => false,
    }
}

fn sets(flag: &str, item: &AstItem) -> bool
    ensures { result ≡ sets flag.now item.now }
{
    match item {
        AstItem::Setting { name, value, .. } => name.text.as_str() == flag && is_set_by(value),
        _ => false,
    }
}

/// Whether one of some items sets the flag of that name.
pub fn is_set(flag: &str, items: &[Entry<'_>]) -> bool
    ensures { result ≡ is_set flag.now (entries items.now) }
{
    'items: for one in items {
        if sets(flag, one.item) {
            return true;
        }
    }
    false
}
