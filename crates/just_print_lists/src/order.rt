//! Items in the order of their names.
ghost use Rattle.std.specs.Prelude.{◌≡◌, ◌++◌, map, filter, slice_get, not, IfOk, OnOk};
ghost use Rattle.std.specs.List.{flat_map};
ghost use Rattle.just_print_lists.specs.Order.{keys_from, by_name, in_order, begins_underscore, public_by_name, only_where, only_some};

use super::listed::{ListedAlias, ListedModule, ListedRecipe};
use just_lang_types::{Alias, Assignment};
use just_path_text::{NoMemory, Text};
use std::alloc::Global;

/// What has a name by which listings put it in order.
pub trait Named {
    ghost use Rattle.std.specs.Prelude.{◌≡◌, List, ℕ};

    ghost name: { Self → List ℕ };

    /// Its name.
    fn name(&self) -> &str
        ensures { result.now ≡ name self.now };
}

impl Named for Text {
    ghost name = { λ t. t };

    fn name(&self) -> &str {
        self.as_str()
    }
}

impl Named for Assignment {
    ghost name = { λ a. a.name };

    fn name(&self) -> &str {
        self.name.as_str()
    }
}

impl Named for Alias {
    ghost name = { λ a. a.name };

    fn name(&self) -> &str {
        self.name.as_str()
    }
}

impl Named for ListedRecipe {
    ghost name = { λ r. r.name };

    fn name(&self) -> &str {
        self.name.as_str()
    }
}

impl Named for ListedAlias {
    ghost name = { λ a. a.name };

    fn name(&self) -> &str {
        self.name.as_str()
    }
}

impl Named for ListedModule {
    ghost use Rattle.just_print_lists.specs.Listed.{name_of};

    ghost name = { name_of };

    fn name(&self) -> &str {
        self.name.as_str()
    }
}

/// The name of an item, with its place.
fn key_of<T: Named>(alloc: Global, item: &T, place: usize) -> Result<(Text, usize), NoMemory>
    ensures { IfOk result (λ k. k ≡ (T.name item.now, place)) }
{
    let name = Text::from_str(alloc, item.name())?;
    Ok((name, place))
}

/// The names of items, with their places.
fn keys_of<T: Named>(alloc: Global, items: &[T]) -> Result<Vec<(Text, usize)>, NoMemory>
    ensures { IfOk result (λ v. v.items ≡ keys_from T.name 0 items.now) }
{
    let mut keys = Vec::new(alloc);
    'items: for (place, item) in items.iter().enumerate() {
        let key = key_of(alloc, item, place)?;
        keys.push(key)?;
    }
    Ok(keys)
}

/// Adds the item at a place, where there is one.
fn push_at<'j, T>(found: &mut Vec<&'j T>, items: &'j [T], place: usize) -> Result<(), NoMemory>
    ensures { OnOk result
        (map (λ item. item.now) found.new.items
        ≡ map (λ item. item.now) found.old.items ++ only_some (slice_get items.now place)) }
{
    match items.get(place) {
        Some(item) => Ok(found.push(item)?),
        None => Ok(()),
    }
}

/// The items at the places of keys.
fn items_at<'j, T>(
    alloc: Global,
    items: &'j [T],
    keys: &[(Text, usize)],
) -> Result<Vec<&'j T>, NoMemory>
    ensures { IfOk result
        (λ v. map (λ item. item.now) v.items
        ≡ flat_map (λ k. only_some (slice_get items.now k.1)) keys.now) }
{
    let mut found = Vec::new(alloc);
    'keys: for key in keys {
        push_at(&mut found, items, key.1)?;
    }
    Ok(found)
}

/// Items in the order of their names; of one name the earlier first.
pub fn by_name<'j, T: Named>(alloc: Global, items: &'j [T]) -> Result<Vec<&'j T>, NoMemory>
    ensures { IfOk result (λ v. map (λ item. item.now) v.items ≡ by_name T.name items.now) }
{
    let mut keys = keys_of(alloc, items)?;
    keys.sort()?;
    let found = items_at(alloc, items, keys.as_slice())?;
    Ok(found)
}

/// Borrows of items.
pub fn all_of<'j, T>(alloc: Global, items: &'j [T]) -> Result<Vec<&'j T>, NoMemory>
    ensures { IfOk result (λ v. map (λ item. item.now) v.items ≡ items.now) }
{
    let mut all = Vec::new(alloc);
    'items: for item in items {
        all.push(item)?;
    }
    Ok(all)
}

/// Items in the order of their names, or as they stand.
pub fn in_order<'j, T: Named>(
    alloc: Global,
    unsorted: bool,
    items: &'j [T],
) -> Result<Vec<&'j T>, NoMemory>
    ensures { IfOk result
        (λ v. map (λ item. item.now) v.items ≡ in_order T.name unsorted items.now) }
{
    if unsorted {
        all_of(alloc, items)
    } else {
        by_name(alloc, items)
    }
}

/// Adds an item where it is wanted.
pub fn push_where<'j, T>(kept: &mut Vec<&'j T>, wanted: bool, item: &'j T) -> Result<(), NoMemory>
    ensures { OnOk result
        (map (λ it. it.now) kept.new.items
        ≡ map (λ it. it.now) kept.old.items ++ only_where wanted item.now) }
{
    if wanted { Ok(kept.push(item)?) } else { Ok(()) }
}

/// Whether a name is a private one.
pub fn begins_underscore(name: &str) -> bool
    ensures { result ≡ begins_underscore name.now }
{
    match name.as_bytes() {
        [first, ..] => *first == b'_',
        [] => false,
    }
}

/// Those of some items whose names aren't private.
#[tactic(auto, using(crate::proofs::Keeping::kept_more))]
fn names_public<'j, T: Named>(alloc: Global, items: &[&'j T]) -> Result<Vec<&'j T>, NoMemory>
    ensures { IfOk result
        (λ v. map (λ it. it.now) v.items
        ≡ filter (λ x. not (begins_underscore (T.name x))) (map (λ it. it.now) items.now)) }
{
    let mut kept = Vec::new(alloc);
    'items: for item in items {
        push_where(&mut kept, !begins_underscore(item.name()), *item)?;
    }
    Ok(kept)
}

/// The items whose names aren't private, in the order of their names.
pub fn public_by_name<'j, T: Named>(alloc: Global, items: &'j [T]) -> Result<Vec<&'j T>, NoMemory>
    ensures { IfOk result (λ v. map (λ it. it.now) v.items ≡ public_by_name T.name items.now) }
{
    let ordered = by_name(alloc, items)?;
    let kept = names_public(alloc, ordered.as_slice())?;
    Ok(kept)
}

/// The names of items.
pub fn names_of<T: Named>(alloc: Global, items: &[&T]) -> Result<Vec<Text>, NoMemory>
    ensures { IfOk result (λ v. v.items ≡ map T.name (map (λ it. it.now) items.now)) }
{
    let mut names = Vec::new(alloc);
    'items: for item in items {
        let name = Text::from_str(alloc, item.name())?;
        names.push(name)?;
    }
    Ok(names)
}
