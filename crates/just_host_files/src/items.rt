//! Items of a folder, by rising names.
ghost use Rattle.std.specs.Prelude.{◌≡◌, ◌≢◌, ◌==◌, ◌++◌, ℕ, List, [], true, IfOk, OnOk, MatchOption, map};
ghost use Rattle.std.specs.List.{list_any};
ghost use Rattle.std.specs.Ordering.{nat_cmp, is_gt};
ghost use Rattle.std.specs.Cmp.Lexicographic.{slice_cmp};
ghost use Rattle.std.specs.FinMap.Entries.{put};
ghost use Rattle.just_path.specs.View.{named, is_name, AreInOrder};
ghost use Rattle.just_host_files.specs.Items.{IsPlaceOf, put_in};

use just_path::Item;
use just_path_text::{NoMemory, Seq, Text};
use std::alloc::Global;

/// Whether a text has a slash.
fn has_slash(text: &str) -> bool
    ensures { result ≡ list_any (λ b. b == 47) text.now }
{
    text.as_bytes().iter().any(|byte| *byte == b'/')
}

/// Whether a text is the name of an item.
pub fn is_name(text: &str) -> bool
    ensures { result ≡ is_name text.now }
{
    match text {
        "" => false,
        name => !has_slash(name),
    }
}

/// The name behind the front of a path.
pub fn name_behind<'a>(front: &str, path: &'a str) -> Option<&'a str>
    ensures { MatchOption result
        ((name : List ℕ) → is_name name ≡ true → path.now ≢ front.now ++ name)
        (λ n. (is_name n.now ≡ true) × (path.now ≡ front.now ++ n.now)) }
{
    let name = path.strip_prefix(front)?;
    if is_name(name) { Some(name) } else { None }
}

/// Whether a name is greater than an item's.
fn is_behind(name: &str, item: &Item) -> bool
    ensures { result ≡ is_gt (slice_cmp nat_cmp name.now item.now.name) }
{
    name.cmp(item.name.as_str()).is_gt()
}

/// The place of a name among items: those before it have lesser names, and that at it has none.
fn place_of(items: &[Item], name: &str) -> usize
    requires { AreInOrder items.now }
    ensures { IsPlaceOf name.now result (named items.now) }
{
    for at in (0..items.len()).rev() {
        if is_behind(name, &items[at]) {
            return at + 1;
        }
    }
    0
}

/// Puts an item at the place of its name. It replaces one that has the name already.
pub fn put_item(items: &mut Vec<Item>, item: Item) -> Result<(), NoMemory>
    requires { AreInOrder items.old.items }
    ensures { OnOk result (named items.new.items ≡ put (slice_cmp nat_cmp) item.name item.kind (named items.old.items)) }
{
    let at = place_of(items.as_slice(), item.name.as_str());
    if at < items.len() && item.name.as_str() == items[at].name.as_str() {
        items[at] = item;
        return Ok(());
    }
    items.insert(at, item)?;
    Ok(())
}

/// The items by rising names, each name once.
pub fn in_order(alloc: Global, items: Vec<Item>) -> Result<Vec<Item>, NoMemory>
    ensures order { IfOk result (λ v. AreInOrder v.items) }
    ensures items { IfOk result (λ v. named v.items ≡ put_in [] items.items) }
{
    let mut sorted = Vec::with_capacity(alloc, items.len())?;
    for item in items {
        put_item(&mut sorted, item)?;
    }
    Ok(sorted)
}

/// The names of items.
pub fn names_of(alloc: Global, items: Vec<Item>) -> Result<Seq<Text>, NoMemory>
    ensures { IfOk result (λ names. names ≡ map (λ i. i.name) items.items) }
{
    let mut names = Vec::with_capacity(alloc, items.len())?;
    for item in items {
        let Item { name, .. } = item;
        names.push(name)?;
    }
    Ok(Seq::from(names))
}
