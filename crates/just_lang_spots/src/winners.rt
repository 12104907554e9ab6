//! Which of a module's recipes and variables stand.
ghost use Rattle.std.specs.Prelude.{◌≡◌, filter, IfOk};
ghost use Rattle.std.specs.List.{list_any};
ghost use Rattle.just_lang_spots.specs.Entries.{entry, entries};
ghost use Rattle.just_lang_spots.specs.Items.{item_name, is_recipe_here, is_assignment};
ghost use Rattle.just_lang_spots.specs.Standing.{unbeaten, last_of_each, standing};
ghost use Rattle.just_lang_spots.specs.Winners.{is_imported, wins_in, has_pair, ArePairs, is_beaten_by};

use super::entries::{Entry, item_name, keep_where, recipe_items, variable_items};
use just_path_text::{NoMemory, Seq};
use std::alloc::Global;
use std::collections::{BTreeSet, HashSet};

/// The names that the files of some items give.
#[derive(Drop)]
struct Pairs<'a> {
    set: BTreeSet<(usize, &'a str)>,
}

fn pairs_of<'a>(alloc: Global, items: &[Entry<'a>]) -> Result<Pairs<'a>, NoMemory>
    ensures { IfOk result (λ pairs. ArePairs (entries items.now) pairs) }
{
    let mut set = BTreeSet::new(alloc);
    'items: for one in items {
        set.insert((one.file, item_name(one.item)))?;
    }
    Ok(Pairs { set })
}

impl<'a> Pairs<'a> {
    fn has(&self, file: usize, name: &'a str) -> bool
        ensures { result ≡ has_pair self.now file name.now }
    {
        self.set.contains(&(file, name))
    }
}

/// Whether one of the files gives that name.
fn has_any<'a>(pairs: &Pairs<'a>, files: &[usize], name: &'a str) -> bool
    ensures { result ≡ list_any (λ f. has_pair pairs.now f name.now) files.now }
{
    'files: for file in files {
        if pairs.has(*file, name) {
            return true;
        }
    }
    false
}

/// Whether one of the items has the name of this one and stands in a file that imports this one's.
fn is_beaten<'a>(winners: &[Seq<usize>], pairs: &Pairs<'a>, one: &Entry<'a>) -> bool
    ensures { result ≡ is_beaten_by winners.now pairs.now (entry one.now) }
{
    let name = item_name(one.item);
    match winners.get(one.file) {
        None => false,
        Some(files) => has_any(pairs, files.as_slice(), name),
    }
}

fn is_imported(files: &Seq<usize>) -> bool
    ensures { result ≡ is_imported files.now }
{
    files.as_slice().first().is_some()
}

/// Whether a file is imported by another one.
fn imports_any(winners: &[Seq<usize>]) -> bool
    ensures { result ≡ list_any is_imported winners.now }
{
    'files: for files in winners {
        if is_imported(files) {
            return true;
        }
    }
    false
}

/// Those that no other one beats, by the table of names that the files give.
fn unbeaten_by_pairs<'a>(
    alloc: Global,
    winners: &[Seq<usize>],
    items: &[Entry<'a>],
) -> Result<Vec<Entry<'a>>, NoMemory>
    ensures { IfOk result (λ v. entries v.items ≡ unbeaten item_name (wins_in winners.now) (entries items.now)) }
{
    let pairs = pairs_of(alloc, items)?;
    let mut kept = Vec::new(alloc);
    'items: for one in items {
        let stands = !is_beaten(winners, &pairs, one);
        keep_where(&mut kept, stands, *one)?;
    }
    Ok(kept)
}

fn copies<'a>(alloc: Global, items: &[Entry<'a>]) -> Result<Vec<Entry<'a>>, NoMemory>
    ensures { IfOk result (λ v. entries v.items ≡ entries items.now) }
{
    let mut copies = Vec::new(alloc);
    copies.extend_from_slice(items)?;
    Ok(copies)
}

/// Those that no other one beats. For each file `winners` has those that import it, straight or through others.
pub fn unbeaten<'a>(
    alloc: Global,
    winners: &[Seq<usize>],
    items: &[Entry<'a>],
) -> Result<Vec<Entry<'a>>, NoMemory>
    ensures { IfOk result (λ v. entries v.items ≡ unbeaten item_name (wins_in winners.now) (entries items.now)) }
{
    if imports_any(winners) {
        return unbeaten_by_pairs(alloc, winners, items);
    }
    copies(alloc, items)
}

/// The last of each name.
fn last_of_each<'a>(alloc: Global, items: &[Entry<'a>]) -> Result<Vec<Entry<'a>>, NoMemory>
    ensures { IfOk result (λ v. entries v.items ≡ last_of_each item_name (entries items.now)) }
{
    let mut seen: HashSet<&str> = HashSet::with_capacity(alloc, items.len())?;
    let mut kept = Vec::with_capacity(alloc, items.len())?;
    'items: for at in (0..items.len()).rev() {
        let one = items[at];
        let is_last = seen.insert(item_name(one.item))?;
        keep_where(&mut kept, is_last, one)?;
    }
    kept.reverse();
    Ok(kept)
}

/// Those that stand: of each name the last one that no other one beats.
pub fn standing<'a>(
    alloc: Global,
    winners: &[Seq<usize>],
    items: &[Entry<'a>],
) -> Result<Vec<Entry<'a>>, NoMemory>
    ensures { IfOk result (λ v. entries v.items ≡ standing item_name (wins_in winners.now) (entries items.now)) }
{
    let unbeaten = unbeaten(alloc, winners, items)?;
    last_of_each(alloc, unbeaten.as_slice())
}

/// The recipes among some items that stand.
pub fn standing_recipes<'a>(
    alloc: Global,
    winners: &[Seq<usize>],
    items: &[Entry<'a>],
) -> Result<Vec<Entry<'a>>, NoMemory>
    ensures { IfOk result (λ v. entries v.items ≡ standing item_name (wins_in winners.now) (filter is_recipe_here (entries items.now))) }
{
    let recipes = recipe_items(alloc, items)?;
    standing(alloc, winners, recipes.as_slice())
}

/// The variables among some items that stand.
pub fn standing_variables<'a>(
    alloc: Global,
    winners: &[Seq<usize>],
    items: &[Entry<'a>],
) -> Result<Vec<Entry<'a>>, NoMemory>
    ensures { IfOk result (λ v. entries v.items ≡ standing item_name (wins_in winners.now) (filter is_assignment (entries items.now))) }
{
    let variables = variable_items(alloc, items)?;
    standing(alloc, winners, variables.as_slice())
}
