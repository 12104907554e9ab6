//! The items of a module, each with the number of its file.
ghost use Rattle.std.specs.Prelude.{◌≡◌, filter_map, IfOk};
ghost use Rattle.std.specs.Option.{option_map};
ghost use Rattle.just_lang_spots.specs.Entries.{entry, entries};
ghost use Rattle.just_lang_layout.specs.Items.{item_at, items_of_module};

use super::layout::{File, Module, Placed};
use just_lang_spots::Entry;
use just_path_text::NoMemory;
use std::alloc::Global;

/// The item at a place.
pub fn item_at<'a>(files: &'a [File], placed: Placed) -> Option<Entry<'a>>
    ensures { option_map entry result ≡ item_at files.now placed }
{
    match files.get(placed.file) {
        None => None,
        Some(file) => match file.items.as_slice().get(placed.item) {
            None => None,
            Some(item) => Some(Entry {
                file: placed.file,
                item,
            }),
        },
    }
}

/// The items at some places.
#[tactic(auto, using(just_lang_spots::proofs::ListLaws::entries_more))]
pub fn items_at<'a>(
    alloc: Global,
    files: &'a [File],
    places: &[Placed],
) -> Result<Vec<Entry<'a>>, NoMemory>
    ensures { IfOk result (λ v. entries v.items ≡ filter_map (item_at files.now) places.now) }
{
    let mut found = Vec::new(alloc);
    'places: for place in places {
        if let Some(one) = item_at(files, *place) {
            found.push(one)?;
        }
    }
    Ok(found)
}

/// The items of a module, those of its imports in their places.
pub fn items_of_module<'a>(
    alloc: Global,
    files: &'a [File],
    some_module: &Module,
) -> Result<Vec<Entry<'a>>, NoMemory>
    ensures { IfOk result (λ v. entries v.items ≡ items_of_module files.now some_module.now) }
{
    items_at(alloc, files, some_module.placed.as_slice())
}
