//! For each of some names the place of the last item that has it.
ghost use Rattle.std.specs.Prelude.{◌≡◌, IfOk, Some};
ghost use Rattle.std.specs.Option.{option_copied};
ghost use Rattle.just_lang_spots.specs.Entries.{entries, place_in, IsIndex};

use super::entries::{Entry, item_name};
use just_path_text::NoMemory;
use std::alloc::Global;
use std::collections::BTreeMap;

/// For each name the place of the last item of that name.
#[derive(Drop)]
pub struct Index<'a> {
    places: BTreeMap<&'a str, usize>,
}

/// The places of the last ones of each name.
pub fn index_of<'a>(alloc: Global, items: &[Entry<'a>]) -> Result<Index<'a>, NoMemory>
    ensures { IfOk result (λ index. IsIndex (entries items.now) index) }
{
    let mut places = BTreeMap::new(alloc);
    'items: for (at, one) in items.iter().enumerate() {
        places.insert(item_name(one.item), at)?;
    }
    Ok(Index { places })
}

impl<'a> Index<'a> {
    /// The place of the last item of that name.
    pub fn place(&self, name: &str) -> Option<usize>
        ensures { result ≡ place_in self.now name.now }
    {
        self.places.get(name).copied()
    }
}
