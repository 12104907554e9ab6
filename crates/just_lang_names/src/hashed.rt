//! For each of some names the place of the last item that has it, found by the name's hash.
ghost use Rattle.std.specs.Prelude.{◌≡◌, IfOk, OnOk};
ghost use Rattle.just_lang_spots.specs.Entries.{entries};
ghost use Rattle.just_lang_names.specs.HashedPlaces.{is_another, place_of, hashed_place, Enters, IsHashedIndex};

use super::hashes::name_hash;
use just_lang_spots::{Entry, item_name};
use just_path_text::NoMemory;
use std::alloc::Global;
use std::collections::BTreeMap;

/// A name with the place of the last item that has it.
#[derive(Clone, Copy)]
struct NamedPlace<'a> {
    name: &'a str,
    place: usize,
}

/// For each name the place of the last item of that name. Most are found by the hashes of their names alone; those of which
/// another name has the hash are kept by their names. Looking one up takes the logarithm of their number.
pub struct HashedIndex<'a> {
    /// The first name of each hash.
    firsts: BTreeMap<u64, NamedPlace<'a>>,
    /// The places of the names behind the first one of their hashes.
    others: BTreeMap<&'a str, usize>,
}

impl Drop for HashedIndex<'_> {
    fn drop(self) {
        let HashedIndex {
            firsts: _,
            others: _,
        } = self;
    }
}

/// The places of the last ones of each name.
pub(crate) fn hashed_index_of<'a>(
    alloc: Global,
    items: &[Entry<'a>],
) -> Result<HashedIndex<'a>, NoMemory>
    ensures { IfOk result (λ index. IsHashedIndex (entries items.now) index) }
{
    let mut index = HashedIndex {
        firsts: BTreeMap::new(alloc),
        others: BTreeMap::new(alloc),
    };
    'items: for (at, one) in items.iter().enumerate() {
        index.enter(item_name(one.item), at)?;
    }
    Ok(index)
}

/// Whether a name is kept under its hash, and isn't this one.
fn is_another(name: &str, kept: Option<NamedPlace<'_>>) -> bool
    ensures { result ≡ is_another name.now kept.entry }
{
    match kept {
        None => false,
        Some(kept) => kept.name != name,
    }
}

/// The place that is kept with the name.
fn place_of(name: &str, kept: Option<NamedPlace<'_>>) -> Option<usize>
    ensures { result ≡ place_of name.now kept.entry }
{
    match kept {
        Some(kept) if kept.name == name => Some(kept.place),
        _ => None,
    }
}

impl<'a> HashedIndex<'a> {
    /// The place of the last item of that name.
    pub fn place(&self, name: &str) -> Option<usize>
        ensures { result ≡ hashed_place self.now name.now }
    {
        match place_of(name, self.firsts.get(&name_hash(name)).copied()) {
            Some(place) => Some(place),
            None => self.others.get(name).copied(),
        }
    }

    /// Enters a place under a name, instead of an earlier one.
    #[tactic(auto, using(crate::proofs::Entered::entered_other, crate::proofs::Entered::entered_first))]
    fn enter(&mut self, name: &'a str, place: usize) -> Result<(), NoMemory>
        ensures { OnOk result (Enters self.old name.now place self.new) }
    {
        let hash = name_hash(name);
        if is_another(name, self.firsts.get(&hash).copied()) {
            self.others.insert(name, place)?;
            return Ok(());
        }
        self.firsts.insert(hash, NamedPlace { name, place })?;
        Ok(())
    }
}
