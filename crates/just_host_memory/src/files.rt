//! A tree of files in memory, and what an ending makes of it.
ghost use Rattle.std.specs.Prelude.{◌≡◌, ◌+◌, ◌<◌, ◌≤◌, IfOk, OnOk, OnErr, option_copied, vec_len, vec_capacity};
ghost use Rattle.std.specs.FinMap as map;
ghost use Rattle.std.specs.List.{position};
ghost use Rattle.std.specs.Str.{bytes_eq};
ghost use Rattle.just_path.specs.Comps.{slash};
ghost use Rattle.just_path.specs.View.{HasCleanPlaces, place_under};
ghost use Rattle.just_host_record.specs.Sights.{seen};
ghost use Rattle.just_host_memory.specs.Files.{files_in};
ghost use Rattle.just_host_memory.specs.Playing.{ArePlacesOf, ending_of, status_of, tree_after, changed, after_changes, others};

use super::{Ending, Place};
use just_host_record::{Status, Thing};
use just_path::Utf8Path;
use just_path_text::{NoMemory, Text};
use std::alloc::Global;

/// Files, folders and links by their places, which are clean and absolute.
#[derive(Debug)]
pub struct Tree {
    pub(crate) things: Vec<(Place, Thing)>,
    pub ghost clean: { HasCleanPlaces (seen (files_in things.items)) },
}

impl Drop for Tree {
    fn drop(self) {
        let Tree { things: _ } = self;
    }
}

impl Tree {
    ghost use Rattle.just_host_memory.specs.Trees.{files_of};

    /// The tree with nothing in it; it takes no memory.
    #[tactic(auto, using(crate::proofs::Lookups::clean_things))]
    pub fn new(alloc: Global) -> Tree
        ensures { files_of result ≡ map.empty }
    {
        Tree {
            things: Vec::new(alloc),
        }
    }

    /// What stands at a place, if anything does.
    pub fn get(&self, place: &str) -> Option<&Thing>
        ensures { option_copied result ≡ map.get (files_of self.now) place.now }
    {
        self.find(place.as_bytes())
    }

    pub(crate) fn find(&self, place: &[u8]) -> Option<&Thing>
        ensures { option_copied result ≡ map.get (files_of self.now) place.now }
    {
        for entry in &self.things {
            if place == entry.0.as_str().as_bytes() {
                return Some(&entry.1);
            }
        }
        None
    }

    /// Puts a thing at the place of a path under the root, in place of what stood there.
    #[tactic(auto, using(crate::proofs::Lookups::clean_things))]
    pub fn insert(&mut self, alloc: Global, path: &str, thing: Thing) -> Result<(), NoMemory>
        ensures ok { OnOk result (files_of self.new ≡ map.insert (files_of self.old) (place_under slash path.now) thing) }
        ensures err { OnErr result (files_of self.new ≡ files_of self.old) }
    {
        let place = Place::new(alloc, Utf8Path::new(path))?;
        self.things.reserve(1)?;
        put(&mut self.things, place, thing);
        Ok(())
    }

    /// Takes away what stands at a place.
    #[tactic(auto, using(crate::proofs::Lookups::clean_things))]
    pub fn remove(&mut self, place: &str)
        ensures { files_of self.new ≡ map.remove (files_of self.old) place.now }
    {
        take_out(&mut self.things, place);
    }

    /// Takes the first ending of that word out, lets its effects happen at the places of their paths under a folder,
    /// and answers its status.
    #[tactic(auto, using(crate::proofs::Lookups::clean_things))]
    pub fn play(
        &mut self,
        alloc: Global,
        folder: &Place,
        endings: &mut Vec<Ending>,
        word: &str,
    ) -> Result<Status, NoMemory>
        ensures status { IfOk result (λ s. s ≡ status_of (ending_of word.now endings.old.items)) }
        ensures effects { OnOk result (files_of self.new ≡ tree_after folder.now.path (files_of self.old) (ending_of word.now endings.old.items)) }
        ensures used { OnOk result (endings.new.items ≡ others word.now endings.old.items) }
        ensures tree { OnErr result (files_of self.new ≡ files_of self.old) }
        ensures endings { OnErr result (endings.new.items ≡ endings.old.items) }
    {
        let Some(at) = ending_at(endings.as_slice(), word) else {
            return Ok(Status::Code(0));
        };
        let places = places_of(alloc, folder, endings[at].effects.as_slice())?;
        self.things.reserve(places.len())?;
        let Ending {
            status,
            effects,
            ..
        } = endings.remove(at);
        apply(&mut self.things, places, effects);
        Ok(status)
    }
}

/// The place of the first ending of that word.
pub(crate) fn ending_at(endings: &[Ending], word: &str) -> Option<usize>
    ensures { result ≡ position (λ e. bytes_eq e.word word.now) endings.now }
{
    endings
        .iter()
        .position(|ending| ending.word.as_str() == word)
}

/// Takes away what stands at a place.
fn take_out(things: &mut Vec<(Place, Thing)>, place: &str)
    ensures tree { files_in things.new.items ≡ map.remove (files_in things.old.items) place.now }
    ensures bound { vec_len things.new ≤ vec_len things.old }
    ensures capacity { vec_capacity things.new ≡ vec_capacity things.old }
{
    things.retain(|entry| !stands_at(entry, place));
}

/// Whether an entry is that of the place.
fn stands_at(entry: &(Place, Thing), place: &str) -> bool
    ensures { result ≡ bytes_eq entry.now.0.path place.now }
{
    entry.0.as_str() == place
}

/// Puts a thing at a place, where there is memory for it.
pub(crate) fn put(things: &mut Vec<(Place, Thing)>, place: Place, thing: Thing)
    requires { vec_len things.old < vec_capacity things.old }
    ensures tree { files_in things.new.items ≡ map.insert (files_in things.old.items) place.path thing }
    ensures bound { vec_len things.new ≤ vec_len things.old + 1 }
    ensures capacity { vec_capacity things.new ≡ vec_capacity things.old }
{
    take_out(things, place.as_str());
    things.push_reserved((place, thing));
}

/// The places of effects under a folder.
fn places_of(
    alloc: Global,
    folder: &Place,
    effects: &[(Text, Option<Thing>)],
) -> Result<Vec<Place>, NoMemory>
    ensures { IfOk result (λ v. ArePlacesOf folder.now.path v.items effects.now) }
{
    let mut places = Vec::with_capacity(alloc, effects.len())?;
    for effect in effects {
        let path = Utf8Path::new(effect.0.as_str());
        places.push(Place::under(alloc, folder.as_path(), path)?)?;
    }
    Ok(places)
}

/// Lets effects happen at these places, one after the other, where there is memory for them.
fn apply(things: &mut Vec<(Place, Thing)>, places: Vec<Place>, effects: Vec<(Text, Option<Thing>)>)
    requires { vec_len things.old + vec_len places ≤ vec_capacity things.old }
    ensures { files_in things.new.items ≡ after_changes (files_in things.old.items) places.items effects.items }
{
    let mut changes = effects.into_iter();
    for place in places {
        let Some(effect) = changes.next() else {
            return;
        };
        apply_one(things, place, effect);
    }
}

/// Lets an effect happen at a place, where there is memory for it.
fn apply_one(things: &mut Vec<(Place, Thing)>, place: Place, effect: (Text, Option<Thing>))
    requires { vec_len things.old < vec_capacity things.old }
    ensures tree { files_in things.new.items
        ≡ changed (files_in things.old.items) place.path effect.1 }
    ensures bound { vec_len things.new ≤ vec_len things.old + 1 }
    ensures capacity { vec_capacity things.new ≡ vec_capacity things.old }
{
    let (_, change) = effect;
    match change {
        Some(thing) => put(things, place, thing),
        None => take_out(things, place.as_str()),
    }
}
