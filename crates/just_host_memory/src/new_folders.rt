//! Folders that are made with those above them.
ghost use Rattle.std.specs.Prelude.{◌≡◌, ◌+◌, ◌≤◌, Err, OnOk, OnErr, if◌then◌else◌, length, vec_len, vec_capacity};
ghost use Rattle.just_path.specs.Path.{text_of};
ghost use Rattle.just_path.specs.View.{place_under};
ghost use Rattle.just_host_record.specs.Changes.{is_not_found};
ghost use Rattle.just_host_record.specs.Effects.{MakesFolder};
ghost use Rattle.just_host_record.specs.NewFolders.{with_folders, new_folder, with_folder};
ghost use Rattle.just_host_memory.specs.Files.{files_in};
ghost use Rattle.just_host_memory.specs.Trees.{files_of, world_from, Shows, ShowsTree, with_folders_at};

use super::files::put;
use super::sights::TreeFault;
use super::writes::{folder_of, place_to_make};
use super::{Place, Tree};
use just_host_record::Thing;
use just_path::{Miss, Utf8Path};
use std::alloc::Global;

/// Puts folders at these places, where there is memory for them. The places are used up from the end on.
#[tactic(auto, using(crate::proofs::Climbs::put_last))]
fn put_folders(things: &mut Vec<(Place, Thing)>, places: Vec<Place>)
    requires { vec_len things.old + vec_len places ≤ vec_capacity things.old }
    ensures { files_in things.new.items ≡ with_folders_at (files_in things.old.items) places.items }
{
    let mut left = places;
    'places: while let Some(place) = left.pop() {
        put(things, place, Thing::Folder);
    }
}

impl Tree {
    /// The places at which folders are to be made so that one stands at a place: that place and those above it, up to one at which a folder stands.
    #[tactic(auto, using(crate::proofs::Climbs::climb_there, crate::proofs::Climbs::climb_blocked, crate::proofs::Climbs::climb_up, crate::proofs::Climbs::climb_end))]
    fn lacking_folders(&self, alloc: Global, place: Place) -> Result<Vec<Place>, TreeFault>
        ensures { Shows (λ v. with_folders_at (files_of self.now) v.items) (with_folders (files_of self.now) (length place.path) place.path) result }
    {
        let mut lacking = Vec::new(alloc);
        let mut at = place;
        for _ in 0..at.as_str().len() {
            if self.holds_folder(at.as_str()) {
                return Ok(lacking);
            }
            if !self.is_free(at.as_str()) {
                return Err(TreeFault::Missed(Miss::NotFound));
            }
            let above = folder_of(alloc, &at)?;
            let Ok(()) = lacking.push(at) else {
                return Err(TreeFault::NoMemory);
            };
            at = above;
        }
        Ok(lacking)
    }

    /// Makes a folder at a place, and those above it, where they lack.
    #[tactic(auto, using(crate::proofs::Lookups::clean_things))]
    fn put_folder(&mut self, alloc: Global, place: Place) -> Result<(), TreeFault>
        ensures tells { ShowsTree (with_folders (files_of self.old) (length place.path) place.path) (files_of self.new) result }
        ensures kept { OnErr result (files_of self.new ≡ files_of self.old) }
    {
        let lacking = self.lacking_folders(alloc, place)?;
        self.reserve(lacking.len())?;
        put_folders(&mut self.things, lacking);
        Ok(())
    }

    /// Makes a folder where a path wasn't found.
    #[tactic(auto, using(crate::proofs::Making::folder_made))]
    fn folder_behind_miss(
        &mut self,
        alloc: Global,
        folder: &Place,
        path: Utf8Path<'_>,
        miss: Miss,
    ) -> Result<(), TreeFault>
        ensures tells { ShowsTree (if is_not_found miss then new_folder (files_of self.old) (text_of path.entry) (place_under folder.now.path (text_of path.entry)) else Err miss) (files_of self.new) result }
        ensures kept { OnErr result (files_of self.new ≡ files_of self.old) }
    {
        match place_to_make(alloc, folder, path, miss, path.as_str().is_empty()) {
            Ok(place) => self.put_folder(alloc, place),
            Err(fault) => Err(fault),
        }
    }

    /// Makes a folder, with those above it, where a path leads to none.
    #[tactic(auto, using(just_host_record::proofs::MadeFolders::folder_makes, crate::proofs::Effects::shown_makes))]
    pub fn make_folder(
        &mut self,
        alloc: Global,
        folder: &Place,
        path: Utf8Path<'_>,
    ) -> Result<(), TreeFault>
        ensures tells { ShowsTree (with_folder (world_from folder.now.path (files_of self.old)) (text_of path.entry)) (files_of self.new) result }
        ensures makes { OnOk result (MakesFolder (world_from folder.now.path (files_of self.old))
            (text_of path.entry) (files_of self.new)) }
        ensures kept { OnErr result (files_of self.new ≡ files_of self.old) }
    {
        match self.folder(alloc, folder, path) {
            Ok(_) => Ok(()),
            Err(TreeFault::Missed(miss)) => self.folder_behind_miss(alloc, folder, path, miss),
            Err(TreeFault::NoMemory) => Err(TreeFault::NoMemory),
        }
    }
}
