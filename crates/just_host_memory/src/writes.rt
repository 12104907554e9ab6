//! What writing makes of a tree.
ghost use Rattle.std.specs.Prelude.{◌≡◌, ◌+◌, ◌≤◌, ◌||◌, IfOk, Ok, Err, OnOk, OnErr, [], false, if◌then◌else◌, is_none, vec_len, vec_capacity};
ghost use Rattle.std.specs.FinMap as map;
ghost use Rattle.just_path.specs.Path.{text_of};
ghost use Rattle.just_path.specs.Comps.{is_empty};
ghost use Rattle.just_path.specs.View.{place_under, asks_folder, absence};
ghost use Rattle.just_host_record.specs.declared.tree.Thing.{Thing};
ghost use Rattle.just_host_record.specs.Changes.{folder_of, holds_folder, is_open_place, is_not_found, file_at, new_place, place_written, runs, written, with_entry, new_entry, with_cache_entry};
ghost use Rattle.just_host_record.specs.Effects.{IsPutSomewhere, HasEntry};
ghost use Rattle.just_host_record.specs.Sights.{seen};
ghost use Rattle.just_host_memory.specs.Trees.{files_of, world_from, place_to_make, ShowsPlace, ShowsTree};

use super::files::put;
use super::sights::{TreeFault, asks_folder, is_folder};
use super::{Place, Tree};
use just_host_files::copied_bytes;
use just_host_record::Thing;
use just_path::{Miss, Utf8Path};
use just_path_text::{NoMemory, Seq};
use std::alloc::Global;

/// Whether a miss says that nothing is there.
pub(crate) fn is_not_found(miss: Miss) -> bool
    ensures { result ≡ is_not_found miss }
{
    matches!(miss, Miss::NotFound)
}

/// The folder that a place is in; the root is in itself.
pub(crate) fn folder_of(alloc: Global, place: &Place) -> Result<Place, NoMemory>
    ensures { IfOk result (λ p. p.path ≡ folder_of place.now.path) }
{
    Place::under(alloc, place.as_path(), Utf8Path::new(".."))
}

/// Whether no file can be made by a path: it is empty, or only a folder is found by it.
fn names_no_file(path: &str) -> bool
    ensures { result ≡ (is_empty path.now || asks_folder path.now) }
{
    path.is_empty() || asks_folder(path)
}

/// The place of what is to be made where a path wasn't found: the path's own, unless the path can't name it.
pub(crate) fn place_to_make(
    alloc: Global,
    folder: &Place,
    path: Utf8Path<'_>,
    miss: Miss,
    unnamed: bool,
) -> Result<Place, TreeFault>
    ensures { ShowsPlace (place_to_make miss unnamed (place_under folder.now.path (text_of path.entry))) result }
{
    if !is_not_found(miss) {
        return Err(TreeFault::Missed(miss));
    }
    if unnamed {
        return Err(TreeFault::Missed(Miss::NotFound));
    }
    Ok(Place::under(alloc, folder.as_path(), path)?)
}

impl Tree {
    /// Whether a folder stands at a place; the root is always one.
    pub(crate) fn holds_folder(&self, place: &str) -> bool
        ensures { result ≡ holds_folder (files_of self.now) place.now }
    {
        place == "/" || is_folder(self.meta_at(place.as_bytes()))
    }

    /// Whether nothing stands at a place.
    pub(crate) fn is_free(&self, place: &str) -> bool
        ensures { result ≡ is_none (map.get (files_of self.now) place.now) }
    {
        match self.get(place) {
            Some(_) => false,
            None => true,
        }
    }

    /// Whether something can be put at a place: nothing stands there, and it is in a folder.
    fn is_open_place(&self, alloc: Global, place: &Place) -> Result<bool, NoMemory>
        ensures { IfOk result (λ b. b ≡ is_open_place (files_of self.now) place.now.path) }
    {
        if !self.is_free(place.as_str()) {
            return Ok(false);
        }
        let folder = folder_of(alloc, place)?;
        Ok(self.holds_folder(folder.as_str()))
    }

    /// The place, if a file stands there.
    fn file_place(&self, place: Place) -> Result<Place, TreeFault>
        ensures { ShowsPlace (file_at place.path (map.get (files_of self.now) place.path)) result }
    {
        match self.get(place.as_str()) {
            Some(Thing::File { .. }) => Ok(place),
            Some(Thing::Folder) => Err(TreeFault::Missed(Miss::IsFolder)),
            Some(Thing::Link(_)) => Err(TreeFault::Missed(Miss::NotFound)),
            None => Err(TreeFault::Missed(Miss::NotFound)),
        }
    }

    /// The place, if something can be put there.
    fn open_place(&self, alloc: Global, place: Place) -> Result<Place, TreeFault>
        ensures { ShowsPlace (if is_open_place (files_of self.now) place.path then Ok place.path
            else Err (absence place.path (seen (files_of self.now)))) result }
    {
        if self.is_open_place(alloc, &place)? {
            return Ok(place);
        }
        let miss = self.absence(place.as_str().as_bytes());
        Err(TreeFault::Missed(miss))
    }

    /// The place of a new file where a path wasn't found.
    #[tactic(auto, using(crate::proofs::Making::file_made, crate::proofs::Making::file_unmade))]
    fn place_behind_miss(
        &self,
        alloc: Global,
        folder: &Place,
        path: Utf8Path<'_>,
        miss: Miss,
    ) -> Result<Place, TreeFault>
        ensures { ShowsPlace (if is_not_found miss then new_place (files_of self.now) (text_of path.entry) (place_under folder.now.path (text_of path.entry)) else Err miss) result }
    {
        match place_to_make(alloc, folder, path, miss, names_no_file(path.as_str())) {
            Ok(place) => self.open_place(alloc, place),
            Err(fault) => Err(fault),
        }
    }

    /// The place where a file is written.
    fn place_written(
        &self,
        alloc: Global,
        folder: &Place,
        path: Utf8Path<'_>,
    ) -> Result<Place, TreeFault>
        ensures { ShowsPlace (place_written (world_from folder.now.path (files_of self.now)) (text_of path.entry)) result }
    {
        match self.place(alloc, folder, path, true) {
            Ok(place) => self.file_place(place),
            Err(TreeFault::Missed(miss)) => self.place_behind_miss(alloc, folder, path, miss),
            Err(TreeFault::NoMemory) => Err(TreeFault::NoMemory),
        }
    }

    /// Whether the file at a place may be run.
    fn runs(&self, place: &str) -> bool
        ensures { result ≡ runs (map.get (files_of self.now) place.now) }
    {
        match self.get(place) {
            Some(Thing::File { executable, .. }) => *executable,
            Some(Thing::Folder) => false,
            Some(Thing::Link(_)) => false,
            None => false,
        }
    }

    /// Lets the file at a path hold these bytes.
    #[tactic(auto, using(crate::proofs::Lookups::clean_things, just_host_record::proofs::Effects::written_puts, crate::proofs::Effects::shown_puts))]
    pub fn write(
        &mut self,
        alloc: Global,
        folder: &Place,
        path: Utf8Path<'_>,
        bytes: &[u8],
    ) -> Result<(), TreeFault>
        ensures tells { ShowsTree (written (world_from folder.now.path (files_of self.old)) (text_of path.entry) bytes.now) (files_of self.new) result }
        ensures puts { OnOk result (IsPutSomewhere (world_from folder.now.path (files_of self.old))
            (text_of path.entry) bytes.now (files_of self.new)) }
        ensures kept { OnErr result (files_of self.new ≡ files_of self.old) }
    {
        let place = self.place_written(alloc, folder, path)?;
        let bytes = copied_bytes(alloc, bytes)?;
        self.reserve(1)?;
        let executable = self.runs(place.as_str());
        put(&mut self.things, place, Thing::File { bytes, executable });
        Ok(())
    }

    /// Makes room for things to come.
    #[tactic(auto, using(crate::proofs::Lookups::clean_things))]
    pub(crate) fn reserve(&mut self, n: usize) -> Result<(), NoMemory>
        ensures files { files_of self.new ≡ files_of self.old }
        ensures room { OnOk result (vec_len self.new.things + n ≤ vec_capacity self.new.things) }
    {
        self.things.reserve(n)?;
        Ok(())
    }

    /// Puts an empty file at a place, where one can be put there; its folder is made too where it lacks and can be.
    #[tactic(auto, using(crate::proofs::Lookups::clean_things))]
    fn put_entry(&mut self, alloc: Global, place: Place) -> Result<(), TreeFault>
        ensures tells { ShowsTree (with_entry (files_of self.old) place.path) (files_of self.new) result }
        ensures kept { OnErr result (files_of self.new ≡ files_of self.old) }
    {
        self.reserve(2)?;
        if self.is_open_place(alloc, &place)? {
            put(&mut self.things, place, empty_file(alloc));
            return Ok(());
        }
        let folder = folder_of(alloc, &place)?;
        if self.is_free(place.as_str()) && self.is_open_place(alloc, &folder)? {
            put(&mut self.things, folder, Thing::Folder);
            put(&mut self.things, place, empty_file(alloc));
            return Ok(());
        }
        let miss = self.absence(place.as_str().as_bytes());
        Err(TreeFault::Missed(miss))
    }

    /// Makes a cache entry where a path wasn't found.
    #[tactic(auto, using(crate::proofs::Making::entry_made))]
    fn entry_behind_miss(
        &mut self,
        alloc: Global,
        folder: &Place,
        path: Utf8Path<'_>,
        miss: Miss,
    ) -> Result<(), TreeFault>
        ensures tells { ShowsTree (if is_not_found miss then new_entry (files_of self.old) (text_of path.entry) (place_under folder.now.path (text_of path.entry)) else Err miss) (files_of self.new) result }
        ensures kept { OnErr result (files_of self.new ≡ files_of self.old) }
    {
        match place_to_make(alloc, folder, path, miss, names_no_file(path.as_str())) {
            Ok(place) => self.put_entry(alloc, place),
            Err(fault) => Err(fault),
        }
    }

    /// Makes a cache entry, where no file is found at its path.
    #[tactic(auto, using(just_host_record::proofs::Effects::entry_has, crate::proofs::Effects::shown_has))]
    pub fn make_entry(
        &mut self,
        alloc: Global,
        folder: &Place,
        path: Utf8Path<'_>,
    ) -> Result<(), TreeFault>
        ensures tells { ShowsTree (with_cache_entry (world_from folder.now.path (files_of self.old)) (text_of path.entry)) (files_of self.new) result }
        ensures has { OnOk result (HasEntry (world_from folder.now.path (files_of self.old))
            (text_of path.entry) (files_of self.new)) }
        ensures kept { OnErr result (files_of self.new ≡ files_of self.old) }
    {
        match self.place(alloc, folder, path, true) {
            Ok(place) => {
                self.file_place(place)?;
                Ok(())
            }
            Err(TreeFault::Missed(miss)) => self.entry_behind_miss(alloc, folder, path, miss),
            Err(TreeFault::NoMemory) => Err(TreeFault::NoMemory),
        }
    }
}

/// A file with no byte, which may not be run.
fn empty_file(alloc: Global) -> Thing
    ensures { result ≡ Thing.File [] false }
{
    Thing::File {
        bytes: Seq::new(alloc),
        executable: false,
    }
}
