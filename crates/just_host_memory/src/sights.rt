//! What the paths of a tree show.
ghost use Rattle.std.specs.Prelude.{◌≡◌, ◌≤◌, true, IfOk, Ok, map, option_copied, length, string_bytes};
ghost use Rattle.just_path.specs.Path.{text_of, is_absolute};
ghost use Rattle.just_path.specs.View.{meta_of, meta_at, meta_seen, target_seen, sees_file, sees_folder, asks_folder, goes_through_file, absence, filled_place, named_place, folder_place, asked_place, last_place, target_place, followed_place, place_told, meta_told, canonical_told, folder_told, link_told, AreInOrder, AreNamesInOrder, AreItemsOf, AreNamesOf};
ghost use Rattle.just_host_record.specs.declared.outside.TheConstants.{MAX_BYTES};
ghost use Rattle.just_host_record.specs.Sights.{sight_of, seen};
ghost use Rattle.just_host_record.specs.World.{text_in, text_at};
ghost use Rattle.just_host_memory.specs.Files.{by_text};
ghost use Rattle.just_host_memory.specs.Trees.{files_of, view_from, Shows, ShowsPlace};
ghost use Rattle.just_host_files.specs.Items.{AreItemsBehind};

use super::{Place, Tree};
use just_host_files::{name_behind, names_of, put_item, text_of};
use just_host_record::{MAX_BYTES, Thing};
use just_path::{Item, Kind, Meta, Miss, Utf8Path};
use just_path_text::{NoMemory, Seq, Text};
use std::alloc::Global;

/// Why a tree has no answer.
#[derive(Clone, Copy)]
pub enum TreeFault {
    /// What the path misses.
    Missed(Miss),
    /// Memory is wanting.
    NoMemory,
}

impl From<NoMemory> for TreeFault {
    ghost use Rattle.just_host_memory.specs.declared.sights.TreeFault.{TreeFault};

    ghost from_gives = { λ _ f. f ≡ TreeFault.NoMemory };

    fn from(_wanting: NoMemory) -> TreeFault
        ensures { result ≡ TreeFault.NoMemory }
    {
        TreeFault::NoMemory
    }
}

/// What is known of a thing.
fn meta_of(thing: &Thing) -> Meta
    ensures { result ≡ meta_of (sight_of thing.now) }
{
    match thing {
        Thing::File { bytes, executable } => Meta {
            kind: Kind::File,
            len: bytes.len() as u64,
            executable: *executable,
        },
        Thing::Folder => Meta {
            kind: Kind::Folder,
            len: 0,
            executable: false,
        },
        Thing::Link(target) => Meta {
            kind: Kind::Link,
            len: target.as_str().len() as u64,
            executable: false,
        },
    }
}

/// Whether only a folder is found by a path: it ends in `/`, or in the component `.` or `..`.
pub(crate) fn asks_folder(path: &str) -> bool
    ensures { result ≡ asks_folder path.now }
{
    let bytes = path.as_bytes();
    path == "."
        || path == ".."
        || bytes.ends_with(b"/")
        || bytes.ends_with(b"/.")
        || bytes.ends_with(b"/..")
}

fn is_file(meta: Option<Meta>) -> bool
    ensures { result ≡ sees_file meta }
{
    match meta {
        Some(meta) => matches!(meta.kind, Kind::File),
        None => false,
    }
}

pub(crate) fn is_folder(meta: Option<Meta>) -> bool
    ensures { result ≡ sees_folder meta }
{
    match meta {
        Some(meta) => matches!(meta.kind, Kind::Folder),
        None => false,
    }
}

impl Tree {
    /// What is known of what stands at a place.
    #[tactic(auto, using(crate::proofs::Lookups::meta_some, crate::proofs::Lookups::meta_none))]
    pub(crate) fn meta_at(&self, place: &[u8]) -> Option<Meta>
        ensures { result ≡ meta_seen place.now (seen (files_of self.now)) }
    {
        match self.find(place) {
            Some(thing) => Some(meta_of(thing)),
            None => None,
        }
    }

    /// The target of the link at a place, if one stands there.
    #[tactic(auto, using(crate::proofs::Lookups::target_link, crate::proofs::Lookups::target_folder, crate::proofs::Lookups::target_file, crate::proofs::Lookups::target_none))]
    fn target_at(&self, place: &Place) -> Option<&Text>
        ensures { option_copied result ≡ target_seen place.now.path (seen (files_of self.now)) }
    {
        match self.get(place.as_str()) {
            Some(Thing::Link(target)) => Some(target),
            Some(Thing::Folder) => None,
            Some(Thing::File { .. }) => None,
            None => None,
        }
    }

    fn goes_through_file(&self, place: &[u8]) -> bool
        ensures { result ≡ goes_through_file place.now (seen (files_of self.now)) }
    {
        for k in 0..place.len() {
            if place[k] == b'/' && is_file(self.meta_at(&place[..k])) {
                return true;
            }
        }
        false
    }

    /// The miss of a place at which nothing stands.
    pub(crate) fn absence(&self, place: &[u8]) -> Miss
        ensures { result ≡ absence place.now (seen (files_of self.now)) }
    {
        if self.goes_through_file(place) {
            Miss::NotFolder
        } else {
            Miss::NotFound
        }
    }

    /// The place, if something stands there.
    fn filled_place(&self, place: Place) -> Result<Place, TreeFault>
        ensures { ShowsPlace (filled_place place.path (seen (files_of self.now))) result }
    {
        let bytes = place.as_str().as_bytes();
        if self.meta_at(bytes).is_some() {
            return Ok(place);
        }
        let miss = self.absence(bytes);
        Err(TreeFault::Missed(miss))
    }

    /// The place of a path under an absolute folder, if something stands there.
    fn named_place(
        &self,
        alloc: Global,
        folder: Utf8Path<'_>,
        path: Utf8Path<'_>,
    ) -> Result<Place, TreeFault>
        requires { is_absolute (text_of folder) ≡ true }
        ensures { ShowsPlace (named_place (text_of folder.entry) (text_of path.entry) (seen (files_of self.now))) result }
    {
        if path.as_str().is_empty() {
            return Err(TreeFault::Missed(Miss::NotFound));
        }
        let place = Place::under(alloc, folder, path)?;
        self.filled_place(place)
    }

    /// The place, if a folder stands there.
    fn folder_place(&self, place: Place) -> Result<Place, TreeFault>
        ensures { ShowsPlace (folder_place (seen (files_of self.now)) (Ok place.path)) result }
    {
        if is_folder(self.meta_at(place.as_str().as_bytes())) {
            Ok(place)
        } else {
            Err(TreeFault::Missed(Miss::NotFolder))
        }
    }

    /// The same where the path asks for a folder.
    fn asked_place(&self, path: &str, place: Place) -> Result<Place, TreeFault>
        ensures { ShowsPlace (asked_place path.now (seen (files_of self.now)) (Ok place.path)) result }
    {
        if asks_folder(path) {
            self.folder_place(place)
        } else {
            Ok(place)
        }
    }

    /// The place, if no link stands there.
    fn last_place(&self, place: Place) -> Result<Place, TreeFault>
        ensures { ShowsPlace (last_place (seen (files_of self.now)) (Ok place.path)) result }
    {
        if self.target_at(&place).is_some() {
            Err(TreeFault::Missed(Miss::NotFound))
        } else {
            Ok(place)
        }
    }

    /// The place behind a link at a place, with that target.
    fn target_place(&self, alloc: Global, place: &Place, target: &str) -> Result<Place, TreeFault>
        ensures { ShowsPlace (target_place place.now.path target.now (seen (files_of self.now))) result }
    {
        let folder = place.as_path().join(alloc, Utf8Path::new(".."))?;
        let found = self.named_place(alloc, folder.as_path(), Utf8Path::new(target))?;
        let last = self.last_place(found)?;
        self.asked_place(target, last)
    }

    /// Where it is to be followed, the place behind the link at a place, else that place.
    fn followed_place(&self, alloc: Global, place: Place, follow: bool) -> Result<Place, TreeFault>
        ensures { ShowsPlace (followed_place follow (seen (files_of self.now)) (Ok place.path)) result }
    {
        if !follow {
            return Ok(place);
        }
        match self.target_at(&place) {
            Some(target) => self.target_place(alloc, &place, target.as_str()),
            None => Ok(place),
        }
    }

    /// The place that a path leads to under a folder.
    pub fn place(
        &self,
        alloc: Global,
        folder: &Place,
        path: Utf8Path<'_>,
        follow: bool,
    ) -> Result<Place, TreeFault>
        ensures { ShowsPlace (place_told (text_of path.entry) follow (view_from folder.now.path (files_of self.now))) result }
    {
        let text = path.as_str();
        let named = self.named_place(alloc, folder.as_path(), path)?;
        let found = self.followed_place(alloc, named, follow || asks_folder(text))?;
        self.asked_place(text, found)
    }

    /// What stands at a place, or that nothing does.
    fn meta_of_place(&self, place: &Place) -> Result<Meta, TreeFault>
        ensures { Shows (λ m. m) (meta_at (seen (files_of self.now)) (Ok place.now.path)) result }
    {
        match self.meta_at(place.as_str().as_bytes()) {
            Some(meta) => Ok(meta),
            None => Err(TreeFault::Missed(Miss::NotFound)),
        }
    }

    /// What stands where a path leads.
    pub fn meta(
        &self,
        alloc: Global,
        folder: &Place,
        path: Utf8Path<'_>,
        follow: bool,
    ) -> Result<Meta, TreeFault>
        ensures { Shows (λ m. m) (meta_told (text_of path.entry) follow (view_from folder.now.path (files_of self.now))) result }
    {
        let place = self.place(alloc, folder, path, follow)?;
        self.meta_of_place(&place)
    }

    /// Where a path leads that is to lead to a folder.
    pub fn folder(
        &self,
        alloc: Global,
        folder: &Place,
        path: Utf8Path<'_>,
    ) -> Result<Place, TreeFault>
        ensures { ShowsPlace (folder_told (text_of path.entry) (view_from folder.now.path (files_of self.now))) result }
    {
        let place = self.place(alloc, folder, path, true)?;
        self.folder_place(place)
    }

    /// The text of the file where a path leads under a folder, or the miss that the tree shows.
    pub fn text(
        &self,
        alloc: Global,
        folder: &Place,
        path: Utf8Path<'_>,
    ) -> Result<String, TreeFault>
        ensures told { Shows string_bytes (text_at (files_of self.now) (canonical_told (text_of path.entry) (view_from folder.now.path (files_of self.now)))) result }
        ensures limit { IfOk result (λ s. length (string_bytes s) ≤ MAX_BYTES) }
    {
        let place = self.place(alloc, folder, path, true)?;
        match self.get(place.as_str()) {
            Some(Thing::File { bytes, .. }) => copied_text(alloc, bytes.as_slice()),
            Some(Thing::Folder) => Err(TreeFault::Missed(Miss::IsFolder)),
            Some(Thing::Link(_)) => Err(TreeFault::Missed(Miss::NotFound)),
            None => Err(TreeFault::Missed(Miss::NotFound)),
        }
    }

    /// The target of the link where a path leads.
    pub fn link(
        &self,
        alloc: Global,
        folder: &Place,
        path: Utf8Path<'_>,
    ) -> Result<&Text, TreeFault>
        ensures { Shows (λ t. t.now) (link_told (text_of path.entry) (view_from folder.now.path (files_of self.now))) result }
    {
        let place = self.place(alloc, folder, path, false)?;
        match self.target_at(&place) {
            Some(target) => Ok(target),
            None => Err(TreeFault::Missed(Miss::NotFound)),
        }
    }

    /// What stands directly in a folder, by rising names.
    pub fn items(&self, alloc: Global, folder: &Place) -> Result<Vec<Item>, NoMemory>
        ensures order { IfOk result (λ v. AreInOrder v.items) }
        ensures items { IfOk result (λ v. AreItemsOf folder.now.path (seen (files_of self.now)) v.items) }
    {
        let front = folder.as_path().join(alloc, Utf8Path::new(""))?;
        items_of(alloc, self.things.as_slice(), front.as_str())
    }

    /// The names of what stands directly in a folder, rising.
    pub fn names(&self, alloc: Global, folder: &Place) -> Result<Seq<Text>, NoMemory>
        ensures order { IfOk result AreNamesInOrder }
        ensures names { IfOk result (λ names. AreNamesOf folder.now.path (seen (files_of self.now)) names) }
    {
        let items = self.items(alloc, folder)?;
        names_of(alloc, items)
    }
}

/// The items of the things whose paths are a name behind that front.
fn items_of(alloc: Global, things: &[(Place, Thing)], front: &str) -> Result<Vec<Item>, NoMemory>
    ensures order { IfOk result (λ v. AreInOrder v.items) }
    ensures items { IfOk result (λ v. AreItemsBehind front.now (map by_text things.now) v.items) }
{
    let mut items = Vec::new(alloc);
    for i in (0..things.len()).rev() {
        let entry = &things[i];
        if let Some(name) = name_behind(front, entry.0.as_str()) {
            let name = Text::from_str(alloc, name)?;
            let kind = meta_of(&entry.1).kind;
            put_item(&mut items, Item { name, kind })?;
        }
    }
    Ok(items)
}

/// The text that these bytes are, or why they are none that can be read.
pub fn copied_text(alloc: Global, bytes: &[u8]) -> Result<String, TreeFault>
    ensures told { Shows string_bytes (text_in bytes.now) result }
    ensures limit { IfOk result (λ s. length (string_bytes s) ≤ MAX_BYTES) }
{
    let Ok(copy) = Vec::from_slice(alloc, bytes) else {
        return Err(TreeFault::NoMemory);
    };
    match text_of(copy) {
        Ok(text) => Ok(text),
        Err(miss) => Err(TreeFault::Missed(miss)),
    }
}
