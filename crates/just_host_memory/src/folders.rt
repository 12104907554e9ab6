//! Temporary folders of a tree, and what is removed from it.
ghost use Rattle.std.specs.Prelude.{◌≡◌, ◌++◌, true, IfOk, OnErr, option_map};
ghost use Rattle.std.specs.FinMap as map;
ghost use Rattle.just_path.specs.Path.{text_of};
ghost use Rattle.just_path.specs.View.{place_under};
ghost use Rattle.just_host_record.specs.declared.tree.Thing.{Thing};
ghost use Rattle.just_host_record.specs.Folders.{IsFresh};
ghost use Rattle.just_host_memory.specs.Trees.{files_of, world_from};
ghost use Rattle.just_host_memory.specs.Removals.{IsAfter, IsHeld, IsFilled, RemovesFrom, ShowsParent};

use super::files::put;
use super::sights::{TreeFault, is_folder};
use super::{Place, Tree};
use just_host_files::is_name;
use just_host_record::Thing;
use just_path::{Miss, Utf8Path, Utf8PathBuf};
use just_path_text::{NoMemory, TryClone};
use std::alloc::Global;

/// The folder of temporary folders, where no other is asked for.
const TEMPORARY: &str = "/tmp";

/// Whether a path is a front with something behind it.
fn is_behind(front: &str, path: &str) -> bool
    ensures { IsAfter result front.now path.now }
{
    match path.strip_prefix(front) {
        Some(rest) => !rest.is_empty(),
        None => false,
    }
}

impl Tree {
    /// Whether anything stands below a place.
    fn holds_items(&self, alloc: Global, place: &Place) -> Result<bool, NoMemory>
        ensures { IfOk result (λ b. IsHeld b (files_of self.now) place.now.path) }
    {
        let front = place.as_path().join(alloc, Utf8Path::new(""))?;
        for entry in &self.things {
            if is_behind(front.as_str(), entry.0.as_str()) {
                return Ok(true);
            }
        }
        Ok(false)
    }

    /// Whether a folder stands at a place, and it isn't empty.
    fn is_filled(&self, alloc: Global, place: &Place) -> Result<bool, NoMemory>
        ensures { IfOk result (λ b. IsFilled b (files_of self.now) place.now.path) }
    {
        if is_folder(self.meta_at(place.as_str().as_bytes())) {
            let held = self.holds_items(alloc, place)?;
            return Ok(held);
        }
        Ok(false)
    }

    /// Takes away what stands where a path leads: a file, a link or an empty folder.
    pub fn remove_at(
        &mut self,
        alloc: Global,
        folder: &Place,
        path: Utf8Path<'_>,
    ) -> Result<(), TreeFault>
        ensures { RemovesFrom (world_from folder.now.path (files_of self.old)) (files_of self.new) (text_of path.entry) result }
    {
        let place = self.place(alloc, folder, path, false)?;
        let filled = self.is_filled(alloc, &place)?;
        if filled {
            return Err(TreeFault::Missed(Miss::NotEmpty));
        }
        self.remove(place.as_str());
        Ok(())
    }

    /// The folder that a temporary one is made in.
    pub fn parent_place(
        &self,
        alloc: Global,
        folder: &Place,
        parent: Option<Utf8Path<'_>>,
    ) -> Result<Place, TreeFault>
        ensures { ShowsParent (world_from folder.now.path (files_of self.now)) (option_map text_of parent.entry) result }
    {
        match parent {
            Some(path) => self.folder(alloc, folder, path),
            None => Ok(Place::new(alloc, Utf8Path::new(TEMPORARY))?),
        }
    }

    /// A place in a folder at which nothing stands, whose name begins with `prefix`.
    fn fresh_place(&self, alloc: Global, folder: &Place, prefix: &str) -> Result<Place, NoMemory>
        ensures { IfOk result (λ p. IsFresh (world_from folder.now.path (files_of self.now)) folder.now.path prefix.now p.path) }
    {
        for number in 0..u32::MAX {
            let rest = format!(in alloc; "{number}")?;
            if is_name(rest.as_str()) {
                let place = named_place(alloc, folder, prefix, rest.as_str())?;
                match self.get(place.as_str()) {
                    Some(_) => {}
                    None => return Ok(place),
                }
            }
        }
        Err(NoMemory)
    }

    /// Makes a fresh folder in another one, and answers its path twice.
    #[tactic(auto, using(crate::proofs::Lookups::clean_things))]
    pub fn make_fresh(
        &mut self,
        alloc: Global,
        folder: &Place,
        prefix: &str,
    ) -> Result<(Utf8PathBuf, Utf8PathBuf), NoMemory>
        ensures fresh { IfOk result (λ p. IsFresh (world_from folder.now.path (files_of self.old)) folder.now.path prefix.now p.0) }
        ensures same { IfOk result (λ p. p.1 ≡ p.0) }
        ensures made { IfOk result (λ p. files_of self.new ≡ map.insert (files_of self.old) p.0 Thing.Folder) }
        ensures kept { OnErr result (files_of self.new ≡ files_of self.old) }
    {
        let place = self.fresh_place(alloc, folder, prefix)?;
        let made = place.as_path().to_path_buf(alloc)?;
        let copy = made.try_clone()?;
        self.things.reserve(1)?;
        put(&mut self.things, place, Thing::Folder);
        Ok((made, copy))
    }
}

/// The place of a name in a folder; the name has two parts.
fn named_place(alloc: Global, folder: &Place, prefix: &str, rest: &str) -> Result<Place, NoMemory>
    ensures { IfOk result (λ p. p.path ≡ place_under folder.now.path (prefix.now ++ rest.now)) }
{
    let mut name = String::from_str(alloc, prefix)?;
    name.push_str(rest)?;
    Place::under(alloc, folder.as_path(), Utf8Path::new(name.as_str()))
}
