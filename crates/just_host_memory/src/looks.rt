//! What a tree shows of sums, outputs and cache entries.
ghost use Rattle.std.specs.Prelude.{◌≡◌, true, IfOk};
ghost use Rattle.std.specs.FinMap as map;
ghost use Rattle.just_path.specs.Path.{text_of};
ghost use Rattle.just_path.specs.Comps.{is_empty};
ghost use Rattle.just_path.specs.View.{canonical_told, meta_told};
ghost use Rattle.just_host_record.specs.Looks.{sum_of_bytes, sum_at, is_missing, first_missing, look_at, bytes_of_thing, told_bytes, absent_or};
ghost use Rattle.just_host_memory.specs.Trees.{files_of, view_from, world_from, Shows};

use super::sights::TreeFault;
use super::writes::is_not_found;
use super::{Place, Tree};
use just_host_record::{Look, MAX_SUMMED, Thing};
use just_path::{Miss, Utf8Path, Utf8PathBuf};
use just_path_text::{NoMemory, Seq, TryClone};
use sha2::{Digest, Sha256};
use std::alloc::Global;

/// The SHA-256 of these bytes, unless they are too many.
fn sum_of(bytes: &[u8]) -> Result<[u8; 32], TreeFault>
    ensures { Shows (λ d. d) (sum_of_bytes bytes.now) result }
{
    if bytes.len() as u64 > MAX_SUMMED {
        return Err(TreeFault::Missed(Miss::TooLarge));
    }
    let sum: [u8; 32] = Sha256::digest(bytes);
    Ok(sum)
}

impl Tree {
    /// The SHA-256 of the file where a path leads, or the miss that the tree shows.
    pub fn sum(
        &self,
        alloc: Global,
        folder: &Place,
        path: Utf8Path<'_>,
    ) -> Result<[u8; 32], TreeFault>
        ensures { Shows (λ d. d) (sum_at (files_of self.now) (canonical_told (text_of path.entry) (view_from folder.now.path (files_of self.now)))) result }
    {
        let place = self.place(alloc, folder, path, true)?;
        match self.get(place.as_str()) {
            Some(Thing::File { bytes, .. }) => sum_of(bytes.as_slice()),
            Some(Thing::Folder) => Err(TreeFault::Missed(Miss::IsFolder)),
            Some(Thing::Link(_)) => Err(TreeFault::Missed(Miss::NotFound)),
            None => Err(TreeFault::Missed(Miss::NotFound)),
        }
    }

    /// Whether nothing is found where a path leads.
    fn is_missing(
        &self,
        alloc: Global,
        folder: &Place,
        path: Utf8Path<'_>,
    ) -> Result<bool, NoMemory>
        ensures { IfOk result (λ b. b ≡ is_missing (view_from folder.now.path (files_of self.now)) (text_of path.entry)) }
    {
        match self.meta(alloc, folder, path, true) {
            Ok(_) => Ok(false),
            Err(TreeFault::Missed(_)) => Ok(true),
            Err(TreeFault::NoMemory) => Err(NoMemory),
        }
    }

    /// The number of the first output that isn't found.
    pub fn first_missing(
        &self,
        alloc: Global,
        folder: &Place,
        outputs: &[Utf8PathBuf],
    ) -> Result<Option<u32>, NoMemory>
        ensures { IfOk result (λ o. o ≡ first_missing (view_from folder.now.path (files_of self.now)) outputs.now) }
    {
        for i in 0..outputs.len() {
            if self.is_missing(alloc, folder, outputs[i].as_path())? {
                let Ok(number) = u32::try_from(i) else {
                    return Err(NoMemory);
                };
                return Ok(Some(number));
            }
        }
        Ok(None)
    }

    /// The number of an output, if it isn't there; the miss, where it isn't found for another reason.
    pub fn absent(
        &self,
        alloc: Global,
        folder: &Place,
        output: Utf8Path<'_>,
        number: u32,
    ) -> Result<Option<u32>, TreeFault>
        ensures { Shows (λ o. o) (absent_or number (meta_told (text_of output.entry) true (view_from folder.now.path (files_of self.now)))) result }
    {
        match self.meta(alloc, folder, output, true) {
            Ok(_) => Ok(None),
            Err(TreeFault::Missed(miss)) => {
                if is_not_found(miss) {
                    Ok(Some(number))
                } else {
                    Err(TreeFault::Missed(miss))
                }
            }
            Err(TreeFault::NoMemory) => Err(TreeFault::NoMemory),
        }
    }

    /// Whether no byte stands at a place.
    fn is_empty_at(&self, place: &str) -> bool
        ensures { result ≡ is_empty (bytes_of_thing (map.get (files_of self.now) place.now)) }
    {
        match self.get(place) {
            Some(Thing::File { bytes, .. }) => bytes.is_empty(),
            Some(Thing::Folder) => true,
            Some(Thing::Link(_)) => true,
            None => true,
        }
    }

    /// Whether the file where a path leads holds no byte, or is none.
    fn is_empty_entry(
        &self,
        alloc: Global,
        folder: &Place,
        path: Utf8Path<'_>,
    ) -> Result<bool, NoMemory>
        ensures { IfOk result (λ b. b ≡ is_empty (told_bytes (world_from folder.now.path (files_of self.now)) (text_of path.entry))) }
    {
        match self.place(alloc, folder, path, true) {
            Ok(place) => Ok(self.is_empty_at(place.as_str())),
            Err(TreeFault::Missed(_)) => Ok(true),
            Err(TreeFault::NoMemory) => Err(NoMemory),
        }
    }

    /// The look at a cache entry and its outputs.
    pub fn look(
        &self,
        alloc: Global,
        folder: &Place,
        path: Utf8Path<'_>,
        outputs: &[Utf8PathBuf],
    ) -> Result<Look, NoMemory>
        ensures { IfOk result (λ x. x ≡ look_at (view_from folder.now.path (files_of self.now)) outputs.now (told_bytes (world_from folder.now.path (files_of self.now)) (text_of path.entry))) }
    {
        if self.is_empty_entry(alloc, folder, path)? {
            return Ok(Look::Empty);
        }
        match self.first_missing(alloc, folder, outputs)? {
            Some(number) => Ok(Look::OutputMissing(number)),
            None => Ok(Look::Full),
        }
    }
}
