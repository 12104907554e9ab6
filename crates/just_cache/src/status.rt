//! Whether a body may be skipped.

ghost use Rattle.std.specs.Prelude.{◌≡◌};
ghost use Rattle.just_path.specs.Path.{text_of};
ghost use Rattle.just_cache.specs.Errors.{entry_error};
ghost use Rattle.just_cache.specs.Places.{entry_of_key};
ghost use Rattle.just_cache.specs.Shows.{folder_of};
ghost use Rattle.just_cache.specs.Looks.{status_of, GivesStatus, ShowsStatus};

use super::{Cache, CacheError, CacheLock};
use crate::CacheKey;
use just_host_record::{Host, HostFault, Look};
use just_lang_types::Modulepath;
use just_path::{Utf8Path, Utf8PathBuf};
use just_path_text::TryClone;
use std::alloc::Global;

/// Whether a body may be skipped.
#[derive(Drop)]
pub enum CacheStatus {
    /// An earlier body of the same key ended well, and its outputs are there.
    Hit,
    /// The body is to be run. The lock saves its entry, once it has ended well.
    Miss(CacheLock),
}

/// The error of an entry that couldn't be looked at or saved.
pub(crate) fn entry_error(path: Utf8PathBuf, fault: HostFault) -> CacheError
    ensures { result ≡ entry_error path fault }
{
    match fault {
        HostFault::Missed(miss) => CacheError::Io(HostFault::Missed(miss), path),
        HostFault::Failed(call) => CacheError::Io(HostFault::Failed(call), path),
        HostFault::NoMemory => CacheError::NoMemory,
    }
}

/// The status of an entry by a look.
fn status_of(path: Utf8PathBuf, recipe: Modulepath, look: Look) -> CacheStatus
    ensures { result ≡ status_of path recipe look }
{
    match look {
        Look::Full => CacheStatus::Hit,
        Look::Empty | Look::OutputMissing(_) => CacheStatus::Miss(CacheLock { path, recipe }),
    }
}

/// The status of the entry at a path, by one look at it and the outputs.
#[tactic(auto, using(crate::proofs::Told::status_unasked))]
fn status_at<H: Host>(
    alloc: Global,
    path: Utf8Path<'_>,
    recipe: Modulepath,
    outputs: &[Utf8PathBuf],
    host: &mut H,
) -> Result<CacheStatus, CacheError>
    ensures status { GivesStatus (H.told host.old) (H.told host.new) (text_of path.entry)
        outputs.now recipe result }
    ensures spare { H.spare host.new ≡ H.spare host.old }
{
    let named = path.to_path_buf(alloc)?;
    match host.probe(path, outputs) {
        Ok(look) => Ok(status_of(named, recipe, look)),
        Err(fault) => Err(entry_error(named, fault)),
    }
}

impl Cache {
    /// Whether the body of a key may be skipped: a hit exactly where the key's entry isn't empty, whatever it holds, and each
    /// output is there. An entry that isn't there is made, empty, with its folder; one whose outputs lack stays as it is.
    #[tactic(auto, using(crate::proofs::Told::status_unasked, crate::proofs::Told::status_unshown, crate::proofs::Told::status_moved, crate::proofs::Told::status_shows))]
    pub fn status<H: Host>(
        &self,
        alloc: Global,
        key: &CacheKey,
        outputs: &[Utf8PathBuf],
        host: &mut H,
    ) -> Result<CacheStatus, CacheError>
        ensures status { GivesStatus (H.told host.old) (H.told host.new)
            (entry_of_key (folder_of self.now) key.now) outputs.now key.now.recipe result }
        // So over a told world it is the status by the entry's bytes and the outputs.
        ensures told { ShowsStatus (H.told host.old).world (entry_of_key (folder_of self.now) key.now) outputs.now key.now.recipe result }
        ensures spare { H.spare host.new ≡ H.spare host.old }
    {
        let path = self.entry_of(alloc, key)?;
        let recipe = key.recipe.try_clone()?;
        status_at(alloc, path.as_path(), recipe, outputs, host)
    }
}
