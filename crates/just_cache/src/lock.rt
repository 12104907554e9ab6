//! What saves the entry of a body that ended well.

ghost use Rattle.std.specs.Prelude.{◌≡◌};
ghost use Rattle.just_path.specs.Path.{text_of};
ghost use Rattle.just_cache.specs.Keys.{entry_text};
ghost use Rattle.just_cache.specs.Looks.{Saves};

use super::CacheError;
use super::status::entry_error;
use crate::CacheEntry;
use just_host_record::Host;
use just_lang_types::Modulepath;
use just_path::{Utf8Path, Utf8PathBuf};
use std::alloc::Global;

/// The entry of a body that is to be run, and the recipe of that body. Whoever saves it vouches that the body ended well and
/// that its outputs are there.
#[derive(Drop)]
pub struct CacheLock {
    pub path: Utf8PathBuf,
    pub recipe: Modulepath,
}

/// Saves an entry that holds this text.
#[tactic(auto, using(crate::proofs::Told::save_unasked))]
fn save_text<H: Host>(
    alloc: Global,
    path: Utf8Path<'_>,
    text: &str,
    host: &mut H,
) -> Result<(), CacheError>
    ensures saved { Saves (H.told host.old) (H.told host.new) (text_of path.entry) text.now result }
    ensures spare { H.spare host.new ≡ H.spare host.old }
{
    let named = path.to_path_buf(alloc)?;
    match host.save(path, text.as_bytes()) {
        Ok(()) => Ok(()),
        Err(fault) => Err(entry_error(named, fault)),
    }
}

impl CacheLock {
    /// Saves the entry: behind it, it holds the recipe, and a later body of its key is skipped while its outputs are there.
    ///
    /// ```
    /// // of the recipe `m`: `{"recipe":"m"}`
    /// ```
    #[tactic(auto, using(crate::proofs::Told::save_unasked, crate::proofs::Told::save_moved))]
    pub fn save<H: Host>(self, alloc: Global, host: &mut H) -> Result<(), CacheError>
        ensures saved { Saves (H.told host.old) (H.told host.new) self.path
            (entry_text (record { recipe = self.recipe })) result }
        ensures spare { H.spare host.new ≡ H.spare host.old }
    {
        let CacheLock { path, recipe } = self;
        let entry = CacheEntry { recipe };
        let text = entry.text(alloc)?;
        save_text(alloc, path.as_path(), text.as_str(), host)
    }
}
