//! The folder of a cache, and where its entries stand.

ghost use Rattle.std.specs.Prelude.{◌≡◌, IfOk};
ghost use Rattle.just_path.specs.Path.{text_of};
ghost use Rattle.just_cache.specs.Places.{cache_folder, entry_path, entry_of_key};
ghost use Rattle.just_cache.specs.Shows.{folder_of};

use crate::{CacheKey, digest, key_text};
use just_path::{Utf8Path, Utf8PathBuf};
use just_path_text::NoMemory;
use std::alloc::Global;

/// A cache: the folder that its entries stand in. The folder is made with the first entry.
#[derive(Drop)]
pub struct Cache {
    pub(crate) folder: Utf8PathBuf,
}

/// The path of the entry of a key's text in a cache's folder.
///
/// ```
/// // of the empty text in `/c`: `/c/e3b0c44298fc1c149afbf4c8996fb92427ae41e4649b934ca495991b7852b855.json`
/// ```
pub fn entry_path(alloc: Global, folder: Utf8Path<'_>, text: &str) -> Result<Utf8PathBuf, NoMemory>
    ensures { IfOk result (λ p. p ≡ entry_path (text_of folder.entry) text.now) }
{
    let digits = digest(alloc, text)?;
    let size = folder.as_str().len().saturating_add(digits.as_str().len());
    let mut path = String::with_capacity(alloc, size.saturating_add("/.json".len()))?;
    path.push_str(folder.as_str())?;
    path.push_str("/")?;
    path.push_str(digits.as_str())?;
    path.push_str(".json")?;
    Ok(Utf8PathBuf::from(path))
}

impl Cache {
    /// The cache in that folder.
    pub fn new(alloc: Global, folder: Utf8Path<'_>) -> Result<Cache, NoMemory>
        ensures { IfOk result (λ c. folder_of c ≡ text_of folder.entry) }
    {
        Ok(Cache {
            folder: folder.to_path_buf(alloc)?,
        })
    }

    /// The folder of the cache beside a justfile: `.justcache` under the folder in which it was found.
    ///
    /// ```
    /// // under `/p`: `/p/.justcache`
    /// ```
    pub fn dir(alloc: Global, search_parent: Utf8Path<'_>) -> Result<Utf8PathBuf, NoMemory>
        ensures { IfOk result (λ p. p ≡ cache_folder (text_of search_parent.entry)) }
    {
        search_parent.join(alloc, Utf8Path::new(".justcache"))
    }

    /// The path of the entry of a key.
    pub(crate) fn entry_of(&self, alloc: Global, key: &CacheKey) -> Result<Utf8PathBuf, NoMemory>
        ensures { IfOk result (λ p. p ≡ entry_of_key (folder_of self.now) key.now) }
    {
        let text = key_text(alloc, key)?;
        entry_path(alloc, self.folder.as_path(), text.as_str())
    }
}
