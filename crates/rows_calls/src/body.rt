//! A body's way from a miss to a hit.

use crate::key::key;
use just_cache::{Cache, CacheError, CacheLock, CacheStatus, entry_path, key_text};
use just_host::{Host, HostFault};
use just_path::{Utf8Path, Utf8PathBuf};
use just_path_text::NoMemory;
use std::alloc::Global;

/// The text of an entry.
fn entry<H: Host>(host: &mut H, path: Utf8PathBuf) -> Result<String, CacheError> {
    match host.read(path.as_path()) {
        Ok(text) => Ok(text),
        Err(fault) => Err(CacheError::Io(fault, path)),
    }
}

/// The cache in the current folder.
fn cache(alloc: Global) -> Result<Cache, NoMemory> {
    let folder = Cache::dir(alloc, Utf8Path::new("."))?;
    Cache::new(alloc, folder.as_path())
}

/// Whether a body with that output may be skipped.
fn status<H: Host>(alloc: Global, host: &mut H, output: &str) -> Result<CacheStatus, CacheError> {
    let outputs = [Utf8PathBuf::from_str(alloc, output)?];
    let cache = cache(alloc)?;
    let key = key(alloc)?;
    cache.status(alloc, key.get(), &outputs, host)
}

/// The entry that a lock saves.
fn saved<H: Host>(alloc: Global, host: &mut H, lock: CacheLock) -> Result<String, CacheError> {
    let path = lock.path.try_clone()?;
    lock.save(alloc, host)?;
    entry(host, path)
}

/// The entry that the lock of a body with that output saves; `hit` where the body may be skipped.
pub(crate) fn run<H: Host>(
    alloc: Global,
    host: &mut H,
    output: &str,
) -> Result<String, CacheError> {
    match status(alloc, host, output)? {
        CacheStatus::Hit => Ok(String::from_str(alloc, "hit")?),
        CacheStatus::Miss(lock) => saved(alloc, host, lock),
    }
}

/// The text of the key of that body.
fn text_of_key(alloc: Global) -> Result<String, NoMemory> {
    let key = key(alloc)?;
    key_text(alloc, key.get())
}

/// The path of the entry of that body.
fn place(alloc: Global) -> Result<Utf8PathBuf, NoMemory> {
    let text = text_of_key(alloc)?;
    entry_path(alloc, Utf8Path::new("./.justcache"), text.as_str())
}

/// Takes the entry of that body away.
pub(crate) fn remove_entry<H: Host>(alloc: Global, host: &mut H) -> Result<(), HostFault> {
    let path = place(alloc)?;
    host.remove(path.as_path())
}
