//! Why the cache has no answer.

ghost use Rattle.std.specs.Prelude.{◌≡◌};
ghost use Rattle.just_cache.specs.declared.cache_error.CacheError.TheVariants.{NoMemory as OutOfMemory};

use just_host_record::HostFault;
use just_path::Utf8PathBuf;
use just_path_text::NoMemory;
use std::alloc::{AllocError, AllocFailed};

/// Why the cache has no answer, with the path of what it asked for. No fault of a host that a variant holds is want of memory.
#[derive(Debug, Drop)]
pub enum CacheError {
    /// An input isn't there.
    InputMissing(Utf8PathBuf),
    /// An input is a folder.
    InputDirectory(Utf8PathBuf),
    /// The text of an entry isn't one. Only what cleans a cache reads entries.
    EntryRead(Utf8PathBuf),
    /// A call of the host on that path has no answer, for another reason.
    Io(HostFault, Utf8PathBuf),
    NoMemory,
}

impl From<NoMemory> for CacheError {
    ghost from_gives = { λ _ e. e ≡ OutOfMemory };

    fn from(_refused: NoMemory) -> CacheError {
        CacheError::NoMemory
    }
}

impl From<AllocError> for CacheError {
    ghost from_gives = { λ _ e. e ≡ OutOfMemory };

    fn from(_refused: AllocError) -> CacheError {
        CacheError::NoMemory
    }
}

impl<T: Drop> From<AllocFailed<T>> for CacheError {
    ghost from_gives = { λ _ e. e ≡ OutOfMemory };

    fn from(_refused: AllocFailed<T>) -> CacheError {
        CacheError::NoMemory
    }
}
