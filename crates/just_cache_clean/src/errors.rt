//! Why a cache isn't cleaned.
ghost use Rattle.std.specs.Prelude.{◌≡◌};
ghost use Rattle.just_cache.specs.Errors.{entry_error};
ghost use Rattle.just_cache_clean.specs.Told.{listing_error};

use just_cache::CacheError;
use just_host_record::{Call, HostFault};
use just_path::{PathFault, Utf8PathBuf};

/// The error of an entry that can't be read or removed.
pub(crate) fn entry_error(path: Utf8PathBuf, fault: HostFault) -> CacheError
    ensures { result ≡ entry_error path fault }
{
    match fault {
        HostFault::Missed(miss) => CacheError::Io(HostFault::Missed(miss), path),
        HostFault::Failed(call) => CacheError::Io(HostFault::Failed(call), path),
        HostFault::NoMemory => CacheError::NoMemory,
    }
}

/// The error of a folder that can't be listed.
pub(crate) fn listing_error(folder: Utf8PathBuf, fault: PathFault) -> CacheError
    ensures { result ≡ listing_error folder fault }
{
    match fault {
        PathFault::Missed(miss) => CacheError::Io(HostFault::Missed(miss), folder),
        PathFault::Failed => CacheError::Io(HostFault::Failed(Call::List), folder),
        PathFault::NoMemory => CacheError::NoMemory,
    }
}
