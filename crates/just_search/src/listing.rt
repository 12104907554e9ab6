//! A host's answer where a folder is listed.

ghost use Rattle.std.specs.Prelude.{◌≡◌, ◌++◌};
ghost use Rattle.just_path.specs.Path.{text_of};
ghost use Rattle.just_env.specs.Answers.{Answers, told_entries};
ghost use Rattle.just_search.specs.Listing.{ListsFolder, listing_error};

use super::SearchError;
use just_host_record::{Call, Host, HostFault};
use just_path::{PathFault, Utf8Path, Utf8PathBuf};
use just_path_text::{Seq, Text};
use std::alloc::Global;

/// The error of a listing that a host refused.
fn listing_error(path: Utf8PathBuf, fault: PathFault) -> SearchError
    ensures { result ≡ listing_error path fault }
{
    match fault {
        PathFault::Missed(miss) => SearchError::FilesystemIo {
            path,
            io: HostFault::Missed(miss),
        },
        PathFault::Failed => SearchError::FilesystemIo {
            path,
            io: HostFault::Failed(Call::List),
        },
        PathFault::NoMemory => SearchError::NoMemory,
    }
}

/// The names of what stands in a folder.
pub(crate) fn names_in<H: Host>(
    alloc: Global,
    host: &mut H,
    folder: Utf8Path<'_>,
) -> Result<Seq<Text>, SearchError>
    ensures names { Answers (ListsFolder (H.told host.old).world (text_of folder.entry)) result }
    ensures entries { (H.told host.new).entries ≡ (H.told host.old).entries ++ told_entries result }
    ensures world { (H.told host.new).world ≡ (H.told host.old).world }
{
    let path = folder.to_path_buf(alloc)?;
    match host.names(folder) {
        Ok(names) => Ok(names),
        Err(fault) => Err(listing_error(path, fault)),
    }
}
