//! The search for a justfile, and for the one above it, each as a file that can be loaded.

ghost use Rattle.std.specs.Prelude.{◌≡◌, ◌<◌, length, IfOk};
ghost use Rattle.just_search.specs.Searches.{Searches, SearchesAbove};

use super::file::materialize;
use super::{Search, SearchError};
use crate::{find, find_fallback};
use just_config::Config;
use just_host_record::Host;
use just_path::Utf8PathBuf;
use std::alloc::Global;

/// Where the justfile of a configuration is, as a file that can be loaded: in the first folder upwards that has one candidate, at a place of the user's
/// own, or where it is given; that of markdown and of standard input in a temporary folder. The folder's path is put behind those in `made`, also where
/// the file can't be written: it is the caller's to remove.
#[tactic(auto, using(crate::proofs::Steps::is_unfound))]
pub fn search<H: Host>(
    alloc: Global,
    config: &Config,
    made: &mut Vec<Utf8PathBuf>,
    host: &mut H,
) -> Result<Search, SearchError>
    ensures searched { Searches (H.told host.old) (H.told host.new) config.now
        made.old.items made.new.items result }
{
    match find(alloc, config, host) {
        Ok(location) => materialize(alloc, location, config, made, host),
        Err(error) => Err(error),
    }
}

/// The justfile above one, as a file that can be loaded: the one that is tried where that one lacks what is asked for. It is looked for above the folder
/// of the justfile, and for a tangled one above that of the markdown file: under the settings that search, both are the working folder.
/// `NotFound` says that none is tried: up to the ceiling there is none, or the setting doesn't search.
///
/// Each answer's working folder has a shorter path than the one before, so a loop of such calls ends. Temporary folders are kept as `search` keeps them.
pub fn search_parent_directory<H: Host>(
    alloc: Global,
    found: &Search,
    config: &Config,
    made: &mut Vec<Utf8PathBuf>,
    host: &mut H,
) -> Result<Search, SearchError>
    ensures searched { SearchesAbove (H.told host.old) (H.told host.new) config.now
        found.now.working_directory made.old.items made.new.items result }
    ensures higher { IfOk result (λ s. length s.working_directory < length found.now.working_directory) }
{
    let folder = found.working_directory.as_path();
    match find_fallback(alloc, folder, config, host) {
        Ok(Some(location)) => materialize(alloc, location, config, made, host),
        Ok(None) => Err(SearchError::NotFound),
        Err(error) => Err(error),
    }
}
