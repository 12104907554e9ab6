//! The justfile that is tried behind one.

ghost use Rattle.std.specs.Prelude.{◌≡◌, ◌<◌, ◌++◌, nat_lt, length, if◌then◌else◌, Some, None, IfOk, MatchOption};
ghost use Rattle.just_path.specs.Path.{text_of};
ghost use Rattle.just_env.specs.Answers.{Answers, told_entries};
ghost use Rattle.just_search.specs.Fallback.{is_search, is_not_found, FallsBack};

use super::SearchError;
use crate::{Location, find_above};
use just_config::{Config, SearchConfig};
use just_host_record::Host;
use just_path::Utf8Path;
use std::alloc::Global;

/// Whether the justfile is looked for folder by folder.
fn is_search(setting: &SearchConfig) -> bool
    ensures { result ≡ is_search setting.now }
{
    match setting {
        SearchConfig::FromInvocationDirectory | SearchConfig::FromSearchDirectory(_) => true,
        _ => false,
    }
}

/// Whether a search found no justfile.
fn is_not_found(error: &SearchError) -> bool
    ensures { result ≡ is_not_found error.now }
{
    matches!(error, SearchError::NotFound)
}

/// A place, if its folder has a shorter path than that folder.
fn if_higher(folder: Utf8Path<'_>, location: Location) -> Option<Location>
    ensures { result ≡ (if nat_lt (length location.working_directory) (length (text_of folder.entry)) then Some location else None) }
{
    if location.working_directory.as_str().len() < folder.as_str().len() {
        Some(location)
    } else {
        None
    }
}

/// Where the justfile is that is tried behind one in a folder, where that one lacks what is asked for: in the first folder above, up to the
/// ceiling, that has one. There is none under a setting that doesn't search.
///
/// The folder of a tangled justfile is that of the markdown file. Each answer's folder has a shorter path than the one before, so a loop of such
/// calls ends.
pub fn find_fallback<H: Host>(
    alloc: Global,
    folder: Utf8Path<'_>,
    config: &Config,
    host: &mut H,
) -> Result<Option<Location>, SearchError>
    ensures found { Answers (FallsBack (H.told host.old).world config.now (text_of folder.entry)) result }
    ensures higher { IfOk result (λ o. MatchOption o (Unit {0}) (λ l. length l.working_directory < length (text_of folder.entry))) }
    ensures entries { (H.told host.new).entries ≡ (H.told host.old).entries ++ told_entries result }
    ensures world { (H.told host.new).world ≡ (H.told host.old).world }
{
    if !is_search(&config.search_config) {
        return Ok(None);
    }
    match find_above(alloc, folder, config, host) {
        Ok(location) => Ok(if_higher(folder, location)),
        Err(error) => {
            if is_not_found(&error) {
                drop(error);
                Ok(None)
            } else {
                Err(error)
            }
        }
    }
}
