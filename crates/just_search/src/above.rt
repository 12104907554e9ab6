//! The justfile above one.

ghost use Rattle.std.specs.Prelude.{◌≡◌, ◌++◌, IfOk, Err};
ghost use Rattle.just_path.specs.Path.{text_of};
ghost use Rattle.just_env.specs.Answers.{Answers, told_entries};
ghost use Rattle.just_search.specs.Climb.{folders_above, FindsIn};
ghost use Rattle.just_search.specs.Finding.{wanted_names, FindsAbove};

use super::SearchError;
use super::climb::is_ceiling;
use super::finding::{as_origin, climb_for};
use super::location::Location;
use just_config::Config;
use just_host_record::Host;
use just_path::{Utf8Path, Utf8PathBuf};
use std::alloc::Global;

/// The justfile in the first folder above one that has a candidate.
#[tactic(auto, using(crate::proofs::Climbs::above_next, crate::proofs::Climbs::above_top, crate::proofs::Climbs::above_none))]
fn climb_above<H: Host>(
    alloc: Global,
    host: &mut H,
    config: &Config,
    folder: Utf8Path<'_>,
) -> Result<Utf8PathBuf, SearchError>
    ensures found { Answers (FindsIn (H.told host.old).world (wanted_names config.now) (folders_above config.now.ceiling (text_of folder.entry))) result }
    ensures entries { (H.told host.new).entries ≡ (H.told host.old).entries ++ told_entries result }
    ensures world { (H.told host.new).world ≡ (H.told host.old).world }
{
    let mut folders = folder.ancestors();
    match folders.next() {
        Some(first) => {
            if is_ceiling(&config.ceiling, first) {
                Err(SearchError::NotFound)
            } else {
                climb_for(alloc, host, config, folders)
            }
        }
        None => Err(SearchError::NotFound),
    }
}

/// Where the justfile above a folder is, up to the ceiling: the one that is tried where a justfile in the folder lacks what is asked for.
/// At the ceiling and at the root there is none.
pub fn find_above<H: Host>(
    alloc: Global,
    folder: Utf8Path<'_>,
    config: &Config,
    host: &mut H,
) -> Result<Location, SearchError>
    ensures found { Answers (FindsAbove (H.told host.old).world config.now (text_of folder.entry)) result }
    ensures entries { (H.told host.new).entries ≡ (H.told host.old).entries ++ told_entries result }
    ensures world { (H.told host.new).world ≡ (H.told host.old).world }
{
    match climb_above(alloc, host, config, folder) {
        Ok(file) => Ok(as_origin(alloc, file)?),
        Err(error) => Err(error),
    }
}
