//! The justfile in a place, as the file that is loaded.

ghost use Rattle.std.specs.Prelude.{◌≡◌, IfOk};
ghost use Rattle.just_cli_children.specs.Configs.{cache_beside, wanted_of};
ghost use Rattle.just_cli.specs.Preparing.{Performs};
ghost use Rattle.just_cli.specs.Taken.{TakesWanted};
ghost use Rattle.just_cli.specs.Words.{BeginsIn};

use super::Error;
use just_cli_children::wanted;
use just_cli_plan::Wanted;
use just_config::Config;
use just_host::Host;
use just_path::Utf8PathBuf;
use just_path_text::NoMemory;
use just_search::{Location, Origin, Search, materialize};
use std::alloc::Global;

/// A copy of where a justfile's text comes from.
fn copied_origin(origin: &Origin) -> Result<Origin, NoMemory>
    ensures { IfOk result (λ o. o ≡ origin.now) }
{
    match origin {
        Origin::File(path) => Ok(Origin::File(path.try_clone()?)),
        Origin::Markdown(path) => Ok(Origin::Markdown(path.try_clone()?)),
        Origin::StandardInput => Ok(Origin::StandardInput),
    }
}

/// A copy of the place of a justfile.
fn copied_location(location: &Location) -> Result<Location, NoMemory>
    ensures { IfOk result (λ l. l ≡ location.now) }
{
    let origin = copied_origin(&location.origin)?;
    let working_directory = location.working_directory.try_clone()?;
    Ok(Location {
        origin,
        working_directory,
    })
}

/// What a configuration asks of the justfile in a file, and the path of the file.
fn of_search(
    alloc: Global,
    config: &Config,
    search: Search,
) -> Result<(Wanted, Utf8PathBuf), NoMemory>
    ensures wanted { IfOk result (λ j. j.0 ≡ wanted_of config.now search.working_directory (cache_beside search.justfile)) }
    ensures path { IfOk result (λ j. j.1 ≡ search.justfile) }
{
    let wanted = wanted(
        alloc,
        config,
        &search.working_directory,
        search.justfile.as_path(),
    )?;
    Ok((wanted, search.justfile))
}

/// The file of a justfile that was found, and what a configuration asks of it. The text of markdown and of standard input is written to a file in a
/// temporary folder, whose path is put behind those in `made`, also where the file can't be written.
pub(crate) fn take<H: Host>(
    alloc: Global,
    config: &Config,
    location: &Location,
    made: &mut Vec<Utf8PathBuf>,
    host: &mut H,
) -> Result<(Wanted, Utf8PathBuf), Error>
    ensures { Performs (TakesWanted config.now location.now (H.told host.old).world)
        (BeginsIn config.now location.now (H.told host.old).world)
        (H.told host.old) (H.told host.new) made.old.items made.new.items result }
{
    let place = match copied_location(location) {
        Ok(place) => place,
        Err(NoMemory) => return Err(Error::NoMemory),
    };
    match materialize(alloc, place, config, made, host) {
        Ok(search) => match of_search(alloc, config, search) {
            Ok(taken) => Ok(taken),
            Err(NoMemory) => Err(Error::NoMemory),
        },
        Err(error) => Err(Error::from(error)),
    }
}
