//! Rows of where a justfile is, and of the program of a name.
//!
//! A row is what is asked (`find`, `search`, `above`, `next`, `parent`, `init` or `which`), what stands in the files of a host in memory, its environment, the
//! words of the command line, a folder or a name, and the answer. `parent` asks for the justfile above the one that is searched.
//! The program is called in the folder `/p/q`. Lists have `|` between; `-` stands where there is none.
//! A path that ends with `/` is a folder, one that ends with `*` an executable file, and `PATH->TARGET` is a link.

use super::configured::Configured;
use super::found::{Found, file, found_shown, next, place, target};
use super::said::is_text;
use super::world::{World, tree};
use just_config::Config;
use just_host::MemHost;
use just_path::{Utf8Path, Utf8PathBuf};
use just_search::{
    Search, WhichError, find, find_above, find_fallback, search, search_parent_directory, which,
};
use rows_common::{Wrong, at};
use std::alloc::Global;

/// Whether a row says what is answered. It promises nothing beyond safety.
pub(crate) fn agrees(alloc: Global, fields: &[&str]) -> Result<bool, Wrong> {
    let mut world = world(alloc, fields)?;
    let answer = answer(alloc, fields, &mut world)?;
    is_text(alloc, fields, 5, answer.as_str())
}

/// The world of a row.
fn world(alloc: Global, fields: &[&str]) -> Result<World, Wrong> {
    let tree = tree(alloc, at(fields, 1)?)?;
    World::new(alloc, tree, at(fields, 2)?, "/p/q")
}

/// What is answered in a world.
fn answer(alloc: Global, fields: &[&str], world: &mut World) -> Result<String, Wrong> {
    let told = at(fields, 4)?;
    let asked = at(fields, 0)?;
    if asked == "which" {
        program(alloc, told, world)
    } else {
        searched(alloc, asked, told, at(fields, 3)?, world)
    }
}

/// The program of a name, as a text.
fn program(alloc: Global, name: &str, world: &mut World) -> Result<String, Wrong> {
    let folder = Utf8Path::new("/p/q");
    let refusal = match which(alloc, name, folder, &world.environ, &mut world.host) {
        Ok(Some(path)) => return Ok(path),
        Ok(None) => "none",
        Err(WhichError::Empty) => "Empty",
        Err(WhichError::NoPath) => "NoPath",
        Err(_) => return Err(Wrong::NoMemory),
    };
    Ok(String::from_str(alloc, refusal)?)
}

/// What a search over the configuration of words answers, as a text.
fn searched(
    alloc: Global,
    asked: &str,
    told: &str,
    words: &str,
    world: &mut World,
) -> Result<String, Wrong> {
    let configured = Configured::new(alloc, words, &world.environ, "/p/q")?;
    let config = configured.config()?;
    let mut made = Vec::new(alloc);
    let found = found(alloc, asked, told, config, &mut made, &mut world.host)?;
    found_shown(alloc, &found, made.as_slice())
}

/// What a search of that name answers: one for a place.
fn found(
    alloc: Global,
    asked: &str,
    told: &str,
    config: &Config,
    made: &mut Vec<Utf8PathBuf>,
    host: &mut MemHost,
) -> Result<Found, Wrong> {
    let folder = Utf8Path::new(told);
    match asked {
        "find" => Ok(place(find(alloc, config, host))),
        "above" => Ok(place(find_above(alloc, folder, config, host))),
        "next" => Ok(next(find_fallback(alloc, folder, config, host))),
        _ => taken(alloc, asked, config, made, host),
    }
}

/// What a search of that name answers: one for a file.
fn taken(
    alloc: Global,
    asked: &str,
    config: &Config,
    made: &mut Vec<Utf8PathBuf>,
    host: &mut MemHost,
) -> Result<Found, Wrong> {
    match asked {
        "search" => Ok(file(search(alloc, config, made, host))),
        "parent" => parent(alloc, config, made, host),
        "init" => Ok(target(Search::init(alloc, config, host))),
        _ => Err(Wrong::Form),
    }
}

/// The justfile above the one that is searched.
fn parent(
    alloc: Global,
    config: &Config,
    made: &mut Vec<Utf8PathBuf>,
    host: &mut MemHost,
) -> Result<Found, Wrong> {
    let below = file(search(alloc, config, made, host));
    match &below {
        Found::File(below) => Ok(file(search_parent_directory(alloc, below, config, made, host))),
        _ => Err(Wrong::Form),
    }
}
