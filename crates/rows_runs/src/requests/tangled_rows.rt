//! Rows of markdown texts, each with the justfile in its code blocks: its text, and as a justfile that can be loaded of a markdown file of a host in memory.

use super::configured::Configured;
use super::found::{Found, file};
use super::said::plain_text;
use super::world::World;
use just_config::Config;
use just_host::{Host, MemHost, Thing, Tree};
use just_path::{PathHost, Utf8Path, Utf8PathBuf};
use just_path_text::Seq;
use just_search::{Location, Origin, Search, materialize, remove_folders};
use just_search_load::tangle;
use rows_common::Wrong;
use std::alloc::Global;

/// A tree with a markdown file.
fn tree(alloc: Global, markdown: &str) -> Result<Tree, Wrong> {
    let mut tree = Tree::new(alloc);
    tree.insert(alloc, "/p", Thing::Folder)?;
    let bytes = String::from_str(alloc, markdown)?.into_bytes();
    let file = Thing::File {
        bytes: Seq::from(bytes),
        executable: false,
    };
    tree.insert(alloc, "/p/j.md", file)?;
    Ok(tree)
}

/// The place of the markdown file.
fn place(alloc: Global) -> Result<Location, Wrong> {
    let path = Utf8PathBuf::from_str(alloc, "/p/j.md")?;
    let working_directory = Utf8PathBuf::from_str(alloc, "/p")?;
    Ok(Location {
        origin: Origin::Markdown(path),
        working_directory,
    })
}

/// Whether a justfile is run in the folder of the markdown file, stands in a temporary folder, and has that text.
fn is_justfile(host: &mut MemHost, search: &Search, wanted: &str) -> bool {
    let path = search.justfile.as_path();
    let place = path.as_str().starts_with("/tmp/just-") && path.file_name() == Some("justfile");
    let text = match host.read(path) {
        Ok(text) => text.as_str() == wanted,
        Err(_) => false,
    };
    place && text && search.working_directory.as_str() == "/p"
}

/// Whether something stands at a path.
fn is_there(host: &mut MemHost, path: Utf8Path<'_>) -> bool {
    host.meta(path, false).is_ok()
}

/// Whether one folder was made, and it is gone.
fn is_gone(host: &mut MemHost, made: &[Utf8PathBuf]) -> bool {
    match made {
        [folder] => !is_there(host, folder.as_path()),
        _ => false,
    }
}

/// Whether a justfile in markdown is written so over a host, and nothing is left of it behind.
fn is_written_over(
    alloc: Global,
    host: &mut MemHost,
    config: &Config,
    wanted: &str,
) -> Result<bool, Wrong> {
    let mut made = Vec::new(alloc);
    let found = file(materialize(alloc, place(alloc)?, config, &mut made, host));
    let Found::File(search) = &found else {
        return Err(Wrong::Form);
    };
    let same = is_justfile(host, search, wanted);
    remove_folders(alloc, host, made.as_slice())?;
    let gone = !is_there(host, search.justfile.as_path());
    Ok(same && gone && is_gone(host, made.as_slice()))
}

/// Whether a justfile in markdown is written so, and nothing is left of it behind.
fn is_written(alloc: Global, markdown: &str, wanted: &str) -> Result<bool, Wrong> {
    let mut world = World::new(alloc, tree(alloc, markdown)?, "-", "/p")?;
    let configured = Configured::new(alloc, "-", &world.environ, "/p")?;
    is_written_over(alloc, &mut world.host, configured.config()?, wanted)
}

/// Whether a row says the justfile of its markdown text. It promises nothing beyond safety.
pub(crate) fn agrees(alloc: Global, fields: &[&str]) -> Result<bool, Wrong> {
    let markdown = plain_text(alloc, fields, 0)?;
    let wanted = plain_text(alloc, fields, 1)?;
    let text = tangle(alloc, markdown.as_str())?;
    if text.as_str() == wanted.as_str() {
        is_written(alloc, markdown.as_str(), wanted.as_str())
    } else {
        Ok(false)
    }
}
