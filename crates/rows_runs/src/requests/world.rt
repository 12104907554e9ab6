//! The host of a row.

use just_host::{MemHost, Plot, Thing, Tree};
use just_path::Utf8PathBuf;
use just_path_text::{Environ, Seq, Text};
use rows_common::{Wrong, environment, words};
use std::alloc::Global;

/// A host in memory, and its environment.
pub(crate) struct World {
    pub(crate) environ: Environ,
    pub(crate) host: MemHost,
}

impl Drop for World {
    fn drop(self) {
        let World {
            environ: _,
            host: _,
        } = self;
    }
}

impl World {
    /// The world of a tree and of the pairs of an environment, in a folder. It promises nothing beyond safety.
    pub(crate) fn new(
        alloc: Global,
        tree: Tree,
        pairs: &str,
        folder: &str,
    ) -> Result<World, Wrong> {
        let environ = environment(alloc, pairs)?;
        let host = memory(alloc, tree, environment(alloc, pairs)?, folder)?;
        Ok(World { environ, host })
    }
}

/// A host in memory in a folder, over a tree and an environment.
fn memory(alloc: Global, tree: Tree, environ: Environ, folder: &str) -> Result<MemHost, Wrong> {
    let folder = Utf8PathBuf::from_str(alloc, folder)?;
    Ok(MemHost::new(alloc, tree, folder, environ, Plot::new(alloc))?)
}

/// An empty file.
fn file(alloc: Global, executable: bool) -> Thing {
    Thing::File {
        bytes: Seq::new(alloc),
        executable,
    }
}

/// The path and the thing of a word.
fn thing(alloc: Global, word: &str) -> Result<(&str, Thing), Wrong> {
    if let Some((path, target)) = word.split_once("->") {
        return Ok((path, Thing::Link(Text::from_str(alloc, target)?)));
    }
    if let Some(path) = word.strip_suffix('/') {
        return Ok((path, Thing::Folder));
    }
    match word.strip_suffix('*') {
        Some(path) => Ok((path, file(alloc, true))),
        None => Ok((word, file(alloc, false))),
    }
}

/// Adds the thing of a word.
fn add(alloc: Global, tree: &mut Tree, word: &str) -> Result<(), Wrong> {
    let (path, thing) = thing(alloc, word)?;
    tree.insert(alloc, path, thing)?;
    Ok(())
}

/// The tree of a field. It promises nothing beyond safety.
pub(crate) fn tree(alloc: Global, field: &str) -> Result<Tree, Wrong> {
    let mut tree = Tree::new(alloc);
    for word in words(alloc, field)?.as_slice() {
        add(alloc, &mut tree, word.as_str())?;
    }
    Ok(tree)
}
