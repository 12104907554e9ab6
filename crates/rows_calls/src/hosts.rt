//! Hosts for tests. The functions here promise nothing beyond safety: they are public to these tests alone.

use just_host::{MemHost, Plot, Thing, Tree};
use just_path::Utf8PathBuf;
use just_path_text::{Environ, NoMemory, Seq, Text};
use std::alloc::Global;

/// The file of a text.
fn file(alloc: Global, text: &str) -> Result<Thing, NoMemory> {
    let bytes = Vec::from_slice(alloc, text.as_bytes())?;
    Ok(Thing::File {
        bytes: Seq::from(bytes),
        executable: false,
    })
}

/// Puts a file into a tree.
fn put_file(alloc: Global, tree: &mut Tree, path: &str, text: &str) -> Result<(), NoMemory> {
    let file = file(alloc, text)?;
    tree.insert(alloc, path, file)
}

/// Puts a link into a tree.
fn put_link(alloc: Global, tree: &mut Tree, path: &str, target: &str) -> Result<(), NoMemory> {
    let link = Thing::Link(Text::from_str(alloc, target)?);
    tree.insert(alloc, path, link)
}

/// The tree with the folder `/p`, in it that justfile, a link to it, and one that leads nowhere.
fn tree(alloc: Global, justfile: &str) -> Result<Tree, NoMemory> {
    let mut tree = Tree::new(alloc);
    tree.insert(alloc, "/p", Thing::Folder)?;
    put_file(alloc, &mut tree, "/p/justfile", justfile)?;
    put_link(alloc, &mut tree, "/p/link", "/p/justfile")?;
    put_link(alloc, &mut tree, "/p/far", "/p/none")?;
    Ok(tree)
}

/// The environment with one name.
fn environ(alloc: Global) -> Result<Environ, NoMemory> {
    let name = Text::from_str(alloc, "HOME")?;
    let pair = (name, Text::from_str(alloc, "/h")?);
    let mut pairs = Vec::new(alloc);
    pairs.push(pair)?;
    Ok(Environ {
        pairs: Seq::from(pairs),
    })
}

/// A host in the folder `/p` with that justfile, over which nothing happens.
/// The one error is want of memory. No clause: it serves tests alone.
pub fn memory(alloc: Global, justfile: &str) -> Result<MemHost, NoMemory> {
    let tree = tree(alloc, justfile)?;
    let environ = environ(alloc)?;
    let current = Utf8PathBuf::from_str(alloc, "/p")?;
    MemHost::new(alloc, tree, current, environ, Plot::new(alloc))
}
