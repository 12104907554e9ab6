//! Hosts in memory to run plans over.

use just_host::{Ending, MemHost, Plot, Status, Thing, Tree};
use just_path::Utf8Path;
use just_path_text::{Environ, NoMemory, Seq, Text};
use std::alloc::Global;

/// No variables.
/// No clause: it serves tests alone.
pub fn no_environ(alloc: Global) -> Environ {
    Environ {
        pairs: Seq::new(alloc),
    }
}

/// A host of these files in the folder `/`, over which that happens.
fn host_of(alloc: Global, tree: Tree, plot: Plot) -> Result<MemHost, NoMemory> {
    let current = Utf8Path::new("/").to_path_buf(alloc)?;
    MemHost::new(alloc, tree, current, no_environ(alloc), plot)
}

/// A host with no files, over which that happens.
fn bare(alloc: Global, plot: Plot) -> Result<MemHost, NoMemory> {
    host_of(alloc, Tree::new(alloc), plot)
}

/// A host with no files, over which nothing happens.
/// The one error is want of memory. No clause: it serves tests alone.
pub fn memory(alloc: Global) -> Result<MemHost, NoMemory> {
    bare(alloc, Plot::new(alloc))
}

/// The child of that word ends with that code, and has these effects.
fn add_ending(
    alloc: Global,
    plot: &mut Plot,
    word: &str,
    code: i32,
    effects: Vec<(Text, Option<Thing>)>,
) -> Result<(), NoMemory> {
    let ending = Ending {
        word: Text::from_str(alloc, word)?,
        status: Status::Code(code),
        output: Seq::new(alloc),
        effects,
    };
    plot.endings.push(ending)?;
    Ok(())
}

/// The lines that fail, with their codes.
const FAILURES: [(&str, i32); 2] = [("-cu exit 3", 3), ("-cu exit 4", 4)];

/// A host in memory over which the line `exit 3` ends with code 3, and `exit 4` with code 4.
/// The one error is want of memory. No clause: it serves tests alone.
pub fn failing(alloc: Global) -> Result<MemHost, NoMemory> {
    let mut plot = Plot::new(alloc);
    for (word, code) in FAILURES {
        add_ending(alloc, &mut plot, word, code, Vec::new(alloc))?;
    }
    bare(alloc, plot)
}

/// An empty file.
fn empty(alloc: Global) -> Thing {
    Thing::File {
        bytes: Seq::new(alloc),
        executable: false,
    }
}

/// The folder `/` with a justfile of that text.
fn with_text(alloc: Global, text: &str) -> Result<Tree, NoMemory> {
    let bytes = Vec::from_slice(alloc, text.as_bytes())?;
    let justfile = Thing::File {
        bytes: Seq::from(bytes),
        executable: false,
    };
    let mut tree = Tree::new(alloc);
    tree.insert(alloc, "/", Thing::Folder)?;
    tree.insert(alloc, "/justfile", justfile)?;
    Ok(tree)
}

/// A host in memory with a justfile of that text in its folder, over which nothing happens.
/// The one error is want of memory. No clause: it serves tests alone.
pub fn with_justfile(alloc: Global, text: &str) -> Result<MemHost, NoMemory> {
    let tree = with_text(alloc, text)?;
    host_of(alloc, tree, Plot::new(alloc))
}

/// The file `out` stands there.
fn makes_out(alloc: Global) -> Result<Vec<(Text, Option<Thing>)>, NoMemory> {
    let path = Text::from_str(alloc, "/out")?;
    let mut effects = Vec::new(alloc);
    effects.push((path, Some(empty(alloc))))?;
    Ok(effects)
}

/// The folder `/` with the file `in`.
fn with_input(alloc: Global) -> Result<Tree, NoMemory> {
    let mut tree = Tree::new(alloc);
    tree.insert(alloc, "/", Thing::Folder)?;
    tree.insert(alloc, "/in", empty(alloc))?;
    Ok(tree)
}

/// A host in memory with the file `in`, over which the first body that makes `out` ends well.
/// The one error is want of memory. No clause: it serves tests alone.
pub fn touching(alloc: Global) -> Result<MemHost, NoMemory> {
    let effects = makes_out(alloc)?;
    let tree = with_input(alloc)?;
    let mut plot = Plot::new(alloc);
    add_ending(alloc, &mut plot, "\n\n\n\n\ntouch out\n", 0, effects)?;
    host_of(alloc, tree, plot)
}
