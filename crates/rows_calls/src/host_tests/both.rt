//! Trees that stand in memory and under a folder of the system.
ghost use Rattle.std.specs.Prelude.{◌<◌};

use super::forms::placed;
use super::stands::{PLACES, Random, Stand, is_before_links, is_link};
use just_host::{Thing, Tree};
use just_path::Utf8Path;
use just_path_text::{NoMemory, Seq, Text};
use std::alloc::Global;
use std::os::unix::fs::symlink;
use std::test::Fail;
use std::{fs, io};

/// The way from beside each place up to the root.
const UPS: [&str; 14] = [
    "", "", "../", "../", "../", "../", "../../", "../../", "../../", "../../", "../../", "../../",
    "../../", "../../",
];

/// The target of a link at a place.
fn target(
    alloc: Global,
    random: &mut Random,
    root: &str,
    all: &[Stand; 14],
    place: usize,
) -> Result<String, NoMemory> {
    let other = random.next() as usize % 14;
    let up = UPS.get(place).copied().unwrap_or("");
    let path = PLACES.get(other).copied().unwrap_or("");
    if is_link(all[other]) || !is_before_links(all, other) {
        return placed(alloc, "Unone", up, root, path);
    }
    placed(alloc, target_form(random.next() % 4), up, root, path)
}

/// The form of a link's text of that number: `U` the way up to the root, `R` the root, `P` the path.
fn target_form(number: u8) -> &'static str {
    match number {
        0 => "UP",
        1 => ".//U/P",
        2 => "R/P",
        _ => "UP/",
    }
}

/// The name of a place in its folder.
fn own_name(place: usize) -> &'static str {
    let path = PLACES.get(place).copied().unwrap_or("");
    Utf8Path::new(path).file_name().unwrap_or("")
}

/// Makes a thing at a path of the system.
fn make(rt: &HostRuntime, path: &str, thing: &Thing) -> io::Result<()> {
    match thing {
        Thing::Folder => fs::create_dir_all(rt, path),
        Thing::File { bytes, .. } => fs::write(rt, path, bytes.as_slice()),
        Thing::Link(target) => symlink(rt, target.as_str(), path),
    }
}

/// Puts a thing at a path of both.
fn put(
    rt: &HostRuntime,
    alloc: Global,
    tree: &mut Tree,
    path: &str,
    thing: Thing,
) -> Result<(), Fail> {
    make(rt, path, &thing)?;
    tree.insert(alloc, path, thing)?;
    Ok(())
}

/// A file of two bytes, which are no text where the second one is at random above 127.
fn file(alloc: Global, random: &mut Random) -> Result<Thing, NoMemory> {
    let byte = random.next();
    let bytes = Vec::from_slice(alloc, &[b'a', byte])?;
    Ok(Thing::File {
        bytes: Seq::from(bytes),
        executable: false,
    })
}

/// What stands at a place, as a thing, if anything does.
fn thing_at(
    alloc: Global,
    random: &mut Random,
    root: &str,
    all: &[Stand; 14],
    place: usize,
) -> Result<Option<Thing>, NoMemory>
    requires { place < 14 }
{
    let thing = match all[place] {
        Stand::Nothing => return Ok(None),
        Stand::Folder => Thing::Folder,
        Stand::File => file(alloc, random)?,
        Stand::Link => Thing::Link(Text::from(target(alloc, random, root, all, place)?)),
        Stand::Loop => Thing::Link(Text::from_str(alloc, own_name(place))?),
    };
    Ok(Some(thing))
}

/// Lets a tree grow, the same in both.
pub(crate) fn grow(
    rt: &HostRuntime,
    alloc: Global,
    random: &mut Random,
    root: &str,
    all: &[Stand; 14],
) -> Result<Tree, Fail> {
    let mut tree = Tree::new(alloc);
    put(rt, alloc, &mut tree, root, Thing::Folder)?;
    for n in 0..14usize {
        let place = PLACES.get(n).copied().unwrap_or("");
        let path = format!(in alloc; "{root}/{place}")?;
        if let Some(thing) = thing_at(alloc, random, root, all, n)? {
            put(rt, alloc, &mut tree, path.as_str(), thing)?;
        }
    }
    Ok(tree)
}
