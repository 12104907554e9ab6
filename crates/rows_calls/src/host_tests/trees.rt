//! The host in memory and the real one over the same files answer the same: five hundred trees at random, each asked
//! for all its places by paths of several forms, and searched from each of them upwards.

use super::alike::{answer_alike, refuse_alike};
use super::both::grow;
use super::forms::{filled, placed};
use super::search::{Asked, search_alike};
use super::stands::{PLACES, Random, Stand, grown, is_before_links};
use just_host::{Host, MemHost, Plot, RealHost, Tree};
use just_path::{PathHost, Utf8Path, Utf8PathBuf};
use just_path_text::{Environ, NoMemory, Seq};
use std::alloc::Global;
use std::fs;
use std::test::Fail;

/// Forms of paths to a place: `C` is the current folder, `T` the folder of the trees in it, `N` the number of a tree, `P` the place.
const FORMS: [&str; 8] = [
    "T/N/P",
    "C/T/N/P",
    ".//T/./N//P",
    "T/N/../N/P",
    "T/N/P/",
    "T/N/P/.",
    "T/N/P/y",
    "",
];

/// Where a tree stands: the current folder, and under it the root.
#[derive(Clone, Copy)]
struct Root<'a> {
    current: &'a str,
    trees: &'a str,
    number: &'a str,
}

/// The two hosts over a tree.
struct Hosts {
    real: RealHost<HostRuntime>,
    memory: MemHost,
}

impl Drop for Hosts {
    fn drop(self) {
        let Hosts { real: _, memory: _ } = self;
    }
}

/// A path to a place of a tree in a form.
fn path_in(alloc: Global, root: Root<'_>, place: &str, form: &str) -> Result<String, NoMemory> {
    let parts = [
        ('C', root.current),
        ('T', root.trees),
        ('N', root.number),
        ('P', place),
    ];
    filled(alloc, form, &parts)
}

/// Whether two hosts answer alike of the place of a thing.
fn alike<A: Host, B: Host>(one: &mut A, other: &mut B, path: &str, stand: Stand) -> bool {
    if stand == Stand::Loop {
        refuse_alike(one, other, path)
    } else {
        answer_alike(one, other, path)
    }
}

/// The path of which the two hosts answer otherwise, if there is one. Each place is asked for by one path.
fn difference<A: Host, B: Host>(
    alloc: Global,
    random: &mut Random,
    one: &mut A,
    other: &mut B,
    root: Root<'_>,
    all: &[Stand; 14],
) -> Result<Option<String>, NoMemory> {
    for n in 0..14usize {
        let place = PLACES.get(n).copied().unwrap_or("");
        let which = random.next() as usize % 8;
        let form = FORMS.get(which).copied().unwrap_or("");
        let behind = which == 6 && all[n] == Stand::Link;
        let path = path_in(alloc, root, place, form)?;
        if is_before_links(all, n) && !behind && !alike(one, other, path.as_str(), all[n]) {
            return Ok(Some(path));
        }
    }
    Ok(None)
}

/// Names under which a justfile is looked for.
fn any_names(random: &mut Random) -> &'static str {
    match random.next() % 4 {
        0 => "c,X",
        1 => "A B, d",
        _ => "",
    }
}

/// The last folder that is searched: that of the search, the one around it, or the root.
fn any_ceiling(
    alloc: Global,
    random: &mut Random,
    root: &str,
    place: usize,
) -> Result<String, NoMemory> {
    let last = match random.next() % 4 {
        0 => place,
        1 if place >= 2 => place / 2 - 1,
        _ => PLACES.len(),
    };
    let (form, last) = match PLACES.get(last).copied() {
        Some(last) => ("R/P", last),
        None => ("R", ""),
    };
    placed(alloc, form, "", root, last)
}

/// The path in front of the words of a search from a place, in a form of that number; empty where the program is called at the place.
fn prefix_of(alloc: Global, root: &str, name: &str, form: u8) -> Result<String, NoMemory> {
    let form = match form {
        0 => "",
        1 => "P/",
        _ => "R//P/",
    };
    placed(alloc, form, "", root, name)
}

/// The folder in which the program is called, for a form of words of that number.
fn called_in(alloc: Global, root: &str, name: &str, form: u8) -> Result<String, NoMemory> {
    let form = if form == 0 { "R/P" } else { "R" };
    placed(alloc, form, "", root, name)
}

/// A search from a place upwards.
fn any_search(
    alloc: Global,
    random: &mut Random,
    root: &str,
    place: usize,
) -> Result<Asked, NoMemory> {
    let name = PLACES.get(place).copied().unwrap_or("");
    let ceiling = any_ceiling(alloc, random, root, place)?;
    let form = random.next() % 3;
    let names = String::from_str(alloc, any_names(random))?;
    let called = called_in(alloc, root, name, form)?;
    let prefix = prefix_of(alloc, root, name, form)?;
    Ok(Asked {
        called,
        prefix,
        ceiling,
        names,
    })
}

/// Whether a search from a place upwards ends alike over two hosts.
fn search_agrees<A: Host, B: Host>(
    alloc: Global,
    random: &mut Random,
    one: &mut A,
    other: &mut B,
    root: &str,
    place: usize,
) -> Result<bool, NoMemory> {
    let asked = any_search(alloc, random, root, place)?;
    search_alike(alloc, one, other, &asked)
}

/// The place from which a search ends otherwise over the two hosts, if there is one.
fn search_difference<A: Host, B: Host>(
    alloc: Global,
    random: &mut Random,
    one: &mut A,
    other: &mut B,
    root: &str,
    all: &[Stand; 14],
) -> Result<Option<String>, NoMemory> {
    for n in 0..14usize {
        let from = is_before_links(all, n) && all[n] != Stand::Nothing && all[n] != Stand::Loop;
        if from && !search_agrees(alloc, random, one, other, root, n)? {
            let place = PLACES.get(n).copied().unwrap_or("");
            return match placed(alloc, "search from R/P", "", root, place) {
                Ok(told) => Ok(Some(told)),
                Err(refused) => Err(refused),
            };
        }
    }
    Ok(None)
}

/// The host in memory of a tree, in that folder.
fn memory(alloc: Global, tree: Tree, folder: &str) -> Result<MemHost, NoMemory> {
    let environ = Environ {
        pairs: Seq::new(alloc),
    };
    let current = Utf8Path::new(folder).to_path_buf(alloc)?;
    MemHost::new(alloc, tree, current, environ, Plot::new(alloc))
}

/// The two hosts over a tree that grows, in that folder.
fn hosts_over(
    rt: &HostRuntime,
    random: &mut Random,
    current: &str,
    root: &str,
    all: &[Stand; 14],
) -> Result<Hosts, Fail> {
    let alloc = rt.alloc();
    let tree = grow(rt, alloc, random, root, all)?;
    let real = RealHost::new(rt, alloc)?;
    let memory = memory(alloc, tree, current)?;
    Ok(Hosts { real, memory })
}

/// In what the two hosts differ over a tree, if they do.
fn difference_over(
    alloc: Global,
    random: &mut Random,
    hosts: &mut Hosts,
    root: Root<'_>,
    folder: &str,
    all: &[Stand; 14],
) -> Result<Option<String>, NoMemory> {
    let found = difference(alloc, random, &mut hosts.real, &mut hosts.memory, root, all)?;
    if found.is_some() {
        return Ok(found);
    }
    search_difference(
        alloc,
        random,
        &mut hosts.real,
        &mut hosts.memory,
        folder,
        all,
    )
}

/// In what the two hosts differ over the tree of a root, if they do.
fn difference_of(
    rt: &HostRuntime,
    random: &mut Random,
    root: Root<'_>,
) -> Result<Option<String>, Fail> {
    let alloc = rt.alloc();
    let all = grown(random);
    let folder = path_in(alloc, root, "", "C/T/N")?;
    let mut hosts = hosts_over(rt, random, root.current, folder.as_str(), &all)?;
    let found = difference_over(alloc, random, &mut hosts, root, folder.as_str(), &all)?;
    Ok(found)
}

/// In what the two hosts differ over the tree of that number, if they do.
fn difference_at(
    rt: &HostRuntime,
    random: &mut Random,
    current: &str,
    trees: &str,
    number: u32,
) -> Result<Option<String>, Fail> {
    let number = format!(in rt.alloc(); "{number}")?;
    let root = Root {
        current,
        trees,
        number: number.as_str(),
    };
    difference_of(rt, random, root)
}

/// In what the two hosts differ over the first tree over which they do.
fn first_difference(rt: &HostRuntime, current: &str, trees: &str) -> Result<Option<String>, Fail> {
    let mut random = Random { state: 21 };
    for number in 0..500u32 {
        if let Some(found) = difference_at(rt, &mut random, current, trees, number)? {
            return Ok(Some(found));
        }
    }
    Ok(None)
}

/// The current folder, and a new one in it.
fn folders(rt: &HostRuntime) -> Result<(Utf8PathBuf, Utf8PathBuf), Fail> {
    let mut host = RealHost::new(rt, rt.alloc())?;
    let current = host.current()?;
    let folder = host.temp_folder(Some(current.as_path()), "trees-")?;
    Ok((current, folder))
}

/// The two hosts differ over none of the trees.
#[test]
fn five_hundred_trees(rt: HostRuntime) -> Result<(), Fail> {
    let (current, folder) = folders(&rt)?;
    let trees = folder.as_path().file_name().unwrap_or("");
    let found = first_difference(&rt, current.as_str(), trees);
    let removed = fs::remove_dir_all(&rt, folder.as_str());
    let difference = found?;
    removed?;
    assert!(rt; difference.is_none(), "{difference:?}");
    Ok(())
}
