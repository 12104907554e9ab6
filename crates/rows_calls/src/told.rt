//! Rows of calls: a line names a call, its path and what else it is given, and behind ` = ` its answer.

use crate::body::{remove_entry, run};
use crate::captures::captured;
use crate::cleaned::clean;
use crate::digests::digests;
use crate::shown::shown;
use just_host::{Host, HostFault, Look, MemHost, Plot, Thing, Tree};
use just_path::{Utf8Path, Utf8PathBuf};
use just_path_text::{Environ, NoMemory, Seq, Text};
use std::alloc::{AllocError, Global};
use std::fmt::Write;

/// A text up to its first blank, and what stands behind that.
fn parted(text: &str) -> (&str, &str) {
    text.split_once(' ').unwrap_or((text, ""))
}

/// A look at an entry and one output beside it.
fn probe<H: Host>(
    alloc: Global,
    host: &mut H,
    entry: Utf8Path<'_>,
    output: &str,
) -> Result<Look, HostFault> {
    let outputs = [Utf8PathBuf::from_str(alloc, output)?];
    host.probe(entry, &outputs)
}

/// The number of the one output, where it isn't there.
fn check<H: Host>(
    alloc: Global,
    host: &mut H,
    output: Utf8Path<'_>,
) -> Result<Option<u32>, HostFault> {
    let outputs = [output.to_path_buf(alloc)?];
    host.check(&outputs)
}

/// The names in a folder, one behind the other.
fn names<H: Host>(alloc: Global, host: &mut H, folder: Utf8Path<'_>) -> Result<String, AllocError> {
    match host.names(folder) {
        Ok(names) => in_brackets(alloc, names.as_slice()),
        Err(fault) => format!(in alloc; "Err({fault:?})"),
    }
}

/// Some texts, each in brackets.
fn in_brackets(alloc: Global, texts: &[Text]) -> Result<String, AllocError> {
    let mut all = String::new(alloc);
    for text in texts {
        write!(all, "[{}]", text.as_str())?;
    }
    Ok(all)
}

/// Whether the name of a fresh folder begins as it was asked for, and the answers as that folder is removed twice.
fn temp_folder<H: Host>(
    host: &mut H,
    parent: Option<Utf8Path<'_>>,
) -> Result<(bool, Result<(), HostFault>, Result<(), HostFault>), HostFault> {
    let made = host.temp_folder(parent, "just-")?;
    let path = made.as_path();
    let is_named = path.file_name().unwrap_or("").starts_with("just-");
    Ok((is_named, host.remove(path), host.remove(path)))
}

/// The answer to a call of a child, of a prompt or of standard input.
fn answer_of_run<H: Host>(
    alloc: Global,
    host: &mut H,
    call: &str,
    words: &str,
) -> Result<String, AllocError> {
    match call {
        "capture" => shown(alloc, captured(alloc, host, words, b"x")),
        "ask" => shown(alloc, host.ask(words)),
        "input" => shown(alloc, host.input()),
        _ => String::from_str(alloc, "no such call"),
    }
}

/// The answer to a call of the cache, or to one of a run.
fn answer_of_cache<H: Host>(
    alloc: Global,
    host: &mut H,
    call: &str,
    words: &str,
) -> Result<String, AllocError> {
    match call {
        "digests" => shown(alloc, digests(alloc, host, words)),
        "body" => shown(alloc, run(alloc, host, words)),
        "remove_entry" => shown(alloc, remove_entry(alloc, host)),
        "clean" => shown(alloc, clean(alloc, host, words)),
        _ => answer_of_run(alloc, host, call, words),
    }
}

/// The answer to a call that makes a folder or lists one, or to one of the cache.
fn answer_of_folder<H: Host>(
    alloc: Global,
    host: &mut H,
    call: &str,
    words: &str,
) -> Result<String, AllocError> {
    let place = Utf8Path::new(words);
    match call {
        "names" => names(alloc, host, place),
        "make_folder" => shown(alloc, host.make_folder(place)),
        "temp_folder_in" => shown(alloc, temp_folder(host, Some(place))),
        "temp_folder" => shown(alloc, temp_folder(host, None)),
        _ => answer_of_cache(alloc, host, call, words),
    }
}

/// The answer to a call of sums and cache entries, or to one of folders.
fn answer_of_entry<H: Host>(
    alloc: Global,
    host: &mut H,
    call: &str,
    words: &str,
) -> Result<String, AllocError> {
    let (path, more) = parted(words);
    let place = Utf8Path::new(path);
    match call {
        "sum" => shown(alloc, host.sum(place)),
        "probe" => shown(alloc, probe(alloc, host, place, more)),
        "check" => shown(alloc, check(alloc, host, place)),
        "save" => shown(alloc, host.save(place, more.as_bytes())),
        _ => answer_of_folder(alloc, host, call, words),
    }
}

/// The answer to a call of files, or to another one.
fn answer<H: Host>(alloc: Global, host: &mut H, row: &str) -> Result<String, AllocError> {
    let (call, words) = parted(row);
    let (path, more) = parted(words);
    let place = Utf8Path::new(path);
    match call {
        "write" => shown(alloc, host.write(place, more.as_bytes())),
        "read" => shown(alloc, host.read(place)),
        "remove" => shown(alloc, host.remove(place)),
        _ => answer_of_entry(alloc, host, call, words),
    }
}

/// Appends the line of a row, with what the host answers now.
fn tell<H: Host>(
    alloc: Global,
    host: &mut H,
    row: &str,
    told: &mut String,
) -> Result<(), AllocError> {
    let (call, _) = row.split_once(" = ").unwrap_or((row, ""));
    let answer = answer(alloc, host, call)?;
    writeln!(told, "{call} = {answer}")
}

/// The rows, with what the host answers now, one call after the other.
pub(crate) fn told<H: Host + Drop>(
    alloc: Global,
    host: H,
    rows: &str,
) -> Result<String, AllocError> {
    let mut host = host;
    let mut told = String::new(alloc);
    for row in rows.lines() {
        tell(alloc, &mut host, row, &mut told)?;
    }
    Ok(told)
}

/// A tree whose one folder is `/p`.
fn tree(alloc: Global) -> Result<Tree, NoMemory> {
    let mut tree = Tree::new(alloc);
    tree.insert(alloc, "/p", Thing::Folder)?;
    Ok(tree)
}

/// That tree, and the path of its folder.
fn tree_and_folder(alloc: Global) -> Result<(Tree, Utf8PathBuf), NoMemory> {
    let folder = Utf8PathBuf::from_str(alloc, "/p")?;
    Ok((tree(alloc)?, folder))
}

/// A host in memory in the folder `/p`, with this plot.
fn in_memory(alloc: Global, plot: Plot) -> Result<MemHost, NoMemory> {
    let (tree, current) = tree_and_folder(alloc)?;
    let environ = Environ {
        pairs: Seq::new(alloc),
    };
    MemHost::new(alloc, tree, current, environ, plot)
}

/// The rows, with what a host in memory answers now, over that plot.
pub(crate) fn told_in_memory(alloc: Global, plot: Plot, rows: &str) -> Result<String, NoMemory> {
    let host = in_memory(alloc, plot)?;
    Ok(told(alloc, host, rows)?)
}
