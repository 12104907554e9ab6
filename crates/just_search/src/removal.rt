//! The removal of temporary folders.

ghost use Rattle.std.specs.Prelude.{◌≡◌, IfOk, OnOk, OnErr};
ghost use Rattle.just_path.specs.Path.{text_of};
ghost use Rattle.just_path.specs.View.{is_folder};
ghost use Rattle.just_search.specs.Removals.{is_plain, IsTried, Clears, InTurn, ListsFor, removed_path, TriesItem, TriesItems, TriesWithItems, TriesNested, Empties, TriesFolder, RemovesAll, RemovesSome};

use just_host_record::{Host, HostFault};
use just_path::{Item, Kind, PathFault, Utf8Path, Utf8PathBuf};
use just_path_text::NoMemory;
use std::alloc::Global;

/// Whether an item of a folder may be removed by that name, which leads nowhere else.
fn is_plain(name: &str) -> bool
    ensures { result ≡ is_plain name.now }
{
    !name.is_empty() && !name.as_bytes().contains(&b'/') && name != "." && name != ".."
}

/// Removes what stands at a path, if it can be removed.
#[tactic(auto, using(crate::proofs::Removing::tried_done, crate::proofs::Removing::tried_refused, crate::proofs::Removing::stays))]
fn remove_at<H: Host>(host: &mut H, path: Utf8Path<'_>) -> Result<(), NoMemory>
    ensures tried { OnOk result (IsTried (text_of path.entry) (H.told host.old) (H.told host.new)) }
    ensures kept { OnErr result (H.told host.new ≡ H.told host.old) }
{
    match host.remove(path) {
        Ok(()) => Ok(()),
        Err(HostFault::Missed(_)) => Ok(()),
        Err(HostFault::Failed(_)) => Ok(()),
        Err(HostFault::NoMemory) => Err(NoMemory),
    }
}

/// What stands in a folder; nothing where it can't be listed.
fn items_in<H: Host>(
    alloc: Global,
    host: &mut H,
    folder: Utf8Path<'_>,
) -> Result<Vec<Item>, NoMemory>
    ensures listed { IfOk result (λ items. ListsFor (text_of folder.entry)
        (H.told host.old) items.items (H.told host.new)) }
    ensures kept { OnErr result (H.told host.new ≡ H.told host.old) }
{
    match host.list(folder) {
        Ok(items) => Ok(items),
        Err(PathFault::Missed(_)) => Ok(Vec::new(alloc)),
        Err(PathFault::Failed) => Ok(Vec::new(alloc)),
        Err(PathFault::NoMemory) => Err(NoMemory),
    }
}

/// The path of an item of a folder, where it may be removed by its name.
fn removed_path(
    alloc: Global,
    folder: Utf8Path<'_>,
    item: &Item,
) -> Result<Option<Utf8PathBuf>, NoMemory>
    ensures { IfOk result (λ path. path ≡ removed_path (text_of folder.entry) item.now.name) }
{
    if !is_plain(item.name.as_str()) {
        return Ok(None);
    }
    let path = folder.join(alloc, Utf8Path::new(item.name.as_str()))?;
    Ok(Some(path))
}

/// Removes an item of a folder.
fn remove_item<H: Host>(
    alloc: Global,
    host: &mut H,
    folder: Utf8Path<'_>,
    item: &Item,
) -> Result<(), NoMemory>
    ensures tried { OnOk result (TriesItem (text_of folder.entry) item.now
        (H.told host.old) (H.told host.new)) }
    ensures stopped { OnErr result (Clears (text_of folder.entry)
        (H.told host.old) (H.told host.new)) }
{
    let path = removed_path(alloc, folder, item)?;
    match path {
        Some(path) => remove_at(host, path.as_path()),
        None => Ok(()),
    }
}

/// Removes the items of a folder.
fn remove_items<H: Host>(alloc: Global, host: &mut H, folder: Utf8Path<'_>) -> Result<(), NoMemory>
    ensures tried { OnOk result (TriesItems (text_of folder.entry)
        (H.told host.old) (H.told host.new)) }
    ensures stopped { OnErr result (Clears (text_of folder.entry)
        (H.told host.old) (H.told host.new)) }
{
    let listed = items_in(alloc, host, folder)?;
    'items: for item in listed.as_slice() {
        remove_item(alloc, host, folder, item)?;
    }
    Ok(())
}

/// Removes a folder that stands in a temporary one, with its items.
fn remove_inner<H: Host>(alloc: Global, host: &mut H, inner: Utf8Path<'_>) -> Result<(), NoMemory>
    ensures tried { OnOk result (TriesWithItems (text_of inner.entry)
        (H.told host.old) (H.told host.new)) }
    ensures stopped { OnErr result (Clears (text_of inner.entry)
        (H.told host.old) (H.told host.new)) }
{
    remove_items(alloc, host, inner)?;
    remove_at(host, inner)
}

fn is_folder(item: &Item) -> bool
    ensures { result ≡ is_folder item.now.kind }
{
    item.kind == Kind::Folder
}

/// Removes an item of a folder, with its own items where it is a folder.
fn remove_nested<H: Host>(
    alloc: Global,
    host: &mut H,
    folder: Utf8Path<'_>,
    item: &Item,
) -> Result<(), NoMemory>
    ensures tried { OnOk result (TriesNested (text_of folder.entry) item.now
        (H.told host.old) (H.told host.new)) }
    ensures stopped { OnErr result (Clears (text_of folder.entry)
        (H.told host.old) (H.told host.new)) }
{
    let path = removed_path(alloc, folder, item)?;
    match path {
        Some(path) => {
            if is_folder(item) {
                remove_inner(alloc, host, path.as_path())
            } else {
                remove_at(host, path.as_path())
            }
        }
        None => Ok(()),
    }
}

/// Removes the items of a folder, and the items of those that are folders.
fn empty_folder<H: Host>(alloc: Global, host: &mut H, folder: Utf8Path<'_>) -> Result<(), NoMemory>
    ensures tried { OnOk result (Empties (text_of folder.entry)
        (H.told host.old) (H.told host.new)) }
    ensures stopped { OnErr result (Clears (text_of folder.entry)
        (H.told host.old) (H.told host.new)) }
{
    let listed = items_in(alloc, host, folder)?;
    'items: for item in listed.as_slice() {
        remove_nested(alloc, host, folder, item)?;
    }
    Ok(())
}

/// Removes a folder, with what the program puts into it: files, and folders of files.
fn remove_folder<H: Host>(alloc: Global, host: &mut H, folder: Utf8Path<'_>) -> Result<(), NoMemory>
    ensures tried { OnOk result (TriesFolder (text_of folder.entry)
        (H.told host.old) (H.told host.new)) }
    ensures stopped { OnErr result (Clears (text_of folder.entry)
        (H.told host.old) (H.told host.new)) }
{
    empty_folder(alloc, host, folder)?;
    remove_at(host, folder)
}

/// Removes temporary folders, with what the program puts into them: files, and folders of files. What can't be removed stays, and so does what
/// recipes put deeper. An error says that memory was wanting, and that the folders behind may stay.
pub fn remove_folders<H: Host>(
    alloc: Global,
    host: &mut H,
    folders: &[Utf8PathBuf],
) -> Result<(), NoMemory>
    // To remove each folder is tried, behind what stands in it, and nothing else; the record gains the entries of what was refused.
    ensures removed { OnOk result (RemovesAll (H.told host.old) folders.now (H.told host.new)) }
    // What stands in it is what its listing shows: to remove each item is tried, with the items of one that is a folder.
    ensures tried { OnOk result (InTurn TriesFolder
        (H.told host.old) folders.now (H.told host.new)) }
    // So far as memory allowed it: the first folders in that way, and of the next one what stands in it, or some of it.
    ensures stopped { OnErr result (RemovesSome (H.told host.old) folders.now (H.told host.new)) }
{
    'folders: for folder in folders {
        remove_folder(alloc, host, folder.as_path())?;
    }
    Ok(())
}
