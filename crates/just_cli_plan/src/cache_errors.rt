//! The errors of caches.

ghost use Rattle.std.specs.Prelude.{◌≡◌, true, [], None, slice_index_or, option_map, IfOk, IfErr};
ghost use Rattle.just_sched_history.specs.Cached.{seen_at};
ghost use Rattle.just_sched_history.specs.Nodes.{paths_in, outputs_in};
ghost use Rattle.just_cli_plan.specs.Outcome.{entries_folder, entry_seen as seen_entry, input_error as error_of_input, is_filled, copies_text};

use just_exec::Error;
use just_host_record::HostFault;
use just_lang_read::Boxed;
use just_path::{Miss, Utf8PathBuf};
use just_path_text::{NoMemory, Text};
use just_sched_history::{CachePlan, Event, PlanNode, entry_path_of};
use std::alloc::Global;

/// The error of a refused call on a path; without one nothing is copied.
#[tactic(auto, using(crate::proofs::Paths::path_copied))]
fn path_error(alloc: Global, path: &str, io: HostFault) -> Result<Error, NoMemory>
    ensures error { IfOk result (λ e. e ≡ Error.FilesystemIo path.now io) }
    ensures wanting { IfErr result (λ _. copies_text (Error.FilesystemIo path.now io) ≡ true) }
{
    let mut copy = String::new(alloc);
    if !path.is_empty() {
        copy.push_str(path)?;
    }
    Ok(Error::FilesystemIo {
        path: Utf8PathBuf::from(copy),
        io,
    })
}

/// The error of a refused call that names the folder of a cache.
pub(crate) fn folder_error(
    alloc: Global,
    cache: &Option<Boxed<CachePlan>>,
    io: HostFault,
) -> Result<Error, NoMemory>
    ensures error { IfOk result (λ e. e ≡ Error.FilesystemIo (entries_folder cache.now) io) }
    ensures wanting { IfErr result (λ _. copies_text (Error.FilesystemIo (entries_folder cache.now) io) ≡ true) }
{
    match cache {
        Some(cache) => path_error(alloc, cache.get().folder.as_str(), io),
        None => path_error(alloc, "", io),
    }
}

/// The sums of a node's inputs, as its cache was looked at.
fn seen_sums(history: &[Event], number: u32) -> Option<&[[u8; 32]]>
    ensures { option_map (λ s. s.now) result ≡ option_map (λ s. s.0) (seen_at history.now number) }
{
    'events: for event in history {
        if let Event::Looked(node, sums, _) = event {
            if *node == number {
                return Some(sums.as_slice());
            }
        }
    }
    None
}

/// The path of the entry by which a cache was looked at; empty where it wasn't.
#[tactic(auto, using(crate::proofs::Paths::entry_by_sums, crate::proofs::Paths::entry_filled, crate::proofs::Paths::nothing_seen, crate::proofs::Paths::no_cache))]
pub(crate) fn entry_seen(
    alloc: Global,
    cache: &Option<Boxed<CachePlan>>,
    history: &[Event],
    number: u32,
) -> Result<Utf8PathBuf, NoMemory>
    ensures entry { IfOk result (λ p. p ≡ seen_entry cache.now (seen_at history.now number)) }
    ensures wanting { IfErr result (λ _. is_filled (seen_entry cache.now (seen_at history.now number)) ≡ true) }
{
    match (cache, seen_sums(history, number)) {
        (Some(cache), Some(sums)) => entry_path_of(alloc, cache.get(), sums),
        _ => Ok(Utf8PathBuf::from(String::new(alloc))),
    }
}

/// The error of an entry that wasn't saved, since it is such a miss.
pub(crate) fn saved_error(
    alloc: Global,
    node: &PlanNode,
    history: &[Event],
    number: u32,
    miss: Miss,
) -> Result<Error, NoMemory>
    ensures error { IfOk result (λ e. e ≡ Error.FilesystemIo (seen_entry node.now.cache (seen_at history.now number)) (HostFault.Missed miss)) }
    ensures wanting { IfErr result (λ _. copies_text (Error.FilesystemIo (seen_entry node.now.cache (seen_at history.now number)) (HostFault.Missed miss)) ≡ true) }
{
    Ok(Error::FilesystemIo {
        path: entry_seen(alloc, &node.cache, history, number)?,
        io: HostFault::Missed(miss),
    })
}

/// The path at a place, empty where none is.
fn path_at(paths: &[Utf8PathBuf], place: u32) -> &str
    ensures { result.now ≡ slice_index_or paths.now place [] }
{
    match paths.get(place as usize) {
        Some(path) => path.as_str(),
        None => "",
    }
}

/// The path of the input of a cache at a place.
fn input_at(cache: &Option<Boxed<CachePlan>>, place: u32) -> &str
    ensures { result.now ≡ slice_index_or (paths_in cache.now) place [] }
{
    match cache {
        Some(cache) => path_at(cache.get().paths.as_slice(), place),
        None => "",
    }
}

/// The text of the output of a cache at a place.
pub(crate) fn output_at(
    alloc: Global,
    cache: &Option<Boxed<CachePlan>>,
    place: u32,
) -> Result<Text, NoMemory>
    ensures { IfOk result (λ t. t ≡ slice_index_or (outputs_in cache.now) place []) }
{
    match cache {
        Some(cache) => Text::from_str(alloc, path_at(cache.get().outputs.as_slice(), place)),
        None => Text::from_str(alloc, ""),
    }
}

/// A copy of a path.
fn copied_path(alloc: Global, path: &str) -> Result<Utf8PathBuf, NoMemory>
    ensures { IfOk result (λ p. p ≡ path.now) }
{
    Ok(Utf8PathBuf::from(String::from_str(alloc, path)?))
}

/// The error of the input at a place that is such a miss.
pub(crate) fn input_error(
    alloc: Global,
    cache: &Option<Boxed<CachePlan>>,
    place: u32,
    miss: Miss,
) -> Result<Error, NoMemory>
    ensures error { IfOk result (λ e. e ≡ error_of_input (slice_index_or (paths_in cache.now) place []) miss) }
    ensures wanting { IfErr result (λ _. copies_text (error_of_input (slice_index_or (paths_in cache.now) place []) miss) ≡ true) }
{
    let path = input_at(cache, place);
    match miss {
        Miss::NotFound => Ok(Error::CacheInputMissing {
            path: copied_path(alloc, path)?,
        }),
        Miss::IsFolder => Ok(Error::CacheInputDirectory {
            path: copied_path(alloc, path)?,
        }),
        Miss::NotFolder | Miss::NotUtf8 | Miss::NotEmpty | Miss::TooLarge => {
            path_error(alloc, path, HostFault::Missed(miss))
        }
    }
}
