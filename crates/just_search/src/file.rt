//! A justfile as a file that can be loaded.

ghost use Rattle.std.specs.Prelude.{None, [], ◌≡◌, ◌++◌, IfOk, IfErr, option_map};
ghost use Rattle.just_path.specs.Path.{text_of};
ghost use Rattle.just_search.specs.declared.location.Origin.TheVariants.{Markdown, StandardInput};
ghost use Rattle.just_search.specs.Calls.{told_entries};
ghost use Rattle.just_host_record.specs.declared.entry.Call.TheVariants.{Write};
ghost use Rattle.just_host_record.specs.Record.{gained, IsOwn};
ghost use Rattle.just_search.specs.Files.{parent_of, IsWritten, IsUnwritten, WritesFile, TextBecomesFile};
ghost use Rattle.just_search.specs.Searches.{BecomesFile};

use super::text::{text_of_input, text_of_markdown};
use super::{Search, SearchError};
use crate::{Location, Origin, given_path};
use just_config::Config;
use just_host_record::{Host, HostFault};
use just_path::{Utf8Path, Utf8PathBuf};
use just_path_text::{NoMemory, Text};
use std::alloc::Global;

/// The folder in which a temporary one is to be made, if one is asked for: under the folder in which the program was called, and clean.
fn parent_of(alloc: Global, config: &Config) -> Result<Option<Utf8PathBuf>, NoMemory>
    ensures { IfOk result (λ parent. parent ≡ parent_of config.now) }
{
    match &config.tempdir {
        Some(folder) => {
            let folder = Utf8PathBuf::from_str(alloc, folder.as_str())?;
            Ok(Some(given_path(alloc, config, &folder)?))
        }
        None => Ok(None),
    }
}

fn as_path(folder: &Option<Utf8PathBuf>) -> Option<Utf8Path<'_>>
    ensures { option_map text_of result ≡ folder.now }
{
    match folder {
        Some(folder) => Some(folder.as_path()),
        None => None,
    }
}

/// Writes a text to the file at a path.
#[tactic(auto, using(crate::proofs::Materializing::done_as, crate::proofs::Materializing::error_as))]
fn write_at<H: Host>(host: &mut H, path: Utf8Path<'_>, text: &[u8]) -> Result<(), HostFault>
    ensures done { IfOk result (λ _. IsWritten (H.told host.old).world (H.told host.new).world (text_of path.entry) text.now) }
    ensures refused { IfErr result (IsUnwritten (H.told host.old).world (H.told host.new).world (text_of path.entry) text.now) }
    ensures own { IsOwn Write result }
    ensures entries { (H.told host.new).entries ≡ (H.told host.old).entries ++ gained (text_of path.entry) (λ _. []) result }
{
    match host.write(path, text) {
        Ok(()) => Ok(()),
        Err(io) => Err(io),
    }
}

/// Writes a text to the file in a temporary folder.
#[tactic(auto, using(crate::proofs::Materializing::write_stays, crate::proofs::Materializing::write_done))]
fn write_file<H: Host>(
    alloc: Global,
    host: &mut H,
    folder: &Utf8PathBuf,
    text: &Text,
    working_directory: Utf8PathBuf,
) -> Result<Search, SearchError>
    ensures written { WritesFile (H.told host.old).world (H.told host.new).world folder.now text.now working_directory result }
    ensures entries { (H.told host.new).entries ≡ (H.told host.old).entries ++ told_entries None result }
{
    let tempdir = folder.try_clone()?;
    let justfile = folder.as_path().join(alloc, Utf8Path::new("justfile"))?;
    match write_at(host, justfile.as_path(), text.as_str().as_bytes()) {
        Ok(()) => Ok(Search {
            justfile,
            tempdir: Some(tempdir),
            working_directory,
        }),
        Err(HostFault::NoMemory) => Err(SearchError::NoMemory),
        Err(HostFault::Failed(call)) => Err(SearchError::FilesystemIo {
            path: justfile,
            io: HostFault::Failed(call),
        }),
        Err(HostFault::Missed(miss)) => Err(SearchError::FilesystemIo {
            path: justfile,
            io: HostFault::Missed(miss),
        }),
    }
}

/// Writes a text to the file in a temporary folder that is made for it, and keeps the folder's path.
#[tactic(auto, using(crate::proofs::Materializing::nothing_written))]
fn write_text<H: Host>(
    alloc: Global,
    host: &mut H,
    config: &Config,
    made: &mut Vec<Utf8PathBuf>,
    text: &Text,
    working_directory: Utf8PathBuf,
) -> Result<Search, SearchError>
    ensures written { TextBecomesFile (H.told host.old) (H.told host.new) (parent_of config.now)
        text.now working_directory made.old.items made.new.items result }
{
    let parent = parent_of(alloc, config)?;
    made.reserve(1)?;
    match host.temp_folder(as_path(&parent), "just-") {
        Ok(folder) => {
            let written = write_file(alloc, host, &folder, text, working_directory);
            made.push_reserved(folder);
            written
        }
        Err(HostFault::NoMemory) => Err(SearchError::NoMemory),
        Err(HostFault::Failed(call)) => Err(SearchError::TempdirIo {
            io: HostFault::Failed(call),
        }),
        Err(HostFault::Missed(miss)) => Err(SearchError::TempdirIo {
            io: HostFault::Missed(miss),
        }),
    }
}

/// The justfile in a markdown file, written to the file in a temporary folder.
#[tactic(auto, using(crate::proofs::Materializing::unread))]
fn write_markdown<H: Host>(
    alloc: Global,
    host: &mut H,
    config: &Config,
    made: &mut Vec<Utf8PathBuf>,
    path: Utf8PathBuf,
    working_directory: Utf8PathBuf,
) -> Result<Search, SearchError>
    ensures written { BecomesFile (H.told host.old) (H.told host.new) config.now
        (record { origin = Markdown path; working_directory = working_directory })
        made.old.items made.new.items result }
{
    match text_of_markdown(alloc, host, path) {
        Ok(text) => write_text(alloc, host, config, made, &text, working_directory),
        Err(error) => Err(error),
    }
}

/// The justfile on standard input, written to the file in a temporary folder.
#[tactic(auto, using(crate::proofs::Materializing::unread))]
fn write_input<H: Host>(
    alloc: Global,
    host: &mut H,
    config: &Config,
    made: &mut Vec<Utf8PathBuf>,
    working_directory: Utf8PathBuf,
) -> Result<Search, SearchError>
    ensures written { BecomesFile (H.told host.old) (H.told host.new) config.now
        (record { origin = StandardInput; working_directory = working_directory })
        made.old.items made.new.items result }
{
    match text_of_input(host) {
        Ok(text) => write_text(alloc, host, config, made, &text, working_directory),
        Err(error) => Err(error),
    }
}

/// The justfile in a place, as a file that can be loaded. Markdown and standard input are read, and their text is written to a file in a temporary
/// folder, under the one that the configuration asks for, else where the host keeps such folders. The folder's path is put behind those in `made`,
/// also where the file can't be written: it is the caller's to remove.
pub fn materialize<H: Host>(
    alloc: Global,
    location: Location,
    config: &Config,
    made: &mut Vec<Utf8PathBuf>,
    host: &mut H,
) -> Result<Search, SearchError>
    // The folders that were made are kept, with their entries in the record; behind these is that of the refused call.
    ensures materialized { BecomesFile (H.told host.old) (H.told host.new) config.now location
        made.old.items made.new.items result }
{
    let Location {
        origin,
        working_directory,
    } = location;
    match origin {
        Origin::File(justfile) => Ok(Search {
            justfile,
            tempdir: None,
            working_directory,
        }),
        Origin::Markdown(path) => {
            write_markdown(alloc, host, config, made, path, working_directory)
        }
        Origin::StandardInput => write_input(alloc, host, config, made, working_directory),
    }
}
