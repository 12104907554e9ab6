//! What is done to the system's files. An error that is a miss has the kind of one. Nothing is claimed of what the system does.
ghost use Rattle.std.specs.Prelude.{IfOk, option_map};
ghost use Rattle.just_path.specs.Path.{text_of};
ghost use Rattle.just_host_files.specs.Fresh.{IsTemporary};

use super::fresh::fresh_folder;
use just_host_record::{Look, MAX_SUMMED};
use just_path::{Kind, Miss, Utf8Path, Utf8PathBuf};
use sha2::{Digest, Sha256};
use std::alloc::Global;
use std::env;
use std::fs::{self, File, Files, OpenFile, OpenOptions};
use std::io::{self, ErrorKind, Read, Write};
use std::rt::Env;

/// How many bytes are read at once where a file is summed, at most and at least.
const PIECE: usize = 65_536;

const LEAST_PIECE: usize = 512;

/// The length of the file at a path. What is no file is refused, so that nothing is waited for when it is opened.
fn file_length<F: Files>(files: &F, path: &str) -> io::Result<u64> {
    let meta = super::system::look(files, path, true)?;
    match meta.kind {
        Kind::File => Ok(meta.len),
        Kind::Folder => Err(io::Error::from(ErrorKind::IsADirectory)),
        Kind::Link | Kind::Other => Err(io::Error::from(ErrorKind::Other)),
    }
}

/// Refuses a path at which something stands that is no file.
fn refuse_others<F: Files>(files: &F, path: &str) -> io::Result<()> {
    match file_length(files, path) {
        Err(error) if error.kind() != ErrorKind::NotFound => Err(error),
        _ => Ok(()),
    }
}

/// Writes a file, which is made where it lacks: it holds these bytes and no others. A file that is there stays until the new one is
/// whole. What is no file isn't opened. No clause: nothing is claimed of files.
pub fn write<F: Files>(
    files: &F,
    alloc: Global,
    path: Utf8Path<'_>,
    bytes: &[u8],
) -> io::Result<()> {
    refuse_others(files, path.as_str())?;
    super::written::write(files, alloc, path, bytes)
}

/// Removes a file, a link or an empty folder; of a link not what it leads to. No clause: nothing is claimed of files.
pub fn remove<F: Files>(files: &F, path: &str) -> io::Result<()> {
    match super::system::look(files, path, false)?.kind {
        Kind::Folder => fs::remove_dir(files, path),
        Kind::File | Kind::Link | Kind::Other => fs::remove_file(files, path),
    }
}

/// Makes a folder, with those above it, where they lack. Where something else stands there, it is found as no folder. No clause: nothing is claimed of files.
pub fn make_folder<F: Files>(files: &F, path: &str) -> io::Result<()> {
    if path.is_empty() {
        return Err(io::Error::from(ErrorKind::NotFound));
    }
    match fs::create_dir_all(files, path) {
        Err(error) if error.kind() == ErrorKind::AlreadyExists => {
            // a link that leads nowhere isn't found
            super::system::look(files, path, true)?;
            Err(io::Error::from(ErrorKind::NotADirectory))
        }
        made => made,
    }
}

/// Makes a fresh folder in another one, else in the system's for temporary files. Its name begins with `prefix`, and this user alone may use it.
pub fn temp_folder<R: Files + Env>(
    rt: &R,
    alloc: Global,
    parent: Option<Utf8Path<'_>>,
    prefix: &str,
) -> io::Result<Utf8PathBuf>
    ensures { IfOk result (IsTemporary (option_map text_of parent.entry) prefix.now) }
{
    match parent {
        Some(parent) => fresh_folder(rt, alloc, parent, prefix),
        None => {
            let folder = Utf8PathBuf::from(env::temp_dir(&(rt, alloc))?.into_string());
            fresh_folder(rt, alloc, folder.as_path(), prefix)
        }
    }
}

/// How many bytes are read at once of a file of that length: a short one is read in one piece that it doesn't fill, without
/// making a long one.
fn piece_for(length: u64) -> usize {
    match usize::try_from(length) {
        Ok(length) => length.saturating_add(1).clamp(LEAST_PIECE, PIECE),
        Err(_) => PIECE,
    }
}

/// The SHA-256 of a file, which is read piece by piece. Where it has more than `MAX_SUMMED` bytes, the error is `FileTooLarge`; what is no file isn't opened. No clause: nothing is claimed of files.
pub fn sum<F: Files>(files: &F, alloc: Global, path: &str) -> io::Result<[u8; 32]> {
    let length = file_length(files, path)?;
    let mut file = fs::open(files, path)?;
    let mut piece = Vec::new(alloc);
    piece.resize(piece_for(length), 0u8)?;
    sum_of(&mut file, length, piece.as_mut_slice())
}

/// The SHA-256 of what a reader gives up to its end, unless it is too much. A piece that isn't filled ends a file that told so many bytes; one
/// that told another length, as the system's own files do, ends where nothing comes any more.
fn sum_of<R: Read>(reader: &mut R, length: u64, piece: &mut [u8]) -> io::Result<[u8; 32]> {
    let mut hasher = Sha256::new();
    let mut count: u64 = 0;
    for _ in 0..u64::MAX {
        let taken = match reader.read(piece) {
            Ok(0) => return Ok(hasher.finalize()),
            Ok(taken) => taken,
            Err(error) if error.kind() == ErrorKind::Interrupted => continue,
            Err(error) => return Err(error),
        };
        hasher.update(&piece[..taken]);
        count = count.saturating_add(taken as u64);
        if count > MAX_SUMMED {
            return Err(io::Error::from(ErrorKind::FileTooLarge));
        }
        if taken < piece.len() && count == length {
            return Ok(hasher.finalize());
        }
    }
    Err(io::Error::from(ErrorKind::Other))
}

/// Opens a cache entry, which is made where it lacks. It is opened for reading and writing, by which a pipe isn't waited for.
fn open_entry<F: Files<File = File>>(files: &F, path: &str) -> io::Result<File> {
    match OpenOptions::new().read(true).write(true).open(files, path) {
        Err(error) if error.kind() == ErrorKind::NotFound => OpenOptions::new()
            .read(true)
            .write(true)
            .create(true)
            .open(files, path),
        opened => opened,
    }
}

/// The length of an open cache entry. What is no file has none.
fn open_length(file: &File) -> io::Result<u64> {
    let meta = file.metadata()?;
    if meta.is_file() {
        Ok(meta.len())
    } else {
        Err(io::Error::from(ErrorKind::Other))
    }
}

/// Makes the folder that a cache entry is in, where it lacks.
fn make_folder_of<F: Files>(files: &F, entry: Utf8Path<'_>) -> io::Result<()> {
    let Some(folder) = entry.parent() else {
        return Ok(());
    };
    if folder.as_str().is_empty() {
        return Ok(());
    }
    match fs::create_dir(files, folder.as_str()) {
        Err(error) if error.kind() != ErrorKind::AlreadyExists => Err(error),
        _ => Ok(()),
    }
}

/// Opens a cache entry; where it can't be made since its folder lacks, that is made first.
fn open_in_folder<F: Files<File = File>>(files: &F, entry: Utf8Path<'_>) -> io::Result<File> {
    match open_entry(files, entry.as_str()) {
        Err(error) if error.kind() == ErrorKind::NotFound => {
            make_folder_of(files, entry)?;
            open_entry(files, entry.as_str())
        }
        opened => opened,
    }
}

/// The length of a cache entry, while no other program writes it: it is let go as the file is closed.
fn entry_length<F: Files<File = File>>(files: &F, entry: Utf8Path<'_>) -> io::Result<u64> {
    let file = open_in_folder(files, entry)?;
    file.lock()?;
    open_length(&file)
}

/// Looks at a cache entry, which is made with its folder where it lacks, and at the outputs beside it. An output lacks where an error that is a miss tells so;
/// the number of the first one, from 0 on, is answered. No clause: nothing is claimed of files.
pub fn probe<F: Files<File = File>>(
    files: &F,
    entry: Utf8Path<'_>,
    outputs: &[Utf8PathBuf],
) -> io::Result<Look> {
    if entry_length(files, entry)? == 0 {
        return Ok(Look::Empty);
    }
    for i in 0..outputs.len() {
        if is_missing(files, outputs[i].as_path().as_str())? {
            return Ok(Look::OutputMissing(number_of(i)?));
        }
    }
    Ok(Look::Full)
}

/// The number of an output, unless it is too great for one.
fn number_of(at: usize) -> io::Result<u32> {
    match u32::try_from(at) {
        Ok(number) => Ok(number),
        Err(_) => Err(io::Error::from(ErrorKind::OutOfMemory)),
    }
}

/// Whether nothing is found where a path leads.
fn is_missing<F: Files>(files: &F, path: &str) -> io::Result<bool> {
    match super::system::look(files, path, true) {
        Ok(_) => Ok(false),
        Err(error) if super::system::miss_of(&error).is_some() => Ok(true),
        Err(error) => Err(error),
    }
}

/// Whether nothing stands where a path leads, also where the path is too long or holds a NUL. Another miss is an error. No clause: nothing is
/// claimed of files.
pub fn is_absent<F: Files>(files: &F, path: &str) -> io::Result<bool> {
    match super::system::look(files, path, true) {
        Ok(_) => Ok(false),
        Err(error) => match super::system::miss_of(&error) {
            Some(Miss::NotFound) => Ok(true),
            _ => Err(error),
        },
    }
}

/// Writes a cache entry, which is made where it lacks, while no other program looks at it. Its folder isn't made. No clause: nothing is claimed of files.
pub fn save<F: Files<File = File>>(files: &F, path: &str, bytes: &[u8]) -> io::Result<()> {
    let mut file = open_entry(files, path)?;
    file.lock()?;
    open_length(&file)?;
    file.set_len(0)?;
    file.write_all(bytes)?;
    file.unlock()
}
