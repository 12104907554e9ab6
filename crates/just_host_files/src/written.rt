//! How a file is written: beside its place, and put there when it is whole, so that a failure or a stop leaves the old file or the new one.
//! Nothing is claimed of what the system does, so no function here has a clause.

use super::fresh::{in_memory, random_path};
use just_path::{Kind, Utf8Path, Utf8PathBuf};
use std::alloc::Global;
use std::fs::{self, Files, OpenFile, OpenOptions, Permissions};
use std::io::{self, ErrorKind, Write};

/// How the name of a file begins that isn't put at its place yet.
const PREFIX: &str = ".just-";

/// How many names are tried for such a file.
const ATTEMPTS: usize = 16;

/// Whether a path ends in a name, and so has a place in a folder.
fn ends_in_name(path: Utf8Path<'_>) -> bool {
    match path.file_name() {
        Some(name) => path.as_str().ends_with(name),
        None => false,
    }
}

/// The place that a link leads to. None is told where nothing stands there, or where its path isn't UTF-8.
fn place_of_link<F: Files>(
    files: &F,
    alloc: Global,
    path: Utf8Path<'_>,
) -> io::Result<Option<Utf8PathBuf>> {
    match fs::canonicalize(&(files, alloc), path.as_str()) {
        Ok(place) => Ok(Some(Utf8PathBuf::from(place.into_string()))),
        Err(error) => match error.kind() {
            ErrorKind::NotFound | ErrorKind::InvalidFilename => Ok(None),
            _ => Err(error),
        },
    }
}

/// The place of the file at a path, to which a file beside it can be renamed; a link is followed.
fn place_of<F: Files>(
    files: &F,
    alloc: Global,
    path: Utf8Path<'_>,
) -> io::Result<Option<Utf8PathBuf>> {
    if !ends_in_name(path) {
        return Ok(None);
    }
    match super::system::look(files, path.as_str(), false) {
        Ok(meta) if meta.kind == Kind::Link => place_of_link(files, alloc, path),
        Err(error) if error.kind() != ErrorKind::NotFound => Err(error),
        _ => Ok(Some(in_memory(path.to_path_buf(alloc))?)),
    }
}

/// The mode of the file at a place, unless it isn't there. A file that can't be written is refused.
fn mode_of<F: Files>(files: &F, place: Utf8Path<'_>) -> io::Result<Option<Permissions>> {
    match OpenOptions::new().write(true).open(files, place.as_str()) {
        Ok(file) => Ok(Some(file.metadata()?.permissions())),
        Err(error) if error.kind() == ErrorKind::NotFound => Ok(None),
        Err(error) => Err(error),
    }
}

/// Makes a fresh file in a folder, and tells its path.
fn fresh_file<F: Files>(
    files: &F,
    alloc: Global,
    folder: Utf8Path<'_>,
) -> io::Result<(F::File, Utf8PathBuf)> {
    for _ in 0..ATTEMPTS {
        let path = random_path(files, alloc, folder, PREFIX)?;
        match OpenOptions::new()
            .write(true)
            .create_new(true)
            .open(files, path.as_path().as_str())
        {
            Ok(file) => return Ok((file, path)),
            Err(error) if error.kind() == ErrorKind::AlreadyExists => {}
            Err(error) => return Err(error),
        }
    }
    Err(io::Error::from(ErrorKind::AlreadyExists))
}

/// Gives a fresh file a mode, while it holds nothing yet, and writes the bytes to it.
fn fill<O: OpenFile + Write + Drop>(
    mut file: O,
    mode: Option<Permissions>,
    bytes: &[u8],
) -> io::Result<()> {
    if let Some(mode) = mode {
        file.set_permissions(mode)?;
    }
    file.write_all(bytes)
}

/// Writes a file beside a place, and puts it there. Where that fails nothing of it is left, and what stood there stays.
fn put<F: Files>(
    files: &F,
    alloc: Global,
    place: Utf8Path<'_>,
    mode: Option<Permissions>,
    bytes: &[u8],
) -> io::Result<()> {
    let folder = match place.parent() {
        Some(folder) => folder,
        None => Utf8Path::new(""),
    };
    let (file, path) = fresh_file(files, alloc, folder)?;
    let told = match fill(file, mode, bytes) {
        Ok(()) => fs::rename(files, path.as_path().as_str(), place.as_str()),
        Err(error) => Err(error),
    };
    if told.is_err() {
        let _ = fs::remove_file(files, path.as_path().as_str());
    }
    told
}

/// Whether a failure tells that no other file can be put at a place: its folder can't be written to, or it is a mount.
fn is_fixed(error: &io::Error) -> bool {
    matches!(
        error.kind(),
        ErrorKind::PermissionDenied | ErrorKind::ResourceBusy | ErrorKind::CrossesDevices
    )
}

/// Puts another file at a place. Where that can't be done there, the file at the place is written over.
fn replace<F: Files>(
    files: &F,
    alloc: Global,
    place: Utf8Path<'_>,
    bytes: &[u8],
) -> io::Result<()> {
    let mode = mode_of(files, place)?;
    match put(files, alloc, place, mode, bytes) {
        Err(error) if is_fixed(&error) => fs::write(files, place.as_str(), bytes),
        told => told,
    }
}

/// Writes a file, which is made where it lacks. Where a link leads to nothing, or the path doesn't end in a name, it is written in place.
pub fn write<F: Files>(
    files: &F,
    alloc: Global,
    path: Utf8Path<'_>,
    bytes: &[u8],
) -> io::Result<()> {
    match place_of(files, alloc, path)? {
        Some(place) => replace(files, alloc, place.as_path(), bytes),
        None => fs::write(files, path.as_str(), bytes),
    }
}
