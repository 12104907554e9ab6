//! What the system tells of paths and of the environment. An error that is a miss has the kind of one.
//! Nothing is claimed of what the system answers, so most of these functions have no clause.

ghost use Rattle.std.specs.Prelude.{◌≡◌, ◌≤◌, ◌++◌, IfOk, OnOk, IfSome, length, string_bytes};
ghost use Rattle.std.specs.Path.{path_buf_bytes};
ghost use Rattle.just_path.specs.View.{AreInOrder, AreNamesInOrder};
ghost use Rattle.just_host_record.specs.declared.outside.TheConstants.{MAX_BYTES};
ghost use Rattle.just_host_record.specs.World.{text_in};
ghost use Rattle.just_host_files.specs.Items.{AreThoseFound};
ghost use Rattle.just_host_files.specs.Texts.{Tells, pairs_in};

use super::items::{in_order, names_of};
use super::text::text_of;
use just_host_record::{MAX_BYTES, Stream};
use just_path::{Item, Kind, Meta, Miss, Utf8PathBuf};
use just_path_text::{NoMemory, Seq, Text};
use std::alloc::Global;
use std::collections::BTreeSet;
use std::env;
use std::env::FillError;
use std::fs::{self, DirEntry, FileType, Files};
use std::io::{self, Eprint, ErrorKind, Input, Print, Read};
use std::os::unix::fs::PermissionsExt;
use std::path::PathBuf;
use std::rt::Env;

/// The miss that an error of the system is, if it is one. It has no clause, since nothing is claimed of what the system answers.
pub fn miss_of(error: &io::Error) -> Option<Miss> {
    let from_system = error.raw_os_error().is_some();
    match error.kind() {
        ErrorKind::NotFound => Some(Miss::NotFound),
        // a NUL in the path, which std refuses itself
        ErrorKind::InvalidInput if !from_system => Some(Miss::NotFound),
        // the path is too long, or what the system answered isn't UTF-8
        ErrorKind::InvalidFilename if from_system => Some(Miss::NotFound),
        ErrorKind::InvalidFilename | ErrorKind::InvalidData => Some(Miss::NotUtf8),
        ErrorKind::NotADirectory => Some(Miss::NotFolder),
        ErrorKind::IsADirectory => Some(Miss::IsFolder),
        ErrorKind::DirectoryNotEmpty => Some(Miss::NotEmpty),
        // more bytes than may be read
        ErrorKind::FileTooLarge if !from_system => Some(Miss::TooLarge),
        _ => None,
    }
}

fn kind_of(file_type: &FileType) -> Kind {
    if file_type.is_symlink() {
        Kind::Link
    } else if file_type.is_dir() {
        Kind::Folder
    } else if file_type.is_file() {
        Kind::File
    } else {
        Kind::Other
    }
}

/// What stands at a path. The length of a folder is 0, as that of anything but files and links. It has no clause, since
/// nothing is claimed of what the system answers.
pub fn look<F: Files>(files: &F, path: &str, follow: bool) -> io::Result<Meta> {
    let data = if follow {
        fs::metadata(files, path)?
    } else {
        fs::symlink_metadata(files, path)?
    };
    let kind = kind_of(&data.file_type());
    let len = match kind {
        Kind::File | Kind::Link => data.len(),
        Kind::Folder | Kind::Other => 0,
    };
    let runs = data.permissions().mode() & 0o111 != 0;
    Ok(Meta {
        kind,
        len,
        executable: runs && kind == Kind::File,
    })
}

/// What stands in a folder, by rising names. What vanishes meanwhile is left out.
pub fn list<F: Files>(files: &F, alloc: Global, path: &str) -> io::Result<Vec<Item>>
    ensures { IfOk result (λ v. AreInOrder v.items) }
{
    sorted(alloc, found(files, alloc, path)?)
}

/// The names of what stands in a folder, rising. The system isn't asked what they are the names of.
pub fn names<F: Files>(files: &F, alloc: Global, path: &str) -> io::Result<Seq<Text>>
    ensures { IfOk result AreNamesInOrder }
{
    let items = sorted(alloc, found_names(files, alloc, path)?)?;
    match names_of(alloc, items) {
        Ok(names) => Ok(names),
        Err(NoMemory) => Err(io::Error::from(ErrorKind::OutOfMemory)),
    }
}

/// The items by rising names.
fn sorted(alloc: Global, found: Vec<Item>) -> io::Result<Vec<Item>>
    ensures order { IfOk result (λ v. AreInOrder v.items) }
    ensures all { IfOk result (λ v. AreThoseFound found.items v.items) }
{
    let mut items = found;
    // sorted, so that each goes to the end of those before it
    items.sort_by(|a, b| a.name.as_str().cmp(b.name.as_str()))?;
    match in_order(alloc, items) {
        Ok(items) => Ok(items),
        Err(NoMemory) => Err(io::Error::from(ErrorKind::OutOfMemory)),
    }
}

/// What stands in a folder. A name that isn't UTF-8 makes the call fail.
fn found<F: Files>(files: &F, alloc: Global, path: &str) -> io::Result<Vec<Item>> {
    let pair = (files, alloc);
    let mut items = Vec::new(alloc);
    for entry in fs::read_dir(&pair, path)? {
        if let Some(item) = item_of(alloc, entry)? {
            items.push(item)?;
        }
    }
    Ok(items)
}

/// An item for each name in a folder, of which no more is known. A name that isn't UTF-8 makes the call fail.
fn found_names<F: Files>(files: &F, alloc: Global, path: &str) -> io::Result<Vec<Item>> {
    let pair = (files, alloc);
    let mut items = Vec::new(alloc);
    for entry in fs::read_dir(&pair, path)? {
        let name = name_of(alloc, entry)?;
        let kind = Kind::Other;
        items.push(Item { name, kind })?;
    }
    Ok(items)
}

/// The name of an entry of a folder.
fn name_of<F: Files + Drop>(alloc: Global, told: io::Result<DirEntry<F>>) -> io::Result<Text> {
    match told {
        Ok(entry) => Ok(Text::from(String::from_str(alloc, entry.file_name())?)),
        Err(error) => Err(entry_error(error)),
    }
}

/// The item of an entry of a folder, or none where the entry vanished.
fn item_of<F: Files + Drop>(
    alloc: Global,
    told: io::Result<DirEntry<F>>,
) -> io::Result<Option<Item>> {
    let entry = match told {
        Ok(entry) => entry,
        Err(error) => return Err(entry_error(error)),
    };
    match entry.file_type() {
        Ok(file_type) => {
            let name = String::from_str(alloc, entry.file_name())?;
            let name = Text::from(name);
            let kind = kind_of(&file_type);
            Ok(Some(Item { name, kind }))
        }
        Err(error) if error.kind() == ErrorKind::NotFound => Ok(None),
        Err(error) => Err(error),
    }
}

/// The error of a folder whose next entry has that error: that of a name that isn't UTF-8 is no miss.
fn entry_error(error: io::Error) -> io::Error {
    match error.kind() {
        ErrorKind::InvalidFilename => io::Error::from(ErrorKind::Other),
        _ => error,
    }
}

/// The path at which a path is found. It has no clause, since nothing is claimed of what the system answers.
pub fn canonical<F: Files>(files: &F, alloc: Global, path: &str) -> io::Result<Utf8PathBuf> {
    Ok(path_of(files.canonicalize(alloc, path)?))
}

/// The current folder. It has no clause, since nothing is claimed of what the system answers.
pub fn here<E: Env>(env: &E, alloc: Global) -> io::Result<Utf8PathBuf> {
    let pair = (env, alloc);
    Ok(path_of(env::current_dir(&pair)?))
}

/// The target of a link. Where something else stands, no link is found. It has no clause, since nothing is claimed of what
/// the system answers.
pub fn target<F: Files>(files: &F, alloc: Global, path: &str) -> io::Result<Utf8PathBuf> {
    match files.read_link(alloc, path) {
        Ok(found) => Ok(path_of(found)),
        Err(error) => Err(link_error(error)),
    }
}

/// The error of a call that reads a link: where something else stands, no link is found.
fn link_error(error: io::Error) -> io::Error {
    match error.kind() {
        ErrorKind::InvalidInput => io::Error::from(ErrorKind::NotFound),
        _ => error,
    }
}

/// A path of the system as one of ours.
fn path_of(found: PathBuf) -> Utf8PathBuf
    ensures { result ≡ path_buf_bytes found }
{
    Utf8PathBuf::from(found.into_string())
}

/// The room for the bytes of a file of that length, with one more, so that its end is seen.
fn room_for(length: u64) -> usize {
    let most = MAX_BYTES + 1;
    match usize::try_from(length) {
        Ok(length) => length.saturating_add(1).min(most),
        Err(_) => most,
    }
}

/// The text of a file, or why it is none that can be read. What is neither a file nor a folder isn't opened, so that
/// nothing is waited for.
pub fn read<F: Files>(files: &F, alloc: Global, path: &str) -> io::Result<Result<String, Miss>>
    ensures { IfOk result (λ r. IfOk r (λ s. length (string_bytes s) ≤ MAX_BYTES)) }
{
    let meta = fs::metadata(files, path)?;
    match kind_of(&meta.file_type()) {
        Kind::File => read_text(alloc, fs::open(files, path)?, room_for(meta.len())),
        Kind::Folder => Ok(Err(Miss::IsFolder)),
        Kind::Link | Kind::Other => Err(io::Error::from(ErrorKind::Other)),
    }
}

/// The text that a reader gives up to its end, or why it is none that can be read. Room for so many bytes is taken at first.
pub fn read_text<F: Read + Drop>(
    alloc: Global,
    reader: F,
    room: usize,
) -> io::Result<Result<String, Miss>>
    ensures limit { IfOk result (λ r. IfOk r (λ s. length (string_bytes s) ≤ MAX_BYTES)) }
    // where the reader's bytes are known, none is cut off
    ensures told { IfOk result (λ r. IfSome (F.remaining reader) (λ bytes. Tells (text_in bytes) r)) }
{
    let mut bytes = Vec::with_capacity(alloc, room)?;
    reader.take(MAX_BYTES as u64 + 1).read_to_end(&mut bytes)?;
    Ok(text_of(bytes))
}

/// Prints a prompt, and reads a line without its line feed.
pub fn ask<R: Eprint + Input>(
    rt: &R,
    alloc: Global,
    prompt: &str,
) -> io::Result<Result<String, Miss>>
    ensures { IfOk result (λ r. IfOk r (λ s. length (string_bytes s) ≤ MAX_BYTES)) }
{
    rt.eprint(prompt)?;
    let bytes = line(&mut rt.reader(), alloc)?;
    Ok(text_of(bytes))
}

/// The bytes up to a line feed or the end, unless they are too many. It has no clause, since nothing is claimed of what the system answers.
fn line<I: Read>(reader: &mut I, alloc: Global) -> io::Result<Vec<u8>> {
    let mut bytes = Vec::new(alloc);
    for _ in 0..u64::MAX {
        let mut byte = [0u8; 1];
        match reader.read(&mut byte) {
            Ok(0) => return Ok(bytes),
            Ok(_) if byte[0] == b'\n' => return Ok(bytes),
            Ok(_) => bytes.push(byte[0])?,
            Err(error) if error.kind() == ErrorKind::Interrupted => {}
            Err(error) => return Err(error),
        }
        // one byte more than a text may have
        if bytes.len() > MAX_BYTES {
            return Ok(bytes);
        }
    }
    Ok(bytes)
}

/// Prints a text. It has no clause, since nothing is claimed of what the system shows.
pub fn show<P: Print + Eprint>(printer: &P, stream: Stream, text: &str) -> io::Result<()> {
    match stream {
        Stream::Out => printer.print(text),
        Stream::Err => printer.eprint(text),
    }
}

/// How many entries of the environment are asked for one by one: for each the runtime goes through all in front of it.
const ONE_BY_ONE: usize = 1000;

/// The pairs of the environment that are UTF-8. It has no clause, since nothing is claimed of what the system answers.
pub fn pairs<E: Env + Files>(env: &E, alloc: Global) -> Result<Seq<(Text, Text)>, NoMemory> {
    let (pairs, is_whole) = pairs_below(env, alloc, ONE_BY_ONE)?;
    if is_whole {
        return Ok(pairs);
    }
    if let Some(entries) = all_entries(env, alloc) {
        return pairs_of_entries(alloc, entries.as_slice());
    }
    let (pairs, _) = pairs_below(env, alloc, usize::MAX)?;
    Ok(pairs)
}

/// The pairs of an environment that has many entries, each of them a pair whose name no other has. None of any other environment. It has no clause, since
/// nothing is claimed of what the system answers.
pub fn many_pairs<E: Env + Files>(
    env: &E,
    alloc: Global,
) -> Result<Option<Seq<(Text, Text)>>, NoMemory> {
    let mut room = Vec::new(alloc);
    room.resize(256, 0u8)?;
    if read_entry(env, &mut room, ONE_BY_ONE)?.is_none() {
        return Ok(None);
    }
    let Some(entries) = all_entries(env, alloc) else {
        return Ok(None);
    };
    let pairs = pairs_of_entries(alloc, entries.as_slice())?;
    let count = entries.as_slice().iter().filter(|byte| **byte == 0).count();
    if pairs.len() == count && have_own_names(alloc, pairs.as_slice())? {
        Ok(Some(pairs))
    } else {
        Ok(None)
    }
}

/// Whether no two of the pairs have one name.
fn have_own_names(alloc: Global, pairs: &[(Text, Text)]) -> Result<bool, NoMemory> {
    let mut names: BTreeSet<&str> = BTreeSet::new(alloc);
    for pair in pairs {
        if !names.insert(pair.0.as_str())? {
            return Ok(false);
        }
    }
    Ok(true)
}

/// The pairs among so many first entries of the environment, and whether there are no others.
fn pairs_below<E: Env>(
    env: &E,
    alloc: Global,
    count: usize,
) -> Result<(Seq<(Text, Text)>, bool), NoMemory> {
    let mut pairs = Vec::new(alloc);
    let mut room = Vec::new(alloc);
    room.resize(256, 0u8)?;
    for i in 0..count {
        let Some(n) = read_entry(env, &mut room, i)? else {
            return Ok((Seq::from(pairs), true));
        };
        if let Some(entry) = room.as_slice().get(..n) {
            put_pair(alloc, &mut pairs, entry)?;
        }
    }
    Ok((Seq::from(pairs), false))
}

/// All entries of the environment, as the system keeps them for this process, which never changes it: each with a NUL behind it. None where they
/// can't be read.
fn all_entries<F: Files>(files: &F, alloc: Global) -> Option<Vec<u8>> {
    let mut bytes = Vec::new(alloc);
    let mut file = fs::open(files, "/proc/self/environ").ok()?;
    file.read_to_end(&mut bytes).ok()?;
    Some(bytes)
}

/// The pairs of entries that have a NUL behind each.
fn pairs_of_entries(alloc: Global, entries: &[u8]) -> Result<Seq<(Text, Text)>, NoMemory> {
    let mut pairs = Vec::new(alloc);
    for entry in entries.split(|byte| *byte == 0) {
        put_pair(alloc, &mut pairs, entry)?;
    }
    Ok(Seq::from(pairs))
}

/// Reads entry `i` of the environment into a buffer, which is doubled until the entry fits, and answers its length.
fn read_entry<E: Env>(env: &E, room: &mut Vec<u8>, i: usize) -> Result<Option<usize>, NoMemory> {
    for _ in 0..usize::BITS {
        match env.var_at(i, room.as_mut_slice()) {
            Ok(n) => return Ok(Some(n)),
            Err(FillError::NotPresent) => return Ok(None),
            Err(FillError::TooLong) => {
                let length = room.len();
                room.resize(length.saturating_add(length), 0u8)?;
            }
        }
    }
    Err(NoMemory)
}

/// Appends the pair of an entry, where it is one and is UTF-8.
fn put_pair(alloc: Global, pairs: &mut Vec<(Text, Text)>, entry: &[u8]) -> Result<(), NoMemory> {
    match std::str::from_utf8(entry) {
        Ok(text) => put_pair_of(alloc, pairs, text),
        Err(_) => Ok(()),
    }
}

/// Appends the pair of a text `NAME=VALUE`, where it is one.
fn put_pair_of(alloc: Global, pairs: &mut Vec<(Text, Text)>, text: &str) -> Result<(), NoMemory>
    ensures { OnOk result (pairs.new.items ≡ pairs.old.items ++ pairs_in text.now) }
{
    let Some((name, value)) = text.split_once('=') else {
        return Ok(());
    };
    if name.is_empty() {
        return Ok(());
    }
    pairs.push(pair_of(alloc, name, value)?)?;
    Ok(())
}

/// The pair of a name and a value.
fn pair_of(alloc: Global, name: &str, value: &str) -> Result<(Text, Text), NoMemory>
    ensures { IfOk result (λ p. p ≡ (name.now, value.now)) }
{
    let name = Text::from_str(alloc, name)?;
    let value = Text::from_str(alloc, value)?;
    Ok((name, value))
}
