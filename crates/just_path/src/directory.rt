//! The entries of a listed folder.
ghost use Rattle.std.specs.Prelude.{◌≡◌, [], ◌∷◌, map, reverse, false, length, IfOk, IfErr, MatchOption};
ghost use Rattle.std.specs.Iterator.{at_most};
ghost use Rattle.just_path.specs.Path.{text_of};
ghost use Rattle.just_path.specs.Host.{note_of};
ghost use Rattle.just_path.specs.View.{Tells, meta_told};
ghost use Rattle.just_path.specs.Directory.{entry_of, entries_left, Lists, TellsNoFolder};
ghost use Rattle.just_path.specs.declared.host.PathCall.{PathCall};

use super::{Item, Kind, Meta, PathFault, PathHost, Utf8Path, Utf8PathBuf};
use just_path_text::{NoMemory, Text};
use std::alloc::Global;
use std::iter::FusedIterator;

/// An entry of a listed folder.
pub struct Utf8DirEntry {
    path: Utf8PathBuf,
    name: Text,
    kind: Kind,
}

impl Drop for Utf8DirEntry {
    fn drop(self) {
        let Utf8DirEntry {
            path: _,
            name: _,
            kind: _,
        } = self;
    }
}

impl Utf8DirEntry {
    /// The folder's path, as it was listed by, with the name pushed.
    ///
    /// ```
    /// // of the entry `b` of the folder `a`: a/b
    /// let path = entry.path();
    /// ```
    pub fn path(&self) -> Utf8Path<'_>
        ensures { text_of result ≡ self.now.path }
    {
        self.path.as_path()
    }

    /// What stands at the path itself. A link isn't followed.
    ///
    /// ```
    /// let len = entry.metadata(&mut host)?.len;
    /// ```
    pub fn metadata<H: PathHost>(&self, host: &mut H) -> Result<Meta, PathFault>
        ensures went { H.went host.old host.new (note_of PathCall.Meta self.now.path result) }
        ensures told { Tells (H.view host.old) (meta_told self.now.path false) result }
    {
        host.meta(self.path.as_path(), false)
    }

    /// What stood there when the folder was listed. A link isn't followed.
    ///
    /// ```
    /// if entry.file_type() == Kind::Folder {}
    /// ```
    pub fn file_type(&self) -> Kind
        ensures { result ≡ self.now.kind }
    {
        self.kind
    }

    /// The name under which it stands in the folder.
    ///
    /// ```
    /// // of the entry `b` of the folder `a`: b
    /// let name = entry.file_name();
    /// ```
    pub fn file_name(&self) -> &str
        ensures { result.now ≡ self.now.name }
    {
        self.name.as_str()
    }

    /// The path of `path`, owned; it takes no memory.
    ///
    /// ```
    /// let path = entry.into_path();
    /// ```
    pub fn into_path(self) -> Utf8PathBuf
        ensures { result ≡ self.path }
    {
        let Utf8DirEntry {
            path,
            name: _,
            kind: _,
        } = self;
        path
    }
}

/// The entries of a listed folder, in byte order of their names.
#[derive(Drop)]
pub struct ReadDirUtf8 {
    /// What is still to come, from the last on.
    rest: Vec<Utf8DirEntry>,
}

impl Iterator for ReadDirUtf8 {
    type Item = Utf8DirEntry;

    ghost next_gives = { λ s r t. MatchOption r ((entries_left s ≡ []) × (entries_left t ≡ [])) (λ e. entries_left s ≡ e ∷ entries_left t) };

    ghost remaining = { λ s. at_most (length s.rest.items) };

    fn next(&mut self) -> Option<Utf8DirEntry> {
        self.rest.pop()
    }
}

impl FusedIterator for ReadDirUtf8 {}

impl<'a> Utf8Path<'a> {
    /// What stands in the folder at the path.
    ///
    /// ```
    /// for entry in Utf8Path::new("a").read_dir_utf8(alloc, &mut host)? {}
    /// ```
    pub fn read_dir_utf8<H: PathHost>(
        &self,
        alloc: Global,
        host: &mut H,
    ) -> Result<ReadDirUtf8, PathFault>
        ensures went { H.went host.old host.new (note_of PathCall.List (text_of self.now) result) }
        ensures entries { IfOk result (Lists (H.view host.old) (text_of self.now)) }
        ensures told { IfErr result (TellsNoFolder (H.view host.old) (text_of self.now)) }
    {
        match host.list(*self) {
            Ok(items) => match entries_of(alloc, *self, items) {
                Ok(rest) => Ok(ReadDirUtf8 { rest }),
                Err(NoMemory) => Err(PathFault::NoMemory),
            },
            Err(fault) => Err(fault),
        }
    }
}

/// The entries of a folder's items, from the last on.
fn entries_of(
    alloc: Global,
    folder: Utf8Path<'_>,
    items: Vec<Item>,
) -> Result<Vec<Utf8DirEntry>, NoMemory>
    ensures { IfOk result (λ entries. reverse entries.items ≡ map (entry_of (text_of folder.entry)) items.items) }
{
    let mut left = items;
    let mut entries = Vec::with_capacity(alloc, left.len())?;
    while let Some(item) = left.pop() {
        let entry = entry_of(alloc, folder, item)?;
        entries.push_reserved(entry);
    }
    Ok(entries)
}

/// The entry of an item of a folder.
fn entry_of(alloc: Global, folder: Utf8Path<'_>, item: Item) -> Result<Utf8DirEntry, NoMemory>
    ensures { IfOk result (λ e. e ≡ entry_of (text_of folder.entry) item) }
{
    let path = folder.join(alloc, Utf8Path::new(item.name.as_str()))?;
    let Item { name, kind } = item;
    Ok(Utf8DirEntry { path, name, kind })
}
