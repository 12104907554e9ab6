//! What stands at a path, asked of a host.
ghost use Rattle.std.specs.Prelude.{◌≡◌, Bool, true, false};
ghost use Rattle.just_path.specs.Path.{text_of};
ghost use Rattle.just_path.specs.Host.{note_of};
ghost use Rattle.just_path.specs.View.{Tells, meta_told, canonical_told, link_told, is_file, is_folder, is_link};
ghost use Rattle.just_path.specs.Asked.{Decides, Holds, Tried};
ghost use Rattle.just_path.specs.declared.host.PathCall.{PathCall};

use super::{Kind, Meta, Miss, PathFault, PathHost, Utf8Path, Utf8PathBuf};
use just_path_text::NoMemory;

/// Whether anything was answered.
fn holds(answer: Result<Meta, PathFault>) -> Result<bool, NoMemory>
    ensures { Holds (λ _. true) answer result }
{
    match answer {
        Ok(_) => Ok(true),
        Err(PathFault::NoMemory) => Err(NoMemory),
        Err(PathFault::Missed(_)) => Ok(false),
        Err(PathFault::Failed) => Ok(false),
    }
}

/// Whether a file was answered.
fn holds_file(answer: Result<Meta, PathFault>) -> Result<bool, NoMemory>
    ensures { Holds (λ m. is_file m.kind) answer result }
{
    match answer {
        Ok(meta) => Ok(matches!(meta.kind, Kind::File)),
        Err(fault) => holds(Err(fault)),
    }
}

/// Whether a folder was answered.
fn holds_folder(answer: Result<Meta, PathFault>) -> Result<bool, NoMemory>
    ensures { Holds (λ m. is_folder m.kind) answer result }
{
    match answer {
        Ok(meta) => Ok(matches!(meta.kind, Kind::Folder)),
        Err(fault) => holds(Err(fault)),
    }
}

/// Whether a link was answered.
fn holds_link(answer: Result<Meta, PathFault>) -> Result<bool, NoMemory>
    ensures { Holds (λ m. is_link m.kind) answer result }
{
    match answer {
        Ok(meta) => Ok(matches!(meta.kind, Kind::Link)),
        Err(fault) => holds(Err(fault)),
    }
}

/// Whether anything was answered, where a miss but "not found" is no answer.
fn tried(answer: Result<Meta, PathFault>) -> Result<bool, PathFault>
    ensures { Tried answer result }
{
    match answer {
        Ok(_) => Ok(true),
        Err(PathFault::Missed(Miss::NotFound)) => Ok(false),
        Err(fault) => Err(fault),
    }
}

impl<'a> Utf8Path<'a> {
    /// What stands at the path. A link is followed.
    ///
    /// ```
    /// let len = Utf8Path::new("a").metadata(&mut host)?.len;
    /// ```
    pub fn metadata<H: PathHost>(&self, host: &mut H) -> Result<Meta, PathFault>
        ensures went { H.went host.old host.new (note_of PathCall.Meta (text_of self.now) result) }
        ensures told { Tells (H.view host.old) (meta_told (text_of self.now) true) result }
    {
        host.meta(*self, true)
    }

    /// What stands at the path itself. A link isn't followed.
    ///
    /// ```
    /// let kind = Utf8Path::new("a").symlink_metadata(&mut host)?.kind;
    /// ```
    pub fn symlink_metadata<H: PathHost>(&self, host: &mut H) -> Result<Meta, PathFault>
        ensures went { H.went host.old host.new (note_of PathCall.Meta (text_of self.now) result) }
        ensures told { Tells (H.view host.old) (meta_told (text_of self.now) false) result }
    {
        host.meta(*self, false)
    }

    /// The path at which the path is found, with no link on the way.
    ///
    /// ```
    /// let path = Utf8Path::new("a/../b").canonicalize_utf8(&mut host)?;
    /// ```
    pub fn canonicalize_utf8<H: PathHost>(&self, host: &mut H) -> Result<Utf8PathBuf, PathFault>
        ensures went { H.went host.old host.new (note_of PathCall.Canonical (text_of self.now) result) }
        ensures told { Tells (H.view host.old) (canonical_told (text_of self.now)) result }
    {
        host.canonical(*self)
    }

    /// The target of the link at the path.
    ///
    /// ```
    /// let target = Utf8Path::new("link").read_link_utf8(&mut host)?;
    /// ```
    pub fn read_link_utf8<H: PathHost>(&self, host: &mut H) -> Result<Utf8PathBuf, PathFault>
        ensures went { H.went host.old host.new (note_of PathCall.Link (text_of self.now) result) }
        ensures told { Tells (H.view host.old) (link_told (text_of self.now)) result }
    {
        host.link(*self)
    }

    /// Whether anything stands at the path, behind the link if it is one. False too where the host refused.
    ///
    /// ```
    /// if Utf8Path::new("a").exists(&mut host)? {}
    /// ```
    pub fn exists<H: PathHost>(&self, host: &mut H) -> Result<bool, NoMemory>
        ensures { Decides H.went H.view (text_of self.now) true (Holds (λ _. true)) host.old host.new result }
    {
        let answer = self.metadata(host);
        holds(answer)
    }

    /// Whether a file stands at the path, behind the link if it is one. False too where the host refused.
    ///
    /// ```
    /// if Utf8Path::new("a").is_file(&mut host)? {}
    /// ```
    pub fn is_file<H: PathHost>(&self, host: &mut H) -> Result<bool, NoMemory>
        ensures { Decides H.went H.view (text_of self.now) true (Holds (λ m. is_file m.kind)) host.old host.new result }
    {
        let answer = self.metadata(host);
        holds_file(answer)
    }

    /// Whether a folder stands at the path, behind the link if it is one. False too where the host refused.
    ///
    /// ```
    /// if Utf8Path::new("a").is_dir(&mut host)? {}
    /// ```
    pub fn is_dir<H: PathHost>(&self, host: &mut H) -> Result<bool, NoMemory>
        ensures { Decides H.went H.view (text_of self.now) true (Holds (λ m. is_folder m.kind)) host.old host.new result }
    {
        let answer = self.metadata(host);
        holds_folder(answer)
    }

    /// Whether a link stands at the path. False too where the host refused.
    ///
    /// ```
    /// if Utf8Path::new("a").is_symlink(&mut host)? {}
    /// ```
    pub fn is_symlink<H: PathHost>(&self, host: &mut H) -> Result<bool, NoMemory>
        ensures { Decides H.went H.view (text_of self.now) false (Holds (λ m. is_link m.kind)) host.old host.new result }
    {
        let answer = self.symlink_metadata(host);
        holds_link(answer)
    }

    /// Whether anything stands at the path, behind the link if it is one. False exactly where it isn't found.
    ///
    /// ```
    /// if !Utf8Path::new("a").try_exists(&mut host)? {}
    /// ```
    pub fn try_exists<H: PathHost>(&self, host: &mut H) -> Result<bool, PathFault>
        ensures { Decides H.went H.view (text_of self.now) true Tried host.old host.new result }
    {
        let answer = self.metadata(host);
        tried(answer)
    }
}
