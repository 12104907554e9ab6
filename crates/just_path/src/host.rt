//! The host that paths ask about files, and what its calls answer.
ghost use Rattle.std.specs.Prelude.{◌≡◌, ℕ, [], Option, IfOk};
ghost use Rattle.just_path.specs.Path.{text_of};
ghost use Rattle.just_path.specs.declared.host.PathNote.{PathNote};
ghost use Rattle.just_path.specs.Host.{note_of, Counts};
ghost use Rattle.just_path.specs.View.{View, IsCleanlyTold, Tells, TellsItems, TellsNames, AreInOrder, AreNamesInOrder, meta_told, canonical_told, link_told, current_told};

use super::{Item, Meta, Utf8Path, Utf8PathBuf};
use just_path_text::{Seq, Text};

/// Why a path wasn't found as it was asked for.
#[derive(Clone, Copy, Debug, PartialEq, Eq, Hash)]
pub enum Miss {
    NotFound,
    /// The path goes through a file, or a listed path is one.
    NotFolder,
    IsFolder,
    NotUtf8,
    NotEmpty,
    TooLarge,
}

/// Why a call of a `PathHost` has no answer.
#[derive(Clone, Copy, Debug, PartialEq, Eq)]
pub enum PathFault {
    Missed(Miss),
    Failed,
    NoMemory,
}

/// The calls of a `PathHost`.
#[derive(Clone, Copy)]
pub enum PathCall {
    Meta,
    List,
    Canonical,
    Link,
    Current,
}

/// What one call of a `PathHost` leaves to be known: nothing, the miss of a path, or the call that failed.
#[derive(Drop)]
pub enum PathNote {
    Nothing,
    Missed(Utf8PathBuf, Miss),
    Failed(PathCall),
}

/// A host of files, as far as paths ask it. Contracts know it by the counts of its faults and misses, which never
/// fall, by the view of its files where it tells one, and by `went`, the relation that each call keeps to.
pub trait PathHost {
    ghost faults: { Self → ℕ };

    ghost misses: { Self → ℕ };

    ghost view: { Self → Option View };

    ghost went: { Self → Self → PathNote → Type 0 };

    /// What stands at a path: behind the link, if it is one and is to be followed.
    fn meta(&mut self, path: Utf8Path<'_>, follow: bool) -> Result<Meta, PathFault>
        ensures went { went self.old self.new (note_of PathCall.Meta (text_of path.entry) result) }
        ensures told { Tells (view self.old) (meta_told (text_of path.entry) follow) result };

    /// What stands in a folder, by rising names.
    fn list(&mut self, path: Utf8Path<'_>) -> Result<Vec<Item>, PathFault>
        ensures went { went self.old self.new (note_of PathCall.List (text_of path.entry) result) }
        ensures order { IfOk result (λ items. AreInOrder items.items) }
        ensures told { TellsItems (view self.old) (text_of path.entry) result };

    /// The names of what stands in a folder, rising, without a look at what it is. A refusal is noted as one of `list`.
    fn names(&mut self, path: Utf8Path<'_>) -> Result<Seq<Text>, PathFault>
        ensures went { went self.old self.new (note_of PathCall.List (text_of path.entry) result) }
        ensures order { IfOk result AreNamesInOrder }
        ensures told { TellsNames (view self.old) (text_of path.entry) result };

    /// The path at which a path is found, with no link on the way.
    fn canonical(&mut self, path: Utf8Path<'_>) -> Result<Utf8PathBuf, PathFault>
        ensures went { went self.old self.new (note_of PathCall.Canonical (text_of path.entry) result) }
        ensures told { Tells (view self.old) (canonical_told (text_of path.entry)) result };

    /// The target of a link. Where something else stands, no link is found.
    fn link(&mut self, path: Utf8Path<'_>) -> Result<Utf8PathBuf, PathFault>
        ensures went { went self.old self.new (note_of PathCall.Link (text_of path.entry) result) }
        ensures told { Tells (view self.old) (link_told (text_of path.entry)) result };

    /// The current folder. Where it is a miss, its path is empty.
    fn current(&mut self) -> Result<Utf8PathBuf, PathFault>
        ensures went { went self.old self.new (note_of PathCall.Current [] result) }
        ensures told { Tells (view self.old) current_told result };

    ghost counts: { (a b : Self) (n : PathNote) → Self.went a b n → Counts n (faults a) (faults b) (misses a) (misses b) };

    // what a view tells stands at clean absolute paths
    ghost view_clean: { (h : Self) → IsCleanlyTold (view h) };

    ghost went_view: { (a b : Self) (n : PathNote) → Self.went a b n → view b ≡ view a };
}
