//! The shape of a project: its files with their items, and its modules.

use just_lang_syntax::{AstItem, Fault};
use just_lang_types::Modulepath;
use just_path::Utf8PathBuf;
use just_path_text::Seq;

/// A source with its tree. Where the text is refused it has no items.
#[derive(Drop)]
pub struct File {
    pub path: Utf8PathBuf,
    /// The folder under which its imports and modules are looked for.
    pub root: Utf8PathBuf,
    pub items: Seq<AstItem>,
    pub fault: Option<Fault>,
}

/// Where an item stands: the number of its file, and its number among that file's items, both from 0.
#[derive(Clone, Copy)]
pub struct Placed {
    pub file: usize,
    pub item: usize,
}

/// A module: the items of its file in their order, with those of an import in the import's place.
#[derive(Drop)]
pub struct Module {
    pub path: Modulepath,
    /// The number of its file.
    pub file: usize,
    /// The `mod` that names it; the root has none.
    pub declaration: Option<Placed>,
    pub placed: Seq<Placed>,
    /// The `mod`s that stand and whose files aren't there.
    pub absent: Seq<Placed>,
}

/// A project: its files in the order of their loading, and its modules, the root first and each before those within it.
#[derive(Drop)]
pub struct Layout {
    pub files: Seq<File>,
    pub modules: Seq<Module>,
    /// For each file the numbers of the files that its imports name, in their order.
    pub imports: Seq<Seq<usize>>,
}
