//! Which entries are removed.
use just_lang_types::Modulepath;
use just_path::Utf8Path;

/// A module path, and its text.
#[derive(Clone, Copy)]
pub(crate) struct Prefix<'w> {
    pub(crate) path: &'w Modulepath,
    pub(crate) text: &'w str,
}

/// The entries in a folder that are removed.
#[derive(Clone, Copy)]
pub(crate) struct Wanted<'w> {
    pub(crate) folder: Utf8Path<'w>,
    /// What the paths of their recipes begin with; all are where there is none.
    pub(crate) prefix: Option<Prefix<'w>>,
}
