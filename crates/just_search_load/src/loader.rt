//! What loads the sources of a project.

ghost use Rattle.just_search_load.specs.Numbers.{AreNumbered};

use just_lang_types::Source;
use just_path_text::Text;
use std::alloc::Global;
use std::collections::BTreeMap;

/// The sources that were loaded, in the order of loading, and the number of each at its clean path.
#[derive(Drop)]
pub(crate) struct Sources {
    pub(crate) alloc: Global,
    pub(crate) sources: Vec<Source>,
    pub(crate) numbers: BTreeMap<Text, u32>,
}

/// Loads the sources of a project. A file is asked for once: paths that are equal when clean are those of one source.
#[derive(Drop)]
pub struct Loader {
    pub(crate) inside: Sources,
    ghost numbered: { AreNumbered inside.sources.items inside.numbers },
}
