//! A justfile with the layout of its sources.

use just_lang_layout::Layout;
use just_lang_types::project::Justfile;
use just_path_text::Seq;

/// A justfile with the layout of its sources.
#[derive(Drop)]
pub struct LaidJustfile {
    pub layout: Layout,
    /// For each file the numbers of those that import it, straight or through others.
    pub winners: Seq<Seq<usize>>,
    pub justfile: Justfile,
}
