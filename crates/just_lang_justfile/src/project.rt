//! What a justfile is made of.
use just_lang_layout::Layout;
use just_path_text::Seq;

/// The files of a project, and what their strings and their paths mean.
#[derive(Drop)]
pub struct Project<'l, 'a, T, L> {
    pub layout: &'a Layout,
    /// For each file the numbers of those that import it, straight or through others.
    pub winners: &'l [Seq<usize>],
    pub texts: &'l T,
    pub links: &'l L,
}
