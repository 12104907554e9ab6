//! A project that commands ask for what it has.
use just_lang_layout::Layout;
use just_lang_types::project::Justfile;
use just_path_text::Seq;
use just_print_lists::ListedModule;
use just_print_tree::Told;

/// A project: its layout, the modules of its justfile in their order, what listings show of it, and the recipes of each module,
/// each beside what is written of it. Each of these is borrowed for itself.
#[derive(Clone, Copy)]
pub struct Project<'y, 'm, 'p, 't, 'r, 'a> {
    pub layout: &'y Layout,
    pub justfiles: &'m [&'p Justfile],
    pub root: &'p Justfile,
    pub tree: &'t ListedModule,
    pub recipes: &'r [Seq<Told<'a>>],
}
