//! The parts of a listing.

use just_path_text::Text;
use just_print_lists::ListedModule;

/// A part of a listing.
#[derive(Drop)]
pub(crate) enum Part<'j> {
    /// Lines as they are.
    Lines(Text),
    /// What stands before each line of a module, and the module.
    Inner(Text, &'j ListedModule),
}
