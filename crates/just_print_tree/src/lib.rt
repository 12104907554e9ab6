//! The room of printing: what listings show of a project, by its layout and its justfile.
#![tactic(auto)]

mod body;
mod branch;
mod declared;
mod enabled;
mod groups;
mod head;
mod names;
mod told;
mod tree;

pub use just_lang_layout::{File, Layout, Module};
pub use just_lang_syntax::AstRecipe;
pub use just_lang_types::{Justfile, Modulepath, Recipe, Texts};
pub use just_path_text::{NoMemory, Seq};
pub use just_print_lists::ListedModule;
pub use told::{Told, found_told, told_each};
pub use tree::listed_of;
