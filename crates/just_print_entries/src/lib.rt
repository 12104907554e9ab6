//! The room of printing: the listing of a project.
#![tactic(auto)]

mod entry;
mod lists;
mod options;
mod part;
mod pieces;
mod recipe_lines;
mod style;

pub use just_path_text::{NoMemory, Text};
pub use just_print_lists::{ListedAlias, ListedModule, ListedRecipe};
pub use lists::{ListError, list};
pub use options::{AliasStyle, ListOptions};
