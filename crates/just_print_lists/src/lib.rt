//! The room of printing: what a project has, in order, and the texts that a justfile is asked for but its listing.
#![tactic(auto)]

mod element;
mod evaluated;
mod group;
mod indentation;
mod listed;
mod names;
mod order;
mod path;
mod summary;
mod texts;
mod usage;
mod variable;

pub use element::Element;
pub use evaluated::evaluation;
pub use group::{Grouped, has_name, in_group, is_nil, public_in_order, ungrouped};
pub use indentation::chosen_indentation;
pub use just_path_text::{NoMemory, Seq, Text};
pub use listed::{ListedAlias, ListedModule, ListedRecipe};
pub use names::{groups, variables};
pub use order::{Named, all_of, by_name, in_order, names_of, public_by_name, push_where};
pub use path::path_text;
pub use summary::{joined_line, modules_in_turn, public_paths};
pub use texts::{push_blanks, push_if};
pub use usage::{alias_line, long_usage};
pub use variable::{EvaluateFormat, Evaluated};
