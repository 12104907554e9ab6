//! The room of the language: the shapes that single items make, such as recipes, parameters and settings.
#![tactic(auto)]

mod attributes;
mod comments;
mod expanded;
mod expansions;
mod keys;
mod parameter;
mod recipe;
mod scope;
mod settings;

pub use attributes::{doc_of, groups_of, is_private};
pub use comments::{Comments, comments_of};
pub use expansions::{expanded_expr, expanded_exprs};
pub use parameter::parameters_of;
pub use recipe::{Surroundings, path_within, recipe_of};
pub use scope::{assignments_of, unexports_of};
pub use settings::settings_of;
