//! The room of the language: the rules over a whole layout, and the first place of a project that breaks one.
#![tactic(auto)]

mod argument_kinds;
mod attribute_kinds;
mod behind;
mod broken;
mod duplicate_aliases;
mod duplicate_kinds;
mod duplicate_names;
mod files;
mod given_name;
mod guards;
mod in_front;
mod item_lists;
mod items;
mod line_front;
mod meanings;
mod modules;
mod pattern_rules;
mod patterns;
mod refusals;
mod sigils;
mod standing_default;

pub use argument_kinds::{
    first_duplicate_default, first_guard_and_infallible, first_not_constant,
    first_oversized_pattern, first_unknown_arg_parameter, first_unread_pattern,
};
pub use attribute_kinds::{
    first_attribute_conflict, first_duplicate_attribute, first_duplicate_setting,
    first_shell_expansion, first_unknown_attribute, first_unknown_setting,
};
pub use behind::first_broken_behind;
pub use broken::{Broken, broken_at};
pub use duplicate_aliases::DuplicateAlias;
pub use duplicate_kinds::{
    first_duplicate_alias, first_duplicate_parameter, first_duplicate_recipe,
    first_duplicate_variable, first_required_parameter,
};
pub use duplicate_names::{DuplicateRecipe, DuplicateVariable};
pub use files::{first_fault, first_source_limit};
pub use guards::GuardAndInfallible;
pub use in_front::{first_broken_in_front, first_on_files};
pub use item_lists::items_of_files;
pub use items::first_in_items;
pub use line_front::front;
pub use meanings::{Meanings, text_meant};
pub use modules::{first_in_files, first_in_modules};
pub use pattern_rules::{ArgumentPatternRegex, first_too_big};
pub use patterns::{PatternText, patterns_of};
pub use refusals::{Refusal, pattern_refusal};
pub use sigils::is_guard_and_infallible;
pub use standing_default::StandingDuplicateDefault;
