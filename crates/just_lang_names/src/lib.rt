//! The room of the language: what names stand for in scopes, and what the paths of aliases and dependencies come to.
#![tactic(auto)]

mod arity;
mod children;
mod hashed;
mod hashes;
mod listed;
mod names;
mod options;
mod parameters;
mod paths;
mod scopes;
mod target;
mod targets;

pub use arity::{Arities, Arity, arities_of};
pub use children::Children;
pub use hashed::HashedIndex;
pub use listed::{ListedAlias, ListedDependency, all_aliases, all_dependencies};
pub use names::{ModuleNames, Names, names_of};
pub use paths::Paths;
pub use scopes::first_undefined_variable;
pub use target::{PathKind, Target, child, is_absent, module_at, recipe_named, target_of};
pub use targets::{DependencySpots, first_dependency_spots, first_unknown_alias_target};
